// The stays of one bucket, under its name.
use crate::row::Row;
use office_base::BucketName;
use std::marker::Model;

/// A bucket's name, and its stays in the order in which they were opened.
#[derive(Drop)]
pub(crate) struct Table<'a> {
    pub(crate) bucket: &'a BucketName,
    pub(crate) rows: &'a [Row],
}

impl<'a> Model for Table<'a> {
    ghost use Rattle.std.specs.Prelude.{ℕ, List, map};
    ghost use Rattle.plain_office.specs.Office.{Booked};
    ghost use Rattle.stay_explain.specs.Rows.{booked_of};

    ghost Value = { List ℕ × List Booked };

    ghost view = { λ t. (t.bucket.now, map booked_of t.rows.now) };
}
