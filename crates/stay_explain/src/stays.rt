// The stays of one bucket, in the order in which they were opened.
ghost use Rattle.std.specs.Prelude.{◌≡◌, [], List, map, filter, Some, OnOk, IfOk};
ghost use Rattle.class_rules.specs.Lines.{lines_of};
ghost use Rattle.plain_office.specs.Books.{is_open_stay};
ghost use Rattle.stay_explain.specs.Plans.{begin_stay, end_stays, stays_by, BeginsFree};
ghost use Rattle.stay_explain.specs.Rows.{item_of, booked_of};

use crate::booking::Booking;
use crate::row::{Item, Owner, Row};
use class_rules::Lines;
use moments::Moment;
use office_base::NoMemory;
use std::alloc::Global;
use std::collections::BTreeMap;
use std::marker::Model;

/// The stays of a bucket.
#[derive(Drop)]
pub struct Stays {
    rows: Vec<Row>,
    // The place of each stay without an end.
    places: BTreeMap<Owner, usize>,
}

impl Model for Stays {
    ghost use Rattle.std.specs.Prelude.{List, map};
    ghost use Rattle.std.specs.BTreeMap.{get};
    ghost use Rattle.plain_office.specs.Office.{Booked};
    ghost use Rattle.stay_explain.specs.Rows.{booked_of, IsIndex};

    ghost Value = { List Booked };

    ghost view = { λ s. map booked_of s.rows.items };

    ghost invariant = { λ s. IsIndex s.rows.items (get ⟦<Owner as Ord>⟧.cmp s.places) };
}

fn copy_of(owner: &Owner) -> Result<Owner, NoMemory>
    ensures { IfOk result (λ copy. copy ≡ owner.now) }
{
    let key = owner.key.copy()?;
    Ok(Owner {
        key,
        item: owner.item,
    })
}

impl Stays {
    /// Returns the stays of a bucket that is made. Takes no memory.
    pub(crate) fn new(alloc: Global) -> Stays
        ensures { result ≡ [] }
    {
        Stays {
            rows: Vec::new(alloc),
            places: BTreeMap::new(alloc),
        }
    }

    /// Reads the stays.
    pub(crate) fn rows(&self) -> &[Row]
        ensures { map booked_of result.now ≡ self.now }
    {
        self.rows.as_slice()
    }

    /// Ends the open stay of an owner, if there is one. Cost: one search.
    fn end(&mut self, owner: &Owner, at: Moment)
        ensures { self.new ≡ end_stays owner.now.key (item_of owner.now.item) at self.old }
    {
        if let Some(place) = self.places.remove(owner) {
            if let Some(row) = self.rows.get_mut(place) {
                row.to = Some(at);
            }
        }
    }

    /// Begins a stay of an owner, which has none open. Cost: one search.
    fn begin(&mut self, owner: Owner, lines: Lines, at: Moment) -> Result<(), NoMemory>
        requires free { filter (is_open_stay owner.key (item_of owner.item)) self.old ≡ [] }
        ensures { OnOk result (self.new ≡ begin_stay owner.key (item_of owner.item) (lines_of lines) at self.old) }
    {
        let kept = copy_of(&owner)?;
        if self.rows.reserve(1).is_err() {
            return Err(NoMemory);
        }
        match self.places.insert(kept, self.rows.len()) {
            Ok(_) => {
                self.rows.push_reserved(Row {
                    owner,
                    lines,
                    from: at,
                    to: None,
                });
                Ok(())
            }
            Err(_) => Err(NoMemory),
        }
    }

    /// Books what an entry does: the ends in their order, and then what begins.
    pub(crate) fn book(&mut self, booking: Booking) -> Result<(), NoMemory>
        requires free { BeginsFree booking self.old }
        ensures { OnOk result (self.new ≡ stays_by booking self.old) }
    {
        let Booking {
            key,
            ends,
            begins,
            at,
        } = booking;
        let mut owner = Owner {
            key,
            item: Item::Null,
        };
        for item in &ends {
            owner.item = *item;
            self.end(&owner, at);
        }
        match begins {
            Some((item, lines)) => {
                owner.item = item;
                self.begin(owner, lines, at)
            }
            None => Ok(()),
        }
    }
}
