// An unfinished upload, as JSON.
ghost use Rattle.std.specs.Prelude.{Ok};
ghost use Rattle.office_types.specs.declared.reply.Reply.TheVariants.{UploadShown};
ghost use Rattle.http_text.specs.Bodies.{parts_text};
ghost use Rattle.http_text.specs.Parts.{upload_part};
ghost use Rattle.http_text.specs.Replies.{body_text};
ghost use Rattle.http_text.specs.Room.{Puts};

use crate::members::{put_moment, put_text, put_whole};
use crate::room::{put, put_quoted};
use crate::tag_body::{put_comma, put_tags};
use std::collections::BTreeMap;
use uploads::{Part, Upload};

fn put_part(room: &mut [u8], at: usize, later: bool, number: u32, part: &Part) -> usize
    ensures { Puts room.old at room.new result (upload_part later (number, part.now)) }
{
    let at = put_comma(room, at, later);
    let at = put_whole(room, at, b"{\"part\":", u64::from(number));
    let at = put_whole(room, at, b",\"size\":", part.size);
    put(room, at, b"}")
}

fn put_parts(room: &mut [u8], at: usize, parts: &BTreeMap<u32, Part>) -> usize
    ensures { Puts room.old at room.new result (parts_text parts.now.entries) }
{
    let mut at = put(room, at, b"[");
    let mut later = false;
    for (number, part) in parts.iter() {
        at = put_part(room, at, later, *number, part);
        later = true;
    }
    put(room, at, b"]")
}

/// Writes an unfinished upload, its parts by their numbers.
///
/// Cost: a pass over the parts; no memory.
pub(crate) fn put_upload(room: &mut [u8], at: usize, number: u64, upload: &Upload) -> usize
    ensures { Puts room.old at room.new result (body_text (Ok (UploadShown number upload.now))) }
{
    let at = put_text(room, at, b"{\"class\":", upload.class().name());
    let at = put(room, at, b",\"key\":");
    let at = put_quoted(room, at, upload.key().bytes());
    let at = put(room, at, b",\"parts\":");
    let at = put_parts(room, at, upload.parts());
    let at = put_moment(room, at, b",\"started\":", upload.started().ms());
    let at = put(room, at, b",\"tags\":");
    let at = put_tags(room, at, upload.tags());
    let at = put_whole(room, at, b",\"upload\":", number);
    put(room, at, b"}")
}
