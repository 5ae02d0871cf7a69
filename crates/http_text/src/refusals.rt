// The JSON bodies of refusals.
ghost use Rattle.std.specs.Prelude.{◌≡◌, ◌≤◌, length, Err};
ghost use Rattle.moments.specs.Time.{end_of_time};
ghost use Rattle.office_types.specs.Fits.{RefusalFits};
ghost use Rattle.office_types.specs.declared.refusal.Refusal.TheVariants.{MonthNotOver, EarlierMonthOpen};
ghost use Rattle.office_types.specs.declared.refusal.Refusal.TheVariants.{DueActions, Full, ClockEnd, TokenReused};
ghost use Rattle.http_text.specs.Names.{what_name};
ghost use Rattle.http_text.specs.Refusals.{error_text};
ghost use Rattle.http_text.specs.Replies.{body_text};
ghost use Rattle.http_text.specs.Room.{Puts};

use crate::chosen::put_target;
use crate::members::{put_moment, put_month, put_text, put_whole};
use crate::room::{put, put_quoted};
use due_core::Target;
use moments::Month;
use office_base::{BucketName, Key};
use office_types::{Refusal, What};

/// Writes the body of a refusal that has only its name and its number.
#[tactic(auto, using(crate::proofs::Small::error_small))]
pub fn put_error(room: &mut [u8], at: usize, name: &str, number: u64) -> usize
    ensures puts { Puts room.old at room.new result (error_text name.now number) }
    ensures small { length name.now ≤ 100 → length (error_text name.now number) ≤ 16_000 }
{
    let at = put_text(room, at, b"{\"error\":", name);
    let at = put_whole(room, at, b",\"number\":", number);
    put(room, at, b"}")
}

#[tactic(auto, using(crate::proofs::Small::not_over_small))]
fn put_not_over(room: &mut [u8], at: usize, end: u64) -> usize
    requires { end ≤ end_of_time }
    ensures puts { Puts room.old at room.new result (body_text (Err (MonthNotOver end))) }
    ensures small { length (body_text (Err (MonthNotOver end))) ≤ 16_000 }
{
    let at = put_moment(room, at, b"{\"end\":", end);
    let at = put_whole(room, at, b",\"error\":\"MonthNotOver\",\"number\":", 84);
    put(room, at, b"}")
}

#[tactic(auto, using(crate::proofs::Small::earlier_small))]
fn put_earlier(room: &mut [u8], at: usize, month: Month) -> usize
    ensures puts { Puts room.old at room.new result (body_text (Err (EarlierMonthOpen month))) }
    ensures small { length (body_text (Err (EarlierMonthOpen month))) ≤ 16_000 }
{
    let at = put_month(
        room,
        at,
        b"{\"error\":\"EarlierMonthOpen\",\"month\":",
        month,
    );
    let at = put_whole(room, at, b",\"number\":", 87);
    put(room, at, b"}")
}

#[tactic(auto, using(crate::proofs::Small::due_small))]
fn put_due(room: &mut [u8], at: usize, bucket: &BucketName, key: &Key, target: Target) -> usize
    ensures puts { Puts room.old at room.new result (body_text (Err (DueActions bucket.now key.now target))) }
    ensures small { length (body_text (Err (DueActions bucket.now key.now target))) ≤ 16_000 }
{
    let at = put_text(room, at, b"{\"bucket\":", bucket.text());
    let at = put(room, at, b",\"error\":\"DueActions\",\"key\":");
    let at = put_quoted(room, at, key.bytes());
    let at = put_whole(room, at, b",\"number\":", 85);
    let at = put_target(room, at, target);
    put(room, at, b"}")
}

fn name_of(what: What) -> &'static str
    ensures { result.now ≡ what_name what }
{
    match what {
        What::Buckets => "Buckets",
        What::Versions => "Versions",
        What::Uploads => "Uploads",
        What::Parts => "Parts",
        What::Names => "Names",
        What::Rules => "Rules",
        What::Tariffs => "Tariffs",
    }
}

#[tactic(auto, using(crate::proofs::Small::full_small))]
fn put_full(room: &mut [u8], at: usize, what: What, limit: u64) -> usize
    ensures puts { Puts room.old at room.new result (body_text (Err (Full what limit))) }
    ensures small { length (body_text (Err (Full what limit))) ≤ 16_000 }
{
    let at = put_whole(room, at, b"{\"error\":\"Full\",\"limit\":", limit);
    let at = put_whole(room, at, b",\"number\":", 90);
    let at = put_text(room, at, b",\"what\":", name_of(what));
    put(room, at, b"}")
}

#[tactic(auto, using(crate::proofs::Small::end_small))]
fn put_end(room: &mut [u8], at: usize, moment: u64) -> usize
    ensures puts { Puts room.old at room.new result (body_text (Err (ClockEnd moment))) }
    ensures small { length (body_text (Err (ClockEnd moment))) ≤ 16_000 }
{
    let at = put_whole(room, at, b"{\"error\":\"ClockEnd\",\"moment\":", moment);
    let at = put_whole(room, at, b",\"number\":", 91);
    put(room, at, b"}")
}

#[tactic(auto, using(crate::proofs::Small::reused_small))]
fn put_reused(room: &mut [u8], at: usize, kind: u8) -> usize
    ensures puts { Puts room.old at room.new result (body_text (Err (TokenReused kind))) }
    ensures small { length (body_text (Err (TokenReused kind))) ≤ 16_000 }
{
    let at = put_whole(
        room,
        at,
        b"{\"error\":\"TokenReused\",\"kind\":",
        u64::from(kind),
    );
    let at = put_whole(room, at, b",\"number\":", 92);
    put(room, at, b"}")
}

/// Writes the body of a refusal.
#[tactic(auto, using(crate::proofs::Texts::refusal_texts))]
pub(crate) fn put_refusal(room: &mut [u8], at: usize, refusal: &Refusal) -> usize
    requires { RefusalFits refusal.now }
    ensures puts { Puts room.old at room.new result (body_text (Err refusal.now)) }
    ensures small { length (body_text (Err refusal.now)) ≤ 16_000 }
{
    match refusal {
        Refusal::BucketExists => put_error(room, at, "BucketExists", 80),
        Refusal::NoSuchBucket => put_error(room, at, "NoSuchBucket", 81),
        Refusal::NoRules => put_error(room, at, "NoRules", 82),
        Refusal::NotEnabledBefore => put_error(room, at, "NotEnabledBefore", 83),
        Refusal::NoSuchKey => put_error(room, at, "NoSuchKey", 50),
        Refusal::NoSuchVersion => put_error(room, at, "NoSuchVersion", 51),
        Refusal::IsMarker => put_error(room, at, "IsMarker", 52),
        Refusal::NoSuchUpload => put_error(room, at, "NoSuchUpload", 60),
        Refusal::BadPart => put_error(room, at, "BadPart", 61),
        Refusal::NoParts => put_error(room, at, "NoParts", 62),
        Refusal::MonthNotOver { end } => put_not_over(room, at, *end),
        Refusal::AlreadyClosed => put_error(room, at, "AlreadyClosed", 86),
        Refusal::EarlierMonthOpen { month } => put_earlier(room, at, *month),
        Refusal::NoTariff => put_error(room, at, "NoTariff", 88),
        Refusal::DueActions {
            bucket,
            key,
            target,
        } => put_due(room, at, bucket, key, *target),
        Refusal::Full { what, limit } => put_full(room, at, *what, *limit),
        Refusal::ClockEnd { moment } => put_end(room, at, *moment),
        Refusal::TokenReused { kind } => put_reused(room, at, *kind),
        Refusal::NoMemory => put_error(room, at, "NoMemory", 115),
    }
}
