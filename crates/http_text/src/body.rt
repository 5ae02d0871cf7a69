// The JSON body of what the office answered.
ghost use Rattle.std.specs.Prelude.{◌≡◌, ◌≤◌, length, Ok};
ghost use Rattle.office_types.specs.Fits.{AnswerFits, ReplyFits};
ghost use Rattle.office_types.specs.declared.reply.Reply.TheVariants.{Stored, BucketShown, MetersShown};
ghost use Rattle.http_text.specs.Names.{versioning_name};
ghost use Rattle.http_text.specs.Replies.{body_text};
ghost use Rattle.http_text.specs.Room.{Puts};
ghost use Rattle.http_text.specs.Shorts.{IsInParts, IsInPartsReply, IsShort, IsShortReply};

use crate::chosen::put_chosen;
use crate::members::{
    put_id, put_id_object, put_moment, put_month, put_month_object, put_number_object, put_text,
    put_text_object, put_whole,
};
use crate::meters::put_classes;
use crate::price_body::put_tariffs;
use crate::refusals::put_refusal;
use crate::room::put;
use crate::stack_body::put_stack;
use crate::upload_body::put_upload;
use moments::{Moment, Month};
use office_base::{BucketName, VersionId};
use office_types::{ClassMeters, Refusal, Reply};
use stacks::Versioning;

fn versioning_name(versioning: Versioning) -> &'static str
    ensures { result.now ≡ versioning_name versioning }
{
    match versioning {
        Versioning::Unversioned => "Unversioned",
        Versioning::Enabled => "Enabled",
        Versioning::Suspended => "Suspended",
    }
}

#[tactic(auto, using(crate::proofs::Small::stored_small))]
fn put_stored(room: &mut [u8], at: usize, moment: Moment, version: VersionId) -> usize
    ensures puts { Puts room.old at room.new result (body_text (Ok (Stored moment version))) }
    ensures small { length (body_text (Ok (Stored moment version))) ≤ 16_000 }
{
    let at = put_moment(room, at, b"{\"moment\":", moment.ms());
    let at = put_id(room, at, b",\"version\":", version);
    put(room, at, b"}")
}

#[tactic(auto, using(crate::proofs::Small::shown_small))]
fn put_shown(
    room: &mut [u8],
    at: usize,
    bucket: &BucketName,
    rules: u32,
    uploads: u32,
    versioning: Versioning,
    versions: u32,
) -> usize
    ensures puts { Puts room.old at room.new result
        (body_text (Ok (BucketShown bucket.now rules uploads versioning versions))) }
    ensures small { length (body_text (Ok (BucketShown bucket.now rules uploads versioning versions))) ≤ 16_000 }
{
    let at = put_text(room, at, b"{\"bucket\":", bucket.text());
    let at = put_whole(room, at, b",\"rules\":", u64::from(rules));
    let at = put_whole(room, at, b",\"uploads\":", u64::from(uploads));
    let at = put_text(room, at, b",\"versioning\":", versioning_name(versioning));
    let at = put_whole(room, at, b",\"versions\":", u64::from(versions));
    put(room, at, b"}")
}

#[tactic(auto, using(crate::proofs::Small::usage_small))]
fn put_usage(
    room: &mut [u8],
    at: usize,
    bucket: &BucketName,
    month: Month,
    classes: &[ClassMeters],
) -> usize
    ensures puts { Puts room.old at room.new result (body_text (Ok (MetersShown bucket.now month classes.now))) }
    ensures small { length classes.now ≤ 6
        → length (body_text (Ok (MetersShown bucket.now month classes.now))) ≤ 16_000 }
{
    let at = put_text(room, at, b"{\"bucket\":", bucket.text());
    let at = put(room, at, b",\"classes\":");
    let at = put_classes(room, at, classes);
    let at = put_month(room, at, b",\"month\":", month);
    put(room, at, b"}")
}

#[tactic(auto, using(crate::proofs::Texts::reply_texts))]
fn put_reply(room: &mut [u8], at: usize, reply: &Reply) -> usize
    requires fits { ReplyFits reply.now }
    requires in_parts { IsInPartsReply reply.now }
    ensures puts { Puts room.old at room.new result (body_text (Ok reply.now)) }
    ensures small { IsShortReply reply.now → length (body_text (Ok reply.now)) ≤ 16_000 }
{
    match reply {
        Reply::BucketMade { bucket } => put_text_object(room, at, "bucket", bucket.text()),
        Reply::VersioningSet { versioning } => {
            put_text_object(room, at, "versioning", versioning_name(*versioning))
        }
        Reply::RulesSet { rules } => put_number_object(room, at, "rules", u64::from(*rules)),
        Reply::Stored { moment, version } => put_stored(room, at, *moment, *version),
        Reply::Deleted {
            marker: Some(marker),
        } => put_id_object(room, at, "marker", *marker),
        Reply::Deleted { marker: None } => put_id_object(room, at, "removed", VersionId::Null),
        Reply::VersionDeleted { removed } => put_id_object(room, at, "removed", *removed),
        Reply::TagsSet { tags } => put_number_object(room, at, "tags", u64::from(*tags)),
        Reply::UploadStarted { upload } => put_number_object(room, at, "upload", *upload),
        Reply::PartStored { part } => put_number_object(room, at, "part", u64::from(*part)),
        Reply::Aborted { upload } => put_number_object(room, at, "aborted", *upload),
        Reply::Chosen {
            kind,
            key,
            target,
            rule,
            since,
            marker,
        } => put_chosen(room, at, *kind, key, *target, rule, *since, *marker),
        Reply::NothingDue => put_text_object(room, at, "action", "none"),
        Reply::TariffSet => put_text_object(room, at, "tariff", "set"),
        Reply::Closed { month } => put_month_object(room, at, "closed", *month),
        Reply::BucketShown {
            bucket,
            rules,
            uploads,
            versioning,
            versions,
        } => put_shown(room, at, bucket, *rules, *uploads, *versioning, *versions),
        Reply::MetersShown {
            bucket,
            month,
            classes,
        } => put_usage(room, at, bucket, *month, classes.as_slice()),
        Reply::StackShown { key, stack } => put_stack(room, at, key, stack),
        Reply::UploadShown { number, upload } => put_upload(room, at, *number, upload),
        Reply::TariffShown { tariffs } => put_tariffs(room, at, tariffs.as_slice()),
        Reply::RulesShown { .. } | Reply::Report { .. } => unreachable!(),
    }
}

/// Writes the body of an answer at an index, and returns the index after it.
pub(crate) fn put_body(room: &mut [u8], at: usize, answer: &Result<Reply, Refusal>) -> usize
    requires fits { AnswerFits answer.now }
    requires in_parts { IsInParts answer.now }
    ensures puts { Puts room.old at room.new result (body_text answer.now) }
    ensures small { IsShort answer.now → length (body_text answer.now) ≤ 16_000 }
{
    match answer {
        Ok(reply) => put_reply(room, at, reply),
        Err(refusal) => put_refusal(room, at, refusal),
    }
}
