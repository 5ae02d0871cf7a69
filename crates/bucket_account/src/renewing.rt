// Renews the index of a bucket's next actions after a change, and reads the first of them.
ghost use Rattle.std.specs.Prelude.{◌≡◌, IfOk, IfSome, Some, None};
ghost use Rattle.office_base.specs.Maps.{at_number};
ghost use Rattle.uploads.specs.Uploads.{UploadRecord};
ghost use Rattle.due_core.specs.Choice.{choice};
ghost use Rattle.due_index.specs.Firsts.{entry_count};
ghost use Rattle.due_index.specs.Index.{StandsFor, StandsButKey, StandsButUpload};
ghost use Rattle.bucket_account.specs.Touching.{touched, touched_at, StandsBut};

use due_core::{Action, Bucket, Target, chosen};
use due_index::{DueIndex, see_order};
use moments::Moment;
use office_base::{Key, NoMemory, VersionId};
use office_types::Command;
use std::alloc::Global;
use std::mem;

/// Renews what comes next on a key, of whose noncurrent versions the newest one and the one with the id may have
/// changed. If memory runs out, the index is dropped.
pub(crate) fn renew_key(
    index: &mut Option<DueIndex>,
    bucket: &Bucket,
    key: &Key,
    touched: Option<VersionId>,
)
    requires rest { IfSome index.old (λ index. StandsButKey index bucket.now key.now touched) }
    ensures stands { IfSome index.new (λ index. StandsFor index bucket.now) }
{
    let Some(kept) = index else {
        return;
    };
    if kept.renew_key(bucket, key, touched).is_err() {
        drop(index.take());
    }
}

/// Renews what comes next on an upload. If memory runs out, the index is dropped.
pub(crate) fn renew_upload(index: &mut Option<DueIndex>, bucket: &Bucket, number: u64)
    requires rest { IfSome index.old (λ index. StandsButUpload index bucket.now number) }
    ensures stands { IfSome index.new (λ index. StandsFor index bucket.now) }
{
    let Some(kept) = index else {
        return;
    };
    if kept.renew_upload(bucket, number).is_err() {
        drop(index.take());
    }
}

/// Renews what comes next on the key of an upload that is there, after a version was put on the key.
pub(crate) fn renew_key_of(index: &mut Option<DueIndex>, bucket: &Bucket, number: u64)
    requires rest { (upload : UploadRecord) × (at_number number bucket.now.uploads ≡ Some upload)
        × IfSome index.old (λ index. StandsButKey index bucket.now upload.key None) }
    ensures stands { IfSome index.new (λ index. StandsFor index bucket.now) }
{
    match bucket.uploads.get(&number) {
        Some(upload) => renew_key(index, bucket, upload.key(), None),
        None => unreachable!(),
    }
}

/// Builds the index anew. If memory runs out, there is none.
pub(crate) fn renew_all(index: &mut Option<DueIndex>, alloc: Global, bucket: &Bucket)
    ensures stands { IfSome index.new (λ index. StandsFor index bucket.now) }
{
    drop(mem::replace(index, DueIndex::build(alloc, bucket).ok()));
}

/// Renews what a command has touched in a bucket whose next upload had this number before it.
pub(crate) fn renew(
    index: &mut Option<DueIndex>,
    alloc: Global,
    bucket: &Bucket,
    command: &Command,
    next_upload: u64,
)
    requires rest { IfSome index.old (λ index. StandsBut (touched next_upload command.now) index bucket.now) }
    ensures stands { IfSome index.new (λ index. StandsFor index bucket.now) }
{
    match command {
        Command::Put { key, .. } => renew_key(index, bucket, key, None),
        Command::Delete { key, .. } => renew_key(index, bucket, key, None),
        Command::DeleteVersion { key, .. } => renew_key(index, bucket, key, None),
        Command::SetTags { key, id, .. } => renew_key(index, bucket, key, Some(*id)),
        Command::StartUpload { .. } => renew_upload(index, bucket, next_upload),
        Command::PutPart { upload, .. } => renew_upload(index, bucket, *upload),
        Command::Abort { upload, .. } => renew_upload(index, bucket, *upload),
        _ => renew_all(index, alloc, bucket),
    }
}

/// Renews what a lifecycle action has touched.
pub(crate) fn renew_target(index: &mut Option<DueIndex>, bucket: &Bucket, action: &Action)
    requires rest { IfSome index.old
        (λ index. StandsBut (touched_at action.now.key action.now.target) index bucket.now) }
    ensures stands { IfSome index.new (λ index. StandsFor index bucket.now) }
{
    match action.target {
        Target::Version(id) => renew_key(index, bucket, &action.key, Some(id)),
        Target::Upload(number) => renew_upload(index, bucket, number),
    }
}

/// Builds the index if there is none.
pub(crate) fn build_where_none(index: &mut Option<DueIndex>, alloc: Global, bucket: &Bucket)
    requires stands { IfSome index.old (λ index. StandsFor index bucket.now) }
    ensures stands { IfSome index.new (λ index. StandsFor index bucket.now) }
{
    if index.is_none() {
        renew_all(index, alloc, bucket);
    }
}

/// Counts the entries of an index of this bucket.
pub(crate) fn entries_of(index: &DueIndex, bucket: &Bucket) -> u64
    requires stands { StandsFor index.now bucket.now }
    ensures exact { result ≡ entry_count bucket.now }
{
    see_order(bucket);
    index.entries()
}

/// Finds the action that is due first: by the index, or in a pass over the bucket if there is no index.
pub(crate) fn first_of(
    index: &Option<DueIndex>,
    bucket: &Bucket,
    t: Moment,
) -> Result<Option<Action>, NoMemory>
    requires stands { IfSome index.now (λ index. StandsFor index bucket.now) }
    ensures exact { IfOk result (λ action. action ≡ choice bucket.now t) }
{
    match index {
        Some(index) => index.chosen(bucket, t),
        None => chosen(bucket, t),
    }
}
