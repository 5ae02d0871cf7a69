// What clients ask the office.
use crate::token::Token;
use class_rules::Class;
use moments::{Moment, Month};
use office_base::{BucketName, Key, Size, Tags, VersionId};
use rules_core::RuleSet;
use tariff::BoxedTariff;

/// A change that a client asks for. An accepted command becomes an entry of the journal.
#[derive(Drop)]
pub enum Command {
    /// Makes a bucket, without versions or rules.
    CreateBucket {
        bucket: BucketName,
    },
    /// Sets whether a bucket keeps versions: enabled or suspended.
    SetVersioning {
        bucket: BucketName,
        enabled: bool,
    },
    /// Sets a bucket's lifecycle configuration, and replaces the one before.
    SetRules {
        bucket: BucketName,
        rules: RuleSet,
    },
    /// Drops a bucket's lifecycle configuration.
    DropRules {
        bucket: BucketName,
    },
    /// Puts an object under a key; in a bucket that does not add versions it replaces the null version.
    Put {
        bucket: BucketName,
        key: Key,
        size: Size,
        class: Class,
        tags: Tags,
    },
    /// Deletes a key: removes its null version or puts a delete marker, as the bucket's versioning says.
    Delete {
        bucket: BucketName,
        key: Key,
    },
    /// Removes one version or delete marker for good.
    DeleteVersion {
        bucket: BucketName,
        key: Key,
        id: VersionId,
    },
    /// Replaces the tags of one object version.
    SetTags {
        bucket: BucketName,
        key: Key,
        id: VersionId,
        tags: Tags,
    },
    /// Starts a multipart upload.
    StartUpload {
        bucket: BucketName,
        key: Key,
        class: Class,
        tags: Tags,
    },
    /// Puts a part of an upload, and replaces the one with the same number. `size` is in bytes.
    PutPart {
        bucket: BucketName,
        upload: u64,
        part: u32,
        size: u64,
    },
    /// Makes an object of the parts of an upload.
    Complete {
        bucket: BucketName,
        upload: u64,
    },
    /// Drops an upload with its parts.
    Abort {
        bucket: BucketName,
        upload: u64,
    },
    /// Does the first lifecycle action of a bucket that is due.
    Act {
        bucket: BucketName,
    },
    /// Sets a tariff, and replaces the one with the same first month.
    SetTariff {
        tariff: BoxedTariff,
    },
    /// Closes a month: its usage and costs are final.
    Close {
        month: Month,
    },
}

/// A question that changes nothing.
#[derive(Drop)]
pub enum Query {
    /// The content of a bucket.
    Bucket(BucketName),
    /// A bucket's lifecycle configuration.
    Rules(BucketName),
    /// The versions of a key.
    Stack(BucketName, Key),
    /// An upload and its parts.
    Upload(BucketName, u64),
    /// The first lifecycle action of a bucket that is due.
    Due(BucketName),
    /// What a bucket used in a month, by class.
    Meters(BucketName, Month),
    /// The tariffs.
    Tariff,
    /// What a month costs, by bucket and class.
    Report(Month),
}

/// What a request asks for.
#[derive(Drop)]
pub enum Ask {
    /// A change.
    Command(Command),
    /// A change that is done once, however often it is requested with this token.
    Once { token: Token, command: Command },
    /// A question.
    Query(Query),
}

/// An accepted command, with the moment at which it was accepted.
#[derive(Drop)]
pub struct Entry {
    /// The moment of the command; not before that of the entry before it.
    pub moment: Moment,
    /// The token of the request, if it had one.
    pub token: Option<Token>,
    pub command: Command,
}
