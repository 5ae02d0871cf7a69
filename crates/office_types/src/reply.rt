// What the office replies to a request that was done.
use class_rules::Class;
use due_core::{ActionKind, Target};
use moments::{Moment, Month};
use office_base::{BucketName, Items, Key, Text, VersionId};
use rules_core::RuleSet;
use stacks::{Stack, Versioning};
use tariff::Tariff;
use uploads::Upload;

/// What a bucket used of one class in a month.
#[derive(Clone, Copy, Debug, PartialEq, Eq)]
pub struct ClassMeters {
    pub class: Class,
    /// Bytes times milliseconds.
    pub byte_ms: u128,
    /// Bytes times milliseconds that are charged for objects that left the class before its minimum storage duration.
    pub early_byte_ms: u128,
    /// The lifecycle transitions to the class.
    pub moves: u64,
}

/// What a line of a report charges for.
#[derive(Clone, Copy, Debug, PartialEq, Eq)]
pub enum LineKind {
    /// What was stored.
    Storage,
    /// Objects that left the class before its minimum storage duration.
    Early,
    /// The lifecycle transitions to the class.
    Transitions,
}

/// The price of a line of a report.
#[derive(Clone, Copy, Debug, PartialEq, Eq)]
pub enum Price {
    /// One price: units per GiB-month, or per 1,000 transitions.
    One(u32),
    /// The prices of several tiers.
    Tiered,
}

/// A line of a month's report.
#[derive(Drop)]
pub struct ReportLine {
    pub bucket: BucketName,
    pub kind: LineKind,
    pub class: Class,
    /// Byte-milliseconds, or a number of transitions; never 0.
    pub quantity: u128,
    pub price: Price,
    /// Whole units.
    pub charge: u128,
}

/// The reply to a request that was done.
#[derive(Drop)]
pub enum Reply {
    /// The bucket was made.
    BucketMade {
        bucket: BucketName,
    },
    /// The bucket now has this versioning.
    VersioningSet {
        versioning: Versioning,
    },
    /// The bucket now has this many lifecycle rules.
    RulesSet {
        rules: u32,
    },
    /// The object was put, as this version.
    Stored {
        moment: Moment,
        version: VersionId,
    },
    /// The key was deleted: this delete marker was put, or if there is none, the null version was removed.
    Deleted {
        marker: Option<VersionId>,
    },
    /// This version or delete marker was removed.
    VersionDeleted {
        removed: VersionId,
    },
    /// The version now has this many tags.
    TagsSet {
        tags: u32,
    },
    /// The upload has this number.
    UploadStarted {
        upload: u64,
    },
    /// The part with this number was put.
    PartStored {
        part: u32,
    },
    /// The upload with this number was dropped.
    Aborted {
        upload: u64,
    },
    /// This lifecycle action, by the rule with this id, is the first that is due, or was done. It takes effect at
    /// `since`. `marker` is the delete marker that it put; none if it was not done or puts none.
    Chosen {
        kind: ActionKind,
        key: Key,
        target: Target,
        rule: Text,
        since: Moment,
        marker: Option<VersionId>,
    },
    /// No lifecycle action is due.
    NothingDue,
    /// The tariff was set.
    TariffSet,
    /// The month was closed.
    Closed {
        month: Month,
    },
    /// The bucket has this many rules, unfinished uploads, and versions (with delete markers).
    BucketShown {
        bucket: BucketName,
        rules: u32,
        uploads: u32,
        versioning: Versioning,
        versions: u32,
    },
    /// The bucket's lifecycle configuration.
    RulesShown {
        rules: RuleSet,
    },
    /// The versions of the key.
    StackShown {
        key: Key,
        stack: Stack,
    },
    /// The upload with this number.
    UploadShown {
        number: u64,
        upload: Upload,
    },
    /// What the bucket used in the month, from the warmest class to the coldest.
    MetersShown {
        bucket: BucketName,
        month: Month,
        classes: Items<ClassMeters>,
    },
    /// The tariffs that were set, by their first months.
    TariffShown {
        tariffs: Items<Tariff>,
    },
    /// What the month costs, by bucket and class.
    Report {
        lines: Items<ReportLine>,
    },
}
