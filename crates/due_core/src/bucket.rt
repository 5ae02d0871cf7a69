// The records of a bucket.
use moments::Moment;
use office_base::Key;
use rules_core::RuleSet;
use stacks::{Stack, Versioning};
use std::collections::BTreeMap;
use std::marker::Model;
use uploads::Upload;

/// The records of a bucket: its versions by key, its unfinished uploads by number, and its lifecycle configuration.
#[derive(Drop)]
pub struct Bucket {
    pub versioning: Versioning,
    /// The lifecycle configuration, if one was set.
    pub rules: Option<RuleSet>,
    /// When the bucket was made, or its versioning or rules were last changed. No action takes effect before it.
    pub rules_since: Moment,
    /// The versions of each key that has any.
    pub stacks: BTreeMap<Key, Stack>,
    /// The uploads that are neither completed nor aborted.
    pub uploads: BTreeMap<u64, Upload>,
    /// The number of the next version that has one, from 1.
    pub next_version: u64,
    /// The number of the next upload, from 1.
    pub next_upload: u64,
}

impl Model for Bucket {
    ghost use Rattle.due_core.specs.Buckets.{BucketRecord};

    ghost Value = { BucketRecord };

    ghost view = { λ b. record {
      versioning = b.versioning;
      rules = b.rules;
      rules_since = b.rules_since;
      stacks = b.stacks.entries;
      uploads = b.uploads.entries;
      next_version = b.next_version;
      next_upload = b.next_upload;
    } };
}
