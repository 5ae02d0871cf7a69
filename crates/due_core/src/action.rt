// Lifecycle actions.
use class_rules::Class;
use moments::Moment;
use office_base::{Key, VersionId};

/// What a lifecycle action does.
///
/// Rule: S3 User Guide, "Managing the lifecycle of objects".
#[derive(Clone, Copy, Debug, PartialEq, Eq)]
pub enum ActionKind {
    /// Removes a version or a delete marker for good.
    Remove,
    /// Moves an object to this storage class.
    Transition(Class),
    /// Puts a delete marker on top of a key's versions.
    Marker,
    /// Aborts an unfinished upload.
    Abort,
}

/// The target of an action.
#[derive(Clone, Copy, Debug, PartialEq, Eq)]
pub enum Target {
    /// The version of the action's key with this id.
    Version(VersionId),
    /// The upload with this number.
    Upload(u64),
}

/// A lifecycle action that a rule asks for.
#[derive(Drop)]
pub struct Action {
    pub kind: ActionKind,
    /// The key of the version, or of the object that the upload would make.
    pub key: Key,
    pub target: Target,
    /// The place of the rule in the bucket's configuration, from 1.
    pub rule: u32,
    /// The moment at which the action takes effect, whenever it is done. Billing of its target changes or ends there.
    pub since: Moment,
}

/// An action, and what decides its order among those of the same moment, kind and key.
#[derive(Drop)]
pub struct Candidate {
    pub action: Action,
    /// How many versions of the key are older than the target, or the upload's number.
    pub age: u64,
}
