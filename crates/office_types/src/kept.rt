// What the office keeps of a command that was accepted with a token.
ghost use Rattle.std.specs.Prelude.{◌≡◌, IfOk};
ghost use Rattle.office_types.specs.Kept.{number_of_id, id_of_number, tells_marker, number_told, reply_of};

use crate::command::Command;
use crate::reply::Reply;
use crate::token::Token;
use moments::Moment;
use office_base::{Nth, VersionId};
use stacks::Versioning;
use std::alloc::AllocError;

/// A command that was accepted with a token, and the parts of its reply that do not follow from the command.
#[derive(Drop)]
pub struct Kept {
    pub token: Token,
    /// The moment at which the command was accepted.
    pub moment: Moment,
    /// Whether the reply has a delete marker.
    pub marker: bool,
    /// The number of the version, delete marker or upload that the reply has; 0 for the null version, or if it has
    /// none.
    pub told: u64,
    pub command: Command,
}

/// Returns whether a reply has a delete marker.
pub fn marker_told(reply: &Reply) -> bool
    ensures { result ≡ tells_marker reply.now }
{
    match reply {
        Reply::Deleted { marker } => marker.is_some(),
        _ => false,
    }
}

/// Gives the number of the version, delete marker or upload that a reply has; 0 for the null version, or if it has
/// none.
pub fn number_told(reply: &Reply) -> u64
    ensures { result ≡ number_told reply.now }
{
    match reply {
        Reply::Stored { version, .. } => number_of_id(*version),
        Reply::Deleted { marker } => match marker {
            Some(version) => number_of_id(*version),
            None => 0,
        },
        Reply::VersionDeleted { removed } => number_of_id(*removed),
        Reply::UploadStarted { upload } => *upload,
        Reply::Aborted { upload } => *upload,
        _ => 0,
    }
}

fn number_of_id(id: VersionId) -> u64
    ensures { result ≡ number_of_id id }
{
    match id {
        VersionId::Null => 0,
        VersionId::Number(number) => number.get(),
    }
}

fn id_of_number(number: u64) -> VersionId
    ensures { result ≡ id_of_number number }
{
    match Nth::of(number) {
        Some(number) => VersionId::Number(number),
        None => VersionId::Null,
    }
}

impl Kept {
    /// Gives the reply that the command got when it was accepted; `NothingDue` for a command that may not carry a
    /// token. Fails only if memory runs out.
    ///
    /// Cost: for `CreateBucket` a copy of the bucket's name; else constant.
    #[tactic(auto, unfolding(crate::specs::Kept::reply_told))]
    pub fn reply(&self) -> Result<Reply, AllocError>
        ensures { IfOk result (λ reply. reply ≡ reply_of self.now) }
    {
        let moment = self.moment;
        Ok(match &self.command {
            Command::CreateBucket { bucket } => Reply::BucketMade {
                bucket: bucket.copy()?,
            },
            Command::SetVersioning { enabled, .. } => Reply::VersioningSet {
                versioning: if *enabled {
                    Versioning::Enabled
                } else {
                    Versioning::Suspended
                },
            },
            Command::DropRules { .. } => Reply::RulesSet { rules: 0 },
            Command::Put { .. } | Command::Complete { .. } => Reply::Stored {
                moment,
                version: id_of_number(self.told),
            },
            Command::Delete { .. } => Reply::Deleted {
                marker: if self.marker {
                    Some(id_of_number(self.told))
                } else {
                    None
                },
            },
            Command::DeleteVersion { id, .. } => Reply::VersionDeleted { removed: *id },
            Command::SetTags { tags, .. } => Reply::TagsSet {
                tags: tags.pairs().len() as u32,
            },
            Command::StartUpload { .. } => Reply::UploadStarted { upload: self.told },
            Command::PutPart { part, .. } => Reply::PartStored { part: *part },
            Command::Abort { upload, .. } => Reply::Aborted { upload: *upload },
            Command::Close { month } => Reply::Closed { month: *month },
            Command::SetRules { .. } | Command::Act { .. } | Command::SetTariff { .. } => {
                Reply::NothingDue
            }
        })
    }
}
