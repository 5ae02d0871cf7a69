// Comparing and copying commands.
ghost use Rattle.std.specs.Prelude.{◌≡◌, ◌&&◌, true, List, IfOk};
ghost use Rattle.std.specs.Str.{bytes_eq};
ghost use Rattle.stacks.specs.Stacks.{same_id};
ghost use Rattle.office_base.specs.Tags.{tag_of, tags_of};
ghost use Rattle.office_types.specs.declared.command.Command.{Command};
ghost use Rattle.office_types.specs.Commands.{kind_of, same_class, same_tag, same_tags, same_flag, same_command};
ghost use Rattle.office_types.specs.Tokens.{takes_token};

use crate::command::Command;
use class_rules::{Class, rank};
use office_base::{BucketName, Key, Tags, VersionId};
use std::alloc::AllocError;

fn is_name(a: &BucketName, b: &BucketName) -> bool
    ensures { result ≡ bytes_eq a.now b.now }
{
    a == b
}

fn is_key(a: &Key, b: &Key) -> bool
    ensures { result ≡ bytes_eq a.now b.now }
{
    a == b
}

fn is_class(a: Class, b: Class) -> bool
    ensures { result ≡ same_class a b }
{
    rank(a) == rank(b)
}

fn is_id(a: VersionId, b: VersionId) -> bool
    ensures { result ≡ same_id a b }
{
    a == b
}

fn is_flag(a: bool, b: bool) -> bool
    ensures { result ≡ same_flag a b }
{
    if a { b } else { !b }
}

fn is_pair(a: &(String, String), b: &(String, String)) -> bool
    ensures { result ≡ same_tag (tag_of a.now) (tag_of b.now) }
{
    a.0.as_str() == b.0.as_str() && a.1.as_str() == b.1.as_str()
}

fn are_pairs(a: &[(String, String)], b: &[(String, String)]) -> bool
    ensures { result ≡ same_tags (tags_of a.now) (tags_of b.now) }
{
    match a {
        [] => b.is_empty(),
        [first, rest @ ..] => match b {
            [] => false,
            [other, others @ ..] => is_pair(first, other) && are_pairs(rest, others),
        },
    }
}

fn are_tags(a: &Tags, b: &Tags) -> bool
    ensures { result ≡ same_tags a.now b.now }
{
    are_pairs(a.pairs(), b.pairs())
}

impl Command {
    /// Gives the number of the command's kind in the journal.
    pub fn kind(&self) -> u8
        ensures { result ≡ kind_of self.now }
    {
        match self {
            Command::CreateBucket { .. } => 0x01,
            Command::SetVersioning { .. } => 0x02,
            Command::SetRules { .. } => 0x03,
            Command::DropRules { .. } => 0x04,
            Command::Put { .. } => 0x05,
            Command::Delete { .. } => 0x06,
            Command::DeleteVersion { .. } => 0x07,
            Command::SetTags { .. } => 0x08,
            Command::StartUpload { .. } => 0x09,
            Command::PutPart { .. } => 0x0A,
            Command::Complete { .. } => 0x0B,
            Command::Abort { .. } => 0x0C,
            Command::Act { .. } => 0x0D,
            Command::SetTariff { .. } => 0x0E,
            Command::Close { .. } => 0x0F,
        }
    }

    /// Returns whether the command may carry a token.
    pub fn takes_token(&self) -> bool
        ensures { result ≡ takes_token self.now }
    {
        !matches!(
            self,
            Command::SetRules { .. } | Command::Act { .. } | Command::SetTariff { .. }
        )
    }

    /// Returns whether two commands that may carry a token are the same; false if one may not.
    ///
    /// Cost: one pass over the names, keys and tags.
    #[tactic(auto, unfolding(crate::specs::Commands::same_command))]
    pub fn is_same(&self, other: &Command) -> bool
        ensures { result ≡ same_command self.now other.now }
    {
        match self {
            Command::CreateBucket { bucket: a } => match other {
                Command::CreateBucket { bucket: b } => is_name(a, b),
                _ => false,
            },
            Command::SetVersioning {
                bucket: a,
                enabled: on,
            } => match other {
                Command::SetVersioning {
                    bucket: b,
                    enabled: up,
                } => is_name(a, b) && is_flag(*on, *up),
                _ => false,
            },
            Command::DropRules { bucket: a } => match other {
                Command::DropRules { bucket: b } => is_name(a, b),
                _ => false,
            },
            Command::Put {
                bucket: a,
                key,
                size,
                class,
                tags,
            } => match other {
                Command::Put {
                    bucket: b,
                    key: other,
                    size: bytes,
                    class: cold,
                    tags: labels,
                } => {
                    is_name(a, b)
                        && is_key(key, other)
                        && size.bytes() == bytes.bytes()
                        && is_class(*class, *cold)
                        && are_tags(tags, labels)
                }
                _ => false,
            },
            Command::Delete { bucket: a, key } => match other {
                Command::Delete {
                    bucket: b,
                    key: other,
                } => is_name(a, b) && is_key(key, other),
                _ => false,
            },
            Command::DeleteVersion { bucket: a, key, id } => match other {
                Command::DeleteVersion {
                    bucket: b,
                    key: other,
                    id: version,
                } => is_name(a, b) && is_key(key, other) && is_id(*id, *version),
                _ => false,
            },
            Command::SetTags {
                bucket: a,
                key,
                id,
                tags,
            } => match other {
                Command::SetTags {
                    bucket: b,
                    key: other,
                    id: version,
                    tags: labels,
                } => {
                    is_name(a, b)
                        && is_key(key, other)
                        && is_id(*id, *version)
                        && are_tags(tags, labels)
                }
                _ => false,
            },
            Command::StartUpload {
                bucket: a,
                key,
                class,
                tags,
            } => match other {
                Command::StartUpload {
                    bucket: b,
                    key: other,
                    class: cold,
                    tags: labels,
                } => {
                    is_name(a, b)
                        && is_key(key, other)
                        && is_class(*class, *cold)
                        && are_tags(tags, labels)
                }
                _ => false,
            },
            Command::PutPart {
                bucket: a,
                upload,
                part,
                size,
            } => match other {
                Command::PutPart {
                    bucket: b,
                    upload: number,
                    part: place,
                    size: bytes,
                } => is_name(a, b) && *upload == *number && *part == *place && *size == *bytes,
                _ => false,
            },
            Command::Complete { bucket: a, upload } => match other {
                Command::Complete {
                    bucket: b,
                    upload: number,
                } => is_name(a, b) && *upload == *number,
                _ => false,
            },
            Command::Abort { bucket: a, upload } => match other {
                Command::Abort {
                    bucket: b,
                    upload: number,
                } => is_name(a, b) && *upload == *number,
                _ => false,
            },
            Command::Close { month } => match other {
                Command::Close { month: other } => month.number() == other.number(),
                _ => false,
            },
            Command::SetRules { .. } | Command::Act { .. } | Command::SetTariff { .. } => false,
        }
    }

    /// Copies the command. Fails only if memory runs out.
    pub fn copy(&self) -> Result<Command, AllocError>
        ensures { IfOk result (λ command. command ≡ self.now) }
    {
        Ok(match self {
            Command::CreateBucket { bucket } => Command::CreateBucket {
                bucket: bucket.copy()?,
            },
            Command::SetVersioning { bucket, enabled } => Command::SetVersioning {
                bucket: bucket.copy()?,
                enabled: *enabled,
            },
            Command::SetRules { bucket, rules } => Command::SetRules {
                bucket: bucket.copy()?,
                rules: rules.copy()?,
            },
            Command::DropRules { bucket } => Command::DropRules {
                bucket: bucket.copy()?,
            },
            Command::Put {
                bucket,
                key,
                size,
                class,
                tags,
            } => Command::Put {
                bucket: bucket.copy()?,
                key: key.copy()?,
                size: *size,
                class: *class,
                tags: tags.copy()?,
            },
            Command::Delete { bucket, key } => Command::Delete {
                bucket: bucket.copy()?,
                key: key.copy()?,
            },
            Command::DeleteVersion { bucket, key, id } => Command::DeleteVersion {
                bucket: bucket.copy()?,
                key: key.copy()?,
                id: *id,
            },
            Command::SetTags {
                bucket,
                key,
                id,
                tags,
            } => Command::SetTags {
                bucket: bucket.copy()?,
                key: key.copy()?,
                id: *id,
                tags: tags.copy()?,
            },
            Command::StartUpload {
                bucket,
                key,
                class,
                tags,
            } => Command::StartUpload {
                bucket: bucket.copy()?,
                key: key.copy()?,
                class: *class,
                tags: tags.copy()?,
            },
            Command::PutPart {
                bucket,
                upload,
                part,
                size,
            } => Command::PutPart {
                bucket: bucket.copy()?,
                upload: *upload,
                part: *part,
                size: *size,
            },
            Command::Complete { bucket, upload } => Command::Complete {
                bucket: bucket.copy()?,
                upload: *upload,
            },
            Command::Abort { bucket, upload } => Command::Abort {
                bucket: bucket.copy()?,
                upload: *upload,
            },
            Command::Act { bucket } => Command::Act {
                bucket: bucket.copy()?,
            },
            Command::SetTariff { tariff } => Command::SetTariff {
                tariff: tariff.copy()?,
            },
            Command::Close { month } => Command::Close { month: *month },
        })
    }
}

/// States that commands that compare as the same are equal, and that each command that may carry a token compares as
/// the same as itself.
pub fn commands_that_are_the_same()
    ensures are { (a b : Command) → same_command a b ≡ true → a ≡ b }
    ensures itself { (c : Command) → takes_token c ≡ true → same_command c c ≡ true }
{}
