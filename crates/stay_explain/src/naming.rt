// The bucket that a command names.
ghost use Rattle.std.specs.Prelude.{◌≡◌, option_copied};
ghost use Rattle.office_laws.specs.Commands.{bucket_of};

use office_base::BucketName;
use office_types::Command;

/// Reads the name of the bucket that a command makes or changes.
pub(crate) fn bucket_of(command: &Command) -> Option<&BucketName>
    ensures { option_copied result ≡ bucket_of command.now }
{
    match command {
        Command::CreateBucket { bucket }
        | Command::SetVersioning { bucket, .. }
        | Command::SetRules { bucket, .. }
        | Command::DropRules { bucket }
        | Command::Put { bucket, .. }
        | Command::Delete { bucket, .. }
        | Command::DeleteVersion { bucket, .. }
        | Command::SetTags { bucket, .. }
        | Command::StartUpload { bucket, .. }
        | Command::PutPart { bucket, .. }
        | Command::Complete { bucket, .. }
        | Command::Abort { bucket, .. }
        | Command::Act { bucket } => Some(bucket),
        Command::SetTariff { .. } | Command::Close { .. } => None,
    }
}
