// The kinds of entries.
ghost use Rattle.std.specs.Prelude.{◌≡◌};
ghost use Rattle.entry_codec.specs.Kinds.{kinds, kind_number, carries_token, head_number, heads, parts_of};

use crate::tiers::is_plain;
use office_types::Command;

// What an entry's command does: a kind for each command, by its name, and a second one for tariffs.
#[derive(Clone, Copy)]
pub enum Kind {
    CreateBucket,
    SetVersioning,
    SetRules,
    DropRules,
    Put,
    Delete,
    DeleteVersion,
    SetTags,
    StartUpload,
    PutPart,
    Complete,
    Abort,
    Act,
    SetTariff,
    Close,
    SetTiers,
}

impl Kind {
    // The kind of this number.
    pub(crate) fn of(number: u8) -> Option<Kind>
        ensures { result ≡ kinds.value number }
    {
        match number {
            0x01 => Some(Kind::CreateBucket),
            0x02 => Some(Kind::SetVersioning),
            0x03 => Some(Kind::SetRules),
            0x04 => Some(Kind::DropRules),
            0x05 => Some(Kind::Put),
            0x06 => Some(Kind::Delete),
            0x07 => Some(Kind::DeleteVersion),
            0x08 => Some(Kind::SetTags),
            0x09 => Some(Kind::StartUpload),
            0x0A => Some(Kind::PutPart),
            0x0B => Some(Kind::Complete),
            0x0C => Some(Kind::Abort),
            0x0D => Some(Kind::Act),
            0x0E => Some(Kind::SetTariff),
            0x0F => Some(Kind::Close),
            0x10 => Some(Kind::SetTiers),
            _ => None,
        }
    }

    pub(crate) fn number(self) -> u8
        ensures { result ≡ kind_number self }
    {
        match self {
            Kind::CreateBucket => 0x01,
            Kind::SetVersioning => 0x02,
            Kind::SetRules => 0x03,
            Kind::DropRules => 0x04,
            Kind::Put => 0x05,
            Kind::Delete => 0x06,
            Kind::DeleteVersion => 0x07,
            Kind::SetTags => 0x08,
            Kind::StartUpload => 0x09,
            Kind::PutPart => 0x0A,
            Kind::Complete => 0x0B,
            Kind::Abort => 0x0C,
            Kind::Act => 0x0D,
            Kind::SetTariff => 0x0E,
            Kind::Close => 0x0F,
            Kind::SetTiers => 0x10,
        }
    }

    // The kind of a command.
    pub(crate) fn of_command(command: &Command) -> Kind
        ensures { result ≡ (parts_of command.now).kind }
    {
        match command {
            Command::CreateBucket { .. } => Kind::CreateBucket,
            Command::SetVersioning { .. } => Kind::SetVersioning,
            Command::SetRules { .. } => Kind::SetRules,
            Command::DropRules { .. } => Kind::DropRules,
            Command::Put { .. } => Kind::Put,
            Command::Delete { .. } => Kind::Delete,
            Command::DeleteVersion { .. } => Kind::DeleteVersion,
            Command::SetTags { .. } => Kind::SetTags,
            Command::StartUpload { .. } => Kind::StartUpload,
            Command::PutPart { .. } => Kind::PutPart,
            Command::Complete { .. } => Kind::Complete,
            Command::Abort { .. } => Kind::Abort,
            Command::Act { .. } => Kind::Act,
            Command::SetTariff { tariff } => {
                if is_plain(tariff.get()) {
                    Kind::SetTariff
                } else {
                    Kind::SetTiers
                }
            }
            Command::Close { .. } => Kind::Close,
        }
    }

    // Whether a token may follow the kind.
    fn carries_token(self) -> bool
        ensures { result ≡ carries_token self }
    {
        match self {
            Kind::SetRules | Kind::Act | Kind::SetTariff | Kind::SetTiers => false,
            _ => true,
        }
    }

    // The number of the kind, with or without a token after it.
    pub(crate) fn head(self, token: bool) -> u8
        ensures { result ≡ head_number (self, token) }
    {
        if token {
            self.number() + 0x80
        } else {
            self.number()
        }
    }

    // The kind of a command that begins with this number, and whether a token follows.
    pub(crate) fn of_head(number: u8) -> Option<(Kind, bool)>
        ensures { result ≡ heads.value number }
    {
        if number < 0x80 {
            return match Kind::of(number) {
                Some(kind) => Some((kind, false)),
                None => None,
            };
        }
        match Kind::of(number - 0x80) {
            Some(kind) => {
                if kind.carries_token() {
                    Some((kind, true))
                } else {
                    None
                }
            }
            None => None,
        }
    }
}
