// How the versions of a key are named.
ghost use Rattle.std.specs.Prelude.{◌≡◌, ◌≢◌, ◌<◌, ℕ, IfSome, IfNone, decimal};
ghost use Rattle.office_base.specs.declared.version_id.VersionId.{VersionId};
ghost use Rattle.office_base.specs.declared.version_id.VersionId.TheVariants.{Number};
ghost use Rattle.office_base.specs.Versions.{id_text, IsVersionId, begins_with_number};

use std::marker::Model;

/// A number from 1 to 2^64 - 1.
#[derive(Clone, Copy, Debug, PartialEq, Eq)]
pub struct Nth {
    number: u64,
}

impl Model for Nth {
    ghost use Rattle.std.specs.Prelude.{ℕ, ◌<◌};

    ghost Value = { ℕ };

    ghost view = { λ n. n.number };

    ghost invariant = { λ n. 0 < n.number };

    ghost inverse = { λ n. record { number = n } };
}

impl Nth {
    /// Gives the version number with this value; None for 0. Takes no memory.
    pub fn of(number: u64) -> Option<Nth>
        ensures some { IfSome result (λ n. (n ≡ number) × (0 < number)) }
        ensures none { IfNone result (number ≡ 0) }
    {
        if number == 0 {
            return None;
        }
        Some(Nth { number })
    }

    /// Reads the number.
    pub fn get(self) -> u64
        ensures same { result ≡ self }
        ensures from { 0 < result }
    {
        self.number
    }
}

/// The id of a version of a key.
///
/// Rule: S3 User Guide, "How S3 Versioning works": a version that was put while versioning was off or suspended has the
/// id `null`. Own rule: the other versions of a bucket are numbered from 1.
#[derive(Clone, Copy, Debug, PartialEq, Eq)]
pub enum VersionId {
    /// The null version.
    Null,
    /// The version of this number.
    Number(Nth),
}

impl VersionId {
    /// Reads an id: `null`, or digits without a leading zero from 1 to 2^64 - 1; None for any other text. Takes no
    /// memory.
    #[tactic(auto, using(crate::proofs::Versions::no_id))]
    pub fn read(text: &str) -> Option<VersionId>
        ensures found { IfSome result (λ id. IsVersionId id × (text.now ≡ id_text id)) }
        ensures none { IfNone result ((id : VersionId) → IsVersionId id → text.now ≢ id_text id) }
    {
        if text == "null" {
            return Some(VersionId::Null);
        }
        match number_of(text) {
            Some(number) => Some(VersionId::Number(number)),
            None => None,
        }
    }
}

// The number that a text writes in digits without a leading zero; at least 1.
fn number_of(text: &str) -> Option<Nth>
    ensures found { IfSome result (λ n. IsVersionId (Number n) × (text.now ≡ decimal n)) }
    ensures none { IfNone result ((n : ℕ) → IsVersionId (Number n) → text.now ≢ decimal n) }
{
    if !begins_with_digit_above_zero(text.as_bytes()) {
        return None;
    }
    match text.parse::<u64>() {
        Ok(number) => Some(Nth { number }),
        Err(_) => None,
    }
}

// The first byte is a digit from 1 to 9.
fn begins_with_digit_above_zero(text: &[u8]) -> bool
    ensures { result ≡ begins_with_number text.now }
{
    match text {
        [first, ..] => b'1' <= *first && *first <= b'9',
        [] => false,
    }
}
