// How much there is of each kind that has a limit.
ghost use Rattle.std.specs.Prelude.{◌≡◌, None, nat_lt, IfOk, IfErr};
ghost use Rattle.plain_office.specs.Counts.{limit_of};
ghost use Rattle.bucket_account.specs.Counting.{amount, first_over, IsFullOf};

use office_types::{Refusal, What};

/// How much there is of each kind that has a limit, in all buckets together, and tariffs.
#[derive(Clone, Copy)]
pub struct Counts {
    pub buckets: u64,
    /// Delete markers count too.
    pub versions: u64,
    pub uploads: u64,
    pub parts: u64,
    /// The bytes of keys and tags.
    pub names: u64,
    /// The bytes of printed configurations.
    pub rules: u64,
    pub tariffs: u64,
}

/// Nothing at all.
pub const NOTHING: Counts = Counts {
    buckets: 0,
    versions: 0,
    uploads: 0,
    parts: 0,
    names: 0,
    rules: 0,
    tariffs: 0,
};

/// The most of a kind in all buckets together. Own rule: the limits keep every sum of the meters below 2^128.
fn limit(what: What) -> u64
    ensures { result ≡ limit_of what }
{
    match what {
        What::Buckets => 1_000,
        What::Versions => 200_000,
        What::Uploads => 20_000,
        What::Parts => 500_000,
        What::Names => 536_870_912,
        What::Rules => 67_108_864,
        What::Tariffs => 100,
    }
}

impl Counts {
    /// Reads how much there is of a kind.
    fn of(self, what: What) -> u64
        ensures { result ≡ amount what self }
    {
        match what {
            What::Buckets => self.buckets,
            What::Versions => self.versions,
            What::Uploads => self.uploads,
            What::Parts => self.parts,
            What::Names => self.names,
            What::Rules => self.rules,
            What::Tariffs => self.tariffs,
        }
    }

    /// Whether there is more of a kind than its limit.
    fn is_over(self, what: What) -> bool
        ensures { result ≡ nat_lt (limit_of what) (amount what self) }
    {
        self.of(what) > limit(what)
    }

    /// Returns the first of these that is above its limit.
    fn first_above(self, whats: &[What]) -> Option<What>
        ensures { result ≡ first_over whats.now self }
    {
        whats.iter().copied().find(|what| self.is_over(*what))
    }

    /// Returns the same counts, or refuses them for the first of these that is above its limit.
    ///
    /// # Errors
    ///
    /// `Full`: there is more of this kind than its limit.
    pub fn within(self, whats: &[What]) -> Result<Counts, Refusal>
        ensures ok { IfOk result (λ same. (same ≡ self) × (first_over whats.now self ≡ None)) }
        ensures full { IfErr result (λ refusal. IsFullOf whats.now self refusal) }
    {
        match self.first_above(whats) {
            Some(what) => Err(Refusal::Full {
                what,
                limit: limit(what),
            }),
            None => Ok(self),
        }
    }
}
