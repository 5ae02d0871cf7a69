// Reading the input as a lifecycle configuration.
ghost use Rattle.std.specs.Prelude.{◌≡◌, ◌⊎◌, ◌<◌, ◌++◌, ℕ, List, IfOk, IfErr, Ok, Err, length};
ghost use Rattle.std.specs.Io.KnownBytes.{Consumes, IsAtEnd};
ghost use Rattle.rules_json.specs.Reading.{rules_of};
ghost use Rattle.rules_json.specs.declared.fault.RulesFault.{RulesFault};
ghost use Rattle.http_wire.specs.Sources.{OnlyReads};
ghost use Rattle.http_front.specs.Counts.{stream_ends};
ghost use Rattle.http_front.specs.Texts.{flaw_number};
ghost use Rattle.office_commands.specs.Configuring.{IsWholeInput, IsTooLong, SaysRules, fault_number};

use http_wire::Source;
use rules_core::{RuleFlaw, RuleSet};
use rules_json::{RulesFault, read_rules};
use std::alloc::{AllocError, Global};

/// The most bytes of a configuration. Own rule: as many as the body of a message has at most.
const MOST_BYTES: usize = 1_048_576;

/// Why the input is not a configuration.
#[derive(Drop)]
pub enum ConfigurationFault {
    /// It has more than 1,048,576 bytes.
    TooLong,
    /// Its bytes are not a configuration.
    Refused(RulesFault),
    /// A read failed.
    ReadFault,
    /// Memory ran out.
    NoMemory,
}

impl From<AllocError> for ConfigurationFault {
    ghost use Rattle.std.specs.Prelude.{◌≡◌};
    ghost use Rattle.office_commands.specs.declared.configuration.ConfigurationFault.TheVariants.{NoMemory};

    ghost from_gives = { λ _ e. e ≡ NoMemory };

    fn from(_error: AllocError) -> ConfigurationFault {
        ConfigurationFault::NoMemory
    }
}

// Reads on, appends what was read to the bytes, and returns its length. 0 is the end.
fn read_on<S: Source>(input: &mut S, bytes: &mut Vec<u8>) -> Result<usize, ConfigurationFault>
    ensures took { IfOk result (λ count. (given : List ℕ) × (length given ≡ count)
        × (bytes.new.items ≡ bytes.old.items ++ given) × Consumes (S.left input.old) (S.left input.new) given) }
    ensures at_end { result ≡ Ok 0 → IsAtEnd (S.left input.new) }
    ensures faults { IfErr result (λ fault. (fault ≡ ConfigurationFault.ReadFault)
        ⊎ (fault ≡ ConfigurationFault.NoMemory)) }
    ensures only_reads { OnlyReads S.Source input.old input.new (result ≡ Err ConfigurationFault.ReadFault) }
{
    let mut piece = [0; 1_024];
    match input.read(&mut piece) {
        Ok(count) => {
            bytes.extend_from_slice(&piece[..count])?;
            Ok(count)
        }
        Err(_) => Err(ConfigurationFault::ReadFault),
    }
}

// Reads the input to its end, unless it has more bytes than a configuration may have.
fn read_whole<S: Source>(alloc: Global, input: &mut S) -> Result<Vec<u8>, ConfigurationFault>
    ensures whole { IfOk result (λ bytes. IsWholeInput (stream_ends (S.left input.old) (S.left input.new))
        bytes.items) }
    ensures too_long { result ≡ Err ConfigurationFault.TooLong
        → IsTooLong (stream_ends (S.left input.old) (S.left input.new)) }
    ensures faults { (fault : RulesFault) → result ≡ Err (ConfigurationFault.Refused fault) → ⊥ }
    ensures only_reads { OnlyReads S.Source input.old input.new (result ≡ Err ConfigurationFault.ReadFault) }
{
    let mut bytes = Vec::new(alloc);
    'taking: while bytes.len() <= MOST_BYTES {
        match read_on(input, &mut bytes) {
            Ok(0) => return Ok(bytes),
            Ok(_) => {}
            Err(fault) => return Err(fault),
        }
    }
    Err(ConfigurationFault::TooLong)
}

// The rules that the bytes spell.
fn rules_in(alloc: Global, bytes: &[u8]) -> Result<RuleSet, ConfigurationFault>
    ensures read { IfOk result (λ rules. rules_of bytes.now ≡ Ok rules) }
    ensures refused { (fault : RulesFault) → result ≡ Err (ConfigurationFault.Refused fault)
        → rules_of bytes.now ≡ Err fault }
    ensures only { (result ≡ Err ConfigurationFault.TooLong → ⊥)
        × (result ≡ Err ConfigurationFault.ReadFault → ⊥) }
{
    match read_rules(alloc, bytes) {
        Ok(rules) => Ok(rules),
        Err(RulesFault::NoMemory) => Err(ConfigurationFault::NoMemory),
        Err(fault) => Err(ConfigurationFault::Refused(fault)),
    }
}

/// Reads the input to its end, as a configuration of at most 1,048,576 bytes.
///
/// Cost: memory for the bytes, and the reading of JSON.
///
/// # Errors
///
/// `TooLong`: there are more bytes; at most 1,024 more are read. `Refused`: they are not a configuration. `ReadFault`:
/// a read failed. `NoMemory`: memory ran out.
pub(crate) fn read_configuration<S: Source>(
    alloc: Global,
    input: &mut S,
) -> Result<RuleSet, ConfigurationFault>
    ensures says { SaysRules (stream_ends (S.left input.old) (S.left input.new)) result }
    ensures only_reads { OnlyReads S.Source input.old input.new (result ≡ Err ConfigurationFault.ReadFault) }
{
    let bytes = read_whole(alloc, input)?;
    rules_in(alloc, &bytes)
}

fn flaw_number(flaw: RuleFlaw) -> u64
    ensures { result ≡ flaw_number flaw }
{
    match flaw {
        RuleFlaw::TooManyRules => 20,
        RuleFlaw::LongId => 21,
        RuleFlaw::DoubleId => 22,
        RuleFlaw::NoAction => 23,
        RuleFlaw::BadFilter => 24,
        RuleFlaw::BadSizeRange => 25,
        RuleFlaw::BadDays => 26,
        RuleFlaw::BadNewer => 27,
        RuleFlaw::EarlyInfrequent => 28,
        RuleFlaw::ExpiresTooSoon => 29,
        RuleFlaw::MixedDates => 30,
        RuleFlaw::BadOrder => 31,
        RuleFlaw::MarkerRule => 32,
        RuleFlaw::AbortFilter => 33,
        RuleFlaw::BadExpiration => 34,
    }
}

/// Gives the number of a fault, as in replies. Takes no memory.
pub(crate) fn fault_number(fault: &RulesFault) -> u64
    ensures { result ≡ fault_number fault.now }
{
    match fault {
        RulesFault::NotADate => 2,
        RulesFault::NotMidnight => 3,
        RulesFault::Flaw { flaw, .. } => flaw_number(*flaw),
        RulesFault::NotJson => 40,
        RulesFault::UnknownField { .. } => 41,
        RulesFault::WrongShape { .. } => 42,
        RulesFault::UnsupportedClass { .. } => 43,
        RulesFault::NoMemory => 115,
    }
}
