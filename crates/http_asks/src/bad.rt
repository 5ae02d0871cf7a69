// Why a request asks nothing.
ghost use Rattle.std.specs.Prelude.{◌≡◌, Some, IsSomeAnd};
ghost use Rattle.http_bodies.specs.Flaws.{body_flaw_of};
ghost use Rattle.http_asks.specs.Faults.{OnBroken};
ghost use Rattle.http_asks.specs.Meaning.{in_body, in_rules, in_tariff};
ghost use Rattle.rules_json.specs.Faults.{told_fault};
ghost use Rattle.tariff.specs.Faults.{tariff_flaw_of};

use http_bodies::BodyFault;
use http_wire::FramingRefusal;
use rules_json::RulesFault;
use std::alloc::AllocError;
use tariff::TariffFault;

/// Refusals that the text of a message alone decides. Running out of memory is never heard as one of them.
#[derive(Drop)]
pub enum Bad {
    /// The framing of the message is refused. It is the last of its session.
    Framing(FramingRefusal),
    /// The target does not begin with `/`, has a `?`, or leads nowhere.
    NoRoute,
    /// The resource does not serve the method.
    BadMethod,
    /// The text is not `YYYY-MM`, or not a month from 1970-01 to 2099-12.
    NotAMonth,
    /// The part of the path is not a bucket name.
    BadBucketName,
    /// The part of the path, percent-decoded, is not a key.
    BadKey,
    /// The part of the path is not the id of a version.
    NoSuchVersion,
    /// The part of the path is not the number of an upload.
    NoSuchUpload,
    /// The part of the path is not 1 to 5 digits.
    BadPart,
    /// The body breaks a rule.
    Body(BodyFault),
    /// The body breaks a rule of lifecycle configurations.
    Rules(RulesFault),
    /// The body breaks a rule of tariffs.
    Tariff(TariffFault),
    /// A command has two fields Office-Token, or one whose value is not a token.
    BadToken,
    /// A command has a token and may not carry one.
    TokenNotServed,
}

/// Why a request was not read as an ask.
#[derive(Drop)]
pub(crate) enum Fault {
    /// It breaks a rule.
    Bad(Bad),
    /// Memory ran out.
    NoMemory,
}

impl From<AllocError> for Fault {
    ghost use Rattle.std.specs.Prelude.{◌≡◌};
    ghost use Rattle.http_asks.specs.declared.bad.Fault.TheVariants.{NoMemory};

    ghost from_gives = { λ _ e. e ≡ NoMemory };

    fn from(_error: AllocError) -> Fault {
        Fault::NoMemory
    }
}

impl From<BodyFault> for Fault {
    ghost from_gives = { λ fault told. OnBroken told
        (λ broken. IsSomeAnd (body_flaw_of fault) (λ flaw. broken ≡ Some (in_body flaw))) };

    #[tactic(auto, using(crate::proofs::AskLemmas::body_told))]
    fn from(fault: BodyFault) -> Fault {
        match fault {
            BodyFault::NoMemory => Fault::NoMemory,
            told => Fault::Bad(Bad::Body(told)),
        }
    }
}

impl From<RulesFault> for Fault {
    ghost from_gives = { λ fault told. OnBroken told
        (λ broken. IsSomeAnd (told_fault fault) (λ flaw. broken ≡ Some (in_rules flaw))) };

    #[tactic(auto, using(crate::proofs::AskLemmas::rules_told))]
    fn from(fault: RulesFault) -> Fault {
        match fault {
            RulesFault::NoMemory => Fault::NoMemory,
            told => Fault::Bad(Bad::Rules(told)),
        }
    }
}

impl From<TariffFault> for Fault {
    ghost from_gives = { λ fault told. OnBroken told
        (λ broken. IsSomeAnd (tariff_flaw_of fault) (λ flaw. broken ≡ Some (in_tariff flaw))) };

    #[tactic(auto, using(crate::proofs::AskLemmas::tariff_told))]
    fn from(fault: TariffFault) -> Fault {
        match fault {
            TariffFault::NoMemory => Fault::NoMemory,
            told => Fault::Bad(Bad::Tariff(told)),
        }
    }
}
