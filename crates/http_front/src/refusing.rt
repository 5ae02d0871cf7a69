// Replies to messages that have no answer of the office.
ghost use Rattle.std.specs.Prelude.{◌≡◌, ◌++◌, option_map, IfOk};
ghost use Rattle.http_asks.specs.Faults.{refused_of};
ghost use Rattle.http_asks.specs.Meaning.{in_body, in_rules, in_tariff};
ghost use Rattle.http_bodies.specs.Flaws.{body_flaw_of};
ghost use Rattle.rules_json.specs.Faults.{told_fault};
ghost use Rattle.tariff.specs.Faults.{tariff_flaw_of};
ghost use Rattle.http_text.specs.Replies.{head_text};
ghost use Rattle.http_text.specs.Room.{Puts};
ghost use Rattle.http_front.specs.Texts.{framing_body, framing_status};
ghost use Rattle.http_front.specs.Texts.{bad_text_of, told_body, told_status, told_text};
ghost use Rattle.http_front.specs.Texts.{class_text, field_text, flaw_name, flaw_number, named_text, price_text};
ghost use Rattle.http_front.specs.Texts.{rule_text};

use crate::bad::Bad;
use crate::printing::print_call;
use class_rules::Class;
use http::StatusCode;
use http_asks::FramingRefusal;
use http_bodies::BodyFault;
use http_text::{put, put_error, put_head, put_number, put_quoted};
use office_base::NoMemory;
use rules_core::RuleFlaw;
use rules_json::RulesFault;
use std::alloc::Global;
use tariff::{TariffFault, TariffTable};

fn framing_status(refusal: FramingRefusal) -> StatusCode
    ensures { result ≡ framing_status refusal }
{
    match refusal {
        FramingRefusal::BadHead | FramingRefusal::CutShort => StatusCode::BAD_REQUEST,
        FramingRefusal::BodyTooLarge => StatusCode::PAYLOAD_TOO_LARGE,
        FramingRefusal::ChunkedBody => StatusCode::NOT_IMPLEMENTED,
        FramingRefusal::HeadTooLarge => StatusCode::REQUEST_HEADER_FIELDS_TOO_LARGE,
    }
}

#[tactic(auto, using(crate::proofs::RefusalLemmas::bad_requests))]
fn status(bad: &http_asks::Bad) -> StatusCode
    ensures { result ≡ told_status (refused_of bad.now) }
{
    match bad {
        http_asks::Bad::Framing(refusal) => framing_status(*refusal),
        http_asks::Bad::NoRoute | http_asks::Bad::NoSuchVersion | http_asks::Bad::NoSuchUpload =>
            StatusCode::NOT_FOUND,
        http_asks::Bad::BadMethod => StatusCode::METHOD_NOT_ALLOWED,
        http_asks::Bad::BadPart => StatusCode::CONFLICT,
        http_asks::Bad::Body(fault) => match fault {
            BodyFault::NoMemory => StatusCode::INTERNAL_SERVER_ERROR,
            _ => StatusCode::BAD_REQUEST,
        },
        http_asks::Bad::Rules(fault) => match fault {
            RulesFault::NoMemory => StatusCode::INTERNAL_SERVER_ERROR,
            _ => StatusCode::BAD_REQUEST,
        },
        http_asks::Bad::Tariff(fault) => match fault {
            TariffFault::NoMemory => StatusCode::INTERNAL_SERVER_ERROR,
            _ => StatusCode::BAD_REQUEST,
        },
        http_asks::Bad::NotAMonth
        | http_asks::Bad::BadBucketName
        | http_asks::Bad::BadKey
        | http_asks::Bad::BadToken
        | http_asks::Bad::TokenNotServed => StatusCode::BAD_REQUEST,
    }
}

// A refusal that tells a name.
fn put_named(room: &mut [u8], at: usize, error: &str, number: u64, name: &str) -> usize
    ensures { Puts room.old at room.new result (named_text error.now number name.now) }
{
    let at = put(room, at, b"{\"error\":");
    let at = put_quoted(room, at, error.as_bytes());
    let at = put(room, at, b",\"name\":");
    let at = put_quoted(room, at, name.as_bytes());
    let at = put(room, at, b",\"number\":");
    let at = put_number(room, at, number);
    put(room, at, b"}")
}

// A refusal that tells the field that is wrong.
fn put_field(room: &mut [u8], at: usize, error: &str, number: u64, field: &str) -> usize
    ensures { Puts room.old at room.new result (field_text error.now number field.now) }
{
    let at = put(room, at, b"{\"error\":");
    let at = put_quoted(room, at, error.as_bytes());
    let at = put(room, at, b",\"field\":");
    let at = put_quoted(room, at, field.as_bytes());
    let at = put(room, at, b",\"number\":");
    let at = put_number(room, at, number);
    put(room, at, b"}")
}

fn flaw_name(flaw: RuleFlaw) -> &'static str
    ensures { result.now ≡ flaw_name flaw }
{
    match flaw {
        RuleFlaw::TooManyRules => "TooManyRules",
        RuleFlaw::LongId => "LongId",
        RuleFlaw::DoubleId => "DoubleId",
        RuleFlaw::NoAction => "NoAction",
        RuleFlaw::BadFilter => "BadFilter",
        RuleFlaw::BadSizeRange => "BadSizeRange",
        RuleFlaw::BadDays => "BadDays",
        RuleFlaw::BadNewer => "BadNewer",
        RuleFlaw::EarlyInfrequent => "EarlyInfrequent",
        RuleFlaw::ExpiresTooSoon => "ExpiresTooSoon",
        RuleFlaw::MixedDates => "MixedDates",
        RuleFlaw::BadOrder => "BadOrder",
        RuleFlaw::MarkerRule => "MarkerRule",
        RuleFlaw::AbortFilter => "AbortFilter",
        RuleFlaw::BadExpiration => "BadExpiration",
    }
}

fn flaw_number(flaw: RuleFlaw) -> u64
    ensures { result ≡ flaw_number flaw }
{
    match flaw {
        RuleFlaw::TooManyRules => 20,
        RuleFlaw::LongId => 21,
        RuleFlaw::DoubleId => 22,
        RuleFlaw::NoAction => 23,
        RuleFlaw::BadFilter => 24,
        RuleFlaw::BadSizeRange => 25,
        RuleFlaw::BadDays => 26,
        RuleFlaw::BadNewer => 27,
        RuleFlaw::EarlyInfrequent => 28,
        RuleFlaw::ExpiresTooSoon => 29,
        RuleFlaw::MixedDates => 30,
        RuleFlaw::BadOrder => 31,
        RuleFlaw::MarkerRule => 32,
        RuleFlaw::AbortFilter => 33,
        RuleFlaw::BadExpiration => 34,
    }
}

// The condition that a rule breaks, and the place of the rule.
fn put_flaw(room: &mut [u8], at: usize, flaw: RuleFlaw, rule: u32) -> usize
    ensures { Puts room.old at room.new result (rule_text (flaw_name flaw) (flaw_number flaw) rule) }
{
    let at = put(room, at, b"{\"error\":");
    let at = put_quoted(room, at, flaw_name(flaw).as_bytes());
    let at = put(room, at, b",\"number\":");
    let at = put_number(room, at, flaw_number(flaw));
    let at = put(room, at, b",\"rule\":");
    let at = put_number(room, at, u64::from(rule));
    put(room, at, b"}")
}

// A refusal that tells a class.
fn put_class(room: &mut [u8], at: usize, error: &str, number: u64, class: Class) -> usize
    ensures { Puts room.old at room.new result (class_text error.now number class) }
{
    let at = put(room, at, b"{\"class\":");
    let at = put_quoted(room, at, class.name().as_bytes());
    let at = put(room, at, b",\"error\":");
    let at = put_quoted(room, at, error.as_bytes());
    let at = put(room, at, b",\"number\":");
    let at = put_number(room, at, number);
    put(room, at, b"}")
}

// What a table of a tariff has for a class, where it is no price.
fn put_price(
    room: &mut [u8],
    at: usize,
    error: &str,
    number: u64,
    table: TariffTable,
    class: Class,
) -> usize
    ensures { Puts room.old at room.new result (price_text error.now number table class) }
{
    let at = put(room, at, b"{\"class\":");
    let at = put_quoted(room, at, class.name().as_bytes());
    let at = put(room, at, b",\"error\":");
    let at = put_quoted(room, at, error.as_bytes());
    let at = put(room, at, b",\"number\":");
    let at = put_number(room, at, number);
    let at = put(room, at, b",\"table\":");
    let at = put_quoted(room, at, table.name().as_bytes());
    put(room, at, b"}")
}

fn put_framing(room: &mut [u8], at: usize, refusal: FramingRefusal) -> usize
    ensures { Puts room.old at room.new result (framing_body refusal) }
{
    match refusal {
        FramingRefusal::BadHead => put_error(room, at, "BadHead", 120),
        FramingRefusal::BodyTooLarge => put_error(room, at, "BodyTooLarge", 124),
        FramingRefusal::ChunkedBody => put_error(room, at, "ChunkedBody", 125),
        FramingRefusal::HeadTooLarge => put_error(room, at, "HeadTooLarge", 126),
        FramingRefusal::CutShort => put_error(room, at, "CutShort", 127),
    }
}

fn put_body_fault(room: &mut [u8], at: usize, fault: &BodyFault) -> usize
    ensures { Puts room.old at room.new result (told_body (option_map in_body (body_flaw_of fault.now))) }
{
    match fault {
        BodyFault::BadTags => put_error(room, at, "BadTags", 12),
        BodyFault::BadSize => put_error(room, at, "BadSize", 13),
        BodyFault::UnsupportedClass { name } => put_named(room, at, "UnsupportedClass", 43, name),
        BodyFault::BadBody { field } => put_field(room, at, "BadBody", 123, field),
        BodyFault::NoMemory => put_error(room, at, "NoMemory", 115),
    }
}

fn put_rules_fault(room: &mut [u8], at: usize, fault: &RulesFault) -> usize
    ensures { Puts room.old at room.new result (told_body (option_map in_rules (told_fault fault.now))) }
{
    match fault {
        RulesFault::NotADate => put_error(room, at, "NotADate", 2),
        RulesFault::NotMidnight => put_error(room, at, "NotMidnight", 3),
        RulesFault::Flaw { flaw, rule } => put_flaw(room, at, *flaw, *rule),
        RulesFault::NotJson => put_error(room, at, "NotJson", 40),
        RulesFault::UnknownField { name } => {
            put_named(room, at, "UnknownField", 41, name.as_str())
        }
        RulesFault::WrongShape { field } => put_field(room, at, "WrongShape", 42, field.as_str()),
        RulesFault::UnsupportedClass { name } => {
            put_named(room, at, "UnsupportedClass", 43, name.as_str())
        }
        RulesFault::NoMemory => put_error(room, at, "NoMemory", 115),
    }
}

fn put_tariff_fault(room: &mut [u8], at: usize, fault: &TariffFault) -> usize
    ensures { Puts room.old at room.new result (told_body (option_map in_tariff (tariff_flaw_of fault.now))) }
{
    match fault {
        TariffFault::NotToml => put_error(room, at, "NotToml", 70),
        TariffFault::MissingClass { table, class } => {
            put_price(room, at, "MissingClass", 71, *table, *class)
        }
        TariffFault::BadPrice { table, class } => {
            put_price(room, at, "BadPrice", 72, *table, *class)
        }
        TariffFault::UnknownField { name } => put_named(room, at, "UnknownField", 73, name),
        TariffFault::BadTiers { class } => put_class(room, at, "BadTiers", 74, *class),
        TariffFault::BadFrom => put_error(room, at, "BadFrom", 75),
        TariffFault::NoMemory => put_error(room, at, "NoMemory", 115),
    }
}

fn put_body(room: &mut [u8], at: usize, bad: &http_asks::Bad) -> usize
    ensures { Puts room.old at room.new result (told_body (refused_of bad.now)) }
{
    match bad {
        http_asks::Bad::Framing(refusal) => put_framing(room, at, *refusal),
        http_asks::Bad::NoRoute => put_error(room, at, "NoRoute", 121),
        http_asks::Bad::BadMethod => put_error(room, at, "BadMethod", 122),
        http_asks::Bad::NotAMonth => put_error(room, at, "NotAMonth", 4),
        http_asks::Bad::BadBucketName => put_error(room, at, "BadBucketName", 10),
        http_asks::Bad::BadKey => put_error(room, at, "BadKey", 11),
        http_asks::Bad::NoSuchVersion => put_error(room, at, "NoSuchVersion", 51),
        http_asks::Bad::NoSuchUpload => put_error(room, at, "NoSuchUpload", 60),
        http_asks::Bad::BadPart => put_error(room, at, "BadPart", 61),
        http_asks::Bad::Body(fault) => put_body_fault(room, at, fault),
        http_asks::Bad::Rules(fault) => put_rules_fault(room, at, fault),
        http_asks::Bad::Tariff(fault) => put_tariff_fault(room, at, fault),
        http_asks::Bad::BadToken => put_error(room, at, "BadToken", 128),
        http_asks::Bad::TokenNotServed => put_error(room, at, "TokenNotServed", 129),
    }
}

// Writes the reply, whose head says that the body has so many bytes, at the front of a room.
fn put_reply(room: &mut [u8], bad: &http_asks::Bad, size: usize) -> usize
    ensures { Puts room.old 0 room.new result (head_text (told_status (refused_of bad.now)) size
        ++ told_body (refused_of bad.now)) }
{
    let at = put_head(room, 0, status(bad), size);
    put_body(room, at, bad)
}

// Prints the reply to a message that is refused.
fn print_refusal(alloc: Global, bad: &http_asks::Bad) -> Result<Vec<u8>, NoMemory>
    ensures text { IfOk result (λ v. v.items ≡ told_text (refused_of bad.now)) }
{
    let size = put_body(&mut [], 0, bad);
    let whole = put_reply(&mut [], bad, size);
    let Ok(mut text) = vec![in alloc; 0u8; whole] else {
        return Err(NoMemory);
    };
    put_reply(text.as_mut_slice(), bad, size);
    Ok(text)
}

/// Prints the reply to a message that has no answer of the office into memory of exactly its size.
///
/// # Errors
///
/// `NoMemory`: memory ran out.
pub fn print_bad(alloc: Global, bad: &Bad) -> Result<Vec<u8>, NoMemory>
    ensures text { IfOk result (λ v. v.items ≡ bad_text_of bad.now) }
{
    match bad {
        Bad::Message(bad) => print_refusal(alloc, bad),
        Bad::Desk(fault) => print_call(alloc, fault),
    }
}
