// What a message means, in words.
use class_rules::Class;
use http_asks::{Bad, FramingRefusal};
use http_bodies::BodyFault;
use moments::Month;
use office_base::{BucketName, Key, Size, Tags, VersionId};
use office_types::{Command, Query};
use rules_core::{RuleFlaw, RuleSet};
use rules_json::RulesFault;
use std::test::Fail;
use tariff::{Tariff, TariffFault, TariffTable, Tiers};

// A word of what a message means.
#[derive(Clone, Copy)]
pub(crate) enum Word<'a> {
    Text(&'a str),
    Bucket(&'a BucketName),
    Key(&'a Key),
    Class(Class),
    Table(TariffTable),
    Flag(bool),
    Id(VersionId),
    Number(u64),
    Size(Size),
    // The number of rules.
    Rules(&'a RuleSet),
    Tags(&'a Tags),
    Prices(&'a Tariff),
    Month(Month),
    Flaw(RuleFlaw),
    Nothing,
}

// What a message means: a name, and the words after it.
pub(crate) type Meaning<'a> = (&'static str, [Word<'a>; 5]);

pub(crate) const NO: Word<'static> = Word::Nothing;

pub(crate) fn meant_by_command(command: &Command) -> Meaning<'_> {
    match command {
        Command::CreateBucket { bucket } => (
            "CreateBucket",
            [Word::Bucket(bucket), NO, NO, NO, NO],
        ),
        Command::SetVersioning { bucket, enabled } => {
            (
                "SetVersioning",
                [Word::Bucket(bucket), Word::Flag(*enabled), NO, NO, NO],
            )
        }
        Command::SetRules { bucket, rules } => {
            (
                "SetRules",
                [Word::Bucket(bucket), Word::Rules(rules), NO, NO, NO],
            )
        }
        Command::DropRules { bucket } => ("DropRules", [Word::Bucket(bucket), NO, NO, NO, NO]),
        Command::Act { bucket } => ("Act", [Word::Bucket(bucket), NO, NO, NO, NO]),
        Command::Put {
            bucket,
            key,
            size,
            class,
            tags,
        } => (
            "Put",
            [
                Word::Bucket(bucket),
                Word::Key(key),
                Word::Size(*size),
                Word::Class(*class),
                Word::Tags(tags),
            ],
        ),
        Command::Delete { bucket, key } => (
            "Delete",
            [Word::Bucket(bucket), Word::Key(key), NO, NO, NO],
        ),
        Command::DeleteVersion { bucket, key, id } => {
            (
                "DeleteVersion",
                [Word::Bucket(bucket), Word::Key(key), Word::Id(*id), NO, NO],
            )
        }
        Command::SetTags {
            bucket,
            key,
            id,
            tags,
        } => {
            (
                "SetTags",
                [
                    Word::Bucket(bucket),
                    Word::Key(key),
                    Word::Id(*id),
                    Word::Tags(tags),
                    NO,
                ],
            )
        }
        Command::StartUpload {
            bucket,
            key,
            class,
            tags,
        } => (
            "StartUpload",
            [
                Word::Bucket(bucket),
                Word::Key(key),
                Word::Class(*class),
                Word::Tags(tags),
                NO,
            ],
        ),
        Command::PutPart {
            bucket,
            upload,
            part,
            size,
        } => (
            "PutPart",
            [
                Word::Bucket(bucket),
                Word::Number(*upload),
                Word::Number(u64::from(*part)),
                Word::Number(*size),
                NO,
            ],
        ),
        Command::Complete { bucket, upload } => {
            (
                "Complete",
                [Word::Bucket(bucket), Word::Number(*upload), NO, NO, NO],
            )
        }
        Command::Abort { bucket, upload } => {
            (
                "Abort",
                [Word::Bucket(bucket), Word::Number(*upload), NO, NO, NO],
            )
        }
        Command::SetTariff { tariff } => {
            let tariff = tariff.get();
            (
                "SetTariff",
                [Word::Month(tariff.from), Word::Prices(tariff), NO, NO, NO],
            )
        }
        Command::Close { month } => ("Close", [Word::Month(*month), NO, NO, NO, NO]),
    }
}

pub(crate) fn meant_by_query(query: &Query) -> Meaning<'_> {
    match query {
        Query::Bucket(bucket) => ("Bucket", [Word::Bucket(bucket), NO, NO, NO, NO]),
        Query::Rules(bucket) => ("Rules", [Word::Bucket(bucket), NO, NO, NO, NO]),
        Query::Stack(bucket, key) => ("Stack", [Word::Bucket(bucket), Word::Key(key), NO, NO, NO]),
        Query::Upload(bucket, upload) => {
            (
                "Upload",
                [Word::Bucket(bucket), Word::Number(*upload), NO, NO, NO],
            )
        }
        Query::Due(bucket) => ("Due", [Word::Bucket(bucket), NO, NO, NO, NO]),
        Query::Meters(bucket, month) => {
            (
                "Meters",
                [Word::Bucket(bucket), Word::Month(*month), NO, NO, NO],
            )
        }
        Query::Tariff => ("Tariff", [NO, NO, NO, NO, NO]),
        Query::Report(month) => ("Report", [Word::Month(*month), NO, NO, NO, NO]),
    }
}

fn meant_by_body(fault: &BodyFault) -> Meaning<'_> {
    match fault {
        BodyFault::BadBody { field } => ("BadBody", [Word::Text(field), NO, NO, NO, NO]),
        BodyFault::BadSize => ("BadSize", [NO, NO, NO, NO, NO]),
        BodyFault::UnsupportedClass { name } => (
            "UnsupportedClass",
            [Word::Text(name), NO, NO, NO, NO],
        ),
        BodyFault::BadTags => ("BadTags", [NO, NO, NO, NO, NO]),
        BodyFault::NoMemory => ("NoMemory", [NO, NO, NO, NO, NO]),
    }
}

fn meant_by_rules(fault: &RulesFault) -> Meaning<'_> {
    match fault {
        RulesFault::NotADate => ("NotADate", [NO, NO, NO, NO, NO]),
        RulesFault::NotMidnight => ("NotMidnight", [NO, NO, NO, NO, NO]),
        RulesFault::NotJson => ("NotJson", [NO, NO, NO, NO, NO]),
        RulesFault::UnknownField { name } => (
            "UnknownField",
            [Word::Text(name.as_str()), NO, NO, NO, NO],
        ),
        RulesFault::WrongShape { field } => (
            "WrongShape",
            [Word::Text(field.as_str()), NO, NO, NO, NO],
        ),
        RulesFault::UnsupportedClass { name } => {
            (
                "UnsupportedClass",
                [Word::Text(name.as_str()), NO, NO, NO, NO],
            )
        }
        RulesFault::Flaw { flaw, rule } => {
            (
                "Flaw",
                [
                    Word::Flaw(*flaw),
                    Word::Number(u64::from(*rule)),
                    NO,
                    NO,
                    NO,
                ],
            )
        }
        RulesFault::NoMemory => ("NoMemory", [NO, NO, NO, NO, NO]),
    }
}

fn meant_by_tariff(fault: &TariffFault) -> Meaning<'_> {
    match fault {
        TariffFault::NotToml => ("NotToml", [NO, NO, NO, NO, NO]),
        TariffFault::MissingClass { table, class } => (
            "MissingClass",
            [
                Word::Class(*class),
                Word::Text("in"),
                Word::Table(*table),
                NO,
                NO,
            ],
        ),
        TariffFault::BadPrice { table, class } => (
            "BadPrice",
            [
                Word::Class(*class),
                Word::Text("in"),
                Word::Table(*table),
                NO,
                NO,
            ],
        ),
        TariffFault::BadTiers { class } => ("BadTiers", [Word::Class(*class), NO, NO, NO, NO]),
        TariffFault::BadFrom => ("BadFrom", [NO, NO, NO, NO, NO]),
        TariffFault::UnknownField { name } => ("TariffField", [Word::Text(name), NO, NO, NO, NO]),
        TariffFault::NoMemory => ("NoMemory", [NO, NO, NO, NO, NO]),
    }
}

fn meant_by_framing(refusal: &FramingRefusal) -> Meaning<'_> {
    match refusal {
        FramingRefusal::BadHead => ("BadHead", [NO, NO, NO, NO, NO]),
        FramingRefusal::BodyTooLarge => ("BodyTooLarge", [NO, NO, NO, NO, NO]),
        FramingRefusal::ChunkedBody => ("ChunkedBody", [NO, NO, NO, NO, NO]),
        FramingRefusal::HeadTooLarge => ("HeadTooLarge", [NO, NO, NO, NO, NO]),
        FramingRefusal::CutShort => ("CutShort", [NO, NO, NO, NO, NO]),
    }
}

// The name of a refusal, and its details.
pub(crate) fn meant_by_bad(bad: &Bad) -> Meaning<'_> {
    match bad {
        Bad::Framing(refusal) => meant_by_framing(refusal),
        Bad::NoRoute => ("NoRoute", [NO, NO, NO, NO, NO]),
        Bad::BadMethod => ("BadMethod", [NO, NO, NO, NO, NO]),
        Bad::NotAMonth => ("NotAMonth", [NO, NO, NO, NO, NO]),
        Bad::BadBucketName => ("BadBucketName", [NO, NO, NO, NO, NO]),
        Bad::BadKey => ("BadKey", [NO, NO, NO, NO, NO]),
        Bad::NoSuchVersion => ("NoSuchVersion", [NO, NO, NO, NO, NO]),
        Bad::NoSuchUpload => ("NoSuchUpload", [NO, NO, NO, NO, NO]),
        Bad::BadPart => ("BadPart", [NO, NO, NO, NO, NO]),
        Bad::Body(fault) => meant_by_body(fault),
        Bad::Rules(fault) => meant_by_rules(fault),
        Bad::Tariff(fault) => meant_by_tariff(fault),
        Bad::BadToken => ("BadToken", [NO, NO, NO, NO, NO]),
        Bad::TokenNotServed => ("TokenNotServed", [NO, NO, NO, NO, NO]),
    }
}

fn key_text(key: &Key) -> &str {
    match str::from_utf8(key.bytes()) {
        Ok(text) => text,
        Err(_) => "no text",
    }
}

// The text of a word, if it is a text.
fn text_of<'a>(word: &Word<'a>) -> Option<&'a str> {
    match word {
        Word::Text(text) => Some(*text),
        Word::Bucket(bucket) => Some(bucket.text()),
        Word::Key(key) => Some(key_text(key)),
        Word::Class(class) => Some(class.name()),
        Word::Table(table) => Some(table.name()),
        Word::Flag(true) => Some("true"),
        Word::Flag(false) => Some("false"),
        Word::Id(VersionId::Null) => Some("null"),
        _ => None,
    }
}

// The number of a word, if it is a number.
fn number_of(word: &Word<'_>) -> Option<u64> {
    match word {
        Word::Id(VersionId::Number(number)) => Some(number.get()),
        Word::Number(number) => Some(*number),
        Word::Size(size) => Some(size.bytes()),
        Word::Rules(rules) => Some(rules.rules().len() as u64),
        _ => None,
    }
}

// The tiers of a class, each by its end and its price.
fn put_tiers(text: &mut String, tiers: &Tiers) -> Result<(), Fail> {
    for tier in tiers.list() {
        match tier.upto {
            Some(upto) => write!(text, " {upto}:{}", tier.price)?,
            None => write!(text, " {}", tier.price)?,
        }
    }
    Ok(())
}

fn put_word(text: &mut String, word: &Word<'_>) -> Result<(), Fail> {
    if let Some(word) = text_of(word) {
        write!(text, " {word}")?;
    }
    if let Some(number) = number_of(word) {
        write!(text, " {number}")?;
    }
    match word {
        Word::Tags(tags) => {
            for (key, value) in tags.pairs() {
                write!(text, " {key}={value}")?;
            }
        }
        Word::Prices(tariff) => {
            for tiers in &tariff.storage {
                put_tiers(text, tiers)?;
            }
            for price in &tariff.transition {
                write!(text, " {price}")?;
            }
        }
        Word::Month(month) => write!(text, " {}/{}", month.year(), month.month())?,
        Word::Flaw(flaw) => write!(text, " {flaw:?}")?,
        _ => {}
    }
    Ok(())
}

// Writes what a message means.
pub(crate) fn put(text: &mut String, meaning: &Meaning<'_>) -> Result<(), Fail> {
    let (name, words) = meaning;
    text.push_str(*name)?;
    for word in words {
        put_word(text, word)?;
    }
    Ok(())
}
