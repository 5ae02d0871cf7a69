// The parts of a path that have ranges.
ghost use Rattle.std.specs.Prelude.{◌≡◌, true, false, Some, IfOk, IfErr};
ghost use Rattle.office_base.specs.Keys.{is_key};
ghost use Rattle.office_base.specs.Names.{is_bucket_name};
ghost use Rattle.moments.specs.Dates.{is_month, year_in, month_in};
ghost use Rattle.moments.specs.Months.{month_number};
ghost use Rattle.http_routes.specs.Spelled.{key_of};
ghost use Rattle.http_asks.specs.Faults.{OnBroken, IsFromPath};
ghost use Rattle.http_asks.specs.Meaning.{bad_bucket_name, bad_key, not_a_month};
ghost use Rattle.http_asks.specs.Meaning.{no_such_version, no_such_upload, bad_part};
ghost use Rattle.http_asks.specs.Numbers.{number_in, version_in, are_digits, is_part_number, part_in};

use crate::bad::{Bad, Fault};
use http_routes::read_key;
use moments::{Month, read_month};
use office_base::{BucketName, Key, NameRefusal, VersionId};
use std::alloc::Global;

pub(crate) fn bucket_name(alloc: Global, part: &str) -> Result<BucketName, Fault>
    ensures ok { IfOk result (λ name. (name ≡ part.now) × (is_bucket_name part.now ≡ true)) }
    ensures err { IfErr result (λ fault. OnBroken fault
        (λ broken. (broken ≡ Some bad_bucket_name) × (is_bucket_name part.now ≡ false))) }
{
    match BucketName::read(alloc, part) {
        Ok(name) => Ok(name),
        Err(NameRefusal::BadBucketName) => Err(Fault::Bad(Bad::BadBucketName)),
        Err(NameRefusal::NoMemory) => Err(Fault::NoMemory),
        Err(_) => unreachable!(),
    }
}

pub(crate) fn object_key(alloc: Global, part: &str) -> Result<Key, Fault>
    ensures ok { IfOk result (λ key. (key ≡ key_of part.now) × (is_key (key_of part.now) ≡ true)) }
    ensures err { IfErr result (λ fault. OnBroken fault
        (λ broken. (broken ≡ Some bad_key) × (is_key (key_of part.now) ≡ false))) }
{
    match read_key(alloc, part.as_bytes()) {
        Ok(key) => Ok(key),
        Err(NameRefusal::BadKey) => Err(Fault::Bad(Bad::BadKey)),
        Err(NameRefusal::NoMemory) => Err(Fault::NoMemory),
        Err(_) => unreachable!(),
    }
}

pub(crate) fn month_of(part: &str) -> Result<Month, Fault>
    ensures ok { IfOk result (λ m. (m ≡ month_number (year_in part.now) (month_in part.now))
        × (is_month part.now ≡ true)) }
    ensures err { IfErr result (λ fault. OnBroken fault
        (λ broken. (broken ≡ Some not_a_month) × (is_month part.now ≡ false))) }
{
    match read_month(part) {
        Ok(month) => Ok(month),
        Err(_) => Err(Fault::Bad(Bad::NotAMonth)),
    }
}

#[tactic(auto, using(crate::proofs::NumberLemmas::no_version))]
pub(crate) fn version_id(part: &str) -> Result<VersionId, Fault>
    ensures { IsFromPath (version_in part.now) no_such_version result }
{
    match VersionId::read(part) {
        Some(id) => Ok(id),
        None => Err(Fault::Bad(Bad::NoSuchVersion)),
    }
}

// The number of an upload is spelled like that of a version.
#[tactic(auto, using(crate::proofs::NumberLemmas::upload_texts))]
pub(crate) fn upload_number(part: &str) -> Result<u64, Fault>
    ensures { IsFromPath (number_in part.now) no_such_upload result }
{
    match VersionId::read(part) {
        Some(id) => match id {
            VersionId::Number(number) => Ok(number.get()),
            VersionId::Null => Err(Fault::Bad(Bad::NoSuchUpload)),
        },
        None => Err(Fault::Bad(Bad::NoSuchUpload)),
    }
}

fn are_digits(text: &str) -> bool
    ensures { result ≡ are_digits text.now }
{
    text.as_bytes().iter().all(|byte| byte.is_ascii_digit())
}

// Whether the text is 1 to 5 digits.
fn is_part_number(text: &str) -> bool
    ensures { result ≡ is_part_number text.now }
{
    !text.is_empty() && text.len() <= 5 && are_digits(text)
}

#[tactic(auto, using(crate::proofs::NumberLemmas::part_read), unfolding(crate::specs::Numbers::part_in))]
pub(crate) fn part_number(part: &str) -> Result<u32, Fault>
    ensures { IsFromPath (part_in part.now) bad_part result }
{
    if !is_part_number(part) {
        return Err(Fault::Bad(Bad::BadPart));
    }
    match part.parse::<u32>() {
        Ok(number) => Ok(number),
        Err(_) => Err(Fault::Bad(Bad::BadPart)),
    }
}
