// What is asked of a bucket as a whole.
ghost use Rattle.http_asks.specs.Faults.{IsMeaning};
ghost use Rattle.http_asks.specs.Meaning.{set_rules_meant};
ghost use Rattle.http_asks.specs.Meaning.{bucket_meant, versioning_meant, lifecycle_meant};
ghost use Rattle.http_asks.specs.Meaning.{act_meant, due_meant, meters_meant};

use crate::bad::{Bad, Fault};
use crate::bodies::{rules_body, status_body};
use crate::method::Method;
use crate::parts::{bucket_name, month_of};
use office_types::{Ask, Command, Query};
use std::alloc::Global;

#[tactic(auto, unfolding(crate::specs::Meaning::bucket_meant))]
pub(crate) fn bucket_ask(alloc: Global, method: Method, name: &str) -> Result<Ask, Fault>
    ensures { IsMeaning result (bucket_meant method name.now) }
{
    match method {
        Method::Put => {
            let bucket = bucket_name(alloc, name)?;
            Ok(Ask::Command(Command::CreateBucket { bucket }))
        }
        Method::Get => {
            let bucket = bucket_name(alloc, name)?;
            Ok(Ask::Query(Query::Bucket(bucket)))
        }
        Method::Post | Method::Delete | Method::Other => Err(Fault::Bad(Bad::BadMethod)),
    }
}

#[tactic(auto, unfolding(crate::specs::Meaning::versioning_meant))]
pub(crate) fn versioning_ask(
    alloc: Global,
    method: Method,
    name: &str,
    body: &[u8],
) -> Result<Ask, Fault>
    ensures { IsMeaning result (versioning_meant method name.now body.now) }
{
    match method {
        Method::Put => {
            let bucket = bucket_name(alloc, name)?;
            let enabled = status_body(alloc, body)?;
            Ok(Ask::Command(Command::SetVersioning { bucket, enabled }))
        }
        Method::Get | Method::Post | Method::Delete | Method::Other => Err(Fault::Bad(
            Bad::BadMethod,
        )),
    }
}

// The ask of a PUT of a lifecycle configuration.
fn rules_ask(alloc: Global, name: &str, body: &[u8]) -> Result<Ask, Fault>
    ensures { IsMeaning result (set_rules_meant name.now body.now) }
{
    let bucket = bucket_name(alloc, name)?;
    let rules = rules_body(alloc, body)?;
    Ok(Ask::Command(Command::SetRules { bucket, rules }))
}

#[tactic(auto, unfolding(crate::specs::Meaning::lifecycle_meant))]
pub(crate) fn lifecycle_ask(
    alloc: Global,
    method: Method,
    name: &str,
    body: &[u8],
) -> Result<Ask, Fault>
    ensures { IsMeaning result (lifecycle_meant method name.now body.now) }
{
    match method {
        Method::Put => rules_ask(alloc, name, body),
        Method::Get => {
            let bucket = bucket_name(alloc, name)?;
            Ok(Ask::Query(Query::Rules(bucket)))
        }
        Method::Delete => {
            let bucket = bucket_name(alloc, name)?;
            Ok(Ask::Command(Command::DropRules { bucket }))
        }
        Method::Post | Method::Other => Err(Fault::Bad(Bad::BadMethod)),
    }
}

#[tactic(auto, unfolding(crate::specs::Meaning::act_meant))]
pub(crate) fn act_ask(alloc: Global, method: Method, name: &str) -> Result<Ask, Fault>
    ensures { IsMeaning result (act_meant method name.now) }
{
    match method {
        Method::Post => {
            let bucket = bucket_name(alloc, name)?;
            Ok(Ask::Command(Command::Act { bucket }))
        }
        Method::Get | Method::Put | Method::Delete | Method::Other => Err(Fault::Bad(
            Bad::BadMethod,
        )),
    }
}

#[tactic(auto, unfolding(crate::specs::Meaning::due_meant))]
pub(crate) fn due_ask(alloc: Global, method: Method, name: &str) -> Result<Ask, Fault>
    ensures { IsMeaning result (due_meant method name.now) }
{
    match method {
        Method::Get => {
            let bucket = bucket_name(alloc, name)?;
            Ok(Ask::Query(Query::Due(bucket)))
        }
        Method::Put | Method::Post | Method::Delete | Method::Other => Err(Fault::Bad(
            Bad::BadMethod,
        )),
    }
}

#[tactic(auto, unfolding(crate::specs::Meaning::meters_meant))]
pub(crate) fn meters_ask(
    alloc: Global,
    method: Method,
    name: &str,
    month: &str,
) -> Result<Ask, Fault>
    ensures { IsMeaning result (meters_meant method name.now month.now) }
{
    match method {
        Method::Get => {
            let bucket = bucket_name(alloc, name)?;
            let month = month_of(month)?;
            Ok(Ask::Query(Query::Meters(bucket, month)))
        }
        Method::Put | Method::Post | Method::Delete | Method::Other => Err(Fault::Bad(
            Bad::BadMethod,
        )),
    }
}
