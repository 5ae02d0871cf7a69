// What is asked of an object and its versions.
ghost use Rattle.http_asks.specs.Faults.{IsMeaning};
ghost use Rattle.http_asks.specs.Meaning.{put_meant, stack_meant, delete_meant, remove_meant, set_tags_meant};
ghost use Rattle.http_asks.specs.Meaning.{object_meant, version_meant, tags_meant};

use crate::bad::{Bad, Fault};
use crate::bodies::{put_body, tags_body};
use crate::method::Method;
use crate::parts::{bucket_name, object_key, version_id};
use office_types::{Ask, Command, Query};
use std::alloc::Global;

// The ask of a PUT of an object.
fn put_ask(alloc: Global, name: &str, part: &str, body: &[u8]) -> Result<Ask, Fault>
    ensures { IsMeaning result (put_meant name.now part.now body.now) }
{
    let bucket = bucket_name(alloc, name)?;
    let key = object_key(alloc, part)?;
    let body = put_body(alloc, body)?;
    Ok(Ask::Command(Command::Put {
        bucket,
        key,
        size: body.size,
        class: body.class,
        tags: body.tags,
    }))
}

// The ask of a GET of an object.
fn stack_ask(alloc: Global, name: &str, part: &str) -> Result<Ask, Fault>
    ensures { IsMeaning result (stack_meant name.now part.now) }
{
    let bucket = bucket_name(alloc, name)?;
    let key = object_key(alloc, part)?;
    Ok(Ask::Query(Query::Stack(bucket, key)))
}

// The ask of a DELETE of an object.
fn delete_ask(alloc: Global, name: &str, part: &str) -> Result<Ask, Fault>
    ensures { IsMeaning result (delete_meant name.now part.now) }
{
    let bucket = bucket_name(alloc, name)?;
    let key = object_key(alloc, part)?;
    Ok(Ask::Command(Command::Delete { bucket, key }))
}

#[tactic(auto, unfolding(crate::specs::Meaning::object_meant))]
pub(crate) fn object_ask(
    alloc: Global,
    method: Method,
    name: &str,
    part: &str,
    body: &[u8],
) -> Result<Ask, Fault>
    ensures { IsMeaning result (object_meant method name.now part.now body.now) }
{
    match method {
        Method::Put => put_ask(alloc, name, part, body),
        Method::Get => stack_ask(alloc, name, part),
        Method::Delete => delete_ask(alloc, name, part),
        Method::Post | Method::Other => Err(Fault::Bad(Bad::BadMethod)),
    }
}

// The ask of a DELETE of a version.
fn remove_ask(alloc: Global, name: &str, id: &str, part: &str) -> Result<Ask, Fault>
    ensures { IsMeaning result (remove_meant name.now id.now part.now) }
{
    let bucket = bucket_name(alloc, name)?;
    let id = version_id(id)?;
    let key = object_key(alloc, part)?;
    Ok(Ask::Command(Command::DeleteVersion { bucket, key, id }))
}

#[tactic(auto, unfolding(crate::specs::Meaning::version_meant))]
pub(crate) fn version_ask(
    alloc: Global,
    method: Method,
    name: &str,
    id: &str,
    part: &str,
) -> Result<Ask, Fault>
    ensures { IsMeaning result (version_meant method name.now id.now part.now) }
{
    match method {
        Method::Delete => remove_ask(alloc, name, id, part),
        Method::Get | Method::Put | Method::Post | Method::Other => Err(Fault::Bad(Bad::BadMethod)),
    }
}

// The ask of a PUT of the tags of a version.
fn tagging_ask(alloc: Global, name: &str, id: &str, part: &str, body: &[u8]) -> Result<Ask, Fault>
    ensures { IsMeaning result (set_tags_meant name.now id.now part.now body.now) }
{
    let bucket = bucket_name(alloc, name)?;
    let id = version_id(id)?;
    let key = object_key(alloc, part)?;
    let tags = tags_body(alloc, body)?;
    Ok(Ask::Command(Command::SetTags {
        bucket,
        key,
        id,
        tags,
    }))
}

#[tactic(auto, unfolding(crate::specs::Meaning::tags_meant))]
pub(crate) fn tags_ask(
    alloc: Global,
    method: Method,
    name: &str,
    id: &str,
    part: &str,
    body: &[u8],
) -> Result<Ask, Fault>
    ensures { IsMeaning result (tags_meant method name.now id.now part.now body.now) }
{
    match method {
        Method::Put => tagging_ask(alloc, name, id, part, body),
        Method::Get | Method::Post | Method::Delete | Method::Other => Err(Fault::Bad(
            Bad::BadMethod,
        )),
    }
}
