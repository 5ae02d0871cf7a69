// What is asked of multipart uploads.
ghost use Rattle.http_asks.specs.Faults.{IsMeaning};
ghost use Rattle.http_asks.specs.Meaning.{start_meant, shown_meant, complete_meant, abort_meant, put_part_meant};
ghost use Rattle.http_asks.specs.Meaning.{uploads_meant, upload_meant, part_meant};

use crate::bad::{Bad, Fault};
use crate::bodies::{part_body, upload_body};
use crate::method::Method;
use crate::parts::{bucket_name, object_key, part_number, upload_number};
use office_types::{Ask, Command, Query};
use std::alloc::Global;

// The ask of a POST that starts an upload.
fn start_ask(alloc: Global, name: &str, part: &str, body: &[u8]) -> Result<Ask, Fault>
    ensures { IsMeaning result (start_meant name.now part.now body.now) }
{
    let bucket = bucket_name(alloc, name)?;
    let key = object_key(alloc, part)?;
    let body = upload_body(alloc, body)?;
    Ok(Ask::Command(Command::StartUpload {
        bucket,
        key,
        class: body.class,
        tags: body.tags,
    }))
}

#[tactic(auto, unfolding(crate::specs::Meaning::uploads_meant))]
pub(crate) fn uploads_ask(
    alloc: Global,
    method: Method,
    name: &str,
    part: &str,
    body: &[u8],
) -> Result<Ask, Fault>
    ensures { IsMeaning result (uploads_meant method name.now part.now body.now) }
{
    match method {
        Method::Post => start_ask(alloc, name, part, body),
        Method::Get | Method::Put | Method::Delete | Method::Other => Err(Fault::Bad(
            Bad::BadMethod,
        )),
    }
}

// The ask of a GET of an upload.
fn shown_ask(alloc: Global, name: &str, id: &str) -> Result<Ask, Fault>
    ensures { IsMeaning result (shown_meant name.now id.now) }
{
    let bucket = bucket_name(alloc, name)?;
    let upload = upload_number(id)?;
    Ok(Ask::Query(Query::Upload(bucket, upload)))
}

// The ask of a POST that completes an upload.
fn complete_ask(alloc: Global, name: &str, id: &str) -> Result<Ask, Fault>
    ensures { IsMeaning result (complete_meant name.now id.now) }
{
    let bucket = bucket_name(alloc, name)?;
    let upload = upload_number(id)?;
    Ok(Ask::Command(Command::Complete { bucket, upload }))
}

// The ask of a DELETE of an upload.
fn abort_ask(alloc: Global, name: &str, id: &str) -> Result<Ask, Fault>
    ensures { IsMeaning result (abort_meant name.now id.now) }
{
    let bucket = bucket_name(alloc, name)?;
    let upload = upload_number(id)?;
    Ok(Ask::Command(Command::Abort { bucket, upload }))
}

#[tactic(auto, unfolding(crate::specs::Meaning::upload_meant))]
pub(crate) fn upload_ask(alloc: Global, method: Method, name: &str, id: &str) -> Result<Ask, Fault>
    ensures { IsMeaning result (upload_meant method name.now id.now) }
{
    match method {
        Method::Get => shown_ask(alloc, name, id),
        Method::Post => complete_ask(alloc, name, id),
        Method::Delete => abort_ask(alloc, name, id),
        Method::Put | Method::Other => Err(Fault::Bad(Bad::BadMethod)),
    }
}

// The ask of a PUT of a part.
fn put_part_ask(alloc: Global, name: &str, id: &str, part: &str, body: &[u8]) -> Result<Ask, Fault>
    ensures { IsMeaning result (put_part_meant name.now id.now part.now body.now) }
{
    let bucket = bucket_name(alloc, name)?;
    let upload = upload_number(id)?;
    let part = part_number(part)?;
    let size = part_body(alloc, body)?;
    Ok(Ask::Command(Command::PutPart {
        bucket,
        upload,
        part,
        size,
    }))
}

#[tactic(auto, unfolding(crate::specs::Meaning::part_meant))]
pub(crate) fn part_ask(
    alloc: Global,
    method: Method,
    name: &str,
    id: &str,
    part: &str,
    body: &[u8],
) -> Result<Ask, Fault>
    ensures { IsMeaning result (part_meant method name.now id.now part.now body.now) }
{
    match method {
        Method::Put => put_part_ask(alloc, name, id, part, body),
        Method::Get | Method::Post | Method::Delete | Method::Other => Err(Fault::Bad(
            Bad::BadMethod,
        )),
    }
}
