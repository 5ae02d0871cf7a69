// What a request asks.
ghost use Rattle.std.specs.Prelude.{List, length};
ghost use Rattle.httparse.specs.Grammar.{Field};
ghost use Rattle.http_routes.specs.Targets.{resource_of};
ghost use Rattle.http_wire.specs.Parts.{IsFound, LiesIn};
ghost use Rattle.http_asks.specs.Faults.{IsMeaning, OnMeant};
ghost use Rattle.http_asks.specs.Meaning.{Means, MeansWith, meant_of};

use crate::bad::{Bad, Fault};
use crate::bucket_asks::{act_ask, bucket_ask, due_ask, lifecycle_ask, meters_ask, versioning_ask};
use crate::method::Method;
use crate::month_asks::{close_ask, report_ask, tariff_ask};
use crate::object_asks::{object_ask, tags_ask, version_ask};
use crate::token_asks::ask_with;
use crate::upload_asks::{part_ask, upload_ask, uploads_ask};
use http_routes::{Route, Routes};
use http_wire::Found;
use office_types::Ask;
use std::alloc::Global;

// What a method asks of the resource that a route names.
fn route_ask(alloc: Global, route: Route<'_>, method: Method, body: &[u8]) -> Result<Ask, Fault>
    ensures { IsMeaning result (meant_of (resource_of route.entry) method body.now) }
{
    match route {
        Route::Bucket { bucket } => bucket_ask(alloc, method, bucket),
        Route::Versioning { bucket } => versioning_ask(alloc, method, bucket, body),
        Route::Lifecycle { bucket } => lifecycle_ask(alloc, method, bucket, body),
        Route::Object { bucket, key } => object_ask(alloc, method, bucket, key, body),
        Route::Version { bucket, id, key } => version_ask(alloc, method, bucket, id, key),
        Route::Tags { bucket, id, key } => tags_ask(alloc, method, bucket, id, key, body),
        Route::Uploads { bucket, key } => uploads_ask(alloc, method, bucket, key, body),
        Route::Upload { bucket, id } => upload_ask(alloc, method, bucket, id),
        Route::Part { bucket, id, part } => part_ask(alloc, method, bucket, id, part, body),
        Route::Act { bucket } => act_ask(alloc, method, bucket),
        Route::Due { bucket } => due_ask(alloc, method, bucket),
        Route::Meters { bucket, month } => meters_ask(alloc, method, bucket, month),
        Route::Tariff => tariff_ask(alloc, method, body),
        Route::Close { month } => close_ask(method, month),
        Route::Report { month } => report_ask(method, month),
    }
}

// What a request asks, given its target, its method and its body.
fn ask_of(
    alloc: Global,
    routes: &Routes,
    target: &[u8],
    method: &[u8],
    body: &[u8],
) -> Result<Ask, Fault>
    ensures { OnMeant result (Means target.now method.now body.now) }
{
    match routes.find(target) {
        Some(route) => route_ask(alloc, route, Method::read(method), body),
        None => Err(Fault::Bad(Bad::NoRoute)),
    }
}

/// Reads what a request asks, given its target, its method and its body, and the fields Office-Token that were found in
/// its head.
pub(crate) fn whole_ask(
    alloc: Global,
    routes: &Routes,
    target: &[u8],
    method: &[u8],
    body: &[u8],
    bytes: &[u8],
    found: Found,
) -> Result<Ask, Fault>
    requires lies { LiesIn (length bytes.now) found }
    ensures { (fields : List Field) → IsFound bytes.now found fields
        → OnMeant result (MeansWith fields target.now method.now body.now) }
{
    let ask = ask_of(alloc, routes, target, method, body)?;
    ask_with(alloc, bytes, found, ask)
}
