// The routes of targets.
ghost use Rattle.std.specs.Prelude.{◌≡◌, None, IfSome};
ghost use Rattle.http_routes.specs.Targets.{Resource, HasRoute, resource_of};
ghost use Rattle.http_routes.specs.Table.{named};

use crate::route::Route;
use office_base::NoMemory;
use route_table::Shape::{Remainder, Segment, Word};
use route_table::{Parts, Shape, Table};
use std::alloc::Global;
use std::marker::Model;

// What a route leads to.
#[derive(Clone, Copy, Debug, PartialEq, Eq)]
enum Kind {
    Bucket,
    Versioning,
    Lifecycle,
    Object,
    Version,
    Tags,
    Uploads,
    Upload,
    Part,
    Act,
    Due,
    Meters,
    Tariff,
    Close,
    Report,
}

// The pattern of each route, and what it leads to.
const ROUTES: [(&[Shape], Kind); 15] = [
    (&[Word("buckets"), Segment], Kind::Bucket),
    (
        &[Word("buckets"), Segment, Word("versioning")],
        Kind::Versioning,
    ),
    (
        &[Word("buckets"), Segment, Word("lifecycle")],
        Kind::Lifecycle,
    ),
    (
        &[Word("buckets"), Segment, Word("objects"), Remainder],
        Kind::Object,
    ),
    (
        &[
            Word("buckets"),
            Segment,
            Word("versions"),
            Segment,
            Remainder,
        ],
        Kind::Version,
    ),
    (
        &[Word("buckets"), Segment, Word("tags"), Segment, Remainder],
        Kind::Tags,
    ),
    (
        &[Word("buckets"), Segment, Word("uploads"), Remainder],
        Kind::Uploads,
    ),
    (
        &[Word("buckets"), Segment, Word("upload"), Segment],
        Kind::Upload,
    ),
    (
        &[Word("buckets"), Segment, Word("parts"), Segment, Segment],
        Kind::Part,
    ),
    (&[Word("buckets"), Segment, Word("act")], Kind::Act),
    (&[Word("buckets"), Segment, Word("due")], Kind::Due),
    (
        &[Word("buckets"), Segment, Word("meters"), Segment],
        Kind::Meters,
    ),
    (&[Word("tariff")], Kind::Tariff),
    (&[Word("months"), Segment, Word("close")], Kind::Close),
    (&[Word("months"), Segment, Word("report")], Kind::Report),
];

/// The routes that are served. They are built once, and answer without memory.
#[derive(Drop)]
pub struct Routes {
    table: Table<'static, Kind>,
}

// Callers see nothing of the routes: every value of the type has the same ones.
impl Model for Routes {
    ghost use Rattle.std.specs.Prelude.{◌≡◌};
    ghost use Rattle.http_routes.specs.Table.{rows};

    ghost Value = { Unit {0} };

    ghost view = { λ r. tt };

    ghost invariant = { λ r. r.table ≡ rows };
}

// The route of this kind, with these parts.
fn route_of<'t>(kind: Kind, parts: &Parts<'_, 't>) -> Route<'t>
    ensures { resource_of result ≡ named kind parts.now }
{
    let (first, second, third) = (parts.at(0), parts.at(1), parts.at(2));
    match kind {
        Kind::Bucket => Route::Bucket { bucket: first },
        Kind::Versioning => Route::Versioning { bucket: first },
        Kind::Lifecycle => Route::Lifecycle { bucket: first },
        Kind::Object => Route::Object {
            bucket: first,
            key: second,
        },
        Kind::Version => Route::Version {
            bucket: first,
            id: second,
            key: third,
        },
        Kind::Tags => Route::Tags {
            bucket: first,
            id: second,
            key: third,
        },
        Kind::Uploads => Route::Uploads {
            bucket: first,
            key: second,
        },
        Kind::Upload => Route::Upload {
            bucket: first,
            id: second,
        },
        Kind::Part => Route::Part {
            bucket: first,
            id: second,
            part: third,
        },
        Kind::Act => Route::Act { bucket: first },
        Kind::Due => Route::Due { bucket: first },
        Kind::Meters => Route::Meters {
            bucket: first,
            month: second,
        },
        Kind::Tariff => Route::Tariff,
        Kind::Close => Route::Close { month: first },
        Kind::Report => Route::Report { month: first },
    }
}

impl Routes {
    /// Builds the routes. Takes all the memory that they need.
    ///
    /// # Errors
    ///
    /// `NoMemory`: memory ran out.
    pub fn new(alloc: Global) -> Result<Routes, NoMemory> {
        let table = Table::new(alloc, &ROUTES)?;
        Ok(Routes { table })
    }

    /// Finds where a target leads. Takes no memory.
    ///
    /// `None`: the target leads nowhere. It has a `?`, is not UTF-8, or matches none of the routes.
    pub fn find<'t>(&self, target: &'t [u8]) -> Option<Route<'t>>
        ensures found { IfSome result (λ route. HasRoute target.now (resource_of route)) }
        ensures none { result ≡ None → (resource : Resource) → ¬ (HasRoute target.now resource) }
    {
        if target.contains(&b'?') {
            return None;
        }
        let path = match str::from_utf8(target) {
            Ok(path) => path,
            Err(_) => return None,
        };
        match self.table.find(path) {
            Some(found) => Some(route_of(*found.value, &found.parts)),
            None => None,
        }
    }
}
