use http_routes::{Route, Routes, read_key};
use office_base::NameRefusal;
use std::process::Abort;
use std::test::Fail;

// Targets, and where they lead.
const TARGETS: &[(&[u8], Option<Route<'static>>)] = &[
    (b"/buckets/logs", Some(Route::Bucket { bucket: "logs" })),
    (b"/buckets/a%2Fb", Some(Route::Bucket { bucket: "a%2Fb" })),
    (
        b"/buckets/buckets",
        Some(Route::Bucket { bucket: "buckets" }),
    ),
    (b"/buckets/L+g~", Some(Route::Bucket { bucket: "L+g~" })),
    (
        b"/buckets/logs/versioning",
        Some(Route::Versioning { bucket: "logs" }),
    ),
    (
        b"/buckets/logs/lifecycle",
        Some(Route::Lifecycle { bucket: "logs" }),
    ),
    (
        b"/buckets/logs/objects/a",
        Some(Route::Object {
            bucket: "logs",
            key: "a",
        }),
    ),
    (
        b"/buckets/logs/objects/a/b/",
        Some(Route::Object {
            bucket: "logs",
            key: "a/b/",
        }),
    ),
    (
        b"/buckets/logs/objects//",
        Some(Route::Object {
            bucket: "logs",
            key: "/",
        }),
    ),
    (
        b"/buckets/logs/objects//a",
        Some(Route::Object {
            bucket: "logs",
            key: "/a",
        }),
    ),
    (
        b"/buckets/a/objects/b%2Fc",
        Some(Route::Object {
            bucket: "a",
            key: "b%2Fc",
        }),
    ),
    (
        b"/buckets/a/objects/objects/x",
        Some(Route::Object {
            bucket: "a",
            key: "objects/x",
        }),
    ),
    (
        b"/buckets/a/objects/%zz",
        Some(Route::Object {
            bucket: "a",
            key: "%zz",
        }),
    ),
    (
        b"/buckets/act/objects/act",
        Some(Route::Object {
            bucket: "act",
            key: "act",
        }),
    ),
    (
        b"/buckets/logs/versions/null/a",
        Some(Route::Version {
            bucket: "logs",
            id: "null",
            key: "a",
        }),
    ),
    (
        b"/buckets/logs/versions/3//",
        Some(Route::Version {
            bucket: "logs",
            id: "3",
            key: "/",
        }),
    ),
    (
        b"/buckets/logs/versions/%2F/a/",
        Some(Route::Version {
            bucket: "logs",
            id: "%2F",
            key: "a/",
        }),
    ),
    (
        b"/buckets/logs/tags/3/a/b",
        Some(Route::Tags {
            bucket: "logs",
            id: "3",
            key: "a/b",
        }),
    ),
    (
        b"/buckets/logs/uploads/7",
        Some(Route::Uploads {
            bucket: "logs",
            key: "7",
        }),
    ),
    (
        b"/buckets/logs/uploads//a",
        Some(Route::Uploads {
            bucket: "logs",
            key: "/a",
        }),
    ),
    (
        b"/buckets/logs/upload/7",
        Some(Route::Upload {
            bucket: "logs",
            id: "7",
        }),
    ),
    (
        b"/buckets/logs/parts/7/00001",
        Some(Route::Part {
            bucket: "logs",
            id: "7",
            part: "00001",
        }),
    ),
    (b"/buckets/logs/act", Some(Route::Act { bucket: "logs" })),
    (b"/buckets/logs/due", Some(Route::Due { bucket: "logs" })),
    (
        b"/buckets/logs/meters/2024-01",
        Some(Route::Meters {
            bucket: "logs",
            month: "2024-01",
        }),
    ),
    (b"/tariff", Some(Route::Tariff)),
    (
        b"/months/2024-01/close",
        Some(Route::Close { month: "2024-01" }),
    ),
    (
        b"/months/close/report",
        Some(Route::Report { month: "close" }),
    ),
    (b"", None),
    (b"/", None),
    (b"*", None),
    (b"buckets/logs", None),
    (b"http://host/buckets/logs", None),
    (b"/bucket/x", None),
    (b"/buckets", None),
    (b"/buckets/", None),
    (b"/buckets//", None),
    (b"/buckets/logs/", None),
    (b"//buckets/logs", None),
    (b"/Buckets/logs", None),
    (b"/buckets/logs?versions", None),
    (b"/buckets/logs/objects/a?", None),
    (b"/buckets/logs/objects/?a", None),
    (b"/buckets/logs/objects", None),
    (b"/buckets/logs/objects/", None),
    (b"/buckets//objects/a", None),
    (b"/buckets/logs//objects/a", None),
    (b"/buckets/logs/object/a", None),
    (b"/buckets/logs/versioning/", None),
    (b"/buckets/logs/lifecycle/x", None),
    (b"/buckets/logs/versions/3", None),
    (b"/buckets/logs/versions/3/", None),
    (b"/buckets/logs/versions//a", None),
    (b"/buckets/logs/tags//a", None),
    (b"/buckets/logs/uploads/", None),
    (b"/buckets/logs/upload/", None),
    (b"/buckets/logs/upload/7/", None),
    (b"/buckets/logs/upload/7/a", None),
    (b"/buckets/logs/parts/7", None),
    (b"/buckets/logs/parts//1", None),
    (b"/buckets/logs/parts/7/1/", None),
    (b"/buckets/logs/act/", None),
    (b"/buckets/logs/due/now", None),
    (b"/buckets/logs/meters/", None),
    (b"/buckets/logs/meters/2024-01/", None),
    (b"/buckets/logs/meters//", None),
    (b"/buckets//meters/2024-01", None),
    (b"/tariff/", None),
    (b"/tariffs", None),
    (b"/tariff?", None),
    (b"/months/2024-01", None),
    (b"/months//close", None),
    (b"/months/2024-01/closed", None),
    (b"/months/2024-01/report/", None),
    (b"/buckets/\xff", None),
    (b"/buckets/logs/objects/\xc3", None),
];

fn assert_leads(rt: &impl Abort, routes: &Routes, target: &[u8], route: &Option<Route<'_>>) {
    assert_eq!(rt; routes.find(target), *route, "{target:?}");
}

#[test]
fn targets(rt: HostRuntime) -> Result<(), Fail> {
    let routes = Routes::new(rt.alloc())?;
    for (target, route) in TARGETS {
        assert_leads(&rt, &routes, *target, route);
    }
    drop(routes);
    Ok(())
}

// Parts of targets, and the keys that they spell.
const KEYS: &[(&str, &str)] = &[
    ("a", "a"),
    ("b%2Fc", "b/c"),
    ("b%2fc", "b/c"),
    ("/a//b/", "/a//b/"),
    ("%zz", "%zz"),
    ("a%", "a%"),
    ("a%4", "a%4"),
    ("a+b", "a+b"),
    ("%2541", "%41"),
    ("100%25", "100%"),
    ("%C3%BC", "ü"),
    ("%3F", "?"),
];

#[test]
fn keys(rt: HostRuntime) -> Result<(), Fail> {
    for (part, bytes) in KEYS {
        let key = read_key(rt.alloc(), part.as_bytes())?;
        assert_eq!(rt; key.bytes(), bytes.as_bytes(), "{part}");
    }
    Ok(())
}

#[test]
fn keys_of_any_length(rt: HostRuntime) -> Result<(), Fail> {
    let mut part = Vec::new(rt.alloc());
    for _ in 0..1_024 {
        part.extend_from_slice(b"%61")?;
    }
    let key = read_key(rt.alloc(), &part)?;
    assert_eq!(rt; key.bytes().len(), 1_024);
    part.push(b'a')?;
    for bytes in &[part.as_slice(), b"", b"%ff", b"a%C3", b"\xff"] {
        assert_eq!(rt;
            read_key(rt.alloc(), *bytes).err(),
            Some(NameRefusal::BadKey),
            "a key of {} bytes",
            bytes.len()
        );
    }
    Ok(())
}
