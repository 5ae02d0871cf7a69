use route_table::Shape::{Remainder, Segment, Word};
use route_table::{Shape, Table};
use std::test::Fail;

const ROWS: [(&[Shape], u32); 5] = [
    (&[], 1),
    (&[Word("a")], 2),
    (&[Word("a"), Segment], 3),
    (&[Word("b"), Remainder], 4),
    (&[Word("c"), Segment, Word("d"), Segment], 5),
];

// Paths, with the value and the parts that the table gives for them.
const PATHS: &[(&str, Option<(u32, &str, &str)>)] = &[
    ("", Some((1, "", ""))),
    ("/a", Some((2, "", ""))),
    ("/a/x", Some((3, "x", ""))),
    ("/a/ü", Some((3, "ü", ""))),
    ("/b/x/y/", Some((4, "x/y/", ""))),
    ("/b//", Some((4, "/", ""))),
    ("/c/x/d/y", Some((5, "x", "y"))),
    ("/c/d/d/d", Some((5, "d", "d"))),
    ("/", None),
    ("a", None),
    ("/a/", None),
    ("/a/x/y", None),
    ("/b/", None),
    ("/c/x/e/y", None),
    ("/c//d/y", None),
    ("/c/x/d/", None),
    ("/d", None),
];

// The value and the two parts that the table gives for a path.
fn found_at<'a>(table: &'a Table<u32>, path: &'a str) -> Option<(u32, &'a str, &'a str)> {
    let found = table.find(path)?;
    Some((*found.value, found.parts.at(0), found.parts.at(1)))
}

#[test]
fn paths(rt: HostRuntime) -> Result<(), Fail> {
    let table = Table::new(rt.alloc(), &ROWS)?;
    for (path, has) in PATHS {
        assert_eq!(rt; found_at(&table, *path), *has, "{path}");
    }
    Ok(())
}
