use crate::given::equal;
use class_rules::{Class, Lines, billed, least_duration, marker_lines, may_go, part_lines, rank};

const CLASSES: [(Class, &str, u8, u64); 6] = [
    (Class::Standard, "STANDARD", 0, 0),
    (Class::StandardIa, "STANDARD_IA", 1, 2_592_000_000),
    (Class::OnezoneIa, "ONEZONE_IA", 2, 2_592_000_000),
    (Class::GlacierIr, "GLACIER_IR", 3, 7_776_000_000),
    (Class::Glacier, "GLACIER", 4, 7_776_000_000),
    (Class::DeepArchive, "DEEP_ARCHIVE", 5, 15_552_000_000),
];

#[test]
fn classes_by_name(rt: HostRuntime) {
    for (class, name, place, least_ms) in &CLASSES {
        assert!(rt; class.name() == *name, "{name}");
        equal(&rt, name, &Class::named(name), &Some(*class));
        equal(&rt, name, &rank(*class), place);
        equal(&rt, name, &least_duration(*class), least_ms);
    }
}

const NO_CLASSES: [&str; 5] = [
    "",
    "standard",
    "STANDARD ",
    "REDUCED_REDUNDANCY",
    "INTELLIGENT_TIERING",
];

#[test]
fn names_of_no_class(rt: HostRuntime) {
    for text in &NO_CLASSES {
        equal(&rt, text, &Class::named(text), &None);
    }
}

// Whether an object may go from the first class to the second.
const MOVES: [(Class, Class, bool); 3] = [
    (Class::OnezoneIa, Class::GlacierIr, false),
    (Class::OnezoneIa, Class::Glacier, true),
    (Class::Glacier, Class::GlacierIr, false),
];

#[test]
fn moves_between_classes(rt: HostRuntime) {
    for (from, to, may) in &MOVES {
        equal(&rt, &(*from, *to), &may_go(*from, *to), may);
    }
}

// A class and a size, and the bytes that are billed in the class and in STANDARD.
const BILLED: [(Class, u64, u64, u64); 7] = [
    (Class::Standard, 0, 0, 0),
    (Class::StandardIa, 0, 131_072, 0),
    (Class::StandardIa, 131_073, 131_073, 0),
    (Class::OnezoneIa, 131_071, 131_072, 0),
    (Class::GlacierIr, 1, 131_072, 0),
    (Class::Glacier, 6_144, 38_912, 8_192),
    (
        Class::DeepArchive,
        5_497_558_138_880,
        5_497_558_171_648,
        8_192,
    ),
];

fn lines(class: Class, bytes: u64, standard: u64) -> Lines {
    Lines {
        class,
        bytes,
        standard,
    }
}

#[test]
fn lines_by_class(rt: HostRuntime) {
    for (class, size, bytes, standard) in &BILLED {
        assert!(rt; *size <= 5_497_558_138_880);
        let wanted = lines(*class, *bytes, *standard);
        equal(&rt, size, &billed(*class, *size), &wanted);
    }
}

#[test]
fn lines_of_markers_and_parts(rt: HostRuntime) {
    let of_marker = lines(Class::Standard, 7, 0);
    equal(&rt, &"a marker", &marker_lines(7), &of_marker);
    let of_part = lines(Class::Standard, 1_000, 0);
    equal(&rt, &"a part", &part_lines(Class::Glacier, 1_000), &of_part);
}
