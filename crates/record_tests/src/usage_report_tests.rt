ghost use Rattle.std.specs.Prelude.{◌≡◌, ◌<◌, ◌^◌};
ghost use Rattle.office_types.specs.Reports.{charges};

use crate::given::equal;
use class_rules::Class;
use office_base::BucketName;
use office_types::{LineKind, Price, ReportLine};
use std::alloc::Global;
use std::process::Abort;
use usage_report::{report_csv, report_text};

// One line: its bucket, kind, class, quantity, price and charge.
type Row = (&'static str, LineKind, Class, u128, u32, u128);

// A GiB for the whole of January 2024, at 23,000 units a GiB-month.
const JANUARY: Row = (
    "logs",
    LineKind::Storage,
    Class::Standard,
    2_875_910_101_401_600_000,
    23_000,
    23_000,
);

// Texts that are longer than their columns.
const EARLY: Row = (
    "aaaaaaaaaaaaaaaaaaaaaaaaaa",
    LineKind::Early,
    Class::StandardIa,
    1_000_000_000_000_000_000_000_000_000_000,
    1_048_576,
    100_000_000_000_000_000_000,
);

const MOVES: Row = ("b.c", LineKind::Transitions, Class::DeepArchive, 7, 1, 0);

struct Printed {
    csv: &'static [&'static str],
    table: &'static [&'static str],
}

// How lines are printed: as CSV, and as a table by Python's format `{:<24} {:<12} {:<14} {:>28} {:>16}`.
const NOTHING: Printed = Printed {
    csv: &["bucket,line,class,quantity,price,charge", ",total,,,,0"],
    table: &[
        "                         total                                                                   0",
    ],
};

const OF_JANUARY: Printed = Printed {
    csv: &[
        "bucket,line,class,quantity,price,charge",
        "logs,storage,STANDARD,2875910101401600000,23000,23000",
        ",total,,,,23000",
    ],
    table: &[
        "logs                     storage      STANDARD                2875910101401600000            23000",
        "                         total                                                               23000",
    ],
};

const OF_WIDE: Printed = Printed {
    csv: &[
        "bucket,line,class,quantity,price,charge",
        "aaaaaaaaaaaaaaaaaaaaaaaaaa,early,STANDARD_IA,1000000000000000000000000000000,1048576,100000000000000000000",
        "b.c,transitions,DEEP_ARCHIVE,7,1,0",
        ",total,,,,100000000000000000000",
    ],
    table: &[
        "aaaaaaaaaaaaaaaaaaaaaaaaaa early        STANDARD_IA    1000000000000000000000000000000 100000000000000000000",
        "b.c                      transitions  DEEP_ARCHIVE                              7                0",
        "                         total                                                    100000000000000000000",
    ],
};

fn line_of(rt: &impl Abort, alloc: Global, row: &Row) -> ReportLine
    ensures { result.charge ≡ row.now.5 }
{
    let &(bucket, kind, class, quantity, price, charge) = row;
    ReportLine {
        bucket: BucketName::read(alloc, bucket).expect(rt, "a name"),
        kind,
        class,
        quantity,
        price: Price::One(price),
        charge,
    }
}

// Whether a text is these lines.
fn is_text(text: &[u8], lines: &[&str]) -> bool {
    let mut rest = text;
    for line in lines {
        rest = match rest.strip_prefix(line.as_bytes()) {
            Some(behind) => behind,
            None => return false,
        };
        rest = match rest.strip_prefix(b"\n") {
            Some(behind) => behind,
            None => return false,
        };
    }
    rest.is_empty()
}

fn is_printed(rt: &impl Abort, alloc: Global, lines: &[ReportLine], wanted: &Printed)
    requires { charges lines.now < 2 ^ 128 }
{
    let text = report_csv(alloc, lines).expect(rt, "memory");
    equal(
        rt,
        &("csv", lines.len()),
        &is_text(&text, wanted.csv),
        &true,
    );
    let text = report_text(alloc, lines).expect(rt, "memory");
    equal(
        rt,
        &("table", lines.len()),
        &is_text(&text, wanted.table),
        &true,
    );
}

#[test]
fn reports(rt: HostRuntime) {
    let alloc = rt.alloc();
    is_printed(&rt, alloc, &[], &NOTHING);
    let lines = vec![in alloc; line_of(&rt, alloc, &JANUARY)].expect(&rt, "memory");
    is_printed(&rt, alloc, &lines, &OF_JANUARY);
    let (early, moves) = (line_of(&rt, alloc, &EARLY), line_of(&rt, alloc, &MOVES));
    let lines = vec![in alloc; early, moves].expect(&rt, "memory");
    is_printed(&rt, alloc, &lines, &OF_WIDE);
}
