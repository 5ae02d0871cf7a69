use crate::given::{equal, month, text};
use class_rules::Class;
use std::alloc::Global;
use std::process::Abort;
use tariff::{Tariff, TariffFault, Tier, Tiers, charge, move_charge};

const STORAGE: [u32; 6] = [23_000, 12_500, 10_000, 4_000, 3_600, 990];

const TRANSITION: [u32; 5] = [10, 11, 20, 30, 50];

// A class, and its prices of storage and of a move into it.
const OF_CLASSES: [(Class, u32, u32); 3] = [
    (Class::Standard, 23_000, 0),
    (Class::StandardIa, 12_500, 10),
    (Class::DeepArchive, 990, 50),
];

#[test]
fn prices_by_class(rt: HostRuntime) {
    let tariff = Tariff::of(STORAGE, TRANSITION).expect(&rt, "a tariff");
    for (class, storage, transition) in &OF_CLASSES {
        let tiers = tariff.storage_tiers(*class).list();
        equal(&rt, class, &tiers.len(), &1);
        equal(&rt, class, &tiers[0].upto, &None);
        let prices = (tiers[0].price, tariff.move_price(*class));
        equal(&rt, class, &prices, &(*storage, *transition));
    }
}

// Prices, and whether they make a tariff.
const LARGEST: [([u32; 6], [u32; 5], bool); 3] = [
    ([1_048_576; 6], [1_048_576; 5], true),
    ([0, 0, 0, 0, 0, 1_048_577], TRANSITION, false),
    (STORAGE, [1_048_577, 0, 0, 0, 0], false),
];

#[test]
fn the_largest_prices(rt: HostRuntime) {
    for (index, (storage, transition, is_some)) in LARGEST.iter().enumerate() {
        let tariff = Tariff::of(*storage, *transition);
        equal(&rt, &index, &tariff.is_some(), is_some);
    }
}

// Byte-milliseconds of January 2024, a price, and the charge: a GiB for the whole month, one byte less, and one byte;
// nothing; and 2^121 - 1 byte-milliseconds at the largest price, where the product has 141 bits.
const CHARGES: [(u128, u32, u128); 5] = [
    (2_875_910_101_401_600_000, 23_000, 23_000),
    (2_875_910_098_723_200_000, 23_000, 22_999),
    (2_678_400_000, 23_000, 0),
    (0, 1_048_576, 0),
    (
        2_658_455_991_569_831_745_807_614_120_560_689_151,
        1_048_576,
        969_290_781_536_519_494_573_345,
    ),
];

#[test]
fn charges_of_a_month(rt: HostRuntime) {
    let january = month(&rt, 2024, 1);
    for (used, price, wanted) in &CHARGES {
        let tiers = Tiers::one(*price).expect(&rt, "a price");
        equal(
            &rt,
            &(*used, *price),
            &charge(*used, &tiers, january),
            wanted,
        );
    }
}

// Up to 1 GiB-month, from there up to 50, and everything above.
const IN_TIERS: [Tier; 3] = [
    Tier {
        upto: Some(1),
        price: 23_000,
    },
    Tier {
        upto: Some(50),
        price: 20_000,
    },
    Tier {
        upto: None,
        price: 19_001,
    },
];

// Byte-milliseconds of January 2024, and the charge: half a GiB for the whole month, a GiB, one byte-millisecond more,
// as many as give the next unit, three GiB, fifty, 50.5, and the largest quantity of 128 bits.
const TIERED: [(u128, u128); 8] = [
    (1_437_955_050_700_800_000, 11_500),
    (2_875_910_101_401_600_000, 23_000),
    (2_875_910_101_401_600_001, 23_000),
    (2_876_053_896_906_670_080, 23_001),
    (8_627_730_304_204_800_000, 63_000),
    (143_795_505_070_080_000_000, 1_003_000),
    (145_233_460_120_780_800_000, 1_012_500),
    (u128::MAX, 2_248_229_265_133_716_664_651_110),
];

#[test]
fn charges_in_tiers(rt: HostRuntime) {
    let january = month(&rt, 2024, 1);
    let tiers = Tiers::from_slice(&IN_TIERS).expect(&rt, "tiers");
    for (used, wanted) in &TIERED {
        equal(&rt, used, &charge(*used, &tiers, january), wanted);
    }
}

// Ends and prices, and whether they are the tiers of a class.
const TIER_LISTS: [(&[(Option<u32>, u32)], bool); 8] = [
    (&[], false),
    (&[(None, 1_048_576)], true),
    (&[(None, 1_048_577)], false),
    (&[(Some(4_294_967_295), 1), (None, 1)], true),
    (&[(Some(0), 1), (None, 1)], false),
    (&[(Some(5), 1), (Some(5), 1), (None, 1)], false),
    (&[(Some(5), 1)], false),
    (&[(None, 1), (None, 1)], false),
];

#[test]
fn tiers_of_a_class(rt: HostRuntime) {
    for (index, (rows, is_some)) in TIER_LISTS.iter().enumerate() {
        let mut tiers = Vec::new(rt.alloc());
        for (upto, price) in *rows {
            let tier = Tier {
                upto: *upto,
                price: *price,
            };
            tiers.push(tier).expect(&rt, "memory");
        }
        equal(&rt, &index, &Tiers::of(tiers).is_some(), is_some);
    }
}

// Moves, a price of a thousand, and the charge.
const MOVES: [(u64, u32, u128); 4] = [
    (999, 1, 0),
    (1_000, 1, 1),
    (1_999, 3, 5),
    (u64::MAX, u32::MAX, 79_228_162_495_817_593_515_539_431),
];

#[test]
fn charges_of_moves(rt: HostRuntime) {
    for (moves, price, wanted) in &MOVES {
        equal(&rt, &(*moves, *price), &move_charge(*moves, *price), wanted);
    }
}

fn named(rt: &impl Abort, alloc: Global, kind: &str, table: &str, class: &str) -> String {
    format!(in alloc; "{kind} {table} {class}").expect(rt, "memory")
}

// An answer as one line: the prices, or the fault.
fn told(rt: &impl Abort, alloc: Global, bytes: &[u8]) -> String {
    match Tariff::read(alloc, bytes) {
        Ok(tariff) => told_prices(rt, alloc, &tariff),
        Err(fault) => told_fault(rt, alloc, &fault),
    }
}

fn told_fault(rt: &impl Abort, alloc: Global, fault: &TariffFault) -> String {
    match fault {
        TariffFault::NotToml => text(rt, alloc, "NotToml"),
        TariffFault::MissingClass { table, class } => {
            named(rt, alloc, "MissingClass", table.name(), class.name())
        }
        TariffFault::BadPrice { table, class } => {
            named(rt, alloc, "BadPrice", table.name(), class.name())
        }
        TariffFault::UnknownField { name } => joined(rt, alloc, "UnknownField ", name),
        TariffFault::BadTiers { class } => joined(rt, alloc, "BadTiers ", class.name()),
        TariffFault::BadFrom => text(rt, alloc, "BadFrom"),
        TariffFault::NoMemory => text(rt, alloc, "NoMemory"),
    }
}

// Prices, each after a space.
fn listed(rt: &impl Abort, alloc: Global, prices: &[u32]) -> String {
    let mut text = String::new(alloc);
    for price in prices {
        let word = format!(in alloc; " {price}").expect(rt, "memory");
        text.push_str(word.as_str()).expect(rt, "memory");
    }
    text
}

// Tiers, each after a space: its end, if it has one, and its price.
fn listed_tiers(rt: &impl Abort, alloc: Global, tariff: &Tariff) -> String {
    let mut text = String::new(alloc);
    for tiers in &tariff.storage {
        for tier in tiers.list() {
            let price = tier.price;
            let word = match tier.upto {
                Some(upto) => format!(in alloc; " {upto}:{price}").expect(rt, "memory"),
                None => format!(in alloc; " {price}").expect(rt, "memory"),
            };
            text.push_str(word.as_str()).expect(rt, "memory");
        }
    }
    text
}

fn told_prices(rt: &impl Abort, alloc: Global, tariff: &Tariff) -> String {
    let storage = listed_tiers(rt, alloc, tariff);
    let prices = joined(rt, alloc, &storage, &listed(rt, alloc, &tariff.transition));
    match tariff.from.number() {
        0 => prices,
        from => format!(in alloc; "{from}{prices}").expect(rt, "memory"),
    }
}

const STORAGE_TABLE: &str = "[storage]\nSTANDARD = 0\nSTANDARD_IA = 1_048_576\nONEZONE_IA = 10000\n\
GLACIER_IR = +4000\nGLACIER = 0xe10\nDEEP_ARCHIVE = 990 # in units\n";

const TRANSITION_TABLE: &str = "[transition]\nDEEP_ARCHIVE = 50\nGLACIER = 30\nGLACIER_IR = 20\n\
ONEZONE_IA = 11\n\"STANDARD_IA\" = 10\n";

const WHOLE: &str =
    "[storage]\nSTANDARD = 0\nSTANDARD_IA = 1_048_576\nONEZONE_IA = 10000\nGLACIER_IR = +4000\n\
GLACIER = 0xe10\nDEEP_ARCHIVE = 990\n[transition]\nDEEP_ARCHIVE = 50\nGLACIER = 30\nGLACIER_IR = 20\n\
ONEZONE_IA = 11\nSTANDARD_IA = 10\n";

const OTHERS: &str =
    "STANDARD_IA = 1\nONEZONE_IA = 1\nGLACIER_IR = 1\nGLACIER = 1\nDEEP_ARCHIVE = 1\n\
[transition]\nDEEP_ARCHIVE = 50\nGLACIER = 30\nGLACIER_IR = 20\nONEZONE_IA = 11\nSTANDARD_IA = 10\n";

const PRICES: &str = " 0 1048576 10000 4000 3600 990 10 11 20 30 50";

// Two texts, one after the other, and the answer for them: TOML v1.1.0 for the texts, the S3 User Guide for the
// classes.
const TARIFFS: [(&str, &str, &str); 44] = [
    (STORAGE_TABLE, TRANSITION_TABLE, PRICES),
    (TRANSITION_TABLE, STORAGE_TABLE, PRICES),
    // A first month, anywhere at the top level.
    (
        "from = \"2024-01\"\n",
        WHOLE,
        "648 0 1048576 10000 4000 3600 990 10 11 20 30 50",
    ),
    ("from = \"1970-01\"\n", WHOLE, PRICES),
    ("from = \"2099-12\"\n", "", "MissingClass storage STANDARD"),
    ("from = \"2024-13\"\n", WHOLE, "BadFrom"),
    ("from = \"2100-01\"\n", WHOLE, "BadFrom"),
    ("from = \"1969-12\"\n", WHOLE, "BadFrom"),
    ("from = \"2024-1\"\n", WHOLE, "BadFrom"),
    ("from = 2024-01-01\n", WHOLE, "BadFrom"),
    ("[from]\n", WHOLE, "BadFrom"),
    // Unknown fields are reported before it, and it is reported before unknown names.
    ("from = 1\nzone = 1\n", "", "UnknownField zone"),
    ("from = 1\n", "[storage]\nGOLD = 1\n", "BadFrom"),
    // Tiers.
    (
        "[storage]\nSTANDARD = [{ upto = 1, price = 23000 }, { price = 20000 }]\n",
        OTHERS,
        " 1:23000 20000 1 1 1 1 1 10 11 20 30 50",
    ),
    (
        "[[storage.STANDARD]]\nprice = 7\n",
        "",
        "MissingClass storage STANDARD_IA",
    ),
    (
        "[storage]\nSTANDARD = [{ upto = 5, price = 9999999 }, { upto = 5, price = 1 }, { price = 1 }]\n",
        OTHERS,
        "BadTiers STANDARD",
    ),
    ("[storage]\nSTANDARD = []\n", OTHERS, "BadTiers STANDARD"),
    (
        "[storage]\nSTANDARD = [{ upto = 5, price = 1, to = 1 }, { price = 1 }]\n",
        OTHERS,
        "BadTiers STANDARD",
    ),
    (
        "[storage]\nSTANDARD = [{ upto = 4294967296, price = 1 }, { price = 1 }]\n",
        OTHERS,
        "BadTiers STANDARD",
    ),
    (
        "[storage]\nSTANDARD = [{ upto = 5, price = 1 }, { price = -1 }]\n",
        OTHERS,
        "BadPrice storage STANDARD",
    ),
    // Not a document.
    ("storage", "", "NotToml"),
    (STORAGE_TABLE, "[storage]\n", "NotToml"),
    ("[storage]\nSTANDARD = 9223372036854775808\n", "", "NotToml"),
    ("[storage]\nSTANDARD = 01\n", "", "NotToml"),
    // A field that is neither of the two tables, the first in byte order, before the names in the tables.
    ("b = 1\na = 1\n", STORAGE_TABLE, "UnknownField a"),
    ("zone = 1\n", "[storage]\nB = 1\n", "UnknownField zone"),
    ("[Storage]\n", "", "UnknownField Storage"),
    ("transition = 7\n", "storage = 7\n", "UnknownField storage"),
    (
        "transition = []\n",
        STORAGE_TABLE,
        "UnknownField transition",
    ),
    ("[[storage]]\n", "", "UnknownField storage"),
    // A name that is not a class of the table, before missing classes.
    (
        "[storage]\nstandard = 1\nGOLD = 1\n",
        "",
        "UnknownField GOLD",
    ),
    (
        "[transition]\nA = 1\n",
        "[storage]\nB = 1\n",
        "UnknownField B",
    ),
    (
        "[storage]\n",
        "[transition]\nSTANDARD = 1\n",
        "UnknownField STANDARD",
    ),
    // A class without a price, and a price that is invalid.
    ("", "", "MissingClass storage STANDARD"),
    ("", TRANSITION_TABLE, "MissingClass storage STANDARD"),
    (
        STORAGE_TABLE,
        "[transition]\nONEZONE_IA = 1\n",
        "MissingClass transition STANDARD_IA",
    ),
    (STORAGE_TABLE, "", "MissingClass transition STANDARD_IA"),
    (
        "[storage]\n",
        "STANDARD_IA = -1\n",
        "MissingClass storage STANDARD",
    ),
    (
        "[storage]\nSTANDARD = 1\n",
        "STANDARD_IA = -1\n",
        "BadPrice storage STANDARD_IA",
    ),
    (
        "[storage]\n",
        "STANDARD = 1048577\n",
        "BadPrice storage STANDARD",
    ),
    (
        "[storage]\n",
        "STANDARD = 1.0\n",
        "BadPrice storage STANDARD",
    ),
    (
        "[storage]\n",
        "STANDARD = 2024-01-01\n",
        "BadPrice storage STANDARD",
    ),
    (
        "[storage]\n",
        "STANDARD = \"1\"\n",
        "BadPrice storage STANDARD",
    ),
    (
        STORAGE_TABLE,
        "[transition]\nSTANDARD_IA = true\n",
        "BadPrice transition STANDARD_IA",
    ),
];

// Whether this is the answer for a text.
fn is_told(rt: &impl Abort, alloc: Global, bytes: &[u8], answer: &str) -> bool {
    told(rt, alloc, bytes).as_str() == answer
}

fn joined(rt: &impl Abort, alloc: Global, front: &str, back: &str) -> String {
    let mut joined = text(rt, alloc, front);
    joined.push_str(back).expect(rt, "memory");
    joined
}

#[test]
fn tariffs_from_texts(rt: HostRuntime) {
    for (front, back, answer) in &TARIFFS {
        let text = joined(&rt, rt.alloc(), front, back);
        let is_so = is_told(&rt, rt.alloc(), text.as_bytes(), answer);
        equal(&rt, &text, &is_so, &true);
    }
    assert!(rt; is_told(&rt, rt.alloc(), b"# \xff", "NotToml"));
}

// A field that nests this many arrays.
fn nested(rt: &impl Abort, alloc: Global, depth: usize) -> String {
    assert!(rt; depth < 1_000);
    let open = "[".repeat(alloc, depth).expect(rt, "memory");
    let close = "]".repeat(alloc, depth).expect(rt, "memory");
    let mut nested = text(rt, alloc, "a = ");
    nested.push_str(&open).expect(rt, "memory");
    nested.push_str(&close).expect(rt, "memory");
    nested
}

const DEPTHS: [(usize, &str); 2] = [(80, "UnknownField a"), (81, "NotToml")];

#[test]
fn the_bound_of_depth(rt: HostRuntime) {
    for (depth, answer) in &DEPTHS {
        let text = nested(&rt, rt.alloc(), *depth);
        let is_so = is_told(&rt, rt.alloc(), text.as_bytes(), answer);
        equal(&rt, depth, &is_so, &true);
    }
}
