use crate::given::equal;
use generator::{Tally, generate};

// The number of a load, how many commands it has, and its counts in the order of the line: accepted, refused, nothing,
// versions, uploads, journal.
const LOADS: &[(u64, u32, [u64; 6])] = &[
    (1, 0, [0, 0, 0, 0, 0, 11]),
    (1, 4, [4, 0, 0, 0, 0, 95]),
    (1, 8, [8, 0, 0, 0, 0, 759]),
    (7, 20_000, [13_484, 3_952, 2_564, 2_905, 1_177, 438_715]),
];

#[test]
fn loads(rt: HostRuntime) {
    for (number, count, counts) in LOADS {
        let [accepted, refused, nothing, versions, uploads, journal] = *counts;
        let tally = Tally {
            made: u64::from(*count),
            accepted,
            refused,
            nothing,
            versions,
            uploads,
            journal,
        };
        let found = generate(rt.alloc(), *number, *count).expect(&rt, "memory");
        equal(&rt, number, &found, &tally);
    }
}
