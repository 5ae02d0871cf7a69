ghost use Rattle.std.specs.Prelude.{◌≡◌, true};
ghost use Rattle.std.specs.List.{list_all};
ghost use Rattle.rules_core.specs.Configurations.{has_midnights};

use crate::given::{equal, id, key, moment, size, tags};
use Asked::{Clear, Expire, Move, Purge};
use class_rules::Class;
use due_core::{ActionKind, Bucket, Target, candidates, chosen};
use moments::Moment;
use office_base::{Items, Key, TagList, Text};
use rules_core::{Expiration, Filter, Noncurrent, Rule, RuleSet, SizeMode, Transition, When};
use stacks::{Kind, Stack, Version, Versioning};
use std::alloc::Global;
use std::collections::BTreeMap;
use std::process::Abort;

// 2023-12-10 09:00 UTC, and the midnight 30 days later, rounded up.
const PUT: u64 = 1_702_198_800_000;

const DUE: u64 = 1_704_844_800_000;

// What a rule asks for, in days.
#[derive(Clone, Copy)]
enum Asked {
    Expire(u32),
    Move(Class, u32),
    Purge(u32, u32),
    Clear,
}

// A key's versions, all put at one moment, the rules on them, and the action that is chosen. The action has its kind,
// the number of its version (0 for the null version), the place of its rule, and its moment.
struct Row {
    versioning: Versioning,
    // From the newest; 0 is the null version.
    numbers: &'static [u64],
    // The bytes of each object; None for delete markers.
    bytes: Option<u64>,
    put: u64,
    rules: &'static [Asked],
    t: u64,
    chosen: Option<(ActionKind, u64, u32, u64)>,
}

fn kind(rt: &impl Abort, alloc: Global, bytes: Option<u64>, put: Moment) -> Kind {
    match bytes {
        Some(bytes) => Kind::Object {
            size: size(rt, bytes),
            class: Class::Standard,
            tags: tags(rt, alloc, &[]),
            entered: put,
        },
        None => Kind::Marker,
    }
}

fn stack(rt: &impl Abort, alloc: Global, row: &Row, put: Moment) -> Stack {
    let mut versions = Vec::new(alloc);
    for number in row.numbers {
        let version = Version {
            id: id(*number),
            kind: kind(rt, alloc, row.bytes, put),
            created: put,
            ceased: put,
        };
        versions.push(version).expect(rt, "memory");
    }
    let stack = Stack::of(put, versions).expect(rt, "memory");
    stack.expect(rt, "a stack")
}

// A rule that asks only for this.
#[tactic(auto, unfolding(rules_core::specs::Configurations::has_midnights))]
fn rule(rt: &impl Abort, alloc: Global, asked: Asked) -> Rule
    ensures { has_midnights result ≡ true }
{
    let (days, clears) = match asked {
        Expire(days) => (Some(days), false),
        _ => (None, true),
    };
    let mut moves = Vec::new(alloc);
    if let Move(to, days) = asked {
        let step = Transition {
            when: When::Days(days),
            to,
        };
        moves.push(step).expect(rt, "memory");
    }
    Rule {
        id: Text::of(String::new(alloc)),
        enabled: true,
        filter: Filter {
            prefix: Text::of(String::new(alloc)),
            tags: TagList::of(Vec::new(alloc)),
            greater: None,
            less: None,
        },
        expiration: match asked {
            Expire(_) | Clear => Some(Expiration {
                days,
                date: None,
                lone_marker: clears,
            }),
            _ => None,
        },
        transitions: Items::of(moves),
        noncurrent_expiration: match asked {
            Purge(days, newer) => Some(Noncurrent {
                days,
                newer: Some(newer),
            }),
            _ => None,
        },
        noncurrent_moves: Items::of(Vec::new(alloc)),
        abort_days: None,
    }
}

fn rules(rt: &impl Abort, alloc: Global, asked: &[Asked]) -> Vec<Rule>
    ensures { list_all has_midnights result.items ≡ true }
{
    let mut rules = Vec::new(alloc);
    for asked in asked {
        let rule = rule(rt, alloc, *asked);
        rules.push(rule).expect(rt, "memory");
    }
    rules
}

fn rule_set(rt: &impl Abort, alloc: Global, asked: &[Asked]) -> RuleSet {
    let rules = rules(rt, alloc, asked);
    RuleSet::check(alloc, rules, SizeMode::All128K).expect(rt, "rules")
}

fn stacks(rt: &impl Abort, alloc: Global, row: &Row) -> BTreeMap<Key, Stack> {
    let mut stacks = BTreeMap::new(alloc);
    let stack = stack(rt, alloc, row, moment(rt, row.put));
    let before: Result<_, _> = stacks.insert(key(rt, alloc, b"a"), stack);
    assert!(rt; before.is_ok());
    stacks
}

fn bucket(rt: &impl Abort, alloc: Global, row: &Row) -> Bucket {
    Bucket {
        versioning: row.versioning,
        rules: Some(rule_set(rt, alloc, row.rules)),
        rules_since: moment(rt, 0),
        stacks: stacks(rt, alloc, row),
        uploads: BTreeMap::new(alloc),
        next_version: 9,
        next_upload: 1,
    }
}

const ROWS: [Row; 10] = [
    // The S3 User Guide's example: put on 15 January 2014 at 10:30, after 3 days due on 19 January.
    Row {
        versioning: Versioning::Unversioned,
        numbers: &[0],
        bytes: Some(1_000_000),
        put: 1_389_781_800_000,
        rules: &[Expire(3)],
        t: 1_390_089_599_999,
        chosen: None,
    },
    Row {
        versioning: Versioning::Unversioned,
        numbers: &[0],
        bytes: Some(1_000_000),
        put: 1_389_781_800_000,
        rules: &[Expire(3)],
        t: 1_390_089_600_000,
        chosen: Some((ActionKind::Remove, 0, 1, 1_390_089_600_000)),
    },
    // A removal goes before a move of the same moment, and a move before a delete marker.
    Row {
        versioning: Versioning::Unversioned,
        numbers: &[0],
        bytes: Some(1_000_000),
        put: PUT,
        rules: &[Move(Class::StandardIa, 30), Expire(30)],
        t: DUE,
        chosen: Some((ActionKind::Remove, 0, 2, DUE)),
    },
    Row {
        versioning: Versioning::Enabled,
        numbers: &[1],
        bytes: Some(1_000_000),
        put: PUT,
        rules: &[Move(Class::StandardIa, 30), Expire(30)],
        t: DUE,
        chosen: Some((ActionKind::Transition(Class::StandardIa), 1, 1, DUE)),
    },
    // The oldest noncurrent version first; one newer is kept.
    Row {
        versioning: Versioning::Enabled,
        numbers: &[4, 3, 2, 1],
        bytes: Some(1_000_000),
        put: PUT,
        rules: &[Purge(30, 1)],
        t: DUE,
        chosen: Some((ActionKind::Remove, 1, 1, DUE)),
    },
    Row {
        versioning: Versioning::Enabled,
        numbers: &[4, 3],
        bytes: Some(1_000_000),
        put: PUT,
        rules: &[Purge(30, 1)],
        t: DUE,
        chosen: None,
    },
    // The colder class wins; small objects are not moved.
    Row {
        versioning: Versioning::Enabled,
        numbers: &[1],
        bytes: Some(1_000_000),
        put: PUT,
        rules: &[Move(Class::StandardIa, 30), Move(Class::Glacier, 30)],
        t: DUE,
        chosen: Some((ActionKind::Transition(Class::Glacier), 1, 2, DUE)),
    },
    Row {
        versioning: Versioning::Enabled,
        numbers: &[1],
        bytes: Some(131_071),
        put: PUT,
        rules: &[Move(Class::StandardIa, 30), Move(Class::Glacier, 30)],
        t: DUE,
        chosen: None,
    },
    // An action has the moment at which it was due, however late it is asked for.
    Row {
        versioning: Versioning::Enabled,
        numbers: &[1],
        bytes: Some(1_000_000),
        put: PUT,
        rules: &[Move(Class::StandardIa, 30)],
        t: 1_705_233_600_000,
        chosen: Some((ActionKind::Transition(Class::StandardIa), 1, 1, DUE)),
    },
    // A delete marker without any version below it, made at a midnight.
    Row {
        versioning: Versioning::Suspended,
        numbers: &[0],
        bytes: None,
        put: DUE,
        rules: &[Clear],
        t: DUE,
        chosen: Some((ActionKind::Remove, 0, 1, DUE)),
    },
];

// The action that a row expects.
fn wanted(row: &Row) -> Option<(ActionKind, Target, u32, u64)> {
    match row.chosen {
        Some((kind, number, rule, since)) => Some((kind, Target::Version(id(number)), rule, since)),
        None => None,
    }
}

// The action that is chosen.
fn shown(rt: &impl Abort, alloc: Global, row: &Row) -> Option<(ActionKind, Target, u32, u64)> {
    let bucket = bucket(rt, alloc, row);
    match chosen(&bucket, moment(rt, row.t)).expect(rt, "memory") {
        Some(action) => Some((action.kind, action.target, action.rule, action.since.ms())),
        None => None,
    }
}

// The S3 User Guide, "Examples of S3 Lifecycle configurations", and rows that were computed by hand.
#[test]
fn what_is_chosen(rt: HostRuntime) {
    for (index, row) in ROWS.iter().enumerate() {
        let shown = shown(&rt, rt.alloc(), row);
        equal(&rt, &(index, row.t), &shown, &wanted(row));
    }
}

// The actions that are due, in their order.
fn listed(rt: &impl Abort, alloc: Global, row: &Row) -> Vec<(ActionKind, u32, u64)> {
    let bucket = bucket(rt, alloc, row);
    let actions = candidates(alloc, &bucket, moment(rt, row.t)).expect(rt, "memory");
    let mut shown = Vec::new(alloc);
    for action in &actions {
        let told = (action.kind, action.rule, action.since.ms());
        shown.push(told).expect(rt, "memory");
    }
    shown
}

const MOVED: (ActionKind, u32, u64) = (ActionKind::Transition(Class::StandardIa), 1, DUE);

// The number of a row, and a transition and an expiration that are due at one midnight, in their order: the S3 User
// Guide's conflicting rules.
const LISTED: [(usize, &[(ActionKind, u32, u64)]); 2] = [
    (2, &[(ActionKind::Remove, 2, DUE), MOVED]),
    (3, &[MOVED, (ActionKind::Marker, 2, DUE)]),
];

#[test]
fn what_is_listed(rt: HostRuntime) {
    for (row, wanted) in &LISTED {
        let listed = listed(&rt, rt.alloc(), &ROWS[*row]);
        assert!(rt; listed.as_slice() == *wanted, "{row}");
    }
}
