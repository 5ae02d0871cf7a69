ghost use Rattle.std.specs.Prelude.{◌≡◌, true};
ghost use Rattle.std.specs.List.{list_all};
ghost use Rattle.rules_core.specs.Configurations.{has_midnights};

use crate::given::{Pair, equal, key, pairs, size, tags, text};
use class_rules::Class;
use office_base::{Items, Key, Size, TagList, Tags, Text};
use rules_core::{
    Expiration, Filter, Rule, RuleFlaw, RuleRefusal, RuleSet, SizeMode, matches, matches_marker,
    matches_upload, size_admits,
};
use std::alloc::Global;
use std::process::Abort;

fn filter(rt: &impl Abort, alloc: Global, prefix: &str, tags: &[Pair]) -> Filter {
    Filter {
        prefix: Text::of(text(rt, alloc, prefix)),
        tags: TagList::of(pairs(rt, alloc, tags)),
        greater: None,
        less: None,
    }
}

// A rule that expires objects after a day.
#[tactic(auto, unfolding(rules_core::specs::Configurations::has_midnights))]
fn rule(rt: &impl Abort, alloc: Global, id: &str) -> Rule
    ensures { has_midnights result ≡ true }
{
    Rule {
        id: Text::of(text(rt, alloc, id)),
        enabled: true,
        filter: filter(rt, alloc, "", &[]),
        expiration: Some(Expiration {
            days: Some(1),
            date: None,
            lone_marker: false,
        }),
        transitions: Items::of(Vec::new(alloc)),
        noncurrent_expiration: None,
        noncurrent_moves: Items::of(Vec::new(alloc)),
        abort_days: None,
    }
}

// Such rules with these ids.
fn rules(rt: &impl Abort, alloc: Global, ids: &[&str]) -> Vec<Rule>
    ensures { list_all has_midnights result.items ≡ true }
{
    let mut rules = Vec::new(alloc);
    for id in ids {
        let rule = rule(rt, alloc, id);
        rules.push(rule).expect(rt, "memory");
    }
    rules
}

// The tags of the object.
const RAW: [Pair; 2] = [("kind", "raw"), ("keep", "no")];

// A prefix, tags, and whether a filter of them matches the key `logs/a` with the tags kind: raw and keep: no.
const FILTERS: [(&str, &[Pair], bool); 7] = [
    ("", &[], true),
    ("logs/", &[], true),
    ("logs/ab", &[], false),
    ("Logs/", &[], false),
    ("", &[("keep", "no"), ("kind", "raw")], true),
    ("", &[("keep", "yes")], false),
    ("", &[("zone", "a")], false),
];

// Whether a filter matches an object, and a delete marker of its key.
fn matched_by(filter: &Filter, key: &Key, tags: &Tags, size: Size) -> (bool, bool) {
    (
        matches(filter, key, tags, size),
        matches_marker(filter, key),
    )
}

// The S3 User Guide, "Adding filters to Lifecycle rules".
#[test]
fn filters_and_what_they_match(rt: HostRuntime) {
    let alloc = rt.alloc();
    let key = key(&rt, alloc, b"logs/a");
    let tags = tags(&rt, alloc, &RAW);
    for (index, (prefix, wanted, matched)) in FILTERS.iter().enumerate() {
        let told = matched_by(
            &filter(&rt, alloc, prefix, wanted),
            &key,
            &tags,
            size(&rt, 100),
        );
        let of_marker = *matched && wanted.is_empty();
        equal(&rt, &index, &told, &(*matched, of_marker));
    }
}

// Bounds, and whether an object of 100 bytes is within them.
const BOUNDS: [(Option<u64>, Option<u64>, bool); 3] = [
    (Some(99), Some(101), true),
    (Some(100), None, false),
    (None, Some(100), false),
];

// What a filter with these bounds admits: the object, a delete marker, an upload, and a transition of the object.
fn admitted(
    rt: &impl Abort,
    alloc: Global,
    greater: Option<u64>,
    less: Option<u64>,
) -> (bool, bool, bool, bool) {
    let key = key(rt, alloc, b"logs/a");
    let tags = tags(rt, alloc, &RAW);
    let size = size(rt, 100);
    let mut bounded = filter(rt, alloc, "", &[]);
    bounded.greater = greater;
    bounded.less = less;
    (
        matches(&bounded, &key, &tags, size),
        matches_marker(&bounded, &key),
        matches_upload(&bounded, &key),
        size_admits(SizeMode::All128K, &bounded, Class::StandardIa, size),
    )
}

#[test]
fn bounds_of_filters(rt: HostRuntime) {
    for (greater, less, matched) in &BOUNDS {
        let told = admitted(&rt, rt.alloc(), *greater, *less);
        equal(
            &rt,
            &(*greater, *less),
            &told,
            &(*matched, false, true, true),
        );
    }
}

const MOVES: [(SizeMode, Class, u64, bool); 5] = [
    (SizeMode::All128K, Class::Glacier, 131_071, false),
    (SizeMode::All128K, Class::Glacier, 131_072, true),
    (SizeMode::Varies, Class::Glacier, 0, true),
    (SizeMode::Varies, Class::DeepArchive, 0, true),
    (SizeMode::Varies, Class::GlacierIr, 131_071, false),
];

// The S3 User Guide, "Transitioning objects using Amazon S3 Lifecycle".
#[test]
fn sizes_that_are_moved(rt: HostRuntime) {
    let open = filter(&rt, rt.alloc(), "", &[]);
    for (mode, class, bytes, moved) in &MOVES {
        let admits = size_admits(*mode, &open, *class, size(&rt, *bytes));
        equal(&rt, &(*class, *bytes), &admits, moved);
    }
}

fn have_ids(rules: &[Rule], ids: &[&str]) -> bool {
    for (rule, id) in rules.iter().zip(ids) {
        if rule.id.as_str() != *id {
            return false;
        }
    }
    rules.len() == ids.len()
}

#[test]
fn ids_are_filled_in(rt: HostRuntime) {
    let rules = rules(&rt, rt.alloc(), &["a", "", ""]);
    let set = RuleSet::check(rt.alloc(), rules, SizeMode::Varies).expect(&rt, "rules");
    let copy = set.copy().expect(&rt, "memory");
    equal(&rt, &"the mode", &copy.mode(), &SizeMode::Varies);
    assert!(rt; have_ids(copy.rules(), &["a", "rule-2", "rule-3"]));
}

fn refusal(rt: &impl Abort, alloc: Global, ids: &[&str]) -> Option<RuleRefusal> {
    RuleSet::check(alloc, rules(rt, alloc, ids), SizeMode::All128K).err()
}

// 1,001 rules, and rules of which two have the same id after a missing one is filled in: their ids, the flaw, and the
// rule that has it.
const FLAWS: [(&[&str], RuleFlaw, u32); 2] = [
    (&[""; 1_001], RuleFlaw::TooManyRules, 0),
    (&["", "b", "rule-1"], RuleFlaw::DoubleId, 3),
];

#[test]
fn rules_that_are_refused(rt: HostRuntime) {
    for (ids, flaw, rule) in &FLAWS {
        let wanted = RuleRefusal::Flaw {
            flaw: *flaw,
            rule: *rule,
        };
        equal(&rt, rule, &refusal(&rt, rt.alloc(), ids), &Some(wanted));
    }
}
