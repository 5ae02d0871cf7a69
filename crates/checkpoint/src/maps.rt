// Maps that are made of pairs whose keys rise.
ghost use Rattle.std.specs.Prelude.{◌≡◌, true, false, IfOk, IfSome, IfNone};
ghost use Rattle.std.specs.FinMap.{IsAntisymmetric};
ghost use Rattle.std.specs.Ordering.{is_lt};
ghost use Rattle.checkpoint.specs.Parts.{keys_rise};

use office_base::NoMemory;
use std::alloc::Global;
use std::cmp::Ordering;
use std::collections::BTreeMap;

fn is_below<K: Ord>(a: &K, b: &K) -> bool
    ensures { result ≡ is_lt (K.cmp a.now b.now) }
{
    match a.cmp(b) {
        Ordering::Less => true,
        _ => false,
    }
}

// Whether the keys of the pairs strictly rise. Each is compared with the one before it.
fn do_keys_rise<K: Ord, V>(pairs: &[(K, V)]) -> bool
    ensures { result ≡ keys_rise K.cmp pairs.now }
{
    let mut before: Option<&K> = None;
    for pair in pairs {
        if let Some(last) = before {
            if !is_below(last, &pair.0) {
                return false;
            }
        }
        before = Some(&pair.0);
    }
    true
}

// The map of these pairs; None if their keys do not strictly rise. It is built at once, without a search for each key.
#[tactic(auto, using(crate::proofs::Collecting::collected))]
pub(crate) fn map_of<K: Ord + Drop, V: Drop>(
    alloc: Global,
    pairs: Vec<(K, V)>,
) -> Result<Option<BTreeMap<K, V>>, NoMemory>
    requires { IsAntisymmetric K.cmp }
    ensures some { IfOk result (λ map. IfSome map
        (λ map. (map.entries ≡ pairs.items) × (keys_rise K.cmp pairs.items ≡ true))) }
    ensures none { IfOk result (λ map. IfNone map (keys_rise K.cmp pairs.items ≡ false)) }
{
    if !do_keys_rise(&pairs) {
        return Ok(None);
    }
    let map = pairs.into_iter().collect(alloc)?;
    Ok(Some(map))
}
