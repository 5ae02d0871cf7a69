// Configurations, each with its one text.
ghost use Rattle.std.specs.Prelude.{◌≡◌, ◌++◌, IfOk, OnOk, length, true, string_bytes};
ghost use Rattle.std.specs.Str.{bytes_eq};
ghost use Rattle.rules_core.specs.Configurations.{IsConfiguration};
ghost use Rattle.rules_json.specs.Printing.{printed};
ghost use Rattle.entry_codec.specs.Fields as field;
ghost use Rattle.entry_codec.specs.Fields.{rules_texts, format};
ghost use Rattle.entry_codec.specs.Reading.{Finds, EntryGives, value_at};

use crate::fault::EntryFault;
use crate::field_readers::fault_at;
use crate::field_writers::put_long_text;
use crate::fields::long_counted_in;
use office_base::NoMemory;
use rules_core::RuleSet;
use rules_json::{RulesFault, print_rules, read_rules};
use std::alloc::{AllocError, Global};

// The text of a configuration.
fn text_of(alloc: Global, rules: &RuleSet) -> Result<String, NoMemory>
    ensures text { IfOk result (λ text. string_bytes text ≡ printed rules.now) }
    ensures kept { IsConfiguration rules.now }
{
    // Called only for its clause, that the rules keep all conditions.
    let _kept = rules.rules();
    print_rules(alloc, rules)
}

fn is_text_of(alloc: Global, bytes: &[u8], rules: &RuleSet) -> Result<bool, NoMemory>
    ensures same { IfOk result (λ same. same ≡ bytes_eq bytes.now (printed rules.now)) }
    ensures kept { IsConfiguration rules.now }
{
    let text = text_of(alloc, rules)?;
    Ok(bytes == text.as_bytes())
}

/// Reads the configuration whose one text this is; `None` if there is none.
#[tactic(auto, using(crate::proofs::RulesTexts::which_rules))]
pub fn rules_in(alloc: Global, text: &[u8]) -> Result<Option<RuleSet>, NoMemory>
    ensures { Finds (λ rules. rules) result (rules_texts.value text.now) }
{
    match read_rules(alloc, text) {
        Ok(rules) => match is_text_of(alloc, text, &rules) {
            Ok(true) => Ok(Some(rules)),
            Ok(false) => Ok(None),
            Err(_) => Err(NoMemory),
        },
        Err(e) => match e {
            RulesFault::NoMemory => Err(NoMemory),
            _ => Ok(None),
        },
    }
}

#[tactic(auto, unfolding(crate::specs::Reading::value_at, crate::specs::Fields::format))]
pub(crate) fn rules_of(
    alloc: Global,
    total: usize,
    bytes: &[u8],
) -> Result<(RuleSet, &[u8]), EntryFault>
    ensures { EntryGives (λ x. (x.0, x.1.now)) result (value_at (format field.Rules) total bytes.now) }
{
    let Some((text, rest)) = long_counted_in(bytes) else {
        return Err(fault_at(total, bytes));
    };
    match rules_in(alloc, text)? {
        Some(rules) => Ok((rules, rest)),
        None => Err(fault_at(total, bytes)),
    }
}

/// Writes the text of a configuration after its length.
#[tactic(auto, using(crate::proofs::RulesTexts::rules_fit), unfolding(crate::specs::Fields::format))]
pub fn put_rules(out: &mut Vec<u8>, rules: &RuleSet) -> Result<(), AllocError>
    ensures bytes { OnOk result (out.new.items ≡ out.old.items ++ (format field.Rules).written rules.now) }
    ensures has { OnOk result ((format field.Rules).has rules.now ≡ true) }
{
    let Ok(text) = text_of(*out.allocator(), rules) else {
        return Err(AllocError);
    };
    put_long_text(out, text.as_bytes())
}
