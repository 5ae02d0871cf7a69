// A row of names.
ghost use Rattle.std.specs.Prelude.{◌≡◌, ◌<◌, ◌++◌, ◌∷◌, [], IfOk, length, slice_index_or};
ghost use Rattle.toml_rows.specs.Names.{start_of};

use std::alloc::{AllocError, Global};
use std::marker::Model;

/// Names, one behind the other. A name takes four bytes beside its own.
#[derive(Drop)]
pub(crate) struct Names {
    /// Where each name ends.
    ends: Vec<u32>,
    text: String,
}

impl Model for Names {
    ghost use Rattle.std.specs.Prelude.{ℕ, List, length, string_bytes};
    ghost use Rattle.toml_rows.specs.Names.{names_from, Rise, AreCuts};

    ghost Value = { List (List ℕ) };

    ghost view = { λ names. names_from 0 names.ends.items (string_bytes names.text) };

    ghost invariant = { λ names. Rise 0 names.ends.items (length (string_bytes names.text))
        × AreCuts names.ends.items (string_bytes names.text) };
}

impl Names {
    /// No names.
    #[tactic(auto, using(crate::proofs::NameLemmas::names_none))]
    pub(crate) fn new(alloc: Global) -> Names
        ensures { result ≡ [] }
    {
        Names {
            ends: Vec::new(alloc),
            text: String::new(alloc),
        }
    }

    /// Adds a name. Fails only if memory runs out.
    #[tactic(auto, using(crate::proofs::NameLemmas::names_push, crate::proofs::NameLemmas::rise_push, crate::proofs::NameLemmas::cuts_push))]
    pub(crate) fn push(&mut self, name: &str) -> Result<(), AllocError>
        ensures { IfOk result (λ _. self.new ≡ self.old ++ name.now ∷ []) }
    {
        let end = self.text.len().saturating_add(name.len());
        if end > 4_294_967_295 {
            return Err(AllocError);
        }
        self.ends.reserve(1)?;
        self.text.push_str(name)?;
        self.ends.push_reserved(end as u32);
        Ok(())
    }

    /// Reads a name; an empty one past the end.
    #[tactic(auto, using(crate::proofs::NameLemmas::place, crate::proofs::NameLemmas::name_at, crate::proofs::NameLemmas::no_name))]
    pub(crate) fn get(&self, index: usize) -> &str
        ensures { result.now ≡ slice_index_or self.now index [] }
    {
        if index >= self.ends.len() {
            return "";
        }
        let start = start(&self.ends, index);
        let end = self.ends[index] as usize;
        &self.text[start..end]
    }
}

// Where the name at an index begins.
#[tactic(auto, using(crate::proofs::NameLemmas::start_later, crate::proofs::NameLemmas::start_first))]
fn start(ends: &[u32], index: usize) -> usize
    requires { index < length ends.now }
    ensures { result ≡ start_of 0 ends.now index }
{
    if index == 0 {
        0
    } else {
        ends[index - 1] as usize
    }
}
