// The key of an object.
ghost use Rattle.std.specs.Prelude.{◌≡◌, ◌≤◌, ◌↔◌, ◌⊎◌, true, false, length, IfOk};
ghost use Rattle.std.specs.Prelude.{IfErr, IfSome, IfNone, IsErrOf, Some, refl};
ghost use Rattle.std.specs.Ordering.{nat_cmp};
ghost use Rattle.std.specs.Cmp.Lexicographic.{slice_cmp, nat_list_eq_equiv, nat_list_cmp_total, texts_ties, texts_po};
ghost use Rattle.std.specs.Str.{bytes_eq, is_utf8};
ghost use Rattle.std.specs.Cmp as laws_of;
ghost use Rattle.office_base.specs.Keys.{IsKey, is_key};

use crate::NameRefusal;
use std::alloc::{AllocError, Global};
use std::cmp::Ordering;
use std::marker::Model;

/// The key of an object: 1 to 1,024 bytes of UTF-8. Keys are compared by their bytes.
///
/// Rule: S3 User Guide, "Naming Amazon S3 objects".
#[derive(Drop)]
pub struct Key {
    text: String,
}

impl Model for Key {
    ghost use Rattle.std.specs.Prelude.{ℕ, List, string_bytes};
    ghost use Rattle.office_base.specs.Keys.{IsKey};

    ghost Value = { List ℕ };

    ghost view = { λ k. string_bytes k.text };

    ghost invariant = { λ k. IsKey (string_bytes k.text) };
}

// The bytes as a text, if they are a valid key.
#[tactic(auto, using(crate::proofs::Utf8::utf8_tests), unfolding(crate::specs::Keys::is_key))]
fn key_text(bytes: &[u8]) -> Option<&str>
    ensures some { IfSome result (λ text. (text.now ≡ bytes.now) × IsKey bytes.now) }
    ensures none { IfNone result (is_key bytes.now ≡ false) }
{
    if bytes.is_empty() || bytes.len() > 1_024 {
        return None;
    }
    match str::from_utf8(bytes) {
        Ok(text) => Some(text),
        Err(_) => None,
    }
}

impl Key {
    /// Reads a key from bytes.
    ///
    /// # Errors
    ///
    /// `BadKey`: there are not 1 to 1,024 bytes, or they are not UTF-8. `NoMemory`: memory ran out.
    pub fn read(alloc: Global, bytes: &[u8]) -> Result<Key, NameRefusal>
        ensures ok { IfOk result (λ key. (key ≡ bytes.now) × IsKey bytes.now) }
        ensures bad { IsErrOf result NameRefusal.BadKey ↔ (is_key bytes.now ≡ false) }
        ensures refusal { IfErr result (λ e. (e ≡ NameRefusal.BadKey) ⊎ (e ≡ NameRefusal.NoMemory)) }
    {
        let Some(text) = key_text(bytes) else {
            return Err(NameRefusal::BadKey);
        };
        let text = String::from_str(alloc, text)?;
        Ok(Key { text })
    }

    /// Copies the key. Fails only if memory runs out.
    pub fn copy(&self) -> Result<Key, AllocError>
        ensures { IfOk result (λ key. key ≡ self.now) }
    {
        let text = self.text.clone()?;
        Ok(Key { text })
    }

    /// Reads the bytes of the key.
    #[tactic(auto, using(crate::proofs::Sizes::key_small))]
    pub fn bytes(&self) -> &[u8]
        ensures same { result.now ≡ self.now }
        ensures key { IsKey self.now }
        ensures at_most { length self.now ≤ 1_024 }
    {
        self.text.as_bytes()
    }

    /// Reads the key as a text.
    pub fn text(&self) -> &str
        ensures { result.now ≡ self.now }
    {
        &self.text
    }
}

impl PartialEq for Key {
    ghost eq = { λ a b. bytes_eq a b };

    ghost laws = { laws_of.partial_equiv_from_equiv nat_list_eq_equiv };

    fn eq(&self, other: &Key) -> bool {
        self.text() == other.text()
    }
}

impl Eq for Key {
    ghost laws = { nat_list_eq_equiv };
}

impl PartialOrd for Key {
    ghost partial_cmp = { λ a b. Some (slice_cmp nat_cmp a b) };

    ghost laws = { texts_po };

    fn partial_cmp(&self, other: &Key) -> Option<Ordering> {
        Some(self.cmp(other))
    }
}

impl Ord for Key {
    ghost cmp = { λ a b. slice_cmp nat_cmp a b };

    ghost total = { nat_list_cmp_total };

    ghost matches_partial_cmp = { λ a b. refl };

    ghost matches_eq = { λ a b. texts_ties a b };

    fn cmp(&self, other: &Key) -> Ordering {
        self.text().cmp(other.text())
    }
}
