// The name of a bucket.
ghost use Rattle.std.specs.Prelude.{◌≡◌, ◌≤◌, ◌↔◌, ◌⊎◌, false, length, IfOk, IfErr, IsErrOf, string_bytes, Some};
ghost use Rattle.std.specs.Prelude.{refl};
ghost use Rattle.std.specs.List.{list_all};
ghost use Rattle.std.specs.Ordering.{nat_cmp};
ghost use Rattle.std.specs.Cmp.Lexicographic.{slice_cmp, nat_list_eq_equiv, nat_list_cmp_total, texts_ties, texts_po};
ghost use Rattle.std.specs.Str.{bytes_eq};
ghost use Rattle.std.specs.Cmp as laws_of;
ghost use Rattle.office_base.specs.Names.{IsBucketName, is_bucket_name, is_name_char, is_name_end};

use crate::NameRefusal;
use std::alloc::{AllocError, Global};
use std::cmp::Ordering;
use std::marker::Model;

/// The name of a bucket: 3 to 63 lower-case ASCII letters, digits, dots and hyphens. The first and the last character
/// are letters or digits. Names are compared by their bytes.
///
/// Rule: S3 User Guide, "General purpose bucket naming rules". Adjacent dots, address forms and reserved prefixes are
/// not checked.
#[derive(Drop)]
pub struct BucketName {
    text: String,
}

impl Model for BucketName {
    ghost use Rattle.std.specs.Prelude.{ℕ, List, string_bytes};
    ghost use Rattle.office_base.specs.Names.{IsBucketName};

    ghost Value = { List ℕ };

    ghost view = { λ b. string_bytes b.text };

    ghost invariant = { λ b. IsBucketName (string_bytes b.text) };
}

fn ends_name(b: u8) -> bool
    ensures { result ≡ is_name_end b }
{
    (97 <= b && b <= 122) || (48 <= b && b <= 57)
}

fn in_name(b: u8) -> bool
    ensures { result ≡ is_name_char b }
{
    ends_name(b) || b == 46 || b == 45
}

fn all_in_name(bytes: &[u8]) -> bool
    ensures { result ≡ list_all is_name_char bytes.now }
{
    bytes.iter().all(|b| in_name(*b))
}

#[tactic(auto, unfolding(crate::specs::Names::is_bucket_name))]
fn is_name(bytes: &[u8]) -> bool
    ensures { result ≡ is_bucket_name bytes.now }
{
    if bytes.len() < 3 || bytes.len() > 63 {
        return false;
    }
    if !all_in_name(bytes) || !ends_name(bytes[0]) {
        return false;
    }
    ends_name(bytes[bytes.len() - 1])
}

impl BucketName {
    /// Reads a name from a text.
    ///
    /// # Errors
    ///
    /// `BadBucketName`: the text does not have 3 to 63 characters, or begins or ends with a dot or hyphen. Or a
    /// character is not a lower-case ASCII letter, digit, dot or hyphen. `NoMemory`: memory ran out.
    pub fn read(alloc: Global, text: &str) -> Result<BucketName, NameRefusal>
        ensures ok { IfOk result (λ name. (name ≡ text.now) × IsBucketName text.now) }
        ensures bad { IsErrOf result NameRefusal.BadBucketName ↔ (is_bucket_name text.now ≡ false) }
        ensures refusal { IfErr result (λ e. (e ≡ NameRefusal.BadBucketName) ⊎ (e ≡ NameRefusal.NoMemory)) }
    {
        if !is_name(text.as_bytes()) {
            return Err(NameRefusal::BadBucketName);
        }
        let text = String::from_str(alloc, text)?;
        Ok(BucketName { text })
    }

    /// Copies the name. Fails only if memory runs out.
    pub fn copy(&self) -> Result<BucketName, AllocError>
        ensures { IfOk result (λ name. name ≡ self.now) }
    {
        let text = self.text.clone()?;
        Ok(BucketName { text })
    }

    /// Reads the text of the name.
    #[tactic(auto, using(crate::proofs::Sizes::name_small))]
    pub fn text(&self) -> &str
        ensures same { result.now ≡ self.now }
        ensures name { IsBucketName self.now }
        ensures at_most { length self.now ≤ 63 }
    {
        &self.text
    }
}

impl PartialEq for BucketName {
    ghost eq = { λ a b. bytes_eq a b };

    ghost laws = { laws_of.partial_equiv_from_equiv nat_list_eq_equiv };

    fn eq(&self, other: &BucketName) -> bool {
        self.text() == other.text()
    }
}

impl Eq for BucketName {
    ghost laws = { nat_list_eq_equiv };
}

impl PartialOrd for BucketName {
    ghost partial_cmp = { λ a b. Some (slice_cmp nat_cmp a b) };

    ghost laws = { texts_po };

    fn partial_cmp(&self, other: &BucketName) -> Option<Ordering> {
        Some(self.cmp(other))
    }
}

impl Ord for BucketName {
    ghost cmp = { λ a b. slice_cmp nat_cmp a b };

    ghost total = { nat_list_cmp_total };

    ghost matches_partial_cmp = { λ a b. refl };

    ghost matches_eq = { λ a b. texts_ties a b };

    fn cmp(&self, other: &BucketName) -> Ordering {
        self.text().cmp(other.text())
    }
}
