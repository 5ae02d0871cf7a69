// The token of a command.
ghost use Rattle.std.specs.Prelude.{◌≡◌, ◌≤◌, length, IfOk, MatchOption, false, Some, refl};
ghost use Rattle.std.specs.List.{list_all};
ghost use Rattle.std.specs.Ordering.{nat_cmp};
ghost use Rattle.std.specs.Cmp.Lexicographic.{slice_cmp, nat_list_eq_equiv, nat_list_cmp_total, texts_ties, texts_po};
ghost use Rattle.std.specs.Str.{bytes_eq};
ghost use Rattle.std.specs.Cmp as laws_of;
ghost use Rattle.office_types.specs.Tokens.{IsToken, is_token, is_visible};

use office_base::NoMemory;
use std::alloc::{AllocError, Global};
use std::cmp::Ordering;
use std::marker::Model;

/// A client's name for a command, so that the same command acts once if it is sent again: 1 to 64 visible ASCII
/// characters. Tokens are compared by their bytes.
///
/// Own rule.
#[derive(Drop)]
pub struct Token {
    bytes: Vec<u8>,
}

impl Model for Token {
    ghost use Rattle.std.specs.Prelude.{ℕ, List};
    ghost use Rattle.office_types.specs.Tokens.{IsToken};

    ghost Value = { List ℕ };

    ghost view = { λ t. t.bytes.items };

    ghost invariant = { λ t. IsToken t.bytes.items };
}

fn visible(b: u8) -> bool
    ensures { result ≡ is_visible b }
{
    33 <= b && b <= 126
}

fn all_visible(bytes: &[u8]) -> bool
    ensures { result ≡ list_all is_visible bytes.now }
{
    bytes.iter().all(|b| visible(*b))
}

#[tactic(auto, unfolding(crate::specs::Tokens::is_token))]
fn in_range(bytes: &[u8]) -> bool
    ensures { result ≡ is_token bytes.now }
{
    if bytes.is_empty() || bytes.len() > 64 {
        return false;
    }
    all_visible(bytes)
}

impl Token {
    /// Reads a token from bytes; None if they are not 1 to 64 visible ASCII characters. Fails only if memory runs out.
    pub fn read(alloc: Global, bytes: &[u8]) -> Result<Option<Token>, NoMemory>
        ensures { IfOk result (λ token. MatchOption token (is_token bytes.now ≡ false)
            (λ read. (read ≡ bytes.now) × IsToken bytes.now)) }
    {
        if !in_range(bytes) {
            return Ok(None);
        }
        let bytes = bytes.to_vec(alloc)?;
        Ok(Some(Token { bytes }))
    }

    /// Copies the token. Fails only if memory runs out.
    pub fn copy(&self) -> Result<Token, AllocError>
        ensures { IfOk result (λ token. token ≡ self.now) }
    {
        let bytes = self.bytes.clone()?;
        Ok(Token { bytes })
    }

    /// Reads the bytes of the token. Takes no memory.
    #[tactic(auto, using(crate::proofs::Small::token_small))]
    pub fn bytes(&self) -> &[u8]
        ensures same { result.now ≡ self.now }
        ensures token { IsToken self.now }
        ensures at_most { length self.now ≤ 64 }
    {
        &self.bytes
    }
}

impl PartialEq for Token {
    ghost eq = { λ a b. bytes_eq a b };

    ghost laws = { laws_of.partial_equiv_from_equiv nat_list_eq_equiv };

    fn eq(&self, other: &Token) -> bool {
        self.bytes() == other.bytes()
    }
}

impl Eq for Token {
    ghost laws = { nat_list_eq_equiv };
}

impl PartialOrd for Token {
    ghost partial_cmp = { λ a b. Some (slice_cmp nat_cmp a b) };

    ghost laws = { texts_po };

    fn partial_cmp(&self, other: &Token) -> Option<Ordering> {
        Some(self.cmp(other))
    }
}

impl Ord for Token {
    ghost cmp = { λ a b. slice_cmp nat_cmp a b };

    ghost total = { nat_list_cmp_total };

    ghost matches_partial_cmp = { λ a b. refl };

    ghost matches_eq = { λ a b. texts_ties a b };

    fn cmp(&self, other: &Token) -> Ordering {
        self.bytes().cmp(other.bytes())
    }
}
