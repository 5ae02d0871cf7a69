// A text.
ghost use Rattle.std.specs.Prelude.{◌≡◌, true, IfOk, string_bytes};
ghost use Rattle.std.specs.Str.{is_utf8};
ghost use Rattle.office_base.specs.Tags.{char_count};

use crate::tags::count_chars;
use std::alloc::{AllocError, Global};
use std::marker::Model;

/// A text in a value that is compared as a whole: contracts see its bytes, not its address.
#[derive(Drop)]
pub struct Text {
    text: String,
}

impl Model for Text {
    ghost use Rattle.std.specs.Prelude.{ℕ, List, string_bytes};

    ghost Value = { List ℕ };

    ghost view = { λ t. string_bytes t.text };
}

impl Text {
    /// Takes the text over. Takes no memory.
    pub fn of(text: String) -> Text
        ensures { result ≡ string_bytes text }
    {
        Text { text }
    }

    /// Reads the text.
    #[tactic(auto, using(crate::proofs::Utf8::utf8_is))]
    pub fn as_str(&self) -> &str
        ensures same { result.now ≡ self.now }
        ensures utf8 { is_utf8 self.now ≡ true }
    {
        self.text.as_str()
    }

    /// Gives the text back. Takes no memory.
    pub fn into_string(self) -> String
        ensures { string_bytes result ≡ self }
    {
        self.text
    }

    /// Counts the characters.
    pub fn char_count(&self) -> usize
        ensures { result ≡ char_count self.now }
    {
        count_chars(self.as_str())
    }

    /// Copies the text. Fails only if memory runs out.
    pub fn copy(&self) -> Result<Text, AllocError>
        ensures { IfOk result (λ text. text ≡ self.now) }
    {
        let text = self.text.clone()?;
        Ok(Text { text })
    }
}
