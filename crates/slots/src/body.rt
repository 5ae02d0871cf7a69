// The value that a checkpoint keeps.
ghost use Rattle.std.specs.Prelude.{◌≡◌, ℕ, List, IfOk, IfSome, IfNone};

use office_base::NoMemory;
use std::alloc::Global;

/// A value that a checkpoint keeps, by its bytes.
pub trait Body: Drop {
    /// The bytes are the body of a slot that keeps this value.
    ghost spells: { List ℕ → Self → Type 0 };

    /// Reads the value that the bytes spell; `None` if they spell none.
    ///
    /// # Errors
    ///
    /// `NoMemory`: out of memory for the value.
    fn read(alloc: Global, bytes: &[u8]) -> Result<Option<Self>, NoMemory>
        ensures found { IfOk result (λ read. IfSome read (λ value. spells bytes.now value)) }
        ensures none { IfOk result (λ read. IfNone read ((value : Self) → spells bytes.now value → ⊥)) };
}
