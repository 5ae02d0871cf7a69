// What holds of every file.
ghost use Rattle.std.specs.Prelude.{◌≡◌, ◌↔◌, ℕ, List};
ghost use Rattle.office_types.specs.declared.command.Entry.{Entry};
ghost use Rattle.meter_journal.specs.History.{HasEntries};
ghost use Rattle.meter_journal.specs.Reading.{IsMade, IsNotMade, IsForeign, HasPrefix, HasNextAt};

/// States that a file is exactly one of made, not made and foreign. It does nothing.
pub fn one_head()
    ensures apart { (file : List ℕ) → IsMade file → IsNotMade file → ⊥ }
    ensures foreign { (file : List ℕ) → IsForeign file ↔ ((IsNotMade file → ⊥) × (IsMade file → ⊥)) }
{}

/// States that a file has at most one list of entries, after any head. It does nothing.
pub fn one_history()
    ensures { (head : List ℕ) (a b : List Entry) (file : List ℕ) → HasEntries head a file → HasEntries head b file
        → a ≡ b }
{}

/// States that a file which holds entries is read without damage, entry by entry, up to its end. It does nothing.
pub fn reads_all()
    ensures { (head : List ℕ) (front entries : List Entry) (gate : ℕ) (file : List ℕ) → HasEntries head entries file
        → HasPrefix head front gate file
        → HasNextAt front entries gate file }
{}
