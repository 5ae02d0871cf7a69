// What a value states of its calls.
ghost use Rattle.std.specs.Prelude.{List, [], ◌∷◌, ◌++◌};

/// A value whose calls threads make in turns.
pub trait Turned {
    /// What is asked of it.
    type Ask;

    /// What it says.
    type Say;

    // The value now stands for these calls, in order, since it was the first value.
    ghost stands: { Self → Self → List (Self.Ask × Self.Say) → Type 0 };

    // These calls, in order, are legal for the first value.
    ghost lawful: { Self → List (Self.Ask × Self.Say) → Type 0 };

    /// Answers one call of a value that stands for some list. It then stands for that list with the call added,
    /// whatever first value and list it stood for.
    fn take(&mut self, ask: &Self::Ask) -> Self::Say
        requires stands { (first : Self) × (calls : List (Self.Ask × Self.Say)) × stands first self.old calls }
        ensures { (first : Self) (calls : List (Self.Ask × Self.Say)) → stands first self.old calls
            → stands first self.new (calls ++ (ask.now, result) ∷ []) };

    // A value stands only for legal calls.
    ghost is_lawful: { (first now : Self) (calls : List (Self.Ask × Self.Say)) → stands first now calls
        → lawful first calls };
}
