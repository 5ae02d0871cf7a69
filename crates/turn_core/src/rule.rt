// The rule of the table of words, slot and passes.
use crate::turned::Turned;
use crate::view::{Kept, View};
use atomic_table::{Join, Split, TableRule};
use std::marker::PhantomData;
use std::snapshot::Snapshot;

/// What a pass knows of a turned value: the calls that it has seen and made, its ticket and its share.
pub type Known<T> = View<T, <T as Turned>::Ask, <T as Turned>::Say>;

/// What the slot holds: the value with the last call that was made on it, or nothing while a pass has it.
pub type Held<T> = Option<Kept<T, <T as Turned>::Ask, <T as Turned>::Say>>;

/// The word with the number of the next ticket, modulo 2^64.
pub(crate) const TICKET: usize = 0;

/// The word with the number of the ticket that is served, modulo 2^64.
pub(crate) const SERVING: usize = 1;

/// The rule between any two steps.
pub struct Law<T> {
    of: PhantomData<T>,
}

impl<T: Turned> TableRule<Held<T>, Known<T>, Snapshot<T>> for Law<T> {
    ghost use Rattle.turn_core.specs.Rule.{OneList};
    ghost use Rattle.turn_core.specs.Views.{newcomer};

    ghost holds = { λ key. OneList T.stands key.value };

    ghost first = { λ key. newcomer key.value };
}

/// How a pass is split.
pub struct Parting;

impl<T, A, S> Split<View<T, A, S>> for Parting {
    ghost use Rattle.turn_core.specs.Views.{left, right};

    ghost left = { left };

    ghost right = { right };
}

/// How two passes meet.
pub struct Meeting;

impl<T, A, S> Join<View<T, A, S>> for Meeting {
    ghost use Rattle.turn_core.specs.Views.{both, spent};

    ghost both = { both };

    ghost spent = { spent };
}
