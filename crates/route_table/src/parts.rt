// The parts of a path.
ghost use Rattle.std.specs.Prelude.{◌≡◌, [], get_or};
ghost use Rattle.route_table.specs.Routed.{AreTexts, taken, taken_by};

use matchit::{Params, ParamsIter};
use std::marker::Model;

/// The parts of a path for which its pattern has no word, in order. They take no memory.
#[derive(Drop)]
pub struct Parts<'a, 't> {
    params: Params<'a, 't>,
}

impl<'a, 't> Model for Parts<'a, 't> {
    ghost use Rattle.std.specs.Prelude.{ℕ, List};
    ghost use Rattle.route_table.specs.Routed.{AreTexts, taken_by};

    ghost Value = { List (List ℕ) };

    ghost view = { λ p. taken_by p.params };

    ghost invariant = { λ p. AreTexts (taken_by p.params) };
}

// The part at a place, counted from 0 among those left.
fn part_at<'t>(left: &mut ParamsIter<'_, '_, 't>, place: usize) -> &'t str
    ensures { AreTexts (taken left.old) → result.now ≡ get_or (taken left.old) place [] }
{
    match left.next() {
        None => "",
        Some((_, part)) => {
            if place == 0 {
                part
            } else {
                part_at(left, place - 1)
            }
        }
    }
}

impl<'a, 't> Parts<'a, 't> {
    // The parts that the parameters of a match took.
    pub(crate) fn of(params: Params<'a, 't>) -> Parts<'a, 't>
        requires texts { AreTexts (taken_by params) }
        ensures { result ≡ taken_by params.entry }
    {
        Parts { params }
    }

    /// The part at a place, counted from 0; an empty text if there are fewer.
    pub fn at(&self, place: usize) -> &'t str
        ensures { result.now ≡ get_or self.now place [] }
    {
        part_at(&mut self.params.iter(), place)
    }
}
