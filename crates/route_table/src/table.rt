// A table of patterns.
ghost use Rattle.std.specs.Prelude.{◌≡◌, true, map, None, IfOk, IfSome, OnOk};
ghost use Rattle.std.specs.String.{string_bytes};
ghost use Rattle.matchit.specs.Router.{nearest};
ghost use Rattle.route_table.specs.Patterns.{is_pattern, are_disjoint, shape_in, pattern_in};
ghost use Rattle.route_table.specs.Tables.{patterns_of, Leads, LeadsOnly, LeadsNowhere};
ghost use Rattle.route_table.specs.Routed.{text_in, pattern_text, tokens_of, AddsRow};

use crate::parts::Parts;
use crate::shape::Shape;
use matchit::{InsertError, Router};
use std::alloc::{AllocError, Global};
use std::marker::Model;

/// Disjoint patterns, each with a value. A table is built once, and then answers without memory.
#[derive(Drop)]
pub struct Table<'p, V> {
    rows: &'p [(&'p [Shape<'p>], V)],
    // Leads a path to the place of its row.
    router: Router<usize>,
}

// Callers see the rows, in order.
impl<'p, V> Model for Table<'p, V> {
    ghost use Rattle.std.specs.Prelude.{List, map};
    ghost use Rattle.route_table.specs.Patterns.{Shape, pattern_in};
    ghost use Rattle.route_table.specs.Tables.{patterns_of};
    ghost use Rattle.route_table.specs.Routed.{IsRouted};

    ghost Value = { List (List Shape × V) };

    ghost view = { λ t. map (λ row. (pattern_in row.0.now, row.1)) t.rows.now };

    ghost invariant = { λ t. IsRouted (patterns_of (map (λ row. (pattern_in row.0.now, row.1)) t.rows.now)) t.router };
}

/// What a table gives for a path.
#[derive(Drop)]
pub struct Found<'a, 't, V> {
    /// The value that is kept with the path's pattern.
    pub value: &'a V,
    /// The parts of the path for which the pattern has no word.
    pub parts: Parts<'a, 't>,
}

// How matchit writes a shape.
fn text_of<'p>(shape: &Shape<'p>) -> &'p str
    ensures { result.now ≡ text_in (shape_in shape.now) }
{
    match shape {
        Shape::Word(word) => word,
        Shape::Segment => "{p}",
        Shape::Remainder => "{*p}",
    }
}

// How matchit writes a pattern.
fn spell(alloc: Global, pattern: &[Shape]) -> Result<String, AllocError>
    ensures { IfOk result (λ text. string_bytes text ≡ pattern_text (pattern_in pattern.now)) }
{
    let mut text = String::new(alloc);
    for shape in pattern {
        text.push_str("/")?;
        text.push_str(text_of(shape))?;
    }
    Ok(text)
}

// Adds a pattern with its place.
#[tactic(auto, using(crate::proofs::Rows::adds, crate::proofs::Rows::refused))]
fn add(
    alloc: Global,
    router: &mut Router<usize>,
    pattern: &[Shape],
    place: usize,
) -> Result<(), AllocError>
    requires pattern { is_pattern (pattern_in pattern.now) ≡ true }
    requires free { nearest (tokens_of (pattern_in pattern.now)) router.old ≡ None }
    ensures { OnOk result (AddsRow (tokens_of (pattern_in pattern.now)) place router.old router.new) }
{
    let text = spell(alloc, pattern)?;
    match router.insert(&text, place) {
        Ok(()) => Ok(()),
        Err(refusal) => match refusal {
            InsertError::OutOfMemory => Err(AllocError),
            _ => unreachable!(),
        },
    }
}

impl<'p, V> Table<'p, V> {
    /// Builds the table of these rows. Takes all the memory that it needs.
    ///
    /// # Errors
    ///
    /// `AllocError`: memory ran out.
    pub fn new(alloc: Global, rows: &'p [(&'p [Shape<'p>], V)]) -> Result<Table<'p, V>, AllocError>
        requires disjoint { are_disjoint (patterns_of (map (λ row. (pattern_in row.0.now, row.1)) rows.now)) ≡ true }
        ensures { IfOk result (λ table. table ≡ map (λ row. (pattern_in row.0.now, row.1)) rows.now) }
    {
        let mut router = Router::new(alloc);
        for place in 0..rows.len() {
            add(alloc, &mut router, rows[place].0, place)?;
        }
        Ok(Table { rows, router })
    }

    /// Finds the value and the parts of a path. Takes no memory.
    ///
    /// `None`: the path matches none of the patterns.
    pub fn find<'a, 't>(&'a self, path: &'t str) -> Option<Found<'a, 't, V>>
        ensures found { IfSome result (λ found. Leads self.now path.now found.value.now found.parts) }
        ensures only { IfSome result (λ found. LeadsOnly self.now path.now found.value.now found.parts) }
        ensures none { result ≡ None → LeadsNowhere self.now path.now }
    {
        match self.router.at(path) {
            Ok(found) => {
                let place = *found.value;
                Some(Found {
                    value: &self.rows[place].1,
                    parts: Parts::of(found.params),
                })
            }
            Err(_) => None,
        }
    }
}
