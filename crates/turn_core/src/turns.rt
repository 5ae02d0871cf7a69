// The turns.
ghost use Rattle.std.specs.Prelude.{◌≡◌, ◌<◌, [], IfOk, IfErr, IsSome, Some};
ghost use Rattle.turn_core.specs.Views.{Called, Counted, IsLawful, IsWhole, Joined, StandsSince, newcomer, left, right};
ghost use Rattle.turn_core.specs.Views.{all_shares};

use crate::pass::TicketPass;
use crate::rule::{Held, Known, Law, Meeting, Parting};
use crate::steps::{look_back, take_turn};
use crate::turned::Turned;
use crate::view::Kept;
use crate::waiting::ParkingLot;
use atomic_table::{Refused, Table, TableRule};
use std::alloc::Global;
use std::snapshot::Snapshot;
use std::sync::Wait;

/// A ticket lock: the words `ticket` and `serving`, counted modulo 2^64, and a slot with the value.
pub struct TicketLock<S, V, K, P: TableRule<S, V, K>> {
    pub(crate) table: Table<S, V, K, P, Global>,
    pub(crate) lot: ParkingLot,
    ghost sized: { (table.shared.table_id.words ≡ 2) × (table.shared.table_id.slots ≡ 1) },
}

/// A value that threads take in turns.
pub type Turns<T> = TicketLock<Held<T>, Known<T>, Snapshot<T>, Law<T>>;

/// A right to take turns on a `T`.
pub type Pass<T> = TicketPass<Held<T>, Known<T>>;

impl<T: Turned> TicketLock<Held<T>, Known<T>, Snapshot<T>, Law<T>> {
    ghost use Rattle.turn_core.specs.Passes.{view, IsPassOf};

    /// Makes turns on a value, with the first pass, which has every share.
    ///
    /// # Errors
    ///
    /// Returns the value only if memory ran out.
    pub fn new(alloc: Global, inner: T) -> Result<(Turns<T>, Pass<T>), T>
        requires stands { T.stands inner inner [] }
        ensures made { IfOk result (λ r. IsPassOf r.0 r.1 × (view r.1 ≡ newcomer inner)) }
        ensures refused { IfErr result (λ v. v ≡ inner) }
    {
        let about = Snapshot::of(&inner);
        let mut slots = Vec::new(alloc);
        let kept = Kept {
            value: inner,
            last: None,
        };
        if let Err(failed) = slots.push(Some(kept)) {
            slots.destroy_empty();
            return Err(given_back(failed.value));
        }
        match Table::new(alloc, &[0, 0], slots, &about) {
            Ok((table, seat)) => {
                let lot = ParkingLot::new();
                Ok((TicketLock { table, lot }, TicketPass { seat, calls: 0 }))
            }
            Err(Refused { mut slots }) => {
                let Some(kept) = slots.pop() else {
                    unreachable!()
                };
                slots.destroy_empty();
                Err(given_back(kept))
            }
        }
    }

    /// Makes one call when the turn of this pass comes, and returns what the value said.
    ///
    /// While other passes have tickets it first waits for a short time. Then it draws a ticket and waits until that is
    /// served. It may wait for other passes without end.
    pub fn turn<R: Wait>(&self, rt: &R, pass: &mut Pass<T>, ask: &T::Ask) -> T::Say
        requires own { IsPassOf self.now pass.old }
        ensures own { IsPassOf self.now pass.new }
        ensures called { Called (view pass.old) ask.now result (view pass.new) }
        ensures counted { Counted (view pass.new) }
        ensures lawful { IsLawful T.lawful (view pass.new) }
    {
        let say = take_turn(rt, &self.table.shared, &self.lot, &mut pass.seat, ask);
        pass.calls = pass.calls.saturating_add(1);
        say
    }

    /// Splits off another pass, which has seen as much. It takes one share and a number of its own.
    ///
    /// Cost: no memory.
    pub fn split(&self, pass: &mut Pass<T>) -> Pass<T>
        requires own { IsPassOf self.now pass.old }
        requires share { 1 < (view pass.old).share }
        ensures own { IsPassOf self.now pass.new }
        ensures fellow { IsPassOf self.now result }
        ensures old { view pass.new ≡ left (view pass.old) }
        ensures new { view result ≡ right (view pass.old) }
        ensures counted { Counted (view result) }
    {
        let mut seat = self.table.shared.split_seat::<Parting>(&mut pass.seat);
        look_back(&self.table.shared, &mut seat);
        TicketPass { seat, calls: 0 }
    }

    /// Takes another pass in. The pass has then seen the longer of both lists, and has the shares of both.
    ///
    /// Cost: no memory.
    pub fn meet(&self, pass: &mut Pass<T>, other: Pass<T>)
        requires own { IsPassOf self.now pass.old }
        requires fellow { IsPassOf self.now other }
        ensures own { IsPassOf self.now pass.new }
        ensures met { Joined (view pass.old) (view other) (view pass.new) }
        ensures counted { Counted (view pass.new) }
        ensures whole { (view pass.new).share ≡ all_shares → IsWhole (view pass.new) }
    {
        let TicketPass { seat, calls: _ } = other;
        self.table.shared.join_seat::<Meeting>(&mut pass.seat, seat);
        look_back(&self.table.shared, &mut pass.seat);
    }

    /// Returns the value, if no other pass is left. The list of the pass is then the whole list.
    ///
    /// Cost: no memory.
    pub fn close(self, pass: Pass<T>) -> T
        requires own { IsPassOf self pass }
        requires share { (view pass).share ≡ all_shares }
        ensures value { StandsSince T.stands (view pass).opening result (view pass).seen }
        ensures counted { Counted (view pass) }
        ensures whole { IsWhole (view pass) }
    {
        let TicketLock { table, lot: _ } = self;
        let TicketPass { seat, calls: _ } = pass;
        let mut closed = table.close_with(seat);
        let slot = closed.take(0);
        closed.free();
        given_back(slot)
    }
}

// The value in a slot.
fn given_back<T: Turned>(slot: Held<T>) -> T
    requires { IsSome slot }
    ensures { (k : _) × (slot ≡ Some k) × (result ≡ k.value) }
{
    let Some(kept) = slot else { unreachable!() };
    let Kept { value, last: _ } = kept;
    value
}
