// The steps of a turn.
ghost use Rattle.std.specs.Prelude.{◌≡◌, ◌≢◌, ℕ, ◌%◌, ◌^◌, ◌<◌, [], ◌∷◌, Some, true};
ghost use Rattle.turn_core.specs.Plays.{Learned, Moved, Served};
ghost use Rattle.turn_core.specs.Seats.{IsSeatAt, IsSameSeat, IsWaiting, IsWaitingWith, HasValue, HasCalled};
ghost use Rattle.turn_core.specs.Seats.{HasAnswered};
ghost use Rattle.turn_core.specs.Views.{AtRest, Called, Counted, IsLawful};

use crate::rule::{Held, Known, Law, SERVING, TICKET};
use crate::turned::Turned;
use crate::view::{Kept, LastCall, View};
use crate::waiting::{ParkingLot, hold_back};
use atomic_table::{Play, Seat, Shared};
use std::marker::PhantomData;
use std::snapshot::Snapshot;
use std::sync::Wait;

/// A ticket is drawn.
pub struct Draw;

impl<T, A, S> Play<Option<Kept<T, A, S>>, View<T, A, S>> for Draw {
    ghost use Rattle.turn_core.specs.Plays.{Draws};

    ghost then = { Draws };
}

/// A pass looks whether it is served. If it is, it takes the value out of the slot.
pub struct Look<T> {
    of: PhantomData<T>,
}

impl<T: Turned> Play<Held<T>, Known<T>> for Look<T> {
    ghost use Rattle.turn_core.specs.Plays.{Looks};

    ghost then = { Looks T.stands };
}

/// The call enters the list, and the turn moves on.
pub struct Move;

impl<T, A, S> Play<Option<Kept<T, A, S>>, View<T, A, S>> for Move {
    ghost use Rattle.turn_core.specs.Plays.{GivesBack};

    ghost then = { GivesBack };
}

/// A pass looks what is known of it after a split or a meeting.
pub struct LookBack;

impl<T, A, S> Play<Option<Kept<T, A, S>>, View<T, A, S>> for LookBack {
    ghost use Rattle.turn_core.specs.Plays.{Learns};

    ghost then = { Learns };
}

pub(crate) type Top<T> = Shared<Held<T>, Known<T>, Snapshot<T>, Law<T>>;

pub(crate) type Place<T> = Seat<Held<T>, Known<T>>;

pub(crate) fn draw_ticket<T: Turned>(top: &Top<T>, place: &mut Place<T>) -> u64
    requires table { IsSeatAt top.now place.old }
    requires rest { AtRest place.old.me }
    ensures same { IsSameSeat place.old place.new }
    ensures drawn { (t : ℕ) × (result ≡ t % 2 ^ 64)
        × (place.new.me ≡ (record place.old.me.0 { ticket = Some t }, [])) }
{
    top.fetch_add::<Draw>(place, TICKET, 1)
}

pub(crate) fn look_once<T: Turned>(top: &Top<T>, place: &mut Place<T>) -> u64
    requires table { IsSeatAt top.now place.old }
    requires waits { IsWaiting place.old.me }
    ensures same { IsSameSeat place.old place.new }
    ensures served { (t : ℕ) → place.old.me.0.ticket ≡ Some t → result ≡ t % 2 ^ 64
        → Served T.stands place.old.me place.new.me }
    ensures waits { (t : ℕ) → place.old.me.0.ticket ≡ Some t → result ≢ t % 2 ^ 64
        → place.new.me ≡ place.old.me }
{
    top.load::<Look<T>>(place, SERVING)
}

// Ends the turn: the call is then in the list, and the next ticket is served.
pub(crate) fn move_on<T: Turned>(top: &Top<T>, lot: &ParkingLot, place: &mut Place<T>)
    requires table { IsSeatAt top.now place.old }
    requires served { place.old.me.0.served ≡ true }
    requires holds { HasCalled T.stands place.old.me }
    ensures same { IsSameSeat place.old place.new }
    ensures called { (k : _) (d : _) → place.old.me.1 ≡ (0, Some k) ∷ [] → k.last ≡ Some d
        → Moved place.old.me d place.new.me }
{
    let ended = top.fetch_add::<Move>(place, SERVING, 1);
    lot.wake(ended.wrapping_add(1));
}

// Takes the value out of the slot, makes the call, and puts it back.
pub(crate) fn call<T: Turned>(top: &Top<T>, place: &mut Place<T>, ask: &T::Ask) -> T::Say
    requires table { IsSeatAt top.now place.old }
    requires holds { HasValue T.stands place.old.me }
    ensures same { IsSameSeat place.old place.new }
    ensures view { place.new.me.0 ≡ place.old.me.0 }
    ensures called { HasAnswered T.stands place.old.me.0 ask.now result place.new.me }
{
    let Some(kept) = top.exchange(place, 0, None) else {
        unreachable!()
    };
    let Kept { mut value, last: _ } = kept;
    let say = value.take(ask);
    let done = LastCall {
        ask: Snapshot::of(ask),
        say: Snapshot::of(&say),
    };
    let back = Kept {
        value,
        last: Some(done),
    };
    let left = top.exchange(place, 0, Some(back));
    let None = left else { unreachable!() };
    say
}

// Waits until the ticket is served.
pub(crate) fn wait_for<T: Turned, R: Wait>(
    rt: &R,
    top: &Top<T>,
    lot: &ParkingLot,
    place: &mut Place<T>,
    ticket: u64,
)
    requires table { IsSeatAt top.now place.old }
    requires waits { IsWaitingWith place.old.me ticket }
    ensures same { IsSameSeat place.old place.new }
    ensures served { Served T.stands place.old.me place.new.me }
{
    for _ in rt.forever() {
        let found = look_once(top, place);
        if found == ticket {
            return;
        }
        lot.wait_for(rt, top, ticket);
    }
    unreachable!()
}

// Holds back a little, draws a ticket, waits for it, makes the call and moves the turn on.
pub(crate) fn take_turn<T: Turned, R: Wait>(
    rt: &R,
    top: &Top<T>,
    lot: &ParkingLot,
    place: &mut Place<T>,
    ask: &T::Ask,
) -> T::Say
    requires table { IsSeatAt top.now place.old }
    requires rest { AtRest place.old.me }
    ensures same { IsSameSeat place.old place.new }
    ensures rest { AtRest place.new.me }
    ensures called { Called place.old.me.0 ask.now result place.new.me.0 }
    ensures counted { Counted place.new.me.0 }
    ensures lawful { IsLawful T.lawful place.new.me.0 }
{
    hold_back(rt, top);
    let ticket = draw_ticket(top, place);
    wait_for(rt, top, lot, place, ticket);
    let say = call(top, place, ask);
    move_on(top, lot, place);
    say
}

// States what is known of a pass; nothing changes.
pub(crate) fn look_back<T: Turned>(top: &Top<T>, place: &mut Place<T>)
    requires table { IsSeatAt top.now place.old }
    requires rest { AtRest place.old.me }
    ensures same { IsSameSeat place.old place.new }
    ensures learned { Learned place.old.me place.new.me }
{
    top.load::<LookBack>(place, SERVING);
}
