//! The steps of a turn, over the table that threads share.
ghost use Rattle.std.specs.Prelude.{◌≡◌, ℕ, true, [], ◌∷◌, None, Some, IfOk, OnErr};
ghost use Rattle.gz_lock.specs.declared.views.SeatState.TheVariants.{Waits, Served};
ghost use Rattle.gz_lock.specs.Histories.{StandsFor};
ghost use Rattle.gz_lock.specs.Seats.{IsSized, Rests, with_state};
ghost use Rattle.gz_lock.specs.Rule.{IsAtTurn};
ghost use Rattle.gz_lock.specs.Steps.{held_of, HoldsCell, IsServed, IsCounted};

use crate::lock::Seat;
use crate::plays::{Count, Look, Same, Take};
use crate::rule::{CELL, COUNT, SERVING, Steps, TICKET};
use crate::turned::Turned;
use crate::views::{Held, Last};
use std::alloc::AllocError;
use std::snapshot::Snapshot;
use std::sync::Wait;
use std::thread::yield_now;

/// Takes the next ticket. Where no ticket is left it waits for ever.
pub(crate) fn take_ticket<V: Turned, R: Wait>(rt: &R, table: &Steps<V>, seat: &mut Seat<V>) -> u64
    requires seat { (seat.old.table_id ≡ table.now.table_id) × IsSized table.now.table_id }
    requires rests { Rests seat.old.me }
    ensures seat { (seat.new.table_id ≡ seat.old.table_id) × (seat.new.id ≡ seat.old.id) }
    ensures waits { seat.new.me ≡ (with_state seat.old.me.0 (Waits result) seat.old.me.0.seen, []) }
{
    for _ in rt.forever() {
        let next = table.load::<Same>(seat, TICKET);
        if next < u64::MAX && table.compare_exchange::<Take>(seat, TICKET, next, next + 1) == next {
            return next;
        }
    }
    unreachable!()
}

/// Waits until the ticket is served.
pub(crate) fn await_service<V: Turned, R: Wait>(
    rt: &R,
    table: &Steps<V>,
    seat: &mut Seat<V>,
    ticket: u64,
)
    requires seat { (seat.old.table_id ≡ table.now.table_id) × IsSized table.now.table_id }
    requires waits { (seat.old.me.0.live ≡ true) × (seat.old.me.0.state ≡ Waits ticket) × (seat.old.me.1 ≡ []) }
    ensures seat { (seat.new.table_id ≡ seat.old.table_id) × (seat.new.id ≡ seat.old.id) }
    ensures served { IsServed V.past V.stands V.kept seat.old.me.0 ticket seat.new.me }
{
    for _ in rt.forever() {
        if table.load::<Look<V>>(seat, SERVING) == ticket {
            return;
        }
        yield_now();
    }
    unreachable!()
}

/// What lies in the cell that the seat holds.
fn take_out<V: Turned>(table: &Steps<V>, seat: &mut Seat<V>) -> Held<V, V::Entry, V::Reply>
    requires seat { seat.old.table_id ≡ table.now.table_id }
    requires holds { HoldsCell V.past V.stands V.kept seat.old.me }
    ensures seat { (seat.new.table_id ≡ seat.old.table_id) × (seat.new.id ≡ seat.old.id) }
    ensures cell { seat.new.me ≡ (seat.old.me.0, (0, None) ∷ []) }
    ensures value { StandsFor V.past V.stands V.kept result.value seat.old.me.0.seen }
{
    table.exchange(seat, CELL, None).unwrap()
}

/// Puts the value into the cell that the seat holds.
fn put_back<V: Turned>(
    table: &Steps<V>,
    seat: &mut Seat<V>,
    value: V,
    last: Option<Last<V::Entry, V::Reply>>,
)
    requires seat { seat.old.table_id ≡ table.now.table_id }
    requires cell { seat.old.me.1 ≡ (0, None) ∷ [] }
    ensures seat { (seat.new.table_id ≡ seat.old.table_id) × (seat.new.id ≡ seat.old.id) }
    ensures cell { seat.new.me ≡ (seat.old.me.0, (0, Some (held_of value last)) ∷ []) }
{
    table.exchange(seat, CELL, Some(Held { value, last }));
}

/// The served seat's turn. It leaves the value in the cell, and counts the turn.
pub(crate) fn take_turn<V: Turned>(
    table: &Steps<V>,
    seat: &mut Seat<V>,
    entry: V::Entry,
) -> Result<V::Reply, AllocError>
    requires seat { (seat.old.table_id ≡ table.now.table_id) × IsSized table.now.table_id }
    requires served { (seat.old.me.0.live ≡ true) × HoldsCell V.past V.stands V.kept seat.old.me × ((ticket : ℕ) × (seat.old.me.0.state ≡ Served ticket)) }
    requires fits { V.fits entry }
    ensures seat { (seat.new.table_id ≡ seat.old.table_id) × (seat.new.id ≡ seat.old.id) }
    ensures ok { IfOk result (λ reply. (ticket : ℕ) × IsCounted V.past V.stands V.kept seat.old.me.0 ticket entry reply seat.new.me) }
    ensures err { OnErr result (seat.new.me.0 ≡ seat.old.me.0) }
    ensures holds { (seat.new.me.0.live ≡ true) × (seat.new.me.0 ≡ with_state seat.old.me.0 seat.new.me.0.state seat.new.me.0.seen) × IsAtTurn seat.new.me.0.state × HoldsCell V.past V.stands V.kept seat.new.me }
{
    let Held { mut value, last: _ } = take_out(table, seat);
    let asked = Snapshot::of(&entry);
    match value.turn(entry) {
        Ok(reply) => {
            let last = Last {
                entry: asked,
                reply: Snapshot::of(&reply),
            };
            put_back(table, seat, value, Some(last));
            table.fetch_add::<Count<V>>(seat, COUNT, 1);
            Ok(reply)
        }
        Err(failed) => {
            put_back(table, seat, value, None);
            Err(failed)
        }
    }
}
