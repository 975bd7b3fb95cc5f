//! The lock and its calls.
ghost use Rattle.std.specs.Prelude.{◌≡◌, ◌≢◌, ◌≤◌, [], ◌∷◌, Some, None, IsSome, IfSome, IfOk, IfErr, OnErr};
ghost use Rattle.gz_lock.specs.Histories.{turns_of, HasOwnTurns, StandsFor};
ghost use Rattle.gz_lock.specs.Steps.{held_of};
ghost use Rattle.gz_lock.specs.declared.views.Held.{Held};
ghost use Rattle.gz_lock.specs.Seats.{IsSized, newcomer, gave, given, took_in, Rests, with_state, KnowsJoined, TookTurn, TookNoTurn};
ghost use Rattle.gz_lock.specs.declared.views.SeatState.TheVariants.{Idle};

use crate::plays::{Cut, Glue, Learn, Release};
use crate::rule::{CELL, COUNT, Cell, Home, SERVING, View};
use crate::steps::{await_service, take_ticket, take_turn};
use crate::turned::Turned;
use crate::views::Held;
use atomic_table::{Refused, Table};
use std::alloc::{AllocError, AllocFailed, Global};
use std::sync::Wait;

/// A token of no bytes, which one thread at a time takes turns with.
pub type Seat<V> = atomic_table::Seat<Cell<V>, View<V>>;

/// A value under a ticket lock.
#[derive(Drop)]
pub struct Lock<V: Turned> {
    table: Home<V>,
    ghost sized: { IsSized table.shared.table_id },
}

/// There was no memory. The value comes back.
#[derive(Drop)]
pub struct NewRefused<V> {
    pub value: V,
}

/// The value of a cell.
fn value_of<V: Turned>(cell: Cell<V>) -> V
    requires { IsSome cell }
    ensures { IfSome cell (λ held. held.value ≡ result) }
{
    let Held { value, last: _ } = cell.unwrap();
    value
}

fn one_cell<V: Turned>(alloc: Global, value: V) -> Result<Vec<Cell<V>>, NewRefused<V>>
    ensures ok { IfOk result (λ slots. slots.items ≡ Some (held_of value None) ∷ []) }
    ensures err { IfErr result (λ refused. refused.value ≡ value) }
{
    let mut slots = Vec::new(alloc);
    match slots.push(Some(Held { value, last: None })) {
        Ok(()) => Ok(slots),
        Err(AllocFailed { value: cell }) => Err(NewRefused {
            value: value_of::<V>(cell),
        }),
    }
}

/// The value that stands alone in a list of slots.
fn only_value<V: Turned>(mut slots: Vec<Cell<V>>) -> V
    requires { (held : Held V V.Entry V.Reply) × (slots.items ≡ Some held ∷ []) }
    ensures { (held : Held V V.Entry V.Reply) → slots.items ≡ Some held ∷ [] → result ≡ held.value }
{
    value_of::<V>(slots.pop().unwrap())
}

impl<V: Turned> Lock<V> {
    /// A lock round the value, and its first seat, which has all parts.
    pub fn new(alloc: Global, value: V, seats: u32) -> Result<(Lock<V>, Seat<V>), NewRefused<V>>
        requires seats { 1 ≤ seats }
        requires fresh { StandsFor V.past V.stands V.kept value [] }
        ensures ok { IfOk result (λ made. (made.1.table_id ≡ made.0.table.shared.table_id) × (made.0.table.shared.key ≡ seats) × (made.1.me ≡ (newcomer seats, []))) }
        ensures err { IfErr result (λ refused. refused.value ≡ value) }
    {
        let slots = one_cell(alloc, value)?;
        match Table::new(alloc, &[0, 0, 0], slots, &seats) {
            Ok((table, seat)) => Ok((Lock { table }, seat)),
            Err(refused) => {
                let Refused { slots } = refused;
                Err(NewRefused {
                    value: only_value::<V>(slots),
                })
            }
        }
    }

    /// One turn of the value, which other seats' turns may come before. It may wait.
    pub fn turn<R: Wait>(
        &self,
        rt: &R,
        seat: &mut Seat<V>,
        entry: V::Entry,
    ) -> Result<V::Reply, AllocError>
        requires seat { seat.old.table_id ≡ self.now.table.shared.table_id }
        requires rests { Rests seat.old.me }
        requires fits { V.fits entry }
        ensures seat { (seat.new.table_id ≡ seat.old.table_id) × Rests seat.new.me }
        ensures same { seat.new.me ≡ (with_state seat.old.me.0 Idle seat.new.me.0.seen, []) }
        ensures ok { IfOk result (λ reply. TookTurn V.sound seat.old.me.0 entry reply seat.new.me) }
        ensures err { OnErr result (TookNoTurn V.sound seat.old.me.0 seat.new.me) }
        ensures known { seat.old.me.0.number ≡ 0 → KnowsJoined seat.new.me.0 }
    {
        let table = &self.table.shared;
        let ticket = take_ticket(rt, table, seat);
        await_service(rt, table, seat, ticket);
        let reply = take_turn(table, seat, entry);
        table.fetch_add::<Release>(seat, SERVING, 1);
        reply
    }

    /// Gives one of the first seat's parts to a new seat.
    pub fn split_seat(&self, seat: &mut Seat<V>) -> Seat<V>
        requires seat { seat.old.table_id ≡ self.now.table.shared.table_id }
        requires rests { Rests seat.old.me }
        requires first { (seat.old.me.0.number ≡ 0) × (2 ≤ seat.old.me.0.parts) }
        ensures seat { (seat.new.table_id ≡ seat.old.table_id) × Rests seat.new.me }
        ensures gave { seat.new.me ≡ (gave seat.old.me.0, []) }
        ensures given { (result.table_id ≡ seat.old.table_id) × (result.me ≡ (given seat.old.me.0, [])) × Rests result.me }
        ensures none_own { turns_of result.me.0.number result.me.0.seen ≡ [] }
        ensures known { KnowsJoined seat.new.me.0 }
    {
        let table = &self.table.shared;
        table.load::<Learn>(seat, COUNT);
        table.split_seat::<Cut>(seat)
    }

    /// Gives the other seat's part back to the first one.
    pub fn join_seat(&self, seat: &mut Seat<V>, other: Seat<V>)
        requires seat { (seat.old.table_id ≡ self.now.table.shared.table_id) × (other.table_id ≡ self.now.table.shared.table_id) }
        requires rests { Rests seat.old.me × Rests other.me }
        requires first { (seat.old.me.0.number ≡ 0) × (other.me.0.number ≢ 0) }
        ensures seat { (seat.new.table_id ≡ seat.old.table_id) × Rests seat.new.me }
        ensures took_in { seat.new.me ≡ (took_in seat.old.me.0 other.me.0, []) }
        ensures none_own { HasOwnTurns 0 seat.old.me.0.seen seat.new.me.0.seen }
        ensures known { KnowsJoined seat.new.me.0 }
    {
        let table = &self.table.shared;
        table.join_seat::<Glue>(seat, other);
        table.load::<Learn>(seat, COUNT);
    }

    /// The value, once a seat has all parts. It is the first one.
    pub fn close(self, seat: Seat<V>) -> V
        requires seat { seat.table_id ≡ self.table.shared.table_id }
        requires rests { Rests seat.me }
        requires parts { seat.me.0.parts ≡ self.table.shared.key }
        ensures value { StandsFor V.past V.stands V.kept result seat.me.0.seen }
        ensures first { (seat.me.0.number ≡ 0) × KnowsJoined seat.me.0 }
    {
        let Lock { table } = self;
        let mut closed = table.close_with(seat);
        let cell = closed.take(CELL);
        closed.free();
        value_of::<V>(cell)
    }
}
