//! What a seat knows, and what lies in the lock's cell. Of all but `Held` no value is made: they stand in clauses alone.
use std::collections::LinkedList;
use std::snapshot::Snapshot;

/// A turn of the history.
pub struct TakenTurn<E, R> {
    /// The number of the seat that took it.
    pub seat: u64,
    pub entry: E,
    pub reply: R,
    /// Whether the value's past grew.
    pub grew: bool,
}

/// Where a seat stands, with the ticket that it holds.
pub enum SeatState {
    Idle,
    /// It waits to be served.
    Waits(u64),
    /// It is served, and holds the cell.
    Served(u64),
    /// The same, and its turn is counted.
    Counted(u64),
}

/// A seat that was joined into the first one.
pub struct Joined<E, R> {
    pub number: u64,
    /// What it had seen.
    pub seen: LinkedList<TakenTurn<E, R>>,
    /// What the first seat had seen.
    pub first: LinkedList<TakenTurn<E, R>>,
}

/// What a seat knows.
pub struct SeatView<E, R> {
    /// Whether it is still a seat, and not joined into the first one.
    pub live: bool,
    /// The first seat has the number 0, and the i-th one that is split from it has i.
    pub number: u64,
    pub parts: u64,
    /// How many seats had been split from the first one: of the first one by now, of another when it was made.
    pub splits: u64,
    pub state: SeatState,
    /// The beginning of the history that it has seen.
    pub seen: LinkedList<TakenTurn<E, R>>,
    /// The seats that were joined into it.
    pub joined: LinkedList<Joined<E, R>>,
}

/// What lies in the cell: the value, and what its last turn was told and replied, which the step that counts the turn reads.
#[derive(Drop)]
pub struct Held<V, E, R> {
    pub value: V,
    pub last: Option<Last<E, R>>,
}

/// A turn as the step that counts it sees it.
#[derive(Drop)]
pub struct Last<E, R> {
    pub entry: Snapshot<E>,
    pub reply: Snapshot<R>,
}
