//! The table that threads share: three words, and one cell with the value.
use crate::turned::Turned;
use crate::views::{Held, SeatView};
use atomic_table::{Shared, Table, TableRule};
use std::alloc::Global;
use std::marker::PhantomData;

/// How many turns the history has.
pub(crate) const COUNT: usize = 0;

/// The next ticket.
pub(crate) const TICKET: usize = 1;

/// The ticket that is served.
pub(crate) const SERVING: usize = 2;

pub(crate) const CELL: usize = 0;

/// Of a lock that was made with so many seats.
pub struct History<V> {
    value: PhantomData<V>,
}

impl<V: Turned> TableRule<Option<Held<V, V::Entry, V::Reply>>, SeatView<V::Entry, V::Reply>, u32>
    for History<V> {
    ghost use Rattle.gz_lock.specs.Rule.{Ruled};
    ghost use Rattle.gz_lock.specs.Seats.{newcomer};

    ghost holds = { λ seats. Ruled V.past V.stands V.kept seats };

    ghost first = { λ seats. newcomer seats };
}

pub type Cell<V> = Option<Held<V, <V as Turned>::Entry, <V as Turned>::Reply>>;

pub type View<V> = SeatView<<V as Turned>::Entry, <V as Turned>::Reply>;

pub type Steps<V> = Shared<Cell<V>, View<V>, u32, History<V>>;

pub type Home<V> = Table<Cell<V>, View<V>, u32, History<V>, Global>;
