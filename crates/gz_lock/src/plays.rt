//! What each step tells the seat that takes it.
ghost use Rattle.std.specs.Prelude.{◌≡◌};
ghost use Rattle.gz_lock.specs.Seats.{gave, given, took_in, spent};
ghost use Rattle.gz_lock.specs.Steps.{took_ticket, looked, counted, released, learned};

use crate::turned::Turned;
use crate::views::{Held, SeatView};
use atomic_table::{Join, Play, Split};
use std::marker::PhantomData;

/// Nothing.
pub(crate) struct Same;

impl<S, W> Play<S, W> for Same {
    ghost then = { λ _ before _ after. after ≡ before };
}

/// Whether the ticket was won.
pub(crate) struct Take;

impl<S, E, R> Play<S, SeatView<E, R>> for Take {
    ghost then = { took_ticket };
}

/// Whether the seat is served; where it is, the whole history, and the cell.
pub(crate) struct Look<V> {
    value: PhantomData<V>,
}

impl<V: Turned> Play<Option<Held<V, V::Entry, V::Reply>>, SeatView<V::Entry, V::Reply>>
    for Look<V> {
    ghost then = { looked V.past V.stands V.kept };
}

/// The turn that the cell tells of is in the history.
pub(crate) struct Count<V> {
    value: PhantomData<V>,
}

impl<V: Turned> Play<Option<Held<V, V::Entry, V::Reply>>, SeatView<V::Entry, V::Reply>>
    for Count<V> {
    ghost then = { counted V.past V.stands V.kept };
}

/// The cell is back, and what the first seat knows.
pub(crate) struct Release;

impl<S, E, R> Play<S, SeatView<E, R>> for Release {
    ghost then = { released };
}

/// What the first seat knows.
pub(crate) struct Learn;

impl<S, E, R> Play<S, SeatView<E, R>> for Learn {
    ghost then = { learned };
}

/// One part goes to a new seat.
pub(crate) struct Cut;

impl<E, R> Split<SeatView<E, R>> for Cut {
    ghost left = { gave };

    ghost right = { given };
}

/// Another seat is joined into the first one.
pub(crate) struct Glue;

impl<E, R> Join<SeatView<E, R>> for Glue {
    ghost both = { took_in };

    ghost spent = { spent };
}
