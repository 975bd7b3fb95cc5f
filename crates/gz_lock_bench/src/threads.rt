//! Turns of several seats, each on a thread of its own. The seats come back.
ghost use Rattle.std.specs.Prelude.{◌≡◌};
ghost use Rattle.gz_lock.specs.Seats.{Rests};

use gz_lock::{Lock, Seat, Turned};
use std::sync::Wait;
use std::thread::{Threads, join};

/// Two seats, for two threads.
pub type Pair<V> = (Seat<V>, Seat<V>);

/// So many turns of one seat.
pub fn on_one<V: Turned, R: Wait>(
    rt: &R,
    lock: &Lock<V>,
    mut seat: Seat<V>,
    entry: V::Entry,
    turns: u32,
) -> Seat<V>
where
    V::Entry: Copy,
    requires seat { (seat.table_id ≡ lock.now.table.shared.table_id) × Rests seat.me }
    requires fits { V.fits entry }
    ensures { (result.table_id ≡ seat.table_id) × Rests result.me }
{
    for _ in 0..turns {
        let _ = lock.turn(rt, &mut seat, entry);
    }
    seat
}

/// So many turns of each of two seats, on two threads.
pub fn on_two<V: Turned + Send, R: Threads + Wait + Sync>(
    rt: &R,
    lock: &Lock<V>,
    seats: Pair<V>,
    entry: V::Entry,
    turns: u32,
) -> Pair<V>
where
    V::Entry: Copy + Send,
    V::Reply: Send,
    requires first { (seats.0.table_id ≡ lock.now.table.shared.table_id) × Rests seats.0.me }
    requires second { (seats.1.table_id ≡ lock.now.table.shared.table_id) × Rests seats.1.me }
    requires fits { V.fits entry }
    ensures first { (result.0.table_id ≡ seats.0.table_id) × Rests result.0.me }
    ensures second { (result.1.table_id ≡ seats.1.table_id) × Rests result.1.me }
{
    let (first, second) = seats;
    join(
        rt,
        move || on_one(rt, lock, first, entry, turns),
        move || on_one(rt, lock, second, entry, turns),
    )
}

/// So many turns of each of four seats, on four threads.
pub fn on_four<V: Turned + Send, R: Threads + Wait + Sync>(
    rt: &R,
    lock: &Lock<V>,
    pairs: (Pair<V>, Pair<V>),
    entry: V::Entry,
    turns: u32,
) -> (Pair<V>, Pair<V>)
where
    V::Entry: Copy + Send,
    V::Reply: Send,
    requires one { (pairs.0.0.table_id ≡ lock.now.table.shared.table_id) × Rests pairs.0.0.me × (pairs.0.1.table_id ≡ lock.now.table.shared.table_id) × Rests pairs.0.1.me }
    requires other { (pairs.1.0.table_id ≡ lock.now.table.shared.table_id) × Rests pairs.1.0.me × (pairs.1.1.table_id ≡ lock.now.table.shared.table_id) × Rests pairs.1.1.me }
    requires fits { V.fits entry }
{
    let ((one, two), (three, four)) = pairs;
    join(
        rt,
        move ||
            requires { (one.table_id ≡ lock.now.table.shared.table_id) × Rests one.me × (two.table_id ≡ lock.now.table.shared.table_id) × Rests two.me × V.fits entry }
        { on_two(rt, lock, (one, two), entry, turns) },
        move ||
            requires { (three.table_id ≡ lock.now.table.shared.table_id) × Rests three.me × (four.table_id ≡ lock.now.table.shared.table_id) × Rests four.me × V.fits entry }
        { on_two(rt, lock, (three, four), entry, turns) },
    )
}
