//! Turns of two seats of one lock round a tally.
ghost use Rattle.std.specs.Prelude.{◌≡◌, []};
ghost use Rattle.gz_lock.specs.Seats.{Rests};

use gz_lock::{Lock, Seat, Tally, Turned};
use std::alloc::Global;
use std::sync::Wait;
use std::test::Fail;
use std::thread::{Threads, join};

fn empty(alloc: Global) -> Tally
    ensures { result.past.items ≡ [] }
{
    Tally {
        past: Vec::new(alloc),
    }
}

#[test]
fn turns_of_two_seats_make_one_history(rt: HostRuntime) -> Result<(), Fail> {
    let Ok((lock, mut first)) = Lock::new(rt.alloc(), empty(rt.alloc()), 2) else {
        panic!(rt; "no memory")
    };
    assert_eq!(rt; lock.turn(&rt, &mut first, 5)?, 1);
    let mut second = lock.split_seat(&mut first);
    assert_eq!(rt; lock.turn(&rt, &mut second, 6)?, 2);
    assert_eq!(rt; lock.turn(&rt, &mut first, 7)?, 3);
    lock.join_seat(&mut first, second);
    let tally = lock.close(first);
    assert_eq!(rt; tally.past.as_slice(), [5, 6, 7].as_slice());
    Ok(())
}

/// A thousand turns of one seat, whose entries go up by two.
fn take_turns<R: Wait>(rt: &R, lock: &Lock<Tally>, mut seat: Seat<Tally>, start: u32) -> Seat<Tally>
    requires { (seat.table_id ≡ lock.now.table.shared.table_id) × Rests seat.me }
    ensures { (result.table_id ≡ seat.table_id) × Rests result.me × (result.me.0.number ≡ seat.me.0.number) × (result.me.0.parts ≡ seat.me.0.parts) }
{
    let mut entry = start;
    for _ in 0..1000 {
        let _ = lock.turn(rt, &mut seat, entry);
        entry = entry.wrapping_add(2);
    }
    seat
}

#[test]
fn two_threads_share_one_history(rt: HostRuntime) -> Result<(), Fail> {
    let Ok((lock, mut first)) = Lock::new(rt.alloc(), empty(rt.alloc()), 2) else {
        panic!(rt; "no memory")
    };
    let second = lock.split_seat(&mut first);
    let shared = &lock;
    let (mut first, second) = join(
        &rt,
        move || take_turns(&rt, shared, first, 0),
        move || take_turns(&rt, shared, second, 1),
    );
    lock.join_seat(&mut first, second);
    let tally = lock.close(first);
    assert_eq!(rt; tally.past.len(), 2000);
    let mut next = [0, 1];
    for entry in &tally.past {
        let thread = (*entry % 2) as usize;
        assert_eq!(rt; *entry, next[thread]);
        next[thread] = next[thread].wrapping_add(2);
    }
    Ok(())
}

/// One turn of a seat.
fn turn_once<V: Turned, R: Wait>(
    rt: &R,
    lock: &Lock<V>,
    mut seat: Seat<V>,
    entry: V::Entry,
) -> Seat<V>
    requires seat { (seat.table_id ≡ lock.now.table.shared.table_id) × Rests seat.me }
    requires fits { V.fits entry }
    ensures { (result.table_id ≡ seat.table_id) × Rests result.me × (result.me.0.number ≡ seat.me.0.number) × (result.me.0.parts ≡ seat.me.0.parts) }
{
    let _ = lock.turn(rt, &mut seat, entry);
    seat
}

/// A turn of each of two seats, on two threads, of any value that may cross between them.
fn turn_both<V: Turned + Send, R: Threads + Wait + Sync>(
    rt: &R,
    lock: &Lock<V>,
    seats: (Seat<V>, Seat<V>),
    entries: (V::Entry, V::Entry),
) -> (Seat<V>, Seat<V>)
where
    V::Entry: Send,
    V::Reply: Send,
    requires first { (seats.0.table_id ≡ lock.now.table.shared.table_id) × Rests seats.0.me }
    requires second { (seats.1.table_id ≡ lock.now.table.shared.table_id) × Rests seats.1.me }
    requires fits { V.fits entries.0 × V.fits entries.1 }
    ensures first { (result.0.table_id ≡ seats.0.table_id) × Rests result.0.me × (result.0.me.0.number ≡ seats.0.me.0.number) × (result.0.me.0.parts ≡ seats.0.me.0.parts) }
    ensures second { (result.1.table_id ≡ seats.1.table_id) × Rests result.1.me × (result.1.me.0.number ≡ seats.1.me.0.number) × (result.1.me.0.parts ≡ seats.1.me.0.parts) }
{
    let (first, second) = seats;
    let (one, other) = entries;
    join(
        rt,
        move || turn_once(rt, lock, first, one),
        move || turn_once(rt, lock, second, other),
    )
}

#[test]
fn any_value_may_be_shared(rt: HostRuntime) -> Result<(), Fail> {
    let Ok((lock, mut first)) = Lock::new(rt.alloc(), empty(rt.alloc()), 2) else {
        panic!(rt; "no memory")
    };
    let second = lock.split_seat(&mut first);
    let (mut first, second) = turn_both(&rt, &lock, (first, second), (4, 4));
    lock.join_seat(&mut first, second);
    assert_eq!(rt; lock.close(first).past.as_slice(), [4, 4].as_slice());
    Ok(())
}
