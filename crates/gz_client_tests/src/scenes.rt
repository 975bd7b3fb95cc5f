//! How calls end where requests are delivered late, twice or never, and another session comes between.
ghost use Rattle.gz_client_tests.specs.Holding.{IsHeld};

use crate::answers::Answered;
use crate::driver::{Driver, Kind};
use crate::network::Move::{self, Collect, Deliver, Fail, GiveUp, Promise, Reply, Take, Vote};
use crate::network::Stuck;
use gz_client::Client;
use std::alloc::Global;

/// A call over sites without a row, which tries so often: the moves from its beginning until it ends, its answer, and how
/// many requests it sent.
struct Scene {
    about: &'static str,
    kind: Kind,
    tries: u32,
    moves: &'static [Move],
    answered: Answered,
    sent: usize,
}

/// The first puts of the client's session and of another one.
const OWN: (u32, u32) = (1, 1);

const OTHER: (u32, u32) = (2, 1);

/// The delete of the other session.
const DELETION: (u32, u32) = (2, 2);

/// Puts that are chosen, puts that end without being known to be chosen, a get of nothing, and gets of a version that isn't
/// known to be chosen: each of these prepares a classic ballot, and votes there for the value of another's put.
const SCENES: &'static [Scene] = &[
    Scene {
        about: "once three sites have voted for it",
        kind: Kind::Put,
        tries: 8,
        moves: &[
            Take(4),
            Take(5),
            Take(1),
            Take(2),
            Take(3),
            Take(7),
            Take(8),
            Take(9),
        ],
        answered: Answered::Ok(1),
        sent: 12,
    },
    Scene {
        about: "after another's, of which every site holds a vote",
        kind: Kind::Put,
        tries: 8,
        moves: &[
            Take(4),
            Take(5),
            Vote(0),
            Vote(1),
            Vote(2),
            Take(1),
            Take(2),
            Take(3),
            Take(7),
            Take(8),
            Take(9),
        ],
        answered: Answered::Ok(2),
        sent: 12,
    },
    Scene {
        about: "a vote that is delivered twice counts once: its site is read again, and shows it",
        kind: Kind::Put,
        tries: 8,
        moves: &[
            Take(4),
            Take(5),
            Take(1),
            Take(2),
            Deliver(7),
            Deliver(7),
            Reply(7, 2),
            Take(9),
            Take(8),
            Take(3),
            Take(10),
        ],
        answered: Answered::Ok(1),
        sent: 13,
    },
    Scene {
        about: "another's vote at a site stands in the way",
        kind: Kind::Put,
        tries: 8,
        moves: &[
            Take(4),
            Take(5),
            Take(1),
            Take(2),
            Vote(0),
            Take(7),
            Take(9),
            Take(8),
            GiveUp(3),
            Take(10),
            Take(11),
            Take(12),
            Take(13),
        ],
        answered: Answered::Ok(1),
        sent: 15,
    },
    Scene {
        about: "over two sites, by a classic ballot",
        kind: Kind::Put,
        tries: 8,
        moves: &[
            Take(4),
            Take(5),
            Take(1),
            Take(2),
            GiveUp(3),
            Take(7),
            Take(8),
            Take(9),
            Take(10),
            Take(11),
            Take(12),
        ],
        answered: Answered::Ok(1),
        sent: 14,
    },
    Scene {
        about: "another's votes may be a fast quorum's, and force its value",
        kind: Kind::Put,
        tries: 8,
        moves: &[
            Take(4),
            Take(5),
            Vote(0),
            Vote(1),
            Take(1),
            Take(2),
            GiveUp(3),
            Take(7),
            Take(8),
            Take(9),
            Take(10),
            Take(11),
            Take(12),
            Take(13),
            Take(14),
            Take(15),
            Take(16),
        ],
        answered: Answered::Ok(2),
        sent: 18,
    },
    Scene {
        about: "a ballot above its own is heard, and it prepares again",
        kind: Kind::Put,
        tries: 8,
        moves: &[
            Take(4),
            Take(5),
            Take(1),
            Take(2),
            GiveUp(3),
            Take(7),
            Take(8),
            Promise(0),
            Take(9),
            Take(11),
            Take(10),
            Take(12),
            Take(13),
            Take(14),
            Take(15),
        ],
        answered: Answered::Ok(1),
        sent: 17,
    },
    Scene {
        about: "a site fails and another doesn't answer",
        kind: Kind::Put,
        tries: 8,
        moves: &[Take(4), Take(5), Take(1), Move::Fail(2), GiveUp(3)],
        answered: Answered::NoQuorum(1),
        sent: 6,
    },
    Scene {
        about: "two sites that voted don't answer",
        kind: Kind::Put,
        tries: 8,
        moves: &[
            Take(4),
            Take(5),
            Take(1),
            Take(2),
            Deliver(7),
            Deliver(8),
            GiveUp(7),
            GiveUp(8),
        ],
        answered: Answered::UnsureNoQuorum(0),
        sent: 8,
    },
    Scene {
        about: "another's vote came between",
        kind: Kind::Put,
        tries: 1,
        moves: &[Take(4), Take(5), Take(1), Take(2), Vote(0), Take(7)],
        answered: Answered::UnsureContended(1),
        sent: 9,
    },
    Scene {
        about: "two sites without a row are enough",
        kind: Kind::Get,
        tries: 8,
        moves: &[Take(1), Take(2)],
        answered: Answered::Absent,
        sent: 3,
    },
    Scene {
        about: "the votes force the value",
        kind: Kind::Get,
        tries: 8,
        moves: &[
            Vote(0),
            Vote(1),
            Take(1),
            Take(2),
            GiveUp(3),
            Take(4),
            Take(5),
            Take(6),
            Take(7),
            Take(8),
            Take(9),
        ],
        answered: Answered::Bytes(1, OTHER, 7),
        sent: 10,
    },
    Scene {
        about: "the choice is free, and the lowest site with a vote has the value",
        kind: Kind::Get,
        tries: 8,
        moves: &[
            Vote(1),
            Take(1),
            Take(2),
            GiveUp(3),
            Take(4),
            Take(5),
            Take(6),
            Take(7),
            Take(8),
            Take(9),
        ],
        answered: Answered::Bytes(1, OTHER, 7),
        sent: 10,
    },
    Scene {
        about: "a second ballot looks back at the vote of a site that is out by then",
        kind: Kind::Get,
        tries: 8,
        moves: &[
            Vote(0),
            Take(1),
            Take(2),
            Take(3),
            GiveUp(4),
            Take(5),
            Take(6),
            Promise(1),
            Promise(2),
            Take(7),
            Take(8),
            Take(9),
            Take(10),
            Take(11),
            Take(12),
            Take(13),
            Take(14),
            Take(15),
            Take(16),
        ],
        answered: Answered::Bytes(1, OTHER, 7),
        sent: 17,
    },
    Scene {
        about: "its vote met a collection, and what became of it isn't known any more",
        kind: Kind::Put,
        tries: 8,
        moves: &[
            Take(4),
            Take(5),
            Take(1),
            Take(2),
            Collect(0),
            Take(7),
            Take(9),
        ],
        answered: Answered::UnsureTrimmed(1),
        sent: 9,
    },
    Scene {
        about: "past a collection that it met before it voted, at the version after the one that was kept",
        kind: Kind::Put,
        tries: 8,
        moves: &[
            Vote(0),
            Vote(1),
            Collect(2),
            Take(4),
            Take(5),
            Take(1),
            Take(2),
            Take(3),
            Take(7),
            Take(8),
            Take(9),
        ],
        answered: Answered::Ok(3),
        sent: 12,
    },
    Scene {
        about: "a version that was collected",
        kind: Kind::GetAt(1),
        tries: 8,
        moves: &[Collect(0), Take(1), Take(2)],
        answered: Answered::Collected(1),
        sent: 3,
    },
    Scene {
        about: "the version that a collection kept",
        kind: Kind::GetAt(2),
        tries: 8,
        moves: &[Collect(0), Take(2), Take(1)],
        answered: Answered::Gone(2, DELETION),
        sent: 3,
    },
    Scene {
        about: "a version above the latest one",
        kind: Kind::GetAt(3),
        tries: 8,
        moves: &[Collect(0), Take(2), Take(1)],
        answered: Answered::Unborn(2),
        sent: 3,
    },
    Scene {
        about: "a version of nothing",
        kind: Kind::GetAt(1),
        tries: 8,
        moves: &[Take(3), Take(1)],
        answered: Answered::Unborn(0),
        sent: 3,
    },
];

/// How a call ended: its answer, how many requests were sent, and how many are still awaited.
type End = (Answered, usize, u32);

impl Driver {
    /// How a call ends.
    fn end_of(&mut self, alloc: Global, kind: Kind, moves: &[Move]) -> Result<End, Stuck>
        requires { IsHeld self.old.client self.old.calls self.old.first }
    {
        let answered = self.run(alloc, kind, moves)?;
        Ok((answered, self.network.count(), self.client.live_count()))
    }

    /// The answers of a call that is chosen once three sites have voted for it, and of a get after it.
    fn write_and_read(
        &mut self,
        alloc: Global,
        kind: Kind,
        moves: &[Move],
        later: &[Move],
    ) -> Result<[Answered; 2], Stuck>
        requires { IsHeld self.old.client self.old.calls self.old.first }
    {
        let written = self.run(alloc, kind, moves)?;
        let read = self.run(alloc, Kind::Get, later)?;
        Ok([written, read])
    }

    /// Which requests a get awaits once the second of three was answered.
    fn awaited_by_a_get(&mut self, alloc: Global) -> Result<Awaited, Stuck>
        requires { IsHeld self.old.client self.old.calls self.old.first }
    {
        self.run(alloc, Kind::Get, &[Take(2)])?;
        Ok(awaited_by(&self.client))
    }
}

/// How the call of a scene ends.
fn end_of(alloc: Global, scene: &Scene) -> Result<End, Stuck> {
    let mut driver = Driver::new(alloc, scene.tries)?;
    driver.end_of(alloc, scene.kind, scene.moves)
}

/// Whether the call of a scene ends as it is to, with no request awaited.
fn ends_as_told(alloc: Global, scene: &Scene) -> bool {
    match end_of(alloc, scene) {
        Err(_) => false,
        Ok(end) => end == (scene.answered, scene.sent, 0),
    }
}

/// Plays each scene; else the first one that ends otherwise.
fn play_each(alloc: Global) -> Result<(), &'static str> {
    for scene in SCENES {
        if !ends_as_told(alloc, scene) {
            return Err(scene.about);
        }
    }
    Ok(())
}

#[test]
fn calls_end_as_told(rt: HostRuntime) -> Result<(), std::test::Fail> {
    play_each(rt.alloc())?;
    Ok(())
}

/// The answers of a put and of a get after it.
fn put_then_get(alloc: Global) -> Result<[Answered; 2], Stuck> {
    let moves = [
        Take(1),
        Take(2),
        Take(3),
        Take(4),
        Take(5),
        Take(6),
        Take(7),
        Take(8),
        Take(9),
    ];
    let later = [Take(13), Take(14), Take(15), Take(18), Take(16)];
    let mut driver = Driver::new(alloc, 8)?;
    driver.write_and_read(alloc, Kind::Put, &moves, &later)
}

/// The answers of a delete and of a get after it.
fn delete_then_get(alloc: Global) -> Result<[Answered; 2], Stuck> {
    let moves = [Take(1), Take(2), Take(3), Take(4), Take(5), Take(6)];
    let later = [Take(10), Take(11), Take(12)];
    let mut driver = Driver::new(alloc, 8)?;
    driver.write_and_read(alloc, Kind::Delete, &moves, &later)
}

/// What a client shows of the requests that it awaits: whether a call runs, how many they are, the first two, and
/// which of the first three they are.
type Awaited = (bool, u32, [Option<u32>; 2], [bool; 3]);

fn awaited_by(client: &Client) -> Awaited {
    let lowest = [client.lowest_live(), client.live_at(1)];
    let awaits = [client.awaits(1), client.awaits(2), client.awaits(3)];
    (client.runs(), client.live_count(), lowest, awaits)
}

/// What is awaited once the second of a get's requests was answered.
fn awaited(alloc: Global) -> Result<Awaited, Stuck> {
    let mut driver = Driver::new(alloc, 8)?;
    driver.awaited_by_a_get(alloc)
}

/// A get after a put reads its bytes, and after a delete answers that the object is gone. An answered request isn't awaited
/// any more.
#[test]
fn gets_after_writes_and_what_a_get_awaits(rt: HostRuntime) {
    let read = Answered::Bytes(1, OWN, 0x0102);
    let gone = Answered::Gone(1, OWN);
    assert!(rt; put_then_get(rt.alloc()).ok() == Some([Answered::Ok(1), read]));
    assert!(rt; delete_then_get(rt.alloc()).ok() == Some([Answered::Ok(1), gone]));
    let awaits = [true, false, true];
    assert!(rt; awaited(rt.alloc()).ok() == Some((true, 2, [Some(1), Some(3)], awaits)));
}
