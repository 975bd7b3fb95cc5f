//! Schedules that are played over sites in memory, and the logs of their worlds.
ghost use Rattle.std.specs.Prelude.{IfSome, All};
ghost use Rattle.gz_lines.specs.Schedule.{IsBoundedLine};
ghost use Rattle.gz_world.specs.Fits.{IsFitting};

use crate::opened::opened;
use gz_core::{Config, Order};
use gz_history::log_text;
use gz_script::line::Line;
use gz_script::{play, read_schedule};
use gz_site::Site;
use gz_world::{Entry, Outcome, World};
use std::alloc::Global;
use std::test::Fail;

/// The lines of a text.
pub fn lines(alloc: Global, text: &str) -> Option<Vec<Line>>
    ensures { IfSome result (λ lines. All IsBoundedLine lines.items) }
{
    match read_schedule(alloc, text.as_bytes()) {
        Ok(lines) => Some(lines),
        Err(_) => None,
    }
}

/// How many events were skipped.
fn skipped(journal: &[Entry]) -> u32 {
    let mut skipped = 0u32;
    for entry in journal {
        if entry.outcome != Outcome::Done {
            skipped = skipped.saturating_add(1);
        }
    }
    skipped
}

/// The log of a world.
fn log_of<S: Site>(world: &World<S>) -> Option<Vec<u8>> {
    let events = u32::try_from(world.journal.len()).ok()?;
    let skipped = skipped(world.journal.as_slice());
    log_text(world.alloc, world.calls.as_slice(), events, skipped).ok()
}

/// The log of a world after lines are played in it.
pub fn log_after<S: Site>(world: &mut World<S>, lines: &[Line]) -> Option<Vec<u8>>
    requires fits { IsFitting world.old }
    requires bounded { All IsBoundedLine lines.now }
{
    play(lines, world).ok()?;
    log_of(world)
}

/// The log of a schedule.
fn log(alloc: Global, config: Config, text: &str) -> Option<Vec<u8>> {
    let lines = lines(alloc, text)?;
    let mut world = opened(alloc, config)?;
    log_after(&mut world, lines.as_slice())
}

/// Whether a schedule has this log.
fn is_played(alloc: Global, config: Config, text: &str, expected: &str) -> bool {
    match log(alloc, config, text) {
        None => false,
        Some(log) => log.as_slice() == expected.as_bytes(),
    }
}

/// A schedule, and its log.
type Case = (&'static str, &'static str);

/// Plays each schedule; else the place of the first one that has another log.
fn play_each(alloc: Global, config: Config, cases: &[Case]) -> Result<(), usize> {
    for (place, (text, expected)) in cases.iter().enumerate() {
        if !is_played(alloc, config, text, expected) {
            return Err(place);
        }
    }
    Ok(())
}

/// Schedules over three sites, of which two keep data fragments and one a parity fragment. Each event of a line has a tick.
const OVER_THREE: &[Case] = &[
    (
        "session\nput 1 a x:0102\nsettle 1\nget 1 a\nsettle 1\n",
        "1.1 put a 0102 2 20 ok 1\n1.2 get a - 21 31 bytes 1 1.1 0102\nend 2 31 0\n",
    ),
    (
        "session\nput 1 a x:0102\ntake 1\ntake 2\ndeliver 7\ndeliver 7\nreply 7 2\nsettle 1\n",
        "1.1 put a 0102 2 23 ok 1\nend 1 23 0\n",
    ),
    (
        "session\nput 1 a x:0102\nsettle 1 without 1,2\n",
        "1.1 put a 0102 2 6 noquorum look 1\nend 1 6 0\n",
    ),
    (
        "session\nput 1 a x:0102\ntake 1\ntake 2\ngiveup 7\ngiveup 8\n",
        "1.1 put a 0102 2 8 unsure noquorum fast 0\nend 1 8 0\n",
    ),
    (
        "session\nput 1 a x:0102\ntake 1\ntake 2\ndeliver 7\ndeliver 8\ngiveup 7\ngiveup 8\n",
        "1.1 put a 0102 2 10 unsure noquorum fast 0\nend 1 10 0\n",
    ),
    (
        "session\nput 1 a x:0102\nsettle 1 without 2\n",
        "1.1 put a 0102 2 24 ok 1\nend 1 24 0\n",
    ),
    (
        "session\nput 1 a x:0102\ntake 1\ntake 2\ntake 3\ndeliver 4\ndeliver 5\ndeliver 7\ndeliver 8\ncrash 1\nsession\nget 2 a\nsettle 2\n",
        "1.1 put a 0102 2 - open\n2.1 get a - 15 35 bytes 1 1.1 0102\nend 2 35 0\n",
    ),
    (
        "session\nput 1 a x:01\nsettle 1\ndrain 1\nput 1 a x:02\ntake 13\ntake 14\ndeliver 16\ndeliver 17\ndeliver 19\ncrash 1\nsession\nget 2 a\nsettle 2 without 0\nget 2 a\nsettle 2\n",
        "1.1 put a 01 2 20 ok 1\n1.2 put a 02 24 - open\n2.1 get a - 34 44 bytes 1 1.1 01\n2.2 get a - 45 65 bytes 2 1.2 02\nend 4 65 0\n",
    ),
    (
        "session\nput 1 a x:01\ndrain 1\nsettle 1\ndrain 1\nget 1 a\ndrain 1\nsettle 1\n",
        "1.1 put a 01 2 20 ok 1\n1.2 get a - 24 33 bytes 1 1.1 01\nend 2 33 0\n",
    ),
    (
        "session\nsession\nput 1 a x:01\nput 2 b x:02\ntake 2\ndrain 1\ndrain 2\nsettle 1 without 15\nsettle 2\nput 2 b x:\ndrain 2\ndrain 3\nsettle 9\ntake 99\n",
        "1.1 put a 01 3 28 ok 1\n2.1 put b 02 4 40 ok 1\n2.2 put b - 41 - open\nend 3 52 2\n",
    ),
    (
        "session\nput 1 a x:01\nsettle 1\ndelete 1 a\nsettle 1\nget 1 a\nsettle 1\n",
        "1.1 put a 01 2 20 ok 1\n1.2 delete a - 21 33 ok 2\n1.3 get a - 34 40 gone 2 1.2\nend 3 40 0\n",
    ),
    // a put of which one fragment alone was stored, and a get of it
    (
        "session\nput 1 a x:01\nsettle 1\nput 1 a x:0102\ngiveup 17\ngiveup 18\nsettle 1\nget 1 a\nsettle 1\n",
        "1.1 put a 01 2 20 ok 1\n1.2 put a 0102 21 37 thin 2 1\n1.3 get a - 38 50 incomplete 2 1.2 WMM\nend 3 50 0\n",
    ),
    // one fragment is missing, and two are enough; then two requests for fragments are given up
    (
        "session\nput 1 a x:0102\ngiveup 5\nsettle 1\nget 1 a\nsettle 1\nget 1 a\nsettle 1 without 0\n",
        "1.1 put a 0102 2 19 ok 1\n1.2 get a - 20 32 bytes 1 1.1 0102\n1.3 get a - 33 51 incomplete 1 1.1 GMW\nend 3 51 0\n",
    ),
    (
        "session\nput 1 a x:0102\nsettle 1\nget 1 a\ntake 13\ntake 14\ntake 15\ngiveup 16\ngiveup 17\nsettle 1\n",
        "1.1 put a 0102 2 20 ok 1\n1.2 get a - 21 31 incomplete 1 1.1 GGW\nend 2 31 0\n",
    ),
    ("# nothing\n", "end 0 0 0\n"),
    // a crashed session is settled as often as can be
    (
        "session\nget 1 a\ncrash 1\nsettle 1\ndrain 1\n",
        "1.1 get a - 2 - open\nend 1 65542 65536\n",
    ),
];

/// Five sites, of which two may be lost.
const FIVE_SITES: Config = Config {
    n: 5,
    qc: 3,
    qf: 4,
    k: 2,
    m: 1,
    f: 0,
    tries: 8,
    order: Order::Parallel,
};

/// Two puts that race over five sites are both placed.
const OVER_FIVE: &[Case] = &[(
    "session\nsession\nput 1 a x:01\nput 2 a x:02\ntake 1\ntake 2\ntake 3\ntake 12\ntake 13\ntake 11\ndeliver 21\ndeliver 22\nsettle 1\nsettle 2\n",
    "1.1 put a 01 3 50 ok 1\n2.1 put a 02 4 82 ok 2\nend 2 82 0\n",
)];

/// Three sites, and calls that end once they were overtaken.
const ONE_TRY: Config = Config {
    tries: 1,
    ..Config::DEFAULT
};

/// A put that voted and a get are overtaken.
const WITH_ONE_TRY: &[Case] = &[
    (
        "session\nput 1 a x:0102\ntake 1\ntake 2\ndeliver 7\ndeliver 7\nreply 7 2\n",
        "1.1 put a 0102 2 9 unsure contended 1\nend 1 9 0\n",
    ),
    (
        "session\nput 1 a x:0102\ntake 1\ntake 2\ntake 3\ndeliver 4\ndeliver 5\ndeliver 7\ndeliver 8\ncrash 1\nsession\nget 2 a\ntake 10\ntake 11\ntake 12\ndeliver 13\ndeliver 13\nreply 13 2\n",
        "1.1 put a 0102 2 - open\n2.1 get a - 15 24 contended 1\nend 2 24 0\n",
    ),
];

/// Five sites with three data fragments, of which one more is stored before a put is answered.
const SPARE_FRAGMENTS: Config = Config {
    n: 5,
    qc: 3,
    qf: 4,
    k: 3,
    m: 2,
    f: 1,
    tries: 8,
    order: Order::Parallel,
};

/// An object is stored and read.
const WITH_SPARE_FRAGMENTS: &[Case] = &[(
    "session\nput 1 docs/readme x:68656c6c6f2c2067697a61\nsettle 1\nget 1 docs/readme\nsettle 1\n",
    "1.1 put docs/readme 68656c6c6f2c2067697a61 2 30 ok 1\n1.2 get docs/readme - 31 45 bytes 1 1.1 68656c6c6f2c2067697a61\nend 2 45 0\n",
)];

/// Three sites, and puts that store fragments before they look.
const BLOBS_FIRST: Config = Config {
    order: Order::BlobsFirst,
    ..Config::DEFAULT
};

/// Too few fragments are stored, or enough.
const WITH_BLOBS_FIRST: &[Case] = &[
    (
        "session\nput 1 a x:0102\nsettle 1 without 1,2\n",
        "1.1 put a 0102 2 6 short 1\nend 1 6 0\n",
    ),
    (
        "session\nput 1 a x:0102\nsettle 1\n",
        "1.1 put a 0102 2 20 ok 1\nend 1 20 0\n",
    ),
    (
        "session\nput 1 a x:0102\nsettle 1\ndelete 1 a\nsettle 1\nget 1 a\nsettle 1\n",
        "1.1 put a 0102 2 20 ok 1\n1.2 delete a - 21 33 ok 2\n1.3 get a - 34 40 gone 2 1.2\nend 3 40 0\n",
    ),
];

/// Three sites, each of which has to store its fragment.
const ALL_STORED: Config = Config {
    f: 1,
    ..Config::DEFAULT
};

/// The last fragment is given up, or stored.
const WITH_ALL_STORED: &[Case] = &[
    (
        "session\nput 1 a x:0102\ntake 1\ntake 2\ntake 3\ntake 4\ntake 5\ntake 7\ntake 8\ntake 9\ngiveup 6\n",
        "1.1 put a 0102 2 19 thin 1 2\nend 1 19 0\n",
    ),
    (
        "session\nput 1 a x:0102\ntake 1\ntake 2\ntake 3\ntake 4\ntake 5\ntake 7\ntake 8\ntake 9\ntake 6\n",
        "1.1 put a 0102 2 20 ok 1\nend 1 20 0\n",
    ),
];

/// The same, before a put looks.
const ALL_STORED_FIRST: Config = Config {
    f: 1,
    order: Order::BlobsFirst,
    ..Config::DEFAULT
};

/// The last fragment is never stored.
const WITH_ALL_STORED_FIRST: &[Case] = &[(
    "session\nput 1 a x:0102\nsettle 1 without 2\n",
    "1.1 put a 0102 2 7 short 2\nend 1 7 0\n",
)];

#[test]
fn schedules_have_their_logs(rt: HostRuntime) -> Result<(), Fail> {
    play_each(rt.alloc(), Config::DEFAULT, OVER_THREE)?;
    play_each(rt.alloc(), FIVE_SITES, OVER_FIVE)?;
    play_each(rt.alloc(), ONE_TRY, WITH_ONE_TRY)?;
    Ok(())
}

#[test]
fn fragments_are_stored_and_gathered(rt: HostRuntime) -> Result<(), Fail> {
    play_each(rt.alloc(), SPARE_FRAGMENTS, WITH_SPARE_FRAGMENTS)?;
    play_each(rt.alloc(), BLOBS_FIRST, WITH_BLOBS_FIRST)?;
    play_each(rt.alloc(), ALL_STORED, WITH_ALL_STORED)?;
    play_each(rt.alloc(), ALL_STORED_FIRST, WITH_ALL_STORED_FIRST)?;
    Ok(())
}
