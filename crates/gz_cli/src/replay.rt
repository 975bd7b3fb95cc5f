//! A schedule is played over a world that is opened for it, and the log of the world is written.
ghost use Rattle.std.specs.Prelude.{◌≡◌, ◌≤◌, ◌⊎◌, ℕ, length, All, count_by, IfSome, None};
ghost use Rattle.gz_config.specs.Configurations.{IsConfig};
ghost use Rattle.gz_site.specs.Files.{IsSomePart};
ghost use Rattle.gz_history.specs.Legal.{IsLegal};
ghost use Rattle.gz_script.specs.Plays.{Plays, PlaysInPart, ChangesBy};
ghost use Rattle.gz_lines.specs.Schedule.{IsBoundedLine};
ghost use Rattle.gz_world.specs.Fits.{IsFitting};
ghost use Rattle.gz_world.specs.Opening.{AreEmpty, IsOpened};
ghost use Rattle.gz_world.specs.Told.{IsReachedBy};
ghost use Rattle.gz_cli.specs.Causes.{PlayCause, HasPlayed, WriteCause};
ghost use Rattle.gz_cli.specs.Runs.{Whole};
ghost use Rattle.gz_cli.specs.Worlds.{AreFresh, AllTellAt, PlaysSome, Leaves, IsFilled, log_of_world, was_skipped, is_skipped, AgreesBy};

use crate::bench::Bench;
use crate::output::write;
use crate::status::Status;
use gz_core::Config;
use gz_history::log_text;
use gz_script::{Line, play};
use gz_site::{Sink, Site};
use gz_world::{ApplyError, Entry, Outcome, World};
use std::alloc::Global;
use std::mem;

/// Opens a world over the sites under this configuration, plays the lines in it, and writes its log.
pub fn replay_lines<O: Sink, S: Site>(
    alloc: Global,
    config: Config,
    lines: &[Line],
    out: &mut O,
    bench: &mut Bench<S>,
) -> Status
    requires config { IsConfig config }
    requires fresh { AreFresh S.told bench.old.sites.items }
    requires bounded { All IsBoundedLine lines.now }
    ensures cause { PlayCause (O.faults out.old) (O.faults out.new) result }
    ensures done { result ≡ Status.Done → Leaves config S.told bench.old.sites.items (Plays lines.now) bench.new.world (λ w. Whole (O.written out.old) (log_of_world w) (O.written out.new)) }
    ensures unwritten { result ≡ Status.SinkFault → Leaves config S.told bench.old.sites.items (Plays lines.now) bench.new.world (λ w. IsSomePart (O.written out.old) (log_of_world w) (O.written out.new)) }
    ensures full { (events held : ℕ) → result ≡ Status.Full events held → Leaves config S.told bench.old.sites.items (PlaysInPart ApplyError.Full lines.now) bench.new.world (IsFilled events held) × (O.written out.new ≡ O.written out.old) }
    ensures memory { result ≡ Status.NoMemory → (Leaves config S.told bench.old.sites.items (PlaysInPart ApplyError.NoMemory lines.now) bench.new.world (λ w. O.written out.new ≡ O.written out.old) ⊎ Leaves config S.told bench.old.sites.items (Plays lines.now) bench.new.world (λ w. IsSomePart (O.written out.old) (log_of_world w) (O.written out.new))) }
    ensures reached { IfSome bench.new.world (λ w. IsReachedBy S.told w) }
    ensures legal { IfSome bench.new.world (λ w. AllTellAt S.told bench.old.sites.items w.cfg → IsLegal w.calls.items) }
    ensures agreed { IfSome bench.new.world (λ w. AllTellAt S.told bench.old.sites.items w.cfg → AgreesBy S.told w) }
{
    let mut world = open(alloc, config, bench);
    let status = play_and_write(alloc, lines, out, &mut world);
    bench.world = Some(world);
    status
}

/// A world over the sites of the bench, of which there are enough.
fn open<S: Site>(alloc: Global, config: Config, bench: &mut Bench<S>) -> World<S>
    requires config { IsConfig config }
    requires fresh { AreFresh S.told bench.old.sites.items }
    ensures opened { IsOpened config bench.old.sites.items result }
    ensures fits { IsFitting result }
{
    let sites = mem::replace(&mut bench.sites, Vec::new(alloc));
    match World::open(alloc, config, sites) {
        Ok(world) => world,
        Err(_) => unreachable!(),
    }
}

/// Plays the lines, and writes the log of the world.
fn play_and_write<O: Sink, S: Site>(
    alloc: Global,
    lines: &[Line],
    out: &mut O,
    world: &mut World<S>,
) -> Status
    requires fits { IsFitting world.old }
    requires bounded { All IsBoundedLine lines.now }
    ensures cause { PlayCause (O.faults out.old) (O.faults out.new) result }
    ensures plays { HasPlayed result → ChangesBy S.told (Plays lines.now) world.old world.new }
    ensures some { ChangesBy S.told (PlaysSome lines.now) world.old world.new }
    ensures full { (events held : ℕ) → result ≡ Status.Full events held → ChangesBy S.told (PlaysInPart ApplyError.Full lines.now) world.old world.new × IsFilled events held world.new × (O.written out.new ≡ O.written out.old) }
    ensures memory { result ≡ Status.NoMemory → ((ChangesBy S.told (PlaysInPart ApplyError.NoMemory lines.now) world.old world.new × (O.written out.new ≡ O.written out.old)) ⊎ ChangesBy S.told (Plays lines.now) world.old world.new) }
    ensures done { result ≡ Status.Done → Whole (O.written out.old) (log_of_world world.new) (O.written out.new) }
    ensures part { IsSomePart (O.written out.old) (log_of_world world.new) (O.written out.new) }
{
    match play(lines, world) {
        Ok(()) => write_log(alloc, world, out),
        Err(ApplyError::Full) => filled(world),
        Err(ApplyError::NoMemory) => Status::NoMemory,
    }
}

/// The status of a world that takes no more events.
fn filled<S: Site>(world: &World<S>) -> Status
    requires { IsFitting world.now }
    ensures { result ≡ Status.Full (length world.now.journal.items) world.now.held }
{
    Status::Full {
        events: events(world),
        held: world.held,
    }
}

/// Writes the log of a world.
fn write_log<O: Sink, S: Site>(alloc: Global, world: &World<S>, out: &mut O) -> Status
    requires { IsFitting world.now }
    ensures cause { WriteCause (O.faults out.old) (O.faults out.new) result }
    ensures done { result ≡ Status.Done → Whole (O.written out.old) (log_of_world world.now) (O.written out.new) }
    ensures part { IsSomePart (O.written out.old) (log_of_world world.now) (O.written out.new) }
{
    let events = events(world);
    let skipped = skipped(world.journal.as_slice());
    match log_text(alloc, world.calls.as_slice(), events, skipped) {
        Ok(log) => write(out, log.as_slice()),
        Err(_) => Status::NoMemory,
    }
}

/// How many events there were.
fn events<S: Site>(world: &World<S>) -> u32
    requires { IsFitting world.now }
    ensures exact { result ≡ length world.now.journal.items }
    ensures few { length world.now.journal.items ≤ 4000000 }
{
    world.journal.len() as u32
}

/// How many events were skipped.
fn skipped(journal: &[Entry]) -> u32
    requires { length journal.now ≤ 4000000 }
    ensures { result ≡ count_by is_skipped journal.now }
{
    let mut skipped = 0;
    for entry in journal {
        if was_skipped(entry.outcome) {
            skipped += 1;
        }
    }
    skipped
}

fn was_skipped(outcome: Outcome) -> bool
    ensures { result ≡ was_skipped outcome }
{
    match outcome {
        Outcome::Done => false,
        Outcome::Skipped { .. } => true,
    }
}
