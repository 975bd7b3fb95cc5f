//! Calls on many objects or on one, played over three sites in memory.
ghost use Rattle.std.specs.Prelude.{◌≡◌, ◌<◌, ◌≤◌, IfOk, All};
ghost use Rattle.gz_core.specs.Configurations.{IsConfig};
ghost use Rattle.gz_lines.specs.Schedule.{IsBoundedCall, IsBoundedLine};
ghost use Rattle.gz_world.specs.Fits.{IsFitting};

use anyhow::{Result, bail, ensure};
use gz_core::{Call, Config, Items, Key, Session};
use gz_script::{Line, play};
use gz_site::MemSite;
use gz_world::World;
use std::alloc::{AllocError, Global};
use std::time::Instant;

/// What a run took.
#[derive(Clone, Copy)]
pub struct Played {
    pub nanoseconds: u128,
    pub events: usize,
}

/// What the calls of a schedule do.
#[derive(Clone, Copy)]
pub enum Load {
    /// Every other call puts an object of its own, and the next one gets it.
    Objects,
    /// Every call puts one and the same object, whose rows grow by a column at each.
    Rewrites,
}

/// Plays so many calls, and tells the time that the fastest of the rounds took.
pub fn play_calls(rt: &HostRuntime, load: Load, calls: u32, rounds: u32) -> Result<Played> {
    let lines = lines_of(rt.alloc(), load, calls)?;
    let mut best = play_once(rt, &lines)?;
    for _ in 1..rounds {
        let played = play_once(rt, &lines)?;
        if played.nanoseconds < best.nanoseconds {
            best = played;
        }
    }
    Ok(best)
}

fn play_once(rt: &HostRuntime, lines: &[Line]) -> Result<Played>
    requires { All IsBoundedLine lines.now }
{
    let mut world = open(rt.alloc())?;
    let nanoseconds = time_of_play(rt, lines, &mut world)?;
    Ok(Played {
        nanoseconds,
        events: world.journal.len(),
    })
}

/// Plays lines, and tells the time in nanoseconds that it took.
pub fn time_of_play(rt: &HostRuntime, lines: &[Line], world: &mut World<MemSite>) -> Result<u128>
    requires bounded { All IsBoundedLine lines.now }
    requires fitting { IsFitting world.old }
    ensures { IfOk result (λ _. IsFitting world.new) }
{
    let start = Instant::now(rt)?;
    if play(lines, world).is_err() {
        bail!("the schedule is too long");
    }
    Ok(start.elapsed(rt)?.as_nanos())
}

/// So many empty sites.
fn sites(alloc: Global, n: u16) -> Result<Vec<MemSite>, AllocError> {
    let mut sites = Vec::new(alloc);
    for _ in 0..n {
        sites.push(MemSite::new(alloc, Vec::new(alloc)))?;
    }
    Ok(sites)
}

/// A world over three empty sites.
fn open(alloc: Global) -> Result<World<MemSite>>
    ensures { IfOk result (λ world. IsFitting world) }
{
    open_with(alloc, Config::DEFAULT)
}

/// A world over the empty sites of a configuration.
pub fn open_with(alloc: Global, config: Config) -> Result<World<MemSite>>
    ensures { IfOk result (λ world. IsFitting world) }
{
    ensure!(config.check().is_ok(), "no configuration");
    match World::open(alloc, config, sites(alloc, config.n)?) {
        Ok(world) => Ok(world),
        Err(_) => bail!("too few sites"),
    }
}

/// The lines of the calls of one session.
fn lines_of(alloc: Global, load: Load, calls: u32) -> Result<Vec<Line>>
    ensures { IfOk result (λ lines. All IsBoundedLine lines.items) }
{
    let mut lines = Vec::new(alloc);
    lines.push(Line::OpenSession)?;
    for i in 0..calls {
        lines.push(begin(call_of(alloc, load, i)?))?;
        lines.push(settle(alloc))?;
    }
    Ok(lines)
}

/// The key of an object.
fn key_of(alloc: Global, object: u32) -> Result<Key> {
    match Key::new(format!(in alloc; "key-{object}")?.into_bytes()) {
        Some(key) => Ok(key),
        None => bail!("no key"),
    }
}

/// The call with a number, counted from 0.
fn call_of(alloc: Global, load: Load, i: u32) -> Result<Call>
    ensures { IfOk result (λ call. IsBoundedCall call) }
{
    match load {
        Load::Rewrites => put_of(alloc, 0),
        Load::Objects if i.is_multiple_of(2) => put_of(alloc, i / 2),
        Load::Objects => get_of(alloc, i / 2),
    }
}

/// A put of eight bytes.
fn put_of(alloc: Global, object: u32) -> Result<Call>
    ensures { IfOk result (λ call. IsBoundedCall call) }
{
    let key = key_of(alloc, object)?;
    let bytes = Items::from_slice(alloc, &[1, 2, 3, 4, 5, 6, 7, 8])?;
    Ok(Call::Put { key, bytes })
}

fn get_of(alloc: Global, object: u32) -> Result<Call>
    ensures { IfOk result (λ call. IsBoundedCall call) }
{
    let key = key_of(alloc, object)?;
    Ok(Call::Get { key })
}

/// The line that begins a call.
pub fn begin(call: Call) -> Line
    requires { IsBoundedCall call }
    ensures { IsBoundedLine result }
{
    Line::Begin {
        session: Session(1),
        call,
    }
}

pub fn settle(alloc: Global) -> Line
    ensures { IsBoundedLine result }
{
    Line::Settle {
        session: Session(1),
        without: Items::new(alloc),
    }
}
