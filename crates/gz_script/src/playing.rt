//! Schedules are played: each line's events are read off the world in which it is reached.
ghost use Rattle.std.specs.Prelude.{◌≡◌, ◌∷◌, [], OnOk, IfErr, All, ◌==◌, map};
ghost use Rattle.std.specs.List.{list_any};
ghost use Rattle.gz_world.specs.Fits.{IsFitting, IsBounded};
ghost use Rattle.gz_world.specs.States.{request_of, numbered};
ghost use Rattle.gz_world.specs.Told.{IsReachedBy};
ghost use Rattle.gz_script.specs.Outboxes.{AreUnansweredListed};
ghost use Rattle.gz_script.specs.Plays.{Happen, StopsAt, HappenInPart, taken, is_left_out, settled, Settles, SettlesInPart, drained, PlaysLine, PlaysLineInPart, Plays, PlaysInPart, ChangesBy};
ghost use Rattle.gz_lines.specs.Schedule.{IsBoundedCall, IsBoundedLine};

use crate::outboxes::{Outboxes, has_reply};
use gz_core::{Call, Session, SiteId};
use gz_lines::Line;
use gz_site::Site;
use gz_world::{ApplyError, Event, World};
use std::alloc::AllocError;

/// How many times a session that settles is looked at again.
pub const MOST_TIMES: u32 = 65_536;

/// Plays the lines in their order. Where the world is full or memory runs out, the lines above were played, and the
/// first few events of the line that was reached.
pub fn play<S: Site>(lines: &[Line], world: &mut World<S>) -> Result<(), ApplyError>
    requires fits { IsFitting world.old }
    requires bounded { All IsBoundedLine lines.now }
    ensures fits { IsFitting world.new }
    ensures plays { OnOk result (ChangesBy S.told (Plays lines.now) world.old world.new) }
    ensures part { IfErr result (λ error. ChangesBy S.told (PlaysInPart error lines.now) world.old world.new) }
    ensures reached { IsReachedBy S.told world.old → IsReachedBy S.told world.new }
{
    let mut boxes = Outboxes::new(world.alloc);
    for line in lines {
        play_line(line, world, &mut boxes)?;
    }
    Ok(())
}

/// Plays a line.
fn play_line<S: Site>(
    line: &Line,
    world: &mut World<S>,
    boxes: &mut Outboxes,
) -> Result<(), ApplyError>
    requires fits { IsFitting world.old }
    requires bounded { IsBoundedLine line.now }
    requires listed { AreUnansweredListed boxes.old (map request_of world.old.net.items) }
    ensures listed { OnOk result (AreUnansweredListed boxes.new (map request_of world.old.net.items)) }
    ensures fits { IsFitting world.new }
    ensures plays { OnOk result (ChangesBy S.told (PlaysLine line.now) world.old world.new) }
    ensures part { IfErr result (λ error. ChangesBy S.told (PlaysLineInPart error line.now) world.old world.new) }
{
    match line {
        Line::OpenSession => happen(world, Event::OpenSession),
        Line::Begin { session, call } => begin(world, *session, call),
        Line::Deliver { n } => happen(world, Event::Deliver { n: *n }),
        Line::Reply { n, which } => happen(
            world,
            Event::Reply {
                n: *n,
                which: *which,
            },
        ),
        Line::GiveUp { n } => happen(world, Event::GiveUp { n: *n }),
        Line::Crash { session } => happen(world, Event::Crash { session: *session }),
        Line::Take { n } => take(world, *n),
        Line::Settle { session, without } => settle(world, *session, without.as_slice()),
        Line::Drain { session } => drain(world, *session, boxes),
    }
}

/// One event happens.
fn happen<S: Site>(world: &mut World<S>, event: Event) -> Result<(), ApplyError>
    requires fits { IsFitting world.old }
    requires bounded { IsBounded event }
    ensures fits { IsFitting world.new }
    ensures ok { OnOk result (ChangesBy S.told (Happen (event ∷ [])) world.old world.new) }
    ensures err { IfErr result (λ error. ChangesBy S.told (StopsAt error event) world.old world.new) }
{
    world.apply(event)?;
    Ok(())
}

/// A session begins a call.
fn begin<S: Site>(world: &mut World<S>, session: Session, call: &Call) -> Result<(), ApplyError>
    requires fits { IsFitting world.old }
    requires bounded { IsBoundedCall call.now }
    ensures fits { IsFitting world.new }
    ensures ok { OnOk result (ChangesBy S.told (Happen (Event.Begin session call.now ∷ [])) world.old world.new) }
    ensures err { IfErr result (λ error. ChangesBy S.told (HappenInPart error (Event.Begin session call.now ∷ [])) world.old world.new) }
{
    match gz_world::calls::copy_of_call(call) {
        Ok(call) => happen(world, Event::Begin { session, call }),
        Err(AllocError) => Err(ApplyError::NoMemory),
    }
}

/// Takes a request: it is delivered, unless it has a reply, and its first reply reaches its client.
fn take<S: Site>(world: &mut World<S>, n: u32) -> Result<(), ApplyError>
    requires { IsFitting world.old }
    ensures fits { IsFitting world.new }
    ensures ok { OnOk result (ChangesBy S.told (λ s. Happen (taken n s) s) world.old world.new) }
    ensures err { IfErr result (λ error. ChangesBy S.told (λ s. HappenInPart error (taken n s) s) world.old world.new) }
{
    if has_reply(world.net.as_slice(), n) {
        return happen(world, Event::Reply { n, which: 1 });
    }
    happen(world, Event::Deliver { n })?;
    happen(world, Event::Reply { n, which: 1 })
}

/// Whether a site is one of these.
fn contains(sites: &[SiteId], site: SiteId) -> bool
    ensures { result ≡ list_any (λ s. s == site) sites.now }
{
    sites.iter().any(|s| *s == site)
}

/// Whether a request goes to one of these sites.
fn is_left_out<S: Site>(world: &World<S>, n: u32, without: &[SiteId]) -> bool
    ensures { result ≡ is_left_out without.now (numbered (map request_of world.now.net.items) n) }
{
    match world.request(n) {
        Some(request) => contains(without, request.site),
        None => false,
    }
}

/// Gives a request up where its site is left out, and takes it elsewhere.
fn settle_request<S: Site>(
    world: &mut World<S>,
    n: u32,
    without: &[SiteId],
) -> Result<(), ApplyError>
    requires { IsFitting world.old }
    ensures fits { IsFitting world.new }
    ensures ok { OnOk result (ChangesBy S.told (λ s. Happen (settled without.now n s) s) world.old world.new) }
    ensures err { IfErr result (λ error. ChangesBy S.told (λ s. HappenInPart error (settled without.now n s) s) world.old world.new) }
{
    if is_left_out(world, n, without) {
        return happen(world, Event::GiveUp { n });
    }
    take(world, n)
}

/// Settles the lowest live request of a session, again and again, until it has none.
fn settle<S: Site>(
    world: &mut World<S>,
    session: Session,
    without: &[SiteId],
) -> Result<(), ApplyError>
    requires { IsFitting world.old }
    ensures fits { IsFitting world.new }
    ensures ok { OnOk result (ChangesBy S.told (Settles session without.now) world.old world.new) }
    ensures err { IfErr result (λ error. ChangesBy S.told (SettlesInPart error session without.now) world.old world.new) }
{
    for _ in 0..MOST_TIMES {
        match world.lowest_live(session) {
            None => return Ok(()),
            Some(n) => settle_request(world, n, without)?,
        }
    }
    Ok(())
}

/// Delivers requests.
fn deliver_all<S: Site>(world: &mut World<S>, numbers: &[u32]) -> Result<(), ApplyError>
    requires { IsFitting world.old }
    ensures fits { IsFitting world.new }
    ensures ok { OnOk result (ChangesBy S.told (Happen (map (λ n. Event.Deliver n) numbers.now)) world.old world.new) }
    ensures err { IfErr result (λ error. ChangesBy S.told (HappenInPart error (map (λ n. Event.Deliver n) numbers.now)) world.old world.new) }
{
    for n in numbers {
        happen(world, Event::Deliver { n: *n })?;
    }
    Ok(())
}

/// Delivers the requests of a session that have no reply yet.
fn drain<S: Site>(
    world: &mut World<S>,
    session: Session,
    boxes: &mut Outboxes,
) -> Result<(), ApplyError>
    requires fits { IsFitting world.old }
    requires listed { AreUnansweredListed boxes.old (map request_of world.old.net.items) }
    ensures fits { IsFitting world.new }
    ensures listed { OnOk result (AreUnansweredListed boxes.new (map request_of world.old.net.items)) }
    ensures ok { OnOk result (ChangesBy S.told (λ s. Happen (drained session s) s) world.old world.new) }
    ensures err { IfErr result (λ error. ChangesBy S.told (λ s. HappenInPart error (drained session s) s) world.old world.new) }
{
    match boxes.look(world.net.as_slice(), session) {
        Ok(()) => deliver_all(world, boxes.of(session)),
        Err(AllocError) => Err(ApplyError::NoMemory),
    }
}
