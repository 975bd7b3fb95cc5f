//! Worlds to which events are applied one by one.
ghost use Rattle.std.specs.Prelude.{IfSome};
ghost use Rattle.gz_world.specs.Fits.{IsFitting, IsBounded};

use crate::opened::{empty_sites, opened};
use gz_core::{Answer, Call, Config, Key, Phase, PutName, Session};
use gz_script::outboxes::{Outboxes, has_reply};
use gz_site::MemSite;
use gz_world::{Applied, ApplyError, Event, OpenWhy, Outcome, Request, Skip, World};
use std::alloc::Global;

/// Why a world isn't opened over two sites, and how many sites are handed back.
fn refused_over_two(alloc: Global) -> Option<(OpenWhy, usize)> {
    let sites = empty_sites(alloc, 2)?;
    match World::open(alloc, Config::DEFAULT, sites) {
        Ok(_) => None,
        Err(refused) => Some((refused.why, refused.sites.len())),
    }
}

/// Crashes a session that isn't there so many times, and returns why it can't be done once more.
fn crash_often(world: &mut World<MemSite>, session: Session, count: u32) -> Option<ApplyError>
    requires { IsFitting world.old }
{
    for _ in 0..count {
        world.apply(Event::Crash { session }).ok()?;
    }
    world.apply(Event::Crash { session }).err()
}

/// Why a world that took so many events takes no more.
fn refused_after(alloc: Global, count: u32) -> Option<ApplyError> {
    let mut world = opened(alloc, Config::DEFAULT)?;
    crash_often(&mut world, SESSION, count)
}

#[test]
fn too_few_sites_and_too_many_events(rt: HostRuntime) {
    let too_few = OpenWhy::Sites { given: 2, need: 3 };
    assert!(rt; refused_over_two(rt.alloc()) == Some((too_few, 2)));
    assert!(rt; refused_after(rt.alloc(), 4_000_000) == Some(ApplyError::Full));
}

const SESSION: Session = Session(1);

/// An event of the first session.
#[derive(Clone, Copy)]
enum Step {
    Opens,
    Gets,
    Delivers(u32),
    GivesUp(u32),
    Crashes,
}

fn event(alloc: Global, step: Step) -> Option<Event>
    ensures { IfSome result (λ event. IsBounded event) }
{
    let session = SESSION;
    match step {
        Step::Opens => Some(Event::OpenSession),
        Step::Gets => Some(Event::Begin {
            session,
            call: Call::Get { key: key(alloc)? },
        }),
        Step::Delivers(n) => Some(Event::Deliver { n }),
        Step::GivesUp(n) => Some(Event::GiveUp { n }),
        Step::Crashes => Some(Event::Crash { session }),
    }
}

fn key(alloc: Global) -> Option<Key> {
    Key::new(Vec::from_slice(alloc, b"a").ok()?)
}

/// What is reported of an event: its tick and outcome, the session and its last call, its lowest live request, the requests
/// that were sent, and of an answer for want of sites how many were heard.
type Told = (
    (u32, Outcome),
    (Option<Session>, Option<PutName>),
    Option<u32>,
    (u32, u32),
    Option<u32>,
);

fn heard(answer: &Option<Answer>) -> Option<u32> {
    match answer {
        Some(
            Answer::NoQuorum {
                phase: Phase::Look,
                heard,
            },
        ) => Some(*heard),
        _ => None,
    }
}

fn told_of(applied: &Applied) -> Told {
    (
        (applied.tick, applied.outcome),
        (applied.session, applied.call),
        applied.live,
        applied.sent,
        heard(&applied.answer),
    )
}

/// Takes a step, and gives what is reported of it.
fn told(world: &mut World<MemSite>, step: Step) -> Option<Told>
    requires { IsFitting world.old }
    ensures { IsFitting world.new }
{
    let event = event(world.alloc, step)?;
    let applied = world.apply(event).ok()?;
    Some(told_of(&applied))
}

/// Whether each step is reported as it is to be.
fn happen(world: &mut World<MemSite>, steps: &[(Step, Told)]) -> bool
    requires { IsFitting world.old }
    ensures { IsFitting world.new }
{
    for step in steps {
        if told(world, step.0) != Some(step.1) {
            return false;
        }
    }
    true
}

const GET: PutName = PutName {
    session: SESSION,
    seq: 1,
};

/// The session, and the get that it began.
const OWN: (Option<Session>, Option<PutName>) = (Some(SESSION), Some(GET));

const OPENED: (Step, Told) = (
    Step::Opens,
    (
        (1, Outcome::Done),
        (Some(SESSION), None),
        None,
        (0, 0),
        None,
    ),
);

const BEGUN: (Step, Told) = (Step::Gets, ((2, Outcome::Done), OWN, Some(1), (1, 3), None));

/// A get whose requests are given up, and a session that crashes twice.
const GIVEN_UP: [(Step, Told); 6] = [
    OPENED,
    BEGUN,
    (
        Step::GivesUp(1),
        ((3, Outcome::Done), OWN, Some(2), (0, 0), None),
    ),
    (
        Step::GivesUp(2),
        ((4, Outcome::Done), OWN, None, (0, 0), Some(0)),
    ),
    (Step::Crashes, ((5, Outcome::Done), OWN, None, (0, 0), None)),
    (
        Step::Crashes,
        (
            (6, Outcome::Skipped { why: Skip::Crashed }),
            OWN,
            None,
            (0, 0),
            None,
        ),
    ),
];

/// How many sites a world gives back after these steps.
fn sites_after_steps(alloc: Global, steps: &[(Step, Told)]) -> Option<usize> {
    let mut world = opened(alloc, Config::DEFAULT)?;
    if !happen(&mut world, steps) {
        return None;
    }
    Some(world.into_sites().len())
}

/// A get of which one request is delivered and another one given up.
const AWAITED: [(Step, Told); 4] = [
    OPENED,
    BEGUN,
    (
        Step::Delivers(2),
        ((3, Outcome::Done), OWN, Some(1), (0, 0), None),
    ),
    (
        Step::GivesUp(1),
        ((4, Outcome::Done), OWN, Some(2), (0, 0), None),
    ),
];

/// Of the session its last call, its two lowest live requests, how many are live, and whether the world is full.
type Awaited = (Option<PutName>, [Option<u32>; 2], u32, bool);

fn awaited(world: &World<MemSite>) -> Awaited {
    let lowest = [world.lowest_live(SESSION), world.live_at(SESSION, 1)];
    let count = world.live_count(SESSION);
    (world.last_call(SESSION), lowest, count, world.is_full())
}

/// Whether requests 1 and 2 have a reply, and whether those of the session that have none are these.
fn are_listed(alloc: Global, net: &[Request], unanswered: &[u32]) -> Option<([bool; 2], bool)> {
    let mut outboxes = Outboxes::new(alloc);
    outboxes.look(net, SESSION).ok()?;
    let are = outboxes.of(SESSION) == unanswered;
    Some(([has_reply(net, 1), has_reply(net, 2)], are))
}

/// What is awaited after these steps, and what is shown by the requests.
fn awaited_after_steps(
    alloc: Global,
    steps: &[(Step, Told)],
) -> Option<(Awaited, ([bool; 2], bool))> {
    let mut world = opened(alloc, Config::DEFAULT)?;
    if !happen(&mut world, steps) {
        return None;
    }
    let listed = are_listed(alloc, world.net.as_slice(), &[1, 3])?;
    Some((awaited(&world), listed))
}

#[test]
fn gets_whose_requests_are_given_up_or_delivered(rt: HostRuntime) {
    assert!(rt; sites_after_steps(rt.alloc(), GIVEN_UP.as_slice()) == Some(3));
    let awaited = (Some(GET), [Some(2), Some(3)], 2, false);
    let listed = ([false, true], true);
    assert!(rt; awaited_after_steps(rt.alloc(), AWAITED.as_slice()) == Some((awaited, listed)));
}
