//! One event of the world.
ghost use Rattle.std.specs.Prelude.{◌≡◌, ℕ, ◌+◌, ◌<◌, ◌≤◌, ◌⊎◌, ◌↔◌, List, length, IfOk, OnErr, Ok, Err, Some, None, IsTrue, true, false, vec_len, vec_capacity};
ghost use Rattle.gz_core.specs.History.{Trace};
ghost use Rattle.gz_world.specs.declared.events.Effect.{Effect};
ghost use Rattle.gz_world.specs.declared.events.Entry.{Entry};
ghost use Rattle.gz_world.specs.declared.events.Event.{Event};
ghost use Rattle.gz_client.specs.Lowest.{IsLowestLive};
ghost use Rattle.gz_client.specs.Traces.{live, IsLiveAtIn};
ghost use Rattle.gz_world.specs.Bridge.{state_of};
ghost use Rattle.gz_world.specs.Counting.{IsFull};
ghost use Rattle.gz_world.specs.Deliveries.{IsCountedFor, LeavesSites, LeavesOthersAt, LeavesClients, LeavesAll};
ghost use Rattle.gz_world.specs.Fits.{FitsBy, Fits, IsFitting, IsBounded};
ghost use Rattle.gz_world.specs.Refusals.{refusal_of};
ghost use Rattle.gz_world.specs.Steps.{last_name, name_at, last_call, IsLowestOf, IsEntryOf};
ghost use Rattle.gz_world.specs.Told.{ActsBy, StaysBy, RecordedBy, IsReported, StepsBy, IsReachedBy};
ghost use Rattle.gz_world.specs.Turns.{IsSmall};

use crate::delivery::quiet;
use crate::events::{Applied, ApplyError, Effect, Entry, Event, Outcome, Skip};
use crate::world::World;
use gz_core::{Answer, PutName, Session};
use gz_site::Site;
use std::alloc::AllocError;

/// The most events that a journal holds.
pub const MOST_EVENTS: usize = 4_000_000;

/// The bytes held at which a world takes no more events.
pub const MOST_HELD: u64 = 1_073_741_824;

/// What is reported of an event, by its entry.
fn told_of(tick: u32, entry: &Entry, answer: Option<Answer>) -> Applied
    ensures { (effect : Effect) → effect.answer ≡ answer → IsReported tick entry.now effect result }
{
    Applied {
        tick,
        outcome: entry.outcome,
        session: entry.session,
        call: entry.call,
        live: entry.live,
        sent: entry.sent,
        answer,
    }
}

impl<S: Site> World<S> {
    /// Whether the world takes no more events.
    pub fn is_full(&self) -> bool
        ensures { IsTrue result ↔ IsFull self.now }
    {
        self.journal.len() >= MOST_EVENTS || self.held >= MOST_HELD
    }

    /// The name of the last call that a session began. Takes no memory.
    pub fn last_call(&self, session: Session) -> Option<PutName>
        ensures { (events : ℕ) (traces : ℕ → List Trace) → FitsBy events traces self.now → result ≡ last_name (traces session) }
    {
        match self.member(session) {
            Some(member) => self.call_name(member.last),
            None => None,
        }
    }

    /// The name of the call at a place.
    fn call_name(&self, last: Option<usize>) -> Option<PutName>
        ensures { result ≡ name_at self.now.calls.items last }
    {
        match self.calls.get(last?) {
            Some(call) => Some(call.name),
            None => None,
        }
    }

    /// The lowest live request of a session. Takes no memory.
    pub fn lowest_live(&self, session: Session) -> Option<u32>
        ensures { (events : ℕ) (traces : ℕ → List Trace) → FitsBy events traces self.now → IsLowestLive self.now.cfg (traces session) result }
    {
        match self.member(session) {
            Some(member) => member.client.lowest_live(),
            None => None,
        }
    }

    /// How many requests of a session are live. Takes no memory.
    pub fn live_count(&self, session: Session) -> u32
        ensures { (events : ℕ) (traces : ℕ → List Trace) → FitsBy events traces self.now → result ≡ live self.now.cfg (λ m. true) (traces session) }
    {
        match self.member(session) {
            Some(member) => member.client.live_count(),
            None => 0,
        }
    }

    /// The `i`-th lowest live request of a session, counted from 0. Takes no memory.
    pub fn live_at(&self, session: Session, i: u32) -> Option<u32>
        ensures { (events : ℕ) (traces : ℕ → List Trace) → FitsBy events traces self.now → IsLiveAtIn self.now.cfg (traces session) i result }
    {
        match self.member(session) {
            Some(member) => member.client.live_at(i),
            None => None,
        }
    }

    /// The last call and the lowest live request of the session of an event, where it has one.
    fn call_and_live(&self, session: Option<Session>) -> (Option<PutName>, Option<u32>)
        ensures call { (events : ℕ) (traces : ℕ → List Trace) → FitsBy events traces self.now → result.0 ≡ last_call (state_of S.told traces self.now) session }
        ensures live { (events : ℕ) (traces : ℕ → List Trace) → FitsBy events traces self.now → IsLowestOf (state_of S.told traces self.now) session result.1 }
    {
        match session {
            Some(session) => (self.last_call(session), self.lowest_live(session)),
            None => (None, None),
        }
    }

    /// Does an event that isn't skipped. Memory is taken before a site is changed.
    fn happen(&mut self, event: &Event) -> Result<Effect, AllocError>
        requires fits { IsFitting self.old }
        requires small { IsSmall self.old }
        requires bounded { IsBounded event.now }
        requires happens { (traces : ℕ → List Trace) → Fits traces self.old → refusal_of (state_of S.told traces self.old) event.now ≡ None }
        ensures acts { IfOk result (λ effect. ActsBy S.told self.old event.now self.new effect) }
        ensures err { OnErr result (StaysBy S.told self.old self.new) }
        ensures journal { self.new.journal ≡ self.old.journal }
        ensures fault { IfOk result (λ effect. (n : ℕ) → event.now ≡ Event.Deliver n → IsCountedFor S.faults self.old n self.new) }
        ensures sites { IfOk result (λ effect. LeavesSites event.now effect.outcome → self.new.sites ≡ self.old.sites) }
        ensures others { LeavesOthersAt self.old event.now self.new }
        ensures idle { IfOk result (λ effect. LeavesClients self.old event.now effect.outcome self.new) }
        ensures kept { OnErr result (LeavesAll self.old event.now self.new) }
    {
        match event {
            Event::OpenSession => self.open_session(),
            Event::Begin { session, call } => self.begin(*session, call),
            Event::Deliver { n } => self.deliver(*n),
            Event::Reply { n, which } => self.hand(*n, *which),
            Event::GiveUp { n } => self.give_up(*n),
            Event::Crash { session } => Ok(self.crash(*session)),
        }
    }

    /// Does an event, or skips it for the first reason that holds.
    fn do_event(&mut self, event: &Event) -> Result<Effect, AllocError>
        requires fits { IsFitting self.old }
        requires small { IsSmall self.old }
        requires bounded { IsBounded event.now }
        ensures acts { IfOk result (λ effect. ActsBy S.told self.old event.now self.new effect) }
        ensures err { OnErr result (StaysBy S.told self.old self.new) }
        ensures journal { self.new.journal ≡ self.old.journal }
        ensures fault { IfOk result (λ effect. (n : ℕ) → event.now ≡ Event.Deliver n → IsCountedFor S.faults self.old n self.new) }
        ensures sites { IfOk result (λ effect. LeavesSites event.now effect.outcome → self.new.sites ≡ self.old.sites) }
        ensures others { LeavesOthersAt self.old event.now self.new }
        ensures idle { IfOk result (λ effect. LeavesClients self.old event.now effect.outcome self.new) }
        ensures kept { OnErr result (LeavesAll self.old event.now self.new) }
    {
        match self.refusal(event) {
            Some(why) => Ok(quiet(Outcome::Skipped { why }, self.session_of(event))),
            None => self.happen(event),
        }
    }

    /// Puts an event with its effect into the journal, in which there is room for it.
    fn enter(&mut self, event: Event, effect: Effect) -> Applied
        requires room { vec_len self.old.journal < vec_capacity self.old.journal }
        requires events { length self.old.journal.items < 4000000 }
        ensures told { (entry : Entry) × (RecordedBy S.told self.old event effect self.new entry × IsReported (length self.new.journal.items) entry effect result) }
        ensures net { self.new.net ≡ self.old.net }
        ensures sites { self.new.sites ≡ self.old.sites }
        ensures clients { self.new.clients ≡ self.old.clients }
        ensures outcome { result.outcome ≡ effect.outcome }
    {
        let tick = self.next_tick();
        let entry = self.entry_of(event, &effect);
        let applied = told_of(tick, &entry, effect.answer);
        self.journal.push_reserved(entry);
        applied
    }

    /// The entry of an event, by its effect.
    fn entry_of(&self, event: Event, effect: &Effect) -> Entry
        ensures is { (events : ℕ) (traces : ℕ → List Trace) → FitsBy events traces self.now → IsEntryOf (state_of S.told traces self.now) event effect.now result }
        ensures outcome { result.outcome ≡ effect.now.outcome }
    {
        let (call, live) = self.call_and_live(effect.session);
        Entry {
            event,
            outcome: effect.outcome,
            session: effect.session,
            call,
            live,
            sent: effect.sent,
        }
    }

    /// Does an event and puts it into the journal. Memory is taken before a site is changed.
    fn perform(&mut self, event: Event) -> Result<Applied, AllocError>
        requires fits { IsFitting self.old }
        requires small { IsSmall self.old }
        requires bounded { IsBounded event }
        ensures step { IfOk result (λ applied. StepsBy S.told self.old event self.new applied) }
        ensures err { OnErr result (StaysBy S.told self.old self.new) }
        ensures fault { IfOk result (λ applied. (n : ℕ) → event ≡ Event.Deliver n → IsCountedFor S.faults self.old n self.new) }
        ensures sites { IfOk result (λ applied. LeavesSites event applied.outcome → self.new.sites ≡ self.old.sites) }
        ensures others { LeavesOthersAt self.old event self.new }
        ensures idle { IfOk result (λ applied. LeavesClients self.old event applied.outcome self.new) }
        ensures kept { OnErr result (LeavesAll self.old event self.new) }
    {
        self.journal.reserve(1)?;
        let effect = self.do_event(&event)?;
        Ok(self.enter(event, effect))
    }

    /// Applies an event: it is done, or skipped for the first reason that holds, and then stands in the journal.
    /// Memory is taken before a site is changed; once it ran out, every later event is answered so.
    pub fn apply(&mut self, event: Event) -> Result<Applied, ApplyError>
        requires fits { IsFitting self.old }
        requires bounded { IsBounded event }
        ensures fits { IsFitting self.new }
        ensures step { IfOk result (λ applied. StepsBy S.told self.old event self.new applied) }
        ensures err { OnErr result (StaysBy S.told self.old self.new) }

        // A reply that reports a fault is kept only where the site counted one.
        ensures fault { IfOk result (λ applied. (n : ℕ) → event ≡ Event.Deliver n → IsCountedFor S.faults self.old n self.new) }

        // An event that is skipped, or that is no delivery, reaches no site, and so raises no site's count of faults.
        ensures sites { IfOk result (λ applied. LeavesSites event applied.outcome → self.new.sites ≡ self.old.sites) }

        // A delivery touches the site of its request alone, whatever comes of it.
        ensures others { LeavesOthersAt self.old event self.new }

        // The client of a session is as it was, unless the event is one of the session's and is done.
        ensures idle { IfOk result (λ applied. LeavesClients self.old event applied.outcome self.new) }

        // Where an event isn't taken, for want of memory or room, no client has changed, and no site but that of a delivery was reached.
        ensures kept { OnErr result (LeavesAll self.old event self.new) }

        // Full comes exactly at the bounds, and leaves all as it was; want of memory comes first, once it came.
        ensures full { (result ≡ Err ApplyError.Full) ↔ ((self.old.spent ≡ false) × IsFull self.old) }
        ensures untouched { result ≡ Err ApplyError.Full → self.new ≡ self.old }
        ensures spent { (result ≡ Err ApplyError.NoMemory) ↔ IsTrue self.new.spent }
        ensures ever { IsTrue self.old.spent → IsTrue self.new.spent }
        ensures reached { IsReachedBy S.told self.old → IsReachedBy S.told self.new }
    {
        if self.spent {
            return Err(ApplyError::NoMemory);
        }
        if self.is_full() {
            return Err(ApplyError::Full);
        }
        match self.perform(event) {
            Ok(applied) => {
                self.spent = false;
                Ok(applied)
            }
            Err(AllocError) => {
                self.spent = true;
                Err(ApplyError::NoMemory)
            }
        }
    }
}
