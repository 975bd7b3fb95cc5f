//! A session's client.
ghost use Rattle.std.specs.Prelude.{◌≡◌, ℕ, ◌<◌, ◌+◌, ◌^◌, ◌↔◌, List, [], true, IsTrue, Some, IsSome, IfOk, OnErr};
ghost use Rattle.gz_core.specs.Configurations.{IsConfig};
ghost use Rattle.gz_core.specs.History.{Trace, Handed, GaveUp};
ghost use Rattle.gz_round.specs.Sites.{as_heard, written_by};
ghost use Rattle.gz_round.specs.Starting.{IsWithin};
ghost use Rattle.gz_client.specs.Traces.{Holds, CanBegin, CanLearn, IsSameClient, IsRunning, Begins, Extends};
ghost use Rattle.gz_client.specs.Changes.{changed, CanChange};

mod beginning;
mod learning;
mod live;

use crate::running::{Change, Running};
use gz_core::{Call, Config, Reply, Session, Turn};
use gz_data::{Came, Storing};
use std::alloc::{AllocError, Global};

/// The client of one session, and the greatest round that it promised: at most one call of it runs.
pub struct Client {
    config: Config,
    session: Session,
    calls: u32,
    round: u32,
    running: Option<Running>,
}

impl Drop for Client {
    fn drop(self) {
        let Client {
            config: _,
            session: _,
            calls: _,
            round: _,
            running: _,
        } = self;
    }
}

impl Client {
    /// The client of a session that has called nothing.
    pub fn new(config: Config, session: Session) -> Client
        requires { IsConfig config }
        ensures holds { (next : ℕ) → Holds result next [] }
        ensures config { result.config ≡ config }
        ensures session { result.session ≡ session }
    {
        Client {
            config,
            session,
            calls: 0,
            round: 0,
            running: None,
        }
    }

    /// Begins a call. Its requests go out under the numbers from `first` on, in their order.
    pub fn begin(&mut self, alloc: Global, call: Call, first: u32) -> Result<Turn, AllocError>
        requires begin { CanBegin self.old }
        requires within { IsWithin call }
        requires first { first < 2 ^ 31 }

        ensures ok { IfOk result (λ turn. Begins self.old self.new first call turn) }
        ensures same { IsSameClient self.old self.new }
        ensures err { OnErr result (self.new ≡ self.old) }
    {
        let (change, turn) = self.begun(alloc, &call, first)?;
        self.take(change);
        Ok(turn)
    }

    /// Hands the client a reply of request `n`, which it awaits. What it sends at this goes out under the
    /// numbers from `first` on, in their order.
    pub fn reply(
        &mut self,
        alloc: Global,
        n: u32,
        answer: &Reply,
        first: u32,
    ) -> Result<Turn, AllocError>
        requires told { CanLearn self.old n first }
        requires first { first < 2 ^ 31 }

        ensures ok { IfOk result (λ turn. Extends self.old self.new n first (λ a. Handed a (as_heard self.old.config.n (written_by a.op) answer.now)) turn) }
        ensures same { IsSameClient self.old self.new }
        ensures err { OnErr result (self.new ≡ self.old) }
    {
        let (change, turn) = self.handed(alloc, n, answer, first)?;
        self.take(change);
        Ok(turn)
    }

    /// Notifies the client that request `n`, which it awaits, won't be answered. What it sends at this goes out
    /// under the numbers from `first` on, in their order. For a fragment's request this takes no memory where nothing is sent and the
    /// call goes on; for a row's, what the call keeps is copied first.
    pub fn give_up(&mut self, alloc: Global, n: u32, first: u32) -> Result<Turn, AllocError>
        requires told { CanLearn self.old n first }
        requires first { first < 2 ^ 31 }

        ensures ok { IfOk result (λ turn. Extends self.old self.new n first (λ a. GaveUp a) turn) }
        ensures same { IsSameClient self.old self.new }
        ensures err { OnErr result (self.new ≡ self.old) }
    {
        let (change, turn) = self.gave_up(alloc, n, first)?;
        self.take(change);
        Ok(turn)
    }

    /// Changes as an event has it. Takes no memory.
    pub fn take(&mut self, change: Change)
        requires { CanChange self.old change }
        ensures { self.new ≡ changed self.old change }
    {
        match change {
            Change::Runs {
                calls,
                round,
                running,
            } => {
                self.calls = calls;
                self.round = round;
                self.running = running;
            },
            Change::Counts { n, counts } => self.count(n, counts),
            Change::Keeps { n, came } => self.keep(n, came),
        }
    }

    /// Awaits the request that stores a fragment no more, and has other counters.
    fn count(&mut self, n: u32, counts: Storing)
        ensures { self.new ≡ changed self.old (Change.Counts n counts) }
    {
        match &mut self.running {
            Some(running) => running.count(n, counts),
            None => {},
        }
    }

    /// Awaits the request that reads a fragment no more, and keeps what came of it.
    fn keep(&mut self, n: u32, came: Came)
        requires { CanChange self.old (Change.Keeps n came) }
        ensures { self.new ≡ changed self.old (Change.Keeps n came) }
    {
        match &mut self.running {
            Some(running) => running.keep(n, came),
            None => {},
        }
    }

    /// Whether a call runs. Takes no memory.
    pub fn runs(&self) -> bool
        ensures { (next : ℕ) (ts : List Trace) → Holds self.now next ts → (IsTrue result ↔ IsRunning ts) }
    {
        self.running.is_some()
    }
}
