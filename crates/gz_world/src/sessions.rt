//! Sessions open and crash.
ghost use Rattle.std.specs.Prelude.{◌≡◌, ℕ, ◌+◌, ◌-◌, ◌<◌, ◌≤◌, length, IfOk, OnErr, Some, true, slice_get, slice_set};
ghost use Rattle.gz_world.specs.Deliveries.{WasOpened, WasCrashed};
ghost use Rattle.gz_world.specs.Fits.{IsFitting};
ghost use Rattle.gz_world.specs.Turns.{IsSmall, IsSameWorld};
ghost use Rattle.gz_world.specs.declared.world.Member.{Member};

use crate::delivery::quiet;
use crate::events::{Effect, Outcome};
use crate::world::{Member, World};
use gz_client::Client;
use gz_core::Session;
use gz_site::Site;
use std::alloc::AllocError;

/// Crashes the session at a place.
fn crash_at(clients: &mut Vec<Member>, at: usize)
    requires { at < length clients.old.items }
    ensures { (m : Member) → slice_get clients.old.items at ≡ Some m
        → clients.new.items ≡ slice_set clients.old.items at (record { client = m.client; crashed = true; last = m.last }) }
{
    clients[at].crashed = true;
}

impl<S: Site> World<S> {
    /// Opens a session.
    pub fn open_session(&mut self) -> Result<Effect, AllocError>
        requires fits { IsFitting self.old }
        requires small { IsSmall self.old }
        ensures ok { IfOk result (λ effect. WasOpened self.old self.new effect) }
        ensures err { OnErr result (IsSameWorld self.old self.new) }
    {
        let session = Session(self.clients.len() as u32 + 1);
        let client = Client::new(self.cfg, session);
        self.clients.push(Member {
            client,
            crashed: false,
            last: None,
        })?;
        Ok(quiet(Outcome::Done, Some(session)))
    }

    /// Crashes a session.
    pub fn crash(&mut self, session: Session) -> Effect
        requires { session ≤ length self.old.clients.items }
        ensures { WasCrashed self.old self.new session result }
    {
        crash_at(&mut self.clients, session.number() as usize - 1);
        quiet(Outcome::Done, Some(session))
    }
}
