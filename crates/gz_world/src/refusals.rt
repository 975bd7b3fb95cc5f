//! Why an event is skipped. Takes no memory.
ghost use Rattle.std.specs.Prelude.{◌<◌, ◌-◌, ◌^◌, Some, None, ◌≡◌, ℕ, ◌↔◌, List, IsTrue, length, option_copied, map};
ghost use Rattle.gz_core.specs.declared.calls.Call.{Call};
ghost use Rattle.gz_core.specs.History.{Trace};
ghost use Rattle.gz_world.specs.States.{numbered, request_of};
ghost use Rattle.gz_world.specs.Bridge.{state_of, crashed_in};
ghost use Rattle.gz_world.specs.Refusals.{is_open, session_refusal, request_refusal, reply_refusal, refusal_of, or_next_skip, is_running, is_live};
ghost use Rattle.gz_world.specs.Steps.{session_of, open_session, session_of_request};
ghost use Rattle.gz_world.specs.Fits.{Fits, IsFitting};

use crate::events::{Event, Skip};
use crate::requests::Request;
use crate::world::World;
use gz_core::{Call, Session};
use gz_site::Site;

impl<S: Site> World<S> {
    /// Whether a session has crashed.
    fn has_crashed(&self, session: Session) -> bool
        ensures { result ≡ crashed_in self.now.clients.items session }
    {
        match self.member(session) {
            Some(member) => member.crashed,
            None => false,
        }
    }

    /// Whether a session is open.
    fn is_open(&self, session: Session) -> bool
        ensures { result ≡ is_open (length self.now.clients.items) session }
    {
        session.number() as usize <= self.clients.len()
    }

    /// Why a session does nothing, where it doesn't.
    fn session_refusal(&self, session: Session) -> Option<Skip>
        ensures { result ≡ session_refusal (length self.now.clients.items) (crashed_in self.now.clients.items) session }
    {
        if !self.is_open(session) {
            Some(Skip::NoSession)
        } else if self.has_crashed(session) {
            Some(Skip::Crashed)
        } else {
            None
        }
    }

    /// Whether a call of a session runs.
    fn is_busy(&self, session: Session) -> bool
        requires { IsFitting self.now }
        ensures { (traces : ℕ → List Trace) → Fits traces self.now → result ≡ is_running (traces session) }
    {
        match self.member(session) {
            Some(member) => member.client.runs(),
            None => false,
        }
    }

    /// Why a session doesn't begin a call, where it doesn't.
    fn begin_refusal(&self, session: Session) -> Option<Skip>
        requires { IsFitting self.now }
        ensures { (traces : ℕ → List Trace) (call : Call) → Fits traces self.now → result ≡ refusal_of (state_of S.told traces self.now) (Event.Begin session call) }
    {
        let refusal = self.session_refusal(session);
        if refusal.is_some() {
            refusal
        } else if self.is_busy(session) {
            Some(Skip::Busy)
        } else {
            None
        }
    }

    /// Whether a session's running call awaits the n-th request.
    fn is_live(&self, session: Session, n: u32) -> bool
        requires { IsFitting self.now }
        ensures { (traces : ℕ → List Trace) → Fits traces self.now → result ≡ is_live self.now.cfg (traces session) n }
    {
        match self.member(session) {
            Some(member) => member.client.awaits(n),
            None => false,
        }
    }

    /// Why a client doesn't learn of a request, where it doesn't.
    fn request_refusal(&self, n: u32) -> Option<Skip>
        requires { IsFitting self.now }
        ensures { (traces : ℕ → List Trace) → Fits traces self.now → result ≡ request_refusal (state_of S.told traces self.now) n (numbered (map request_of self.now.net.items) n) }
    {
        match self.request(n) {
            Some(request) => self.refusal_to_tell(n, request),
            None => Some(Skip::NoRequest),
        }
    }

    /// Why a client doesn't learn of this request, where it doesn't.
    fn refusal_to_tell(&self, n: u32, request: &Request) -> Option<Skip>
        requires { IsFitting self.now }
        ensures { (traces : ℕ → List Trace) → Fits traces self.now → result ≡ request_refusal (state_of S.told traces self.now) n (Some (request_of request.now)) }
    {
        let session = request.asker();
        if self.has_crashed(session) {
            Some(Skip::Crashed)
        } else if request.given_up.is_some() {
            Some(Skip::GivenUp)
        } else if !self.is_live(session, n) {
            Some(Skip::NotLive)
        } else {
            None
        }
    }

    /// Why a reply isn't handed to its client, where it isn't.
    fn reply_refusal(&self, n: u32, which: u32) -> Option<Skip>
        requires { IsFitting self.now }
        ensures { (traces : ℕ → List Trace) → Fits traces self.now → result ≡ refusal_of (state_of S.told traces self.now) (Event.Reply n which) }
    {
        let refusal = self.request_refusal(n);
        if refusal.is_some() {
            refusal
        } else {
            self.no_reply(n, which)
        }
    }

    /// Whether a request that is there lacks the reply with this number.
    fn no_reply(&self, n: u32, which: u32) -> Option<Skip>
        ensures { result ≡ reply_refusal which (numbered (map request_of self.now.net.items) n) }
    {
        match self.request(n) {
            Some(request) if which == 0 || request.replies.len() < which as usize => Some(
                Skip::NoReply,
            ),
            _ => None,
        }
    }

    /// Why an event is skipped: the first reason that holds.
    pub fn refusal(&self, event: &Event) -> Option<Skip>
        requires { IsFitting self.now }
        ensures { (traces : ℕ → List Trace) → Fits traces self.now → result ≡ refusal_of (state_of S.told traces self.now) event.now }
    {
        match event {
            Event::OpenSession => None,
            Event::Begin { session, .. } => self.begin_refusal(*session),
            Event::Deliver { n } => self.deliver_refusal(*n),
            Event::Reply { n, which } => self.reply_refusal(*n, *which),
            Event::GiveUp { n } => self.request_refusal(*n),
            Event::Crash { session } => self.session_refusal(*session),
        }
    }

    /// Why a request isn't delivered, where it isn't.
    fn deliver_refusal(&self, n: u32) -> Option<Skip>
        ensures { (traces : ℕ → List Trace) → result ≡ refusal_of (state_of S.told traces self.now) (Event.Deliver n) }
    {
        match self.request(n) {
            Some(_) => None,
            None => Some(Skip::NoRequest),
        }
    }

    /// The session that an event names, or whose request it names, where there is one.
    pub fn session_of(&self, event: &Event) -> Option<Session>
        requires { length self.now.clients.items < 2 ^ 32 - 1 }
        ensures { (traces : ℕ → List Trace) → result ≡ session_of (state_of S.told traces self.now) event.now }
    {
        match event {
            Event::OpenSession => Some(Session(self.clients.len() as u32 + 1)),
            Event::Begin { session, .. } | Event::Crash { session } => self.named_session(*session),
            Event::Deliver { n } | Event::Reply { n, .. } | Event::GiveUp { n } =>
                self.session_of_request(*n),
        }
    }

    fn named_session(&self, session: Session) -> Option<Session>
        ensures { result ≡ open_session (length self.now.clients.items) session }
    {
        if self.is_open(session) {
            Some(session)
        } else {
            None
        }
    }

    fn session_of_request(&self, n: u32) -> Option<Session>
        ensures { result ≡ session_of_request (numbered (map request_of self.now.net.items) n) }
    {
        match self.request(n) {
            Some(request) => Some(request.asker()),
            None => None,
        }
    }
}
