//! Events, and what the world reports of each.
use gz_core::{Answer, Call, PutName, Session};

/// What may happen to the world. Requests and replies count from 1.
pub enum Event {
    /// A new session opens: 1, 2, 3, ..
    OpenSession,
    /// A session begins a call.
    Begin { session: Session, call: Call },
    /// A request reaches its site, for the first time or again, and the site answers.
    Deliver { n: u32 },
    /// A reply of a request reaches the client.
    Reply { n: u32, which: u32 },
    /// The client learns that a request won't be answered.
    GiveUp { n: u32 },
    /// A session does nothing any more.
    Crash { session: Session },
}

impl Drop for Event {
    fn drop(self) {
        match self {
            Event::OpenSession => {},
            Event::Begin {
                session: _,
                call: _,
            } => {},
            Event::Deliver { n: _ } => {},
            Event::Reply { n: _, which: _ } => {},
            Event::GiveUp { n: _ } => {},
            Event::Crash { session: _ } => {},
        }
    }
}

/// Why an event is skipped.
#[derive(Clone, Copy, Debug, PartialEq, Eq)]
pub enum Skip {
    /// There is no such session.
    NoSession,
    /// The session has crashed.
    Crashed,
    /// A call of the session runs.
    Busy,
    /// There is no such request.
    NoRequest,
    /// The client learnt that the request won't be answered.
    GivenUp,
    /// No running call awaits the request.
    NotLive,
    /// There is no such reply.
    NoReply,
}

/// Whether an event was done.
#[derive(Clone, Copy, Debug, PartialEq, Eq)]
pub enum Outcome {
    Done,
    Skipped { why: Skip },
}

/// What an event does beside the change of the world: whether it was done, the session that it opened or named or
/// whose request it named, the first request that was sent and how many were ((0, 0): none), and an answer.
#[derive(Drop)]
pub struct Effect {
    pub outcome: Outcome,
    pub session: Option<Session>,
    pub sent: (u32, u32),
    pub answer: Option<Answer>,
}

/// An event in the journal, with what was reported of it: the session, its last call and its lowest live request after
/// the event, and the first request that was sent and how many were ((0, 0): none).
pub struct Entry {
    pub event: Event,
    pub outcome: Outcome,
    pub session: Option<Session>,
    pub call: Option<PutName>,
    pub live: Option<u32>,
    pub sent: (u32, u32),
}

impl Drop for Entry {
    fn drop(self) {
        let Entry {
            event: _,
            outcome: _,
            session: _,
            call: _,
            live: _,
            sent: _,
        } = self;
    }
}

/// What is reported of an event: the fields of its entry, its tick (its place in the journal, from 1), and the answer of
/// the call that ended at it.
#[derive(Debug, PartialEq, Eq, Drop)]
pub struct Applied {
    pub tick: u32,
    pub outcome: Outcome,
    pub session: Option<Session>,
    pub call: Option<PutName>,
    pub live: Option<u32>,
    pub sent: (u32, u32),
    pub answer: Option<Answer>,
}

/// Why an event was not applied.
#[derive(Clone, Copy, Debug, PartialEq, Eq)]
pub enum ApplyError {
    /// The journal or the bytes held are at their bound. Nothing changed.
    Full,
    /// Memory ran out, now or before.
    NoMemory,
}
