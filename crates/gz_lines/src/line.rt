//! A line of a schedule.
use gz_core::{Call, Items, Session, SiteId};
use gz_text::Fault;

/// What a line of a schedule asks for. Requests and replies count from 1.
pub enum Line {
    /// A new session: 1, 2, 3, ..
    OpenSession,
    /// A session begins a call.
    Begin {
        session: Session,
        call: Call,
    },
    /// A request reaches its site, for the first time or again.
    Deliver {
        n: u32,
    },
    /// A reply of a request reaches its client.
    Reply {
        n: u32,
        which: u32,
    },
    /// The client learns that a request won't be answered.
    GiveUp {
        n: u32,
    },
    /// A session does nothing any more.
    Crash {
        session: Session,
    },
    /// A request is delivered, unless it has a reply, and its first reply reaches the client.
    Take {
        n: u32,
    },
    /// A session's call is carried to its end: of its live requests the lowest is taken, again and again, or given
    /// up where it goes to a site of the list.
    Settle {
        session: Session,
        without: Items<SiteId>,
    },
    /// The requests of a session that have no reply are delivered.
    Drain {
        session: Session,
    },
}

impl Drop for Line {
    fn drop(self) {
        match self {
            Line::OpenSession => {},
            Line::Begin {
                session: _,
                call: _,
            } => {},
            Line::Deliver { n: _ } => {},
            Line::Reply { n: _, which: _ } => {},
            Line::GiveUp { n: _ } => {},
            Line::Crash { session: _ } => {},
            Line::Take { n: _ } => {},
            Line::Settle {
                session: _,
                without: _,
            } => {},
            Line::Drain { session: _ } => {},
        }
    }
}

/// What a line of a text reads as.
#[derive(Drop)]
pub enum Reading {
    /// An empty line, a line of blanks, or a comment.
    Skipped,
    /// A line with a fault.
    Faulty(Fault),
    Is(Line),
}
