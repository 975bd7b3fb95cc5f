//! Requests, as the world keeps them.
ghost use Rattle.std.specs.Prelude.{◌≡◌, ◌+◌, OnOk, length, ◌++◌, ◌∷◌, [], ◌<◌, ◌≤◌, Some, None, vec_len, vec_capacity, map};
ghost use Rattle.gz_world.specs.States.{request_of, with_reply, with_handed, with_given_up, sent_request, sent_requests};

use gz_core::{Op, Out, PutName, Reply, Session, SiteId};
use std::alloc::{AllocError, Global};

/// A request: whose call sent it and at which tick, the site and the operation, and whether a reply was awaited when
/// it was sent; the replies with their ticks; the tick at which a reply was handed to the client and that reply's
/// number; and the tick at which the request was given up.
pub struct Request {
    pub name: PutName,
    pub site: SiteId,
    pub op: Op,
    pub awaited: bool,
    pub tick: u32,
    pub replies: Vec<(u32, Reply)>,
    pub handed: Option<(u32, u32)>,
    pub given_up: Option<u32>,
}

impl Drop for Request {
    fn drop(self) {
        let Request {
            name: _,
            site: _,
            op: _,
            awaited: _,
            tick: _,
            replies: _,
            handed: _,
            given_up: _,
        } = self;
    }
}

impl Request {
    /// The request that a call sends at a tick.
    pub fn sent(alloc: Global, name: PutName, tick: u32, out: Out) -> Request
        ensures { request_of result ≡ sent_request name tick out }
    {
        let Out { site, op, awaited } = out;
        Request {
            name,
            site,
            op,
            awaited,
            tick,
            replies: Vec::new(alloc),
            handed: None,
            given_up: None,
        }
    }

    /// The session whose call sent it.
    pub fn asker(&self) -> Session
        ensures { result ≡ self.now.name.session }
    {
        self.name.session
    }

    /// Makes room for one more reply.
    pub fn make_room(&mut self) -> Result<(), AllocError>
        ensures same { request_of self.new ≡ request_of self.old }
        ensures room { OnOk result (vec_len self.new.replies < vec_capacity self.new.replies) }
    {
        self.replies.reserve(1)
    }

    /// Adds a reply that came at a tick. Takes no memory.
    pub fn keep(&mut self, tick: u32, reply: Reply)
        requires { vec_len self.old.replies < vec_capacity self.old.replies }
        ensures { request_of self.new ≡ with_reply tick reply (request_of self.old) }
    {
        self.replies.push_reserved((tick, reply));
    }

    /// Notes that a reply was handed to the client at a tick.
    pub fn hand(&mut self, tick: u32, which: u32)
        ensures { request_of self.new ≡ with_handed tick which (request_of self.old) }
    {
        self.handed = Some((tick, which));
    }

    /// Notes that the request was given up at a tick.
    pub fn give_up(&mut self, tick: u32)
        ensures { request_of self.new ≡ with_given_up tick (request_of self.old) }
    {
        self.given_up = Some(tick);
    }
}

/// Adds the requests that a call sends at a tick, for which there is room.
pub fn send_all(alloc: Global, net: &mut Vec<Request>, name: PutName, tick: u32, outs: Vec<Out>)
    requires { vec_len net.old + length outs.items ≤ vec_capacity net.old }
    ensures { map request_of net.new.items ≡ map request_of net.old.items ++ sent_requests name tick outs.items }
{
    for out in outs {
        net.push_reserved(Request::sent(alloc, name, tick, out));
    }
}
