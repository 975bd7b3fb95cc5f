//! Lists of the requests that each session has sent, so that those of one session are found without a look at those of
//! others.
ghost use Rattle.std.specs.Prelude.{◌≡◌, ℕ, ◌+◌, ◌-◌, ◌<◌, ◌≤◌, ◌^◌, List, [], length, map, IfOk, OnOk};
ghost use Rattle.gz_world.specs.States.{RequestAt, request_of, numbered};
ghost use Rattle.gz_script.specs.Outboxes.{outbox_of, AreUnansweredListed, IsAppended, IsReplaced};
ghost use Rattle.gz_script.specs.Plays.{has_reply, unanswered, waiting};

use gz_core::{Items, Session};
use gz_world::Request;
use gz_world::lookups::numbered;
use std::alloc::{AllocError, Global};

/// For each session, the numbers of its requests among the first `seen`, but for some that have a reply.
#[derive(Drop)]
pub struct Outboxes {
    pub seen: usize,
    pub lists: Vec<Items<u32>>,
    alloc: Global,
}

/// Whether there is a reply of a request.
pub fn has_reply(net: &[Request], n: u32) -> bool
    ensures { result ≡ has_reply (numbered (map request_of net.now) n) }
{
    match numbered(net, n) {
        Some(request) => !request.replies.is_empty(),
        None => false,
    }
}

/// Those of some requests that have no reply yet.
fn unanswered(alloc: Global, net: &[Request], numbers: &[u32]) -> Result<Items<u32>, AllocError>
    ensures { IfOk result (λ found. found ≡ unanswered (map request_of net.now) numbers.now) }
{
    let mut found = Items::new(alloc);
    for n in numbers {
        if !has_reply(net, *n) {
            found.push(*n)?;
        }
    }
    Ok(found)
}

/// Puts a request at the end of the list at a place.
fn put_at(lists: &mut Vec<Items<u32>>, session: Session, n: u32) -> Result<(), AllocError>
    requires { session ≤ length lists.old.items }
    ensures { OnOk result (IsAppended lists.old.items session n lists.new.items) }
{
    lists[session.number() as usize - 1].push(n)
}

/// Replaces the list at a place.
fn replace_at(lists: &mut Vec<Items<u32>>, at: usize, numbers: Items<u32>)
    requires { at < length lists.old.items }
    ensures { IsReplaced lists.old.items at numbers lists.new.items }
{
    lists[at] = numbers;
}

impl Outboxes {
    /// No request was seen.
    pub fn new(alloc: Global) -> Outboxes
        ensures { (net : List RequestAt) → AreUnansweredListed result net }
    {
        Outboxes {
            seen: 0,
            lists: Vec::new(alloc),
            alloc,
        }
    }

    /// The list of a session.
    pub fn of(&self, session: Session) -> &[u32]
        ensures { result.now ≡ outbox_of self.now.lists.items (session - 1) }
    {
        match self.lists.get(session.number() as usize - 1) {
            Some(list) => list.as_slice(),
            None => &[],
        }
    }

    /// Makes empty lists up to that of a session.
    fn make_room(&mut self, session: Session) -> Result<(), AllocError>
        ensures seen { self.new.seen ≡ self.old.seen }
        ensures same { (s : ℕ) → outbox_of self.new.lists.items s ≡ outbox_of self.old.lists.items s }
        ensures room { OnOk result (session ≤ length self.new.lists.items) }
    {
        while self.lists.len() < session.number() as usize {
            self.lists.push(Items::new(self.alloc))?;
        }
        Ok(())
    }

    /// Puts the next request into the list of its session.
    fn put(&mut self, session: Session) -> Result<(), AllocError>
        requires { self.old.seen < 2 ^ 63 }
        ensures seen { OnOk result (self.new.seen ≡ self.old.seen + 1) }
        ensures put { OnOk result (IsAppended self.old.lists.items session (self.old.seen + 1) self.new.lists.items) }
    {
        let n = u32::try_from(self.seen + 1).map_err(|_| AllocError)?;
        self.make_room(session)?;
        put_at(&mut self.lists, session, n)?;
        self.seen += 1;
        Ok(())
    }

    /// Puts the requests that weren't seen into the lists of their sessions.
    fn catch_up(&mut self, net: &[Request]) -> Result<(), AllocError>
        requires { AreUnansweredListed self.old (map request_of net.now) }
        ensures listed { OnOk result (AreUnansweredListed self.new (map request_of net.now)) }
        ensures seen { OnOk result (self.new.seen ≡ length net.now) }
    {
        while self.seen < net.len() {
            self.put(net[self.seen].asker())?;
        }
        Ok(())
    }

    /// Brings the list of a session up to date: it has the requests of the session that have no reply yet.
    pub fn look(&mut self, net: &[Request], session: Session) -> Result<(), AllocError>
        requires { AreUnansweredListed self.old (map request_of net.now) }
        ensures listed { OnOk result (AreUnansweredListed self.new (map request_of net.now)) }
        ensures found { OnOk result (outbox_of self.new.lists.items (session - 1) ≡ waiting session (map request_of net.now)) }
    {
        self.catch_up(net)?;
        self.make_room(session)?;
        let found = unanswered(self.alloc, net, self.of(session))?;
        replace_at(&mut self.lists, session.number() as usize - 1, found);
        Ok(())
    }
}
