//! Clients' turns: a call begins, a reply is handed, or a request is given up.
ghost use Rattle.std.specs.Prelude.{min, ◌≡◌, ℕ, ◌+◌, ◌-◌, ◌^◌, ◌<◌, ◌≤◌, ◌++◌, ◌∷◌, [], List, length, map, IfOk, OnErr, OnOk, Some, None, vec_len, vec_capacity, IsSomeAnd, slice_get, slice_set};
ghost use Rattle.std.specs.Option.{ForSome, option_map_or};
ghost use Rattle.gz_core.specs.declared.requests.Turn.{Turn};
ghost use Rattle.gz_core.specs.declared.requests.Reply.{Reply};
ghost use Rattle.gz_core.specs.History.{Trace, Asked, Action, GaveUp};
ghost use Rattle.gz_client.specs.declared.client.Client.{Client};
ghost use Rattle.gz_round.specs.Starting.{IsWithin};
ghost use Rattle.gz_client.specs.Traces.{CanBegin, CanLearn, IsSameClient, Begins};
ghost use Rattle.gz_client.specs.Changes.{CanChange, changed};
ghost use Rattle.gz_history.specs.declared.record.CallRec.{CallRec};
ghost use Rattle.gz_world.specs.States.{RequestAt, numbered, request_of, with_handed, with_given_up, sent_requests, end_at};
ghost use Rattle.gz_world.specs.Steps.{sent_pair, answered, hears};
ghost use Rattle.gz_world.specs.Weights.{capped, call_bytes, outs_weight};
ghost use Rattle.gz_world.specs.Fits.{Fits, IsFitting};
ghost use Rattle.gz_world.specs.declared.world.Member.{Member};
ghost use Rattle.gz_world.specs.declared.requests.Request.{Request};
ghost use Rattle.gz_world.specs.Turns.{IsSmall, IsUntouched, IsSameWorld, effect_of, IsNumber, HasCall, CanLearnIn, CanChangeIn, MovesBy, MovesIn, CanBeNotified, Started, Began, WasHanded, WasGivenUp, WentOn};

use crate::calls::{copy_of_answer, copy_of_call, end_at, end_call};
use crate::events::{Effect, Outcome};
use crate::lookups::item_at;
use crate::requests::{Request, send_all};
use crate::weights::{call_bytes, outs_weight};
use crate::world::{Member, World};
use gz_client::{Change, Client};
use gz_core::{Call, Out, PutName, Reply, Session, Turn};
use gz_history::CallRec;
use gz_site::Site;
use std::alloc::{AllocError, Global};

/// A turn of a session's client: how the client changes with it, the turn, and what is reported of it.
struct Moved {
    change: Change,
    turn: Turn,
    effect: Effect,
}

impl Drop for Moved {
    fn drop(self) {
        let Moved {
            change: _,
            turn: _,
            effect: _,
        } = self;
    }
}

impl Moved {
    /// A client's turn, of which the requests are reported that it sends from `first` on, and its answer.
    fn new(session: Session, first: u32, change: Change, turn: Turn) -> Result<Moved, AllocError>
        ensures { IfOk result (λ moved. moved ≡ record { change = change; turn = turn; effect = effect_of first session turn }) }
    {
        let answer = copy_of_answer(&turn.answer)?;
        let effect = Effect {
            outcome: Outcome::Done,
            session: Some(session),
            sent: sent_pair(first, turn.send.as_slice()),
            answer,
        };
        Ok(Moved {
            change,
            turn,
            effect,
        })
    }

    /// The client's change, the turn, and what is reported of it.
    fn into_parts(self) -> (Change, Turn, Effect)
        ensures change { result.0 ≡ self.change }
        ensures turn { result.1 ≡ self.turn }
        ensures told { result.2 ≡ self.effect }
    {
        let Moved {
            change,
            turn,
            effect,
        } = self;
        (change, turn, effect)
    }
}

/// The first request that is sent and how many are.
fn sent_pair(first: u32, outs: &[Out]) -> (u32, u32)
    ensures { result ≡ sent_pair first outs.now }
{
    match outs {
        [] => (0, 0),
        [_, ..] => (first, capped_len(outs.len())),
    }
}

/// A length as a count that stands still at the last value of its type.
fn capped_len(len: usize) -> u32
    ensures { result ≡ min len (2 ^ 32 - 1) }
{
    if len < u32::MAX as usize {
        len as u32
    } else {
        u32::MAX
    }
}

/// The turn of a client that begins a call.
fn begun(
    alloc: Global,
    session: Session,
    client: &Client,
    call: &Call,
    first: u32,
) -> Result<Moved, AllocError>
    requires begin { CanBegin client.now }
    requires within { IsWithin call.now }
    requires first { first < 2 ^ 31 }
    ensures holds { IfOk result (λ moved. Begins client.now (changed client.now moved.change) first call.now moved.turn) }
    ensures same { IfOk result (λ moved. IsSameClient client.now (changed client.now moved.change)) }
    ensures can { IfOk result (λ moved. CanChange client.now moved.change) }
    ensures told { IfOk result (λ moved. moved.effect ≡ effect_of first session moved.turn) }
{
    let (change, turn) = client.begun(alloc, call, first)?;
    Moved::new(session, first, change, turn)
}

/// The turn of a client to which a reply of a request is handed, as its call hears it. The client changes later.
fn handed(
    alloc: Global,
    session: Session,
    client: &mut Client,
    n: u32,
    reply: &Reply,
    first: u32,
) -> Result<Moved, AllocError>
    requires told { CanLearn client.old n first }
    requires first { first < 2 ^ 31 }
    ensures moves { IfOk result (λ moved. MovesBy client.old n first (hears client.old.config.n reply.now) moved.change moved.turn) }
    ensures kept { client.new ≡ client.old }
    ensures told { IfOk result (λ moved. moved.effect ≡ effect_of first session moved.turn) }
{
    let (change, turn) = client.handed(alloc, n, reply, first)?;
    Moved::new(session, first, change, turn)
}

/// The same of the client of a session.
fn handed_in(
    alloc: Global,
    clients: &mut Vec<Member>,
    session: Session,
    n: u32,
    reply: &Reply,
    first: u32,
) -> Result<Moved, AllocError>
    requires opened { session ≤ length clients.old.items }
    requires told { CanLearnIn clients.old.items session n first }
    requires first { first < 2 ^ 31 }
    ensures moves { IfOk result (λ moved. MovesIn clients.old.items session n first (λ sites. hears sites reply.now) moved.change moved.turn) }
    ensures kept { clients.new.items ≡ clients.old.items }
    ensures told { IfOk result (λ moved. moved.effect ≡ effect_of first session moved.turn) }
{
    let at = session.number() as usize - 1;
    handed(alloc, session, &mut clients[at].client, n, reply, first)
}

/// The turn of a client that learns that a request won't be answered. The client changes later.
fn given_up(
    alloc: Global,
    session: Session,
    client: &mut Client,
    n: u32,
    first: u32,
) -> Result<Moved, AllocError>
    requires told { CanLearn client.old n first }
    requires first { first < 2 ^ 31 }
    ensures moves { IfOk result (λ moved. MovesBy client.old n first (λ a. GaveUp a) moved.change moved.turn) }
    ensures kept { client.new ≡ client.old }
    ensures told { IfOk result (λ moved. moved.effect ≡ effect_of first session moved.turn) }
{
    let (change, turn) = client.gave_up(alloc, n, first)?;
    Moved::new(session, first, change, turn)
}

/// The same of the client of a session.
fn given_up_in(
    alloc: Global,
    clients: &mut Vec<Member>,
    session: Session,
    n: u32,
    first: u32,
) -> Result<Moved, AllocError>
    requires opened { session ≤ length clients.old.items }
    requires told { CanLearnIn clients.old.items session n first }
    requires first { first < 2 ^ 31 }
    ensures moves { IfOk result (λ moved. MovesIn clients.old.items session n first (λ sites a. GaveUp a) moved.change moved.turn) }
    ensures kept { clients.new.items ≡ clients.old.items }
    ensures told { IfOk result (λ moved. moved.effect ≡ effect_of first session moved.turn) }
{
    let at = session.number() as usize - 1;
    given_up(alloc, session, &mut clients[at].client, n, first)
}

/// Changes the client of a session, and the place of its last call.
fn change_client(clients: &mut Vec<Member>, session: Session, change: Change, last: Option<usize>)
    requires opened { session ≤ length clients.old.items }
    requires can { CanChangeIn clients.old.items session change }
    ensures { (m : Member) → slice_get clients.old.items (session - 1) ≡ Some m
        → clients.new.items ≡ slice_set clients.old.items (session - 1) (record { client = changed m.client change; crashed = m.crashed; last = last }) }
{
    change_member(&mut clients[session.number() as usize - 1], change, last);
}

/// The reply of a request with a number that has one.
fn reply_of(request: &Request, which: u32) -> &(u32, Reply)
    requires { IsNumber which (length request.now.replies.items) }
    ensures { numbered request.now.replies.items which ≡ Some result.now }
{
    item_at(request.replies.as_slice(), which as usize - 1)
}

fn change_member(member: &mut Member, change: Change, last: Option<usize>)
    requires { CanChange member.old.client change }
    ensures { member.new ≡ record { client = changed member.old.client change; crashed = member.old.crashed; last = last } }
{
    member.client.take(change);
    member.last = last;
}

/// Notes that a reply of a request was handed to its client at a tick.
fn hand_at(net: &mut Vec<Request>, at: usize, tick: u32, which: u32)
    requires { at < length net.old.items }
    ensures marked { (r : RequestAt) → slice_get (map request_of net.old.items) at ≡ Some r
        → map request_of net.new.items ≡ slice_set (map request_of net.old.items) at (with_handed tick which r) }
    ensures len { vec_len net.new ≡ vec_len net.old }
    ensures capacity { vec_capacity net.new ≡ vec_capacity net.old }
{
    net[at].hand(tick, which);
}

/// Notes that a request was given up at a tick.
fn give_up_at(net: &mut Vec<Request>, at: usize, tick: u32)
    requires { at < length net.old.items }
    ensures marked { (r : RequestAt) → slice_get (map request_of net.old.items) at ≡ Some r
        → map request_of net.new.items ≡ slice_set (map request_of net.old.items) at (with_given_up tick r) }
    ensures len { vec_len net.new ≡ vec_len net.old }
    ensures capacity { vec_capacity net.new ≡ vec_capacity net.old }
{
    net[at].give_up(tick);
}

impl<S: Site> World<S> {
    /// The number of the next request.
    fn next_number(&self) -> u32
        requires { IsSmall self.now }
        ensures same { result ≡ length (map request_of self.now.net.items) + 1 }
        ensures bounded { result < 2 ^ 31 }
    {
        self.net.len() as u32 + 1
    }

    /// The tick of the next event.
    pub fn next_tick(&self) -> u32
        requires { length self.now.journal.items < 4000000 }
        ensures { result ≡ length self.now.journal.items + 1 }
    {
        self.journal.len() as u32 + 1
    }

    /// Makes room for the requests that a turn sends.
    fn make_room(&mut self, more: usize) -> Result<(), AllocError>
        ensures same { IsSameWorld self.old self.new }
        ensures room { OnOk result (vec_len self.new.net + more ≤ vec_capacity self.new.net) }
        ensures calls { self.new.calls ≡ self.old.calls }
        ensures clients { self.new.clients ≡ self.old.clients }
    {
        self.net.reserve(more)
    }

    /// Makes room for a call that begins and for the requests that its turn sends, and copies the call.
    fn make_room_for(&mut self, call: &Call, more: usize) -> Result<Call, AllocError>
        ensures same { IsSameWorld self.old self.new }
        ensures copy { IfOk result (λ copy. copy ≡ call.now) }
        ensures room { OnOk result (vec_len self.new.net + more ≤ vec_capacity self.new.net) }
        ensures calls { OnOk result (vec_len self.new.calls < vec_capacity self.new.calls) }
        ensures clients { self.new.clients ≡ self.old.clients }
    {
        self.calls.reserve(1)?;
        self.make_room(more)?;
        copy_of_call(call)
    }

    /// Sends the requests of a turn, and changes its client. Takes no memory.
    fn settle(
        &mut self,
        session: Session,
        change: Change,
        last: Option<usize>,
        name: PutName,
        send: Vec<Out>,
    )
        requires opened { session ≤ length self.old.clients.items }
        requires can { CanChangeIn self.old.clients.items session change }
        requires room { vec_len self.old.net + length send.items ≤ vec_capacity self.old.net }
        requires events { length self.old.journal.items < 4000000 }
        ensures net { map request_of self.new.net.items ≡ map request_of self.old.net.items ++ sent_requests name (length self.old.journal.items + 1) send.items }
        ensures clients { (m : Member) → slice_get self.old.clients.items (session - 1) ≡ Some m
            → self.new.clients.items ≡ slice_set self.old.clients.items (session - 1) (record { client = changed m.client change; crashed = m.crashed; last = last }) }
        ensures held { self.new.held ≡ capped (self.old.held + outs_weight send.items) }
        ensures rest { IsUntouched self.old self.new }
        ensures calls { self.new.calls ≡ self.old.calls }
    {
        let tick = self.next_tick();
        self.held = self.held.saturating_add(outs_weight(send.as_slice()));
        change_client(&mut self.clients, session, change, last);
        send_all(self.alloc, &mut self.net, name, tick, send);
    }

    /// Goes on with the running call of a session, after its client's turn, and gives what is reported of it. Takes no memory.
    fn after_turn(&mut self, session: Session, tick: u32, moved: Moved) -> Effect
        requires opened { session ≤ length self.old.clients.items }
        requires can { CanChangeIn self.old.clients.items session moved.change }
        requires running { (m : Member) → slice_get self.old.clients.items (session - 1) ≡ Some m → HasCall self.old.calls.items m }
        requires room { vec_len self.old.net + length moved.turn.send ≤ vec_capacity self.old.net }
        requires small { IsSmall self.old }
        ensures went { (m : Member) (last : ℕ) (c : CallRec) → slice_get self.old.clients.items (session - 1) ≡ Some m → m.last ≡ Some last → slice_get self.old.calls.items last ≡ Some c
            → WentOn self.old self.new session tick m last c (changed m.client moved.change) moved.turn }
        ensures told { result ≡ moved.effect }
    {
        let (change, turn, effect) = moved.into_parts();
        let last = self.last_place(session);
        let name = item_at(self.calls.as_slice(), last).name;
        end_call(&mut self.calls, last, tick, turn.answer);
        self.settle(session, change, Some(last), name, turn.send.into_vec());
        effect
    }

    /// The place of the last call of a session that has one.
    fn last_place(&self, session: Session) -> usize
        requires opened { session ≤ length self.now.clients.items }
        requires running { (m : Member) → slice_get self.now.clients.items (session - 1) ≡ Some m → HasCall self.now.calls.items m }
        ensures is { (m : Member) → slice_get self.now.clients.items (session - 1) ≡ Some m → m.last ≡ Some result }
        ensures within { result < length self.now.calls.items }
    {
        match self.member_of(session).last {
            Some(last) => last,
            None => unreachable!(),
        }
    }

    /// The client of a session, with what is kept beside it.
    fn member_of(&self, session: Session) -> &Member
        requires { session ≤ length self.now.clients.items }
        ensures there { slice_get self.now.clients.items (session - 1) ≡ Some result.now }
        ensures positive { 1 ≤ session }
    {
        item_at(self.clients.as_slice(), session.number() as usize - 1)
    }

    /// The request with a number that has one.
    fn request_at(&self, n: u32) -> &Request
        requires { IsNumber n (length self.now.net.items) }
        ensures { slice_get self.now.net.items (n - 1) ≡ Some result.now }
    {
        item_at(self.net.as_slice(), n as usize - 1)
    }

    /// The name of the next call of a session.
    fn next_name(&self, session: Session) -> PutName
        requires fits { IsFitting self.now }
        requires small { IsSmall self.now }
        requires opened { session ≤ length self.now.clients.items }
        ensures { (traces : ℕ → List Trace) → Fits traces self.now → result ≡ record { session = session; seq = length (traces session) + 1 } }
    {
        let member = self.member_of(session);
        PutName {
            session,
            seq: self.calls_before(member.last) + 1,
        }
    }

    /// How many calls a session has begun, by its last one.
    fn calls_before(&self, last: Option<usize>) -> u32
        requires { ForSome last (λ i. i < length self.now.calls.items) }
        ensures { result ≡ option_map_or (λ i. option_map_or (λ c. c.name.seq) (slice_get self.now.calls.items i) 0) last 0 }
    {
        match last {
            Some(last) => item_at(self.calls.as_slice(), last).name.seq_number(),
            None => 0,
        }
    }

    /// Begins a call of a session.
    pub fn begin(&mut self, session: Session, call: &Call) -> Result<Effect, AllocError>
        requires fits { IsFitting self.old }
        requires small { IsSmall self.old }
        requires within { IsWithin call.now }
        requires opened { session ≤ length self.old.clients.items }
        requires idle { (m : Member) → slice_get self.old.clients.items (session - 1) ≡ Some m → CanBegin m.client }
        ensures ok { IfOk result (λ effect. Began self.old self.new session call.now effect) }
        ensures err { OnErr result (IsSameWorld self.old self.new) }
    {
        let tick = self.next_tick();
        let first = self.next_number();
        let name = self.next_name(session);
        let client = &self.member_of(session).client;
        let moved = begun(self.alloc, session, client, call, first)?;
        let call = self.make_room_for(call, moved.turn.send.len())?;
        Ok(self.start(session, name, tick, call, moved))
    }

    /// Goes on with a call that begins, after its client's first turn, and gives what is reported of it. Takes no memory.
    fn start(
        &mut self,
        session: Session,
        name: PutName,
        tick: u32,
        call: Call,
        moved: Moved,
    ) -> Effect
        requires opened { session ≤ length self.old.clients.items }
        requires can { CanChangeIn self.old.clients.items session moved.change }
        requires calls { vec_len self.old.calls < vec_capacity self.old.calls }
        requires room { vec_len self.old.net + length moved.turn.send ≤ vec_capacity self.old.net }
        requires small { IsSmall self.old }
        ensures started { (m : Member) → slice_get self.old.clients.items (session - 1) ≡ Some m → Started self.old self.new session name tick call m (changed m.client moved.change) moved.turn }
        ensures told { result ≡ moved.effect }
    {
        let (change, turn, effect) = moved.into_parts();
        let last = self.calls.len();
        self.held = self.held.saturating_add(call_bytes(&call));
        let end = end_at(tick, &turn.answer);
        self.calls.push_reserved(CallRec {
            name,
            call,
            begin: tick,
            end,
            answer: turn.answer,
        });
        self.settle(session, change, Some(last), name, turn.send.into_vec());
        effect
    }

    /// Hands a reply of a request to its client.
    pub fn hand(&mut self, n: u32, which: u32) -> Result<Effect, AllocError>
        requires small { IsSmall self.old }
        requires number { IsNumber n (length self.old.net.items) }
        requires told { (r : Request) → slice_get self.old.net.items (n - 1) ≡ Some r → CanBeNotified self.old n r }
        requires reply { (r : Request) → slice_get self.old.net.items (n - 1) ≡ Some r → IsNumber which (length r.replies.items) }
        ensures ok { IfOk result (λ effect. WasHanded self.old self.new n which effect) }
        ensures err { OnErr result (IsSameWorld self.old self.new) }
    {
        let tick = self.next_tick();
        let first = self.next_number();
        let request = item_at(self.net.as_slice(), n as usize - 1);
        let session = request.asker();
        let reply = reply_of(request, which);
        let moved = handed_in(self.alloc, &mut self.clients, session, n, &reply.1, first)?;
        self.make_room(moved.turn.send.len())?;
        hand_at(&mut self.net, n as usize - 1, tick, which);
        Ok(self.after_turn(session, tick, moved))
    }

    /// Notifies the client of a request that it won't be answered.
    pub fn give_up(&mut self, n: u32) -> Result<Effect, AllocError>
        requires small { IsSmall self.old }
        requires number { IsNumber n (length self.old.net.items) }
        requires told { (r : Request) → slice_get self.old.net.items (n - 1) ≡ Some r → CanBeNotified self.old n r }
        ensures ok { IfOk result (λ effect. WasGivenUp self.old self.new n effect) }
        ensures err { OnErr result (IsSameWorld self.old self.new) }
    {
        let tick = self.next_tick();
        let first = self.next_number();
        let session = self.request_at(n).asker();
        let moved = given_up_in(self.alloc, &mut self.clients, session, n, first)?;
        self.make_room(moved.turn.send.len())?;
        give_up_at(&mut self.net, n as usize - 1, tick);
        Ok(self.after_turn(session, tick, moved))
    }
}
