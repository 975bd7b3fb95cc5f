//! A client driven by hand over three sites: its requests have the numbers from 1 on, in the order in which they go out.
ghost use Rattle.std.specs.Prelude.{◌≡◌, ◌+◌, ◌≤◌, ◌<◌, length, IfOk, OnOk};
ghost use Rattle.gz_round.specs.Starting.{IsWithin};
ghost use Rattle.gz_client.specs.Traces.{CanLearn};
ghost use Rattle.gz_client_tests.specs.Holding.{IsHeld};

use crate::answers::Answered;
use crate::network::{Move, Network, Stuck, Told};
use gz_client::Client;
use gz_core::{Call, Config, Items, Key, Reply, Session, Turn, Version};
use std::alloc::Global;

/// A client, how many calls it began, the number of its next request, and the sites.
#[derive(Drop)]
pub struct Driver {
    pub client: Client,
    pub calls: u32,
    pub first: u32,
    pub network: Network,
}

/// What a call does to one object: a put writes the bytes 1 and 2.
#[derive(Clone, Copy)]
pub enum Kind {
    Put,
    Delete,
    Get,
    GetAt(u64),
}

impl Driver {
    /// The client of session 1 over three sites without a row.
    pub fn new(alloc: Global, tries: u32) -> Result<Driver, Stuck>
        ensures { IfOk result (λ driver. IsHeld driver.client driver.calls driver.first) }
    {
        let config = Config {
            tries,
            ..Config::DEFAULT
        };
        if config.check().is_err() {
            return Err(Stuck("no configuration"));
        }
        let client = Client::new(config, Session(1));
        let network = Network::new(alloc)?;
        Ok(Driver {
            client,
            calls: 0,
            first: 1,
            network,
        })
    }

    /// Begins a call, and plays the moves, of which the last one ends it.
    pub fn run(&mut self, alloc: Global, kind: Kind, moves: &[Move]) -> Result<Answered, Stuck>
        requires { IsHeld self.old.client self.old.calls self.old.first }
        ensures { OnOk result (IsHeld self.new.client self.new.calls self.new.first) }
    {
        let turn = self.begin(alloc, kind)?;
        let mut answered = self.network.send(alloc, turn)?;
        for next in moves {
            answered = self.play(alloc, *next)?;
        }
        Ok(answered)
    }

    /// Plays a move, and returns the answer of the call where it ends.
    fn play(&mut self, alloc: Global, next: Move) -> Result<Answered, Stuck>
        requires { IsHeld self.old.client self.old.calls self.old.first }
        ensures { OnOk result (IsHeld self.new.client self.new.calls self.new.first) }
    {
        let Some(told) = self.network.make(alloc, next)? else {
            return Ok(Answered::Otherwise);
        };
        let turn = self.tell(alloc, &told)?;
        let answered = self.network.send(alloc, turn)?;
        Ok(answered)
    }

    /// Begins a call.
    fn begin(&mut self, alloc: Global, kind: Kind) -> Result<Turn, Stuck>
        requires { IsHeld self.old.client self.old.calls self.old.first }
        ensures { OnOk result (IsHeld self.new.client self.new.calls self.new.first) }
    {
        if self.client.runs() {
            return Err(Stuck("a call runs"));
        }
        if self.calls >= 10 || self.first >= 1000 {
            return Err(Stuck("too many calls"));
        }
        let call = call_of(alloc, kind)?;
        let turn = self.client.begin(alloc, call, self.first)?;
        self.calls += 1;
        self.first = number_after(self.first, &turn)?;
        Ok(turn)
    }

    /// Notifies the client of a request.
    fn tell(&mut self, alloc: Global, told: &Told) -> Result<Turn, Stuck>
        requires { IsHeld self.old.client self.old.calls self.old.first }
        ensures { OnOk result (IsHeld self.new.client self.new.calls self.new.first) }
    {
        if !self.client.awaits(told.number) {
            return Err(Stuck("not awaited"));
        }
        if self.first >= 1000 {
            return Err(Stuck("too many requests"));
        }
        match &told.reply {
            None => self.give_up(alloc, told.number),
            Some(reply) => self.reply(alloc, told.number, reply),
        }
    }

    /// Hands a reply of a request.
    fn reply(&mut self, alloc: Global, n: u32, answer: &Reply) -> Result<Turn, Stuck>
        requires held { IsHeld self.old.client self.old.calls self.old.first }
        requires told { CanLearn self.old.client n self.old.first }
        requires first { self.old.first < 1000 }
        ensures { OnOk result (IsHeld self.new.client self.new.calls self.new.first) }
    {
        let turn = self.client.reply(alloc, n, answer, self.first)?;
        self.first = number_after(self.first, &turn)?;
        Ok(turn)
    }

    /// Gives a request up.
    fn give_up(&mut self, alloc: Global, n: u32) -> Result<Turn, Stuck>
        requires held { IsHeld self.old.client self.old.calls self.old.first }
        requires told { CanLearn self.old.client n self.old.first }
        requires first { self.old.first < 1000 }
        ensures { OnOk result (IsHeld self.new.client self.new.calls self.new.first) }
    {
        let turn = self.client.give_up(alloc, n, self.first)?;
        self.first = number_after(self.first, &turn)?;
        Ok(turn)
    }
}

/// The number of the request that comes after those of an event.
fn number_after(first: u32, turn: &Turn) -> Result<u32, Stuck>
    ensures { IfOk result (λ n. n ≡ first + length turn.now.send) }
{
    let count = turn.send.len();
    if first >= 1000 || count >= 1000 {
        return Err(Stuck("too many requests"));
    }
    Ok(first + count as u32)
}

/// The call of a kind.
fn call_of(alloc: Global, kind: Kind) -> Result<Call, Stuck>
    ensures { IfOk result (λ call. IsWithin call) }
{
    let Some(key) = Key::new(Vec::from_slice(alloc, b"a")?) else {
        return Err(Stuck("no key"));
    };
    match kind {
        Kind::Put => {
            let bytes = Items::from_slice(alloc, &[1, 2])?;
            Ok(Call::Put { key, bytes })
        },
        Kind::Delete => Ok(Call::Delete { key }),
        Kind::Get => Ok(Call::Get { key }),
        Kind::GetAt(number) => {
            if number == 0 || number > 9 {
                return Err(Stuck("no version"));
            }
            let version = Version(number);
            Ok(Call::GetAt { key, version })
        },
    }
}
