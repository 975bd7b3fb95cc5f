//! What runs of a client's call, and how an event changes it.
ghost use Rattle.std.specs.Prelude.{◌≡◌, ℕ, ◌<◌, ◌+◌, ◌^◌, [], true, length, List, ◌∷◌, IfOk};
ghost use Rattle.std.specs.List.{list_any};
ghost use Rattle.std.specs.Option.{option_copied};
ghost use Rattle.gz_core.specs.History.{Asked, Action};
ghost use Rattle.gz_data.specs.Blobs.{is_put_blob};
ghost use Rattle.gz_data.specs.Requests.{is_numbered, without_number};
ghost use Rattle.gz_data.specs.Storing.{IsCountOf};
ghost use Rattle.gz_data.specs.Gathered.{IsWaitedFor};
ghost use Rattle.gz_data.specs.Hearing.{HearsOf};
ghost use Rattle.gz_client.specs.Changes.{counted, counted_in, kept_in, CanKeepIn};
ghost use Rattle.gz_client.specs.Turning.{CanHear, HearsBy, outcome_of};
ghost use Rattle.gz_client.specs.Running.{blobs_of, rows_of, SettlesBy};
ghost use Rattle.gz_client.specs.Traces.{told_of};

use gz_core::{Answer, Config, Items, Key, Reply, Version};
use gz_data::requests::{await_no_more, awaits_blob, index_of};
use gz_data::{AwaitedBlob, Came, Gathering, Heard, Storing};
use gz_round::Run;
use std::alloc::{AllocError, Global};

/// The fragments of a put: the requests that store them and are awaited, and the counters of the others. A call that puts
/// nothing has none.
#[derive(Drop)]
pub struct Puts {
    pub awaited: Items<AwaitedBlob>,
    pub counts: Storing,
}

impl Puts {
    /// The fragments of a call that puts nothing.
    pub fn none(alloc: Global) -> Puts
        ensures awaited { result.awaited ≡ [] }
        ensures counts { result.counts ≡ record { stored = 0; lost = 0 } }
    {
        Puts {
            awaited: Items::new(alloc),
            counts: Storing::NONE,
        }
    }

    /// A copy.
    pub fn copy(&self) -> Result<Puts, AllocError>
        ensures { IfOk result (λ puts. puts ≡ self.now) }
    {
        let awaited = self.awaited.clone()?;
        Ok(Puts {
            awaited,
            counts: self.counts,
        })
    }

    /// A copy that awaits request `n` no more, with other counters.
    pub fn counted(&self, n: u32, counts: Storing) -> Result<Puts, AllocError>
        ensures { IfOk result (λ puts. puts ≡ counted n counts self.now) }
    {
        let mut puts = self.copy()?;
        puts.count(n, counts);
        Ok(puts)
    }

    /// Awaits request `n` no more, and has other counters. Takes no memory.
    pub fn count(&mut self, n: u32, counts: Storing)
        ensures { self.new ≡ counted n counts self.old }
    {
        await_no_more(&mut self.awaited, n);
        self.counts = counts;
    }
}

/// The counters of a put once a request that stores a fragment was answered, or given up (none).
pub fn counted(counts: Storing, reply: Option<&Reply>) -> Storing
    requires { counts.stored + counts.lost + 1 < 2 ^ 32 }
    ensures { (n : ℕ) (ms : List Action) (a : Asked) → is_put_blob a.op ≡ true → IsCountOf ms counts → IsCountOf (told_of n (option_copied reply.entry) a ∷ ms) result }
{
    let mut counts = counts;
    match reply {
        Some(reply) => counts.note(reply),
        None => counts.give_up(),
    }
    counts
}

/// The running call of a client.
#[derive(Drop)]
pub enum Running {
    /// A put stores its fragments first. It has asked no site for its row yet.
    Storing {
        run: Run,
        puts: Puts,
    },
    /// The call asks sites for rows, or writes them.
    Asking {
        run: Run,
        puts: Puts,
    },
    /// The put is chosen at this version, and waits for its fragments to be stored.
    Placed {
        version: Version,
        puts: Puts,
    },
    /// The call gathers the fragments of the value that it learnt.
    Gathering {
        key: Key,
        gathering: Gathering,
        awaited: Items<AwaitedBlob>,
    },
}

impl Running {
    /// The requests for blobs that are awaited, by their numbers.
    pub fn blobs(&self) -> &[AwaitedBlob]
        ensures { result.now ≡ blobs_of self.now }
    {
        match self {
            Running::Storing { puts, .. }
            | Running::Asking { puts, .. }
            | Running::Placed { puts, .. } => puts.awaited.as_slice(),
            Running::Gathering { awaited, .. } => awaited.as_slice(),
        }
    }

    /// Whether request `n` is one for a blob that is awaited.
    pub fn awaits_blob(&self, n: u32) -> bool
        ensures { result ≡ list_any (is_numbered n) (blobs_of self.now) }
    {
        awaits_blob(self.blobs(), n)
    }

    /// What a call that gathers makes of what came of request `n`: a reply, or none where it is given up. Till it is kept, the call
    /// is the same.
    pub fn hear(
        &mut self,
        alloc: Global,
        n: u32,
        reply: Option<&Reply>,
    ) -> Result<Option<Heard>, AllocError>
        requires { CanHear self.old n }
        ensures heard { IfOk result (λ heard. HearsBy self.old n (outcome_of (option_copied reply.entry)) heard) }
        ensures same { self.new ≡ self.old }
    {
        match self {
            Running::Gathering {
                key,
                gathering,
                awaited,
            } => {
                let index = index_of(awaited, n);
                let heard = hear_of(alloc, key, gathering, index, reply)?;
                Ok(Some(heard))
            },
            _ => Ok(None),
        }
    }

    /// Awaits the request that stores a fragment no more, and has other counters. Takes no memory.
    pub fn count(&mut self, n: u32, counts: Storing)
        ensures { self.new ≡ counted_in n counts self.old }
    {
        match self {
            Running::Storing { puts, .. } => puts.count(n, counts),
            Running::Asking { puts, .. } => puts.count(n, counts),
            Running::Placed { puts, .. } => puts.count(n, counts),
            Running::Gathering { .. } => {},
        }
    }

    /// Awaits the request that reads a fragment no more, and keeps what came of it. Takes no memory.
    pub fn keep(&mut self, n: u32, came: Came)
        requires { CanKeepIn self.old came }
        ensures { self.new ≡ kept_in n came self.old }
    {
        match self {
            Running::Gathering {
                gathering,
                awaited,
                ..
            } => {
                gathering.keep(came);
                await_no_more(awaited, n);
            },
            _ => {},
        }
    }

    /// The rows of the call, while it asks for them.
    pub fn rows(&self) -> Option<&Run>
        ensures { option_copied result ≡ rows_of self.now }
    {
        match self {
            Running::Asking { run, .. } => Some(run),
            _ => None,
        }
    }
}

/// What a gathering makes of what came of a fragment: a reply, or none where its request is given up. Till it is kept, the gathering is
/// the same.
fn hear_of(
    alloc: Global,
    key: &Key,
    gathering: &mut Gathering,
    index: u8,
    reply: Option<&Reply>,
) -> Result<Heard, AllocError>
    requires waited { IsWaitedFor gathering.old index }
    requires few { length gathering.old.pieces < gathering.old.value.k }
    ensures heard { IfOk result (λ heard. HearsOf gathering.old key.now index (outcome_of (option_copied reply.entry)) heard) }
    ensures same { gathering.new ≡ gathering.old }
{
    match reply {
        Some(reply) => gathering.hear(alloc, key, index, reply),
        None => gathering.lose(alloc, index),
    }
}

/// How a client changes at an event.
#[derive(Drop)]
pub enum Change {
    /// So many calls have begun, this is the greatest round that was promised, and this runs.
    Runs {
        calls: u32,
        round: u32,
        running: Option<Running>,
    },
    /// The running call awaits the request that stores a fragment no more, and has these counters.
    Counts {
        n: u32,
        counts: Storing,
    },
    /// The running call awaits the request that reads a fragment no more, and keeps what came of it.
    Keeps {
        n: u32,
        came: Came,
    },
}

/// The answer of a put that is chosen at a version, as soon as its counters say it: enough fragments are stored, or so many are
/// lost that never enough will be.
pub fn settled(config: &Config, version: Version, counts: Storing) -> Option<Answer>
    ensures { SettlesBy config.now version counts result }
{
    if counts.has_enough(config) {
        return Some(Answer::Ok { version });
    }
    if counts.has_lost_too_many(config) {
        return Some(Answer::Thin {
            version,
            stored: counts.stored,
        });
    }
    None
}
