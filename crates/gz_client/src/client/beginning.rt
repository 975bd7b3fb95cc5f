//! How calls begin.
ghost use Rattle.std.specs.Prelude.{false, ◌≡◌, ◌≤◌, ◌<◌, ◌+◌, ◌^◌, ℕ, List, [], length, IfOk, Option, Some, None};
ghost use Rattle.gz_core.specs.Calls.{key_of};
ghost use Rattle.gz_core.specs.Configurations.{IsConfig};
ghost use Rattle.gz_core.specs.Names.{Name};
ghost use Rattle.gz_core.specs.History.{Caller, Trace};
ghost use Rattle.gz_core.specs.declared.calls.Call.{Call};
ghost use Rattle.gz_core.specs.declared.calls.Call.TheVariants.{Put};
ghost use Rattle.gz_core.specs.declared.values.Value.{Value};
ghost use Rattle.gz_data.specs.Own.{IsOwn};
ghost use Rattle.gz_round.specs.Following.{Ready};
ghost use Rattle.gz_round.specs.Rounds.{top_rounds};
ghost use Rattle.gz_round.specs.Standing.{IsNamed, WritesLatest};
ghost use Rattle.gz_round.specs.Starting.{IsWithin};
ghost use Rattle.gz_round.specs.Targets.{target_of};
ghost use Rattle.gz_client.specs.Blobs.{is_put};
ghost use Rattle.gz_client.specs.Traces.{CanBegin, Begins, BeginsAs, IsSameClient};
ghost use Rattle.gz_client.specs.Changes.{changed, CanChange};
ghost use Rattle.gz_client.specs.Running.{ReadsFirst};
ghost use Rattle.gz_round.specs.declared.run.Stage.TheVariants.{Look};

use super::Client;
use crate::running::{Change, Puts, Running};
use gz_core::{Call, Items, Key, Order, Out, PutName, Turn, Value};
use gz_data::requests::store;
use gz_data::{Made, Storing, make};
use gz_round::{Run, Target};
use std::alloc::{AllocError, Global};

impl Client {
    /// How the client changes as it begins a call, and its turn, for a caller that has more memory to take before that.
    pub fn begun(
        &self,
        alloc: Global,
        call: &Call,
        first: u32,
    ) -> Result<(Change, Turn), AllocError>
        requires begin { CanBegin self.now }
        requires within { IsWithin call.now }
        requires first { first < 2 ^ 31 }

        ensures ok { IfOk result (λ after. Begins self.now (changed self.now after.0) first call.now after.1) }
        ensures same { IfOk result (λ after. IsSameClient self.now (changed self.now after.0)) }
        ensures can { IfOk result (λ after. CanChange self.now after.0) }
    {
        let name = PutName {
            session: self.session,
            seq: self.calls + 1,
        };
        match call {
            Call::Put { key, bytes } => self.begin_put(alloc, name, key, bytes.as_slice(), first),
            Call::Delete { key } => {
                let own = Some(Value::Tomb { name });
                self.begin_rows(alloc, name, key, Target::Latest, own, first)
            },
            Call::Get { key } => self.begin_rows(alloc, name, key, Target::Latest, None, first),
            Call::GetAt { key, version } => {
                let target = Target::At { version: *version };
                self.begin_rows(alloc, name, key, target, None, first)
            },
            Call::Collect { .. } => unreachable!(),
        }
    }

    /// A call that stores no fragments begins with its reads.
    fn begin_rows(
        &self,
        alloc: Global,
        name: PutName,
        key: &Key,
        target: Target,
        own: Option<Value>,
        first: u32,
    ) -> Result<(Change, Turn), AllocError>
        requires begin { CanBegin self.now }
        requires first { first < 2 ^ 31 }
        requires name { name ≡ record { session = self.now.session; seq = self.now.calls + 1 } }
        requires named { IsNamed name own }
        requires writes { (x : Value) → own ≡ Some x → target ≡ Target.Latest }
        ensures ok { IfOk result (λ after. (call : Call) → key_of call ≡ key.now → target_of call ≡ target → is_put call ≡ false → IsOwn self.now.config name call own → BeginsAs self.now (changed self.now after.0) first call own after.1) }
        ensures same { IfOk result (λ after. IsSameClient self.now (changed self.now after.0)) }
        ensures can { IfOk result (λ after. CanChange self.now after.0) }
    {
        let mut run = self.start(alloc, name, key, target, own)?;
        let send = run.open(alloc, &self.config, first)?;
        let puts = Puts::none(alloc);
        Ok(self.call_begins(run.round, Running::Asking { run, puts }, send))
    }

    /// A put begins with the requests that store its fragments, after its reads where these go out beside them.
    fn begin_put(
        &self,
        alloc: Global,
        name: PutName,
        key: &Key,
        object: &[u8],
        first: u32,
    ) -> Result<(Change, Turn), AllocError>
        requires begin { CanBegin self.now }
        requires first { first < 2 ^ 31 }
        requires bounded { length object.now ≤ 1048576 }
        requires name { name ≡ record { session = self.now.session; seq = self.now.calls + 1 } }
        ensures ok { IfOk result (λ after. Begins self.now (changed self.now after.0) first (Put key.now object.now) after.1) }
        ensures same { IfOk result (λ after. IsSameClient self.now (changed self.now after.0)) }
        ensures can { IfOk result (λ after. CanChange self.now after.0) }
    {
        let Made { put, records } = make(alloc, &self.config, name, key, object)?;
        let mut run = self.start(alloc, name, key, Target::Latest, Some(Value::Put(put)))?;
        let mut send = self.read_first(alloc, &mut run, first)?;
        let awaited = store(alloc, name, key, records, first, &mut send)?;
        let puts = Puts {
            awaited,
            counts: Storing::NONE,
        };
        let round = run.round;
        let running = match self.config.order {
            Order::Parallel => Running::Asking { run, puts },
            Order::BlobsFirst => Running::Storing { run, puts },
        };
        Ok(self.call_begins(round, running, send))
    }

    /// The reads of a put that sends them beside the requests that store its fragments.
    fn read_first(&self, alloc: Global, run: &mut Run, first: u32) -> Result<Items<Out>, AllocError>
        requires config { IsConfig self.now.config }
        requires first { first < 2 ^ 31 }
        requires opens { (w : Caller) × (past : List Trace) × Ready self.now.config w past run.old [] }
        requires stage { run.old.stage ≡ Look }
        ensures { IfOk result (λ send. ReadsFirst self.now.config run.old run.new first send self.now.config.order) }
    {
        match self.config.order {
            Order::Parallel => run.open(alloc, &self.config, first),
            Order::BlobsFirst => Ok(Items::new(alloc)),
        }
    }

    /// The rows of a call that has sent nothing.
    fn start(
        &self,
        alloc: Global,
        name: PutName,
        key: &Key,
        target: Target,
        own: Option<Value>,
    ) -> Result<Run, AllocError>
        ensures ready { IfOk result (λ run. (w : Caller) (past : List Trace) → w.name ≡ name → key_of w.call ≡ key.now → target_of w.call ≡ target → w.own ≡ own
            → IsNamed w.name w.own → WritesLatest w → top_rounds past ≡ self.now.round → Ready self.now.config w past run []) }
        ensures stage { IfOk result (λ run. run.stage ≡ Look) }
    {
        let key = copy_of(key)?;
        Run::start(alloc, &self.config, name, key, target, own, self.round)
    }

    /// The client has one call more, which runs.
    fn call_begins(&self, round: u32, running: Running, send: Items<Out>) -> (Change, Turn)
        requires { self.now.calls < 2 ^ 29 }
        ensures change { result.0 ≡ Change.Runs (self.now.calls + 1) round (Some running) }
        ensures turn { result.1 ≡ record { send = send; answer = None } }
    {
        let change = Change::Runs {
            calls: self.calls + 1,
            round,
            running: Some(running),
        };
        (change, Turn { send, answer: None })
    }
}

/// A copy of a key.
fn copy_of(key: &Key) -> Result<Key, AllocError>
    ensures { IfOk result (λ copy. copy ≡ key.now) }
{
    key.clone()
}
