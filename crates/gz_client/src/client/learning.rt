//! What a client makes of a reply, or of a request that is given up.
ghost use Rattle.std.specs.Prelude.{◌≡◌, ◌≢◌, ◌≤◌, ◌<◌, OnOk, true, false, [], ◌+◌, ◌^◌, ◌++◌, ◌∷◌, ℕ, List, Option, Some, None, length, IfOk, OnErr, IsSome};
ghost use Rattle.std.specs.List.{list_any};
ghost use Rattle.std.specs.Option.{option_copied};
ghost use Rattle.gz_core.specs.Configurations.{IsConfig};
ghost use Rattle.gz_core.specs.History.{Action, Asked, Caller, Trace, Handed, GaveUp, sent_from};
ghost use Rattle.gz_data.specs.Requests.{is_numbered};
ghost use Rattle.gz_round.specs.Rounds.{rounds_used};
ghost use Rattle.gz_round.specs.Following.{Ready};
ghost use Rattle.gz_round.specs.Sites.{as_heard, written_by, site_now};
ghost use Rattle.gz_round.specs.Starting.{AreRowRequests, SendsLast};
ghost use Rattle.gz_client.specs.Changes.{changed, CanChange, counted};
ghost use Rattle.gz_client.specs.Traces.{CanLearn, IsSameClient, Extends, AreBelow, told_of};
ghost use Rattle.gz_client.specs.Turning.{TurnsBy, HasCountedFirst, HasCountedLast, HasFollowed, FollowsBy, PlacesBy, GoesOrEnds, GathersFrom, ReadsBy, CanHearIf, HearsIf, GathersNot, outcome_of};
ghost use Rattle.gz_client.specs.declared.running.Puts.{Puts};

use super::Client;
use crate::running::{Change, Puts, Running, counted, settled};
use gz_core::{Answer, Items, Key, Out, PutValue, Reply, Turn, Value, Version};
use gz_data::requests::{awaits_blob, fetch};
use gz_data::{Gathering, Heard, Storing};
use gz_round::{Outcome, RowTurn, Run};
use std::alloc::{AllocError, Global};

impl Client {
    /// How the client changes as a reply of request `n`, which it awaits, is handed to it, and its turn, for a caller that
    /// has more memory to take before that. Till then the client is the same.
    pub fn handed(
        &mut self,
        alloc: Global,
        n: u32,
        answer: &Reply,
        first: u32,
    ) -> Result<(Change, Turn), AllocError>
        requires told { CanLearn self.old n first }
        requires first { first < 2 ^ 31 }

        ensures ok { IfOk result (λ after. Extends self.old (changed self.old after.0) n first (λ a. Handed a (as_heard self.old.config.n (written_by a.op) answer.now)) after.1) }
        ensures client { IfOk result (λ after. IsSameClient self.old (changed self.old after.0)) }
        ensures can { IfOk result (λ after. CanChange self.old after.0) }
        ensures same { self.new ≡ self.old }
    {
        self.learn(alloc, n, Some(answer), first)
    }

    /// How the client changes as it is told that request `n`, which it awaits, won't be answered, and its turn, for a caller
    /// that has more memory to take before that. Till then the client is the same.
    pub fn gave_up(
        &mut self,
        alloc: Global,
        n: u32,
        first: u32,
    ) -> Result<(Change, Turn), AllocError>
        requires told { CanLearn self.old n first }
        requires first { first < 2 ^ 31 }

        ensures ok { IfOk result (λ after. Extends self.old (changed self.old after.0) n first (λ a. GaveUp a) after.1) }
        ensures client { IfOk result (λ after. IsSameClient self.old (changed self.old after.0)) }
        ensures can { IfOk result (λ after. CanChange self.old after.0) }
        ensures same { self.new ≡ self.old }
    {
        self.learn(alloc, n, None, first)
    }

    /// How the client changes at what came of request `n`: a reply, or none where it is given up.
    fn learn(
        &mut self,
        alloc: Global,
        n: u32,
        reply: Option<&Reply>,
        first: u32,
    ) -> Result<(Change, Turn), AllocError>
        requires told { CanLearn self.old n first }
        requires first { first < 2 ^ 31 }

        ensures ok { IfOk result (λ after. Extends self.old (changed self.old after.0) n first (told_of self.old.config.n (option_copied reply.entry)) after.1) }
        ensures client { IfOk result (λ after. IsSameClient self.old (changed self.old after.0)) }
        ensures can { IfOk result (λ after. CanChange self.old after.0) }
        ensures same { self.new ≡ self.old }
    {
        match self.hear(alloc, n, reply)? {
            Some(heard) => Ok(self.gathered(alloc, n, heard)),
            None => self.learn_more(alloc, n, reply, first),
        }
    }

    /// What a call that gathers makes of what came of request `n`; none where the running call is of another kind.
    fn hear(
        &mut self,
        alloc: Global,
        n: u32,
        reply: Option<&Reply>,
    ) -> Result<Option<Heard>, AllocError>
        requires { CanHearIf self.old.running n }
        ensures heard { IfOk result (λ heard. HearsIf self.old.running n (outcome_of (option_copied reply.entry)) heard) }
        ensures same { self.new ≡ self.old }
    {
        match &mut self.running {
            Some(running) => running.hear(alloc, n, reply),
            None => Ok(None),
        }
    }

    /// How the client changes at what came of request `n` of a call that doesn't gather.
    fn learn_more(
        &self,
        alloc: Global,
        n: u32,
        reply: Option<&Reply>,
        first: u32,
    ) -> Result<(Change, Turn), AllocError>
        requires told { CanLearn self.now n first }
        requires first { first < 2 ^ 31 }
        requires other { GathersNot self.now.running }

        ensures ok { IfOk result (λ after. Extends self.now (changed self.now after.0) n first (told_of self.now.config.n (option_copied reply.entry)) after.1) }
        ensures client { IfOk result (λ after. IsSameClient self.now (changed self.now after.0)) }
        ensures can { IfOk result (λ after. CanChange self.now after.0) }
    {
        match &self.running {
            Some(Running::Storing { run, puts }) => {
                self.learn_storing(alloc, run, puts, n, reply, first)
            },
            Some(Running::Asking { run, puts }) => {
                self.learn_asking(alloc, run, puts, n, reply, first)
            },
            Some(Running::Placed { version, puts }) => {
                Ok(self.learn_placed(alloc, *version, puts, n, reply))
            },
            _ => unreachable!(),
        }
    }

    /// A put that stores its fragments first heard of one.
    fn learn_storing(
        &self,
        alloc: Global,
        run: &Run,
        puts: &Puts,
        n: u32,
        reply: Option<&Reply>,
        first: u32,
    ) -> Result<(Change, Turn), AllocError>
        requires told { CanLearn self.now n first }
        requires first { first < 2 ^ 31 }
        requires running { self.now.running ≡ Some (Running.Storing run.now puts.now) }

        ensures ok { IfOk result (λ after. Extends self.now (changed self.now after.0) n first (told_of self.now.config.n (option_copied reply.entry)) after.1) }
        ensures client { IfOk result (λ after. IsSameClient self.now (changed self.now after.0)) }
        ensures can { IfOk result (λ after. CanChange self.now after.0) }
    {
        let counts = counted(puts.counts, reply);
        self.stored_first(alloc, run, puts, n, counts, first)
    }

    /// A put that is chosen heard of a fragment.
    fn learn_placed(
        &self,
        alloc: Global,
        version: Version,
        puts: &Puts,
        n: u32,
        reply: Option<&Reply>,
    ) -> (Change, Turn)
        requires told { (first : ℕ) × CanLearn self.now n first }
        requires running { self.now.running ≡ Some (Running.Placed version puts.now) }

        ensures ok { (first : ℕ) → Extends self.now (changed self.now result.0) n first (told_of self.now.config.n (option_copied reply.entry)) result.1 }
        ensures client { IsSameClient self.now (changed self.now result.0) }
        ensures can { CanChange self.now result.0 }
    {
        let counts = counted(puts.counts, reply);
        self.stored_last(alloc, version, n, counts)
    }

    /// A call that asks for rows heard of one, or of a fragment that it stores.
    fn learn_asking(
        &self,
        alloc: Global,
        run: &Run,
        puts: &Puts,
        n: u32,
        reply: Option<&Reply>,
        first: u32,
    ) -> Result<(Change, Turn), AllocError>
        requires told { CanLearn self.now n first }
        requires first { first < 2 ^ 31 }
        requires running { self.now.running ≡ Some (Running.Asking run.now puts.now) }

        ensures ok { IfOk result (λ after. Extends self.now (changed self.now after.0) n first (told_of self.now.config.n (option_copied reply.entry)) after.1) }
        ensures client { IfOk result (λ after. IsSameClient self.now (changed self.now after.0)) }
        ensures can { IfOk result (λ after. CanChange self.now after.0) }
    {
        if awaits_blob(puts.awaited.as_slice(), n) {
            let counts = counted(puts.counts, reply);
            return Ok(self.goes_on(alloc, Change::Counts { n, counts }));
        }
        self.learn_row(alloc, run, puts, n, reply, first)
    }

    /// The client goes on so, and sends nothing.
    fn goes_on(&self, alloc: Global, change: Change) -> (Change, Turn)
        ensures change { result.0 ≡ change }
        ensures turn { result.1 ≡ record { send = []; answer = None } }
    {
        let send = Items::new(alloc);
        (change, Turn { send, answer: None })
    }

    /// The call goes on as this, with these requests.
    fn runs_on(&self, round: u32, running: Running, send: Items<Out>) -> (Change, Turn)
        ensures change { result.0 ≡ Change.Runs self.now.calls round (Some running) }
        ensures turn { result.1 ≡ record { send = send; answer = None } }
    {
        let change = Change::Runs {
            calls: self.calls,
            round,
            running: Some(running),
        };
        (change, Turn { send, answer: None })
    }

    /// The call ends with this answer, and with these requests.
    fn ends(&self, round: u32, answer: Answer, send: Items<Out>) -> (Change, Turn)
        ensures change { result.0 ≡ Change.Runs self.now.calls round None }
        ensures turn { result.1 ≡ record { send = send; answer = Some answer } }
    {
        let change = Change::Runs {
            calls: self.calls,
            round,
            running: None,
        };
        let answer = Some(answer);
        (change, Turn { send, answer })
    }

    /// A put that stores its fragments first has other counters: it looks once enough are stored, and ends where too few are
    /// left.
    fn stored_first(
        &self,
        alloc: Global,
        run: &Run,
        puts: &Puts,
        n: u32,
        counts: Storing,
        first: u32,
    ) -> Result<(Change, Turn), AllocError>
        requires config { IsConfig self.now.config }
        requires first { first < 2 ^ 31 }
        requires counted { (w : Caller) × (past : List Trace) × (ms : List Action) × HasCountedFirst self.now.config w past run.now (counted n counts puts.now) ms }
        requires running { self.now.running ≡ Some (Running.Storing run.now puts.now) }
        ensures ok { IfOk result (λ after. (w : Caller) (past : List Trace) (ms : List Action) → self.now.round ≡ rounds_used past ms
            → HasCountedFirst self.now.config w past run.now (counted n counts puts.now) ms → TurnsBy self.now (changed self.now after.0) first after.1 w past ms) }
        ensures can { IfOk result (λ after. CanChange self.now after.0) }
    {
        if counts.has_enough(&self.config) {
            let puts = puts.counted(n, counts)?;
            let mut run = run.copy()?;
            let send = run.open(alloc, &self.config, first)?;
            return Ok(self.runs_on(run.round, Running::Asking { run, puts }, send));
        }
        if counts.has_lost_too_many(&self.config) {
            let answer = Answer::Short {
                stored: counts.stored,
            };
            return Ok(self.ends(self.round, answer, Items::new(alloc)));
        }
        Ok(self.goes_on(alloc, Change::Counts { n, counts }))
    }

    /// A put that is chosen at a version has other counters: it ends once they say how.
    fn stored_last(
        &self,
        alloc: Global,
        version: Version,
        n: u32,
        counts: Storing,
    ) -> (Change, Turn)
        ensures ok { (first : ℕ) (w : Caller) (past : List Trace) (ms : List Action) (puts : Puts) → self.now.running ≡ Some (Running.Placed version puts)
            → self.now.round ≡ rounds_used past ms → HasCountedLast self.now.config w past version (counted n counts puts) ms → TurnsBy self.now (changed self.now result.0) first result.1 w past ms }
        ensures can { CanChange self.now result.0 }
    {
        match settled(&self.config, version, counts) {
            Some(answer) => self.ends(self.round, answer, Items::new(alloc)),
            None => self.goes_on(alloc, Change::Counts { n, counts }),
        }
    }

    /// A get that gathers fragments heard of one.
    fn gathered(&self, alloc: Global, n: u32, heard: Heard) -> (Change, Turn)
        ensures { GoesOrEnds self.now n heard result.0 result.1 }
    {
        match heard {
            Heard::Goes { came } => self.goes_on(alloc, Change::Keeps { n, came }),
            Heard::Ends { answer } => self.ends(self.round, answer, Items::new(alloc)),
        }
    }

    /// A call heard of a site's row.
    fn learn_row(
        &self,
        alloc: Global,
        run: &Run,
        puts: &Puts,
        n: u32,
        reply: Option<&Reply>,
        first: u32,
    ) -> Result<(Change, Turn), AllocError>
        requires told { CanLearn self.now n first }
        requires first { first < 2 ^ 31 }
        requires running { self.now.running ≡ Some (Running.Asking run.now puts.now) }
        requires row { list_any (is_numbered n) puts.now.awaited ≡ false }

        ensures ok { IfOk result (λ after. Extends self.now (changed self.now after.0) n first (told_of self.now.config.n (option_copied reply.entry)) after.1) }
        ensures client { IfOk result (λ after. IsSameClient self.now (changed self.now after.0)) }
        ensures can { IfOk result (λ after. CanChange self.now after.0) }
    {
        let at = run.site_of(n);
        let mut run = self.noted(alloc, run, at, reply)?;
        let turn = run.take_turn(alloc, &self.config, first)?;
        self.follow(alloc, run, puts, turn, first)
    }

    /// What a call keeps of its rows once it notes what came of the request that is awaited from a site.
    fn noted(
        &self,
        alloc: Global,
        run: &Run,
        at: usize,
        reply: Option<&Reply>,
    ) -> Result<Run, AllocError>
        requires rows { at < length run.now.rows }
        requires marks { at < length run.now.marks }
        requires met { run.now.met + 1 < 2 ^ 32 }
        ensures stage { IfOk result (λ later. later.stage ≡ run.now.stage) }
        ensures ready { IfOk result (λ later. (w : Caller) (past : List Trace) (ms : List Action) (a : Asked) → at < self.now.config.n → (site_now ms at).awaits ≡ Some a
            → Ready self.now.config w past run.now ms → Ready self.now.config w past later (told_of self.now.config.n (option_copied reply.entry) a ∷ ms)) }
    {
        let mut run = run.copy()?;
        match reply {
            Some(reply) => {
                run.note_reply(alloc, &self.config, at, reply)?;
                Ok(run)
            },
            None => {
                run.note_give_up(at);
                Ok(run)
            },
        }
    }

    /// What follows from what the rows come to.
    fn follow(
        &self,
        alloc: Global,
        run: Run,
        puts: &Puts,
        turn: RowTurn,
        first: u32,
    ) -> Result<(Change, Turn), AllocError>
        requires first { first < 2 ^ 31 }
        requires sends { AreRowRequests turn.send }
        requires ends { SendsLast turn.outcome turn.send }
        ensures ok { IfOk result (λ after. (w : Caller) (past : List Trace) (closing ms : List Action)
            → HasFollowed self.now.config w past run puts.now closing (sent_from first turn.send ms) turn.outcome → AreBelow first ms
            → FollowsBy self.now (changed self.now after.0) first after.1 w past closing ms) }
        ensures can { IfOk result (λ after. CanChange self.now after.0) }
    {
        let RowTurn { send, outcome } = turn;
        match outcome {
            Outcome::Goes => {
                let puts = puts.copy()?;
                Ok(self.runs_on(run.round, Running::Asking { run, puts }, send))
            },
            Outcome::Placed { version } => self.place(&run, puts, version, send),
            Outcome::Learnt { version, value } => {
                self.read(alloc, run, version, value, first, send)
            },
            Outcome::Ends { answer } => Ok(self.ends(run.round, answer, send)),
        }
    }

    /// The call's own value is chosen at a version: a delete ends so, and a put once its counters say how.
    fn place(
        &self,
        run: &Run,
        puts: &Puts,
        version: Version,
        send: Items<Out>,
    ) -> Result<(Change, Turn), AllocError>
        ensures ok { IfOk result (λ after. PlacesBy self.now run.now puts.now version send after.0 after.1) }
    {
        let answer = match &run.own {
            Some(Value::Put(_)) => settled(&self.config, version, puts.counts),
            _ => Some(Answer::Ok { version }),
        };
        match answer {
            Some(answer) => Ok(self.ends(run.round, answer, send)),
            None => {
                let puts = puts.copy()?;
                Ok(self.runs_on(run.round, Running::Placed { version, puts }, send))
            },
        }
    }

    /// The value of a version is known: that of a delete ends the call, and a put's fragments are asked for.
    fn read(
        &self,
        alloc: Global,
        run: Run,
        version: Version,
        value: Value,
        first: u32,
        send: Items<Out>,
    ) -> Result<(Change, Turn), AllocError>
        requires first { first < 2 ^ 31 }
        requires few { length send ≤ 32 }
        ensures { IfOk result (λ after. ReadsBy self.now run version value first send after.0 after.1) }
    {
        let round = run.round;
        match value {
            Value::Tomb { name } => Ok(self.ends(round, Answer::Gone { version, name }, send)),
            Value::Put(put) => {
                let mut send = send;
                let running = gather(alloc, run.into_key(), version, put, first, &mut send)?;
                Ok(self.runs_on(round, running, send))
            },
        }
    }
}

/// A call that gathers the fragments of a value, which it asks for after what it sends before them.
fn gather(
    alloc: Global,
    key: Key,
    version: Version,
    put: PutValue,
    first: u32,
    send: &mut Items<Out>,
) -> Result<Running, AllocError>
    requires first { first < 2 ^ 31 }
    requires room { length send.old ≤ 32 }
    ensures { IfOk result (λ running. GathersFrom key version put first send.old send.new running) }
{
    let awaited = fetch(alloc, put.name, &key, put.fragments.as_slice(), first, send)?;
    let gathering = Gathering::new(alloc, version, put)?;
    Ok(Running::Gathering {
        key,
        gathering,
        awaited,
    })
}
