//! One pass over the sites: each is asked for all that it may be asked for.
ghost use Rattle.std.specs.Prelude.{◌≡◌, ◌≤◌, ◌<◌, ◌+◌, ◌++◌, ◌^◌, ◌⊎◌, ℕ, true, false, List, [], length, IfOk, OnOk};
ghost use Rattle.gz_core.specs.Configurations.{IsConfig};
ghost use Rattle.gz_core.specs.History.{Action, Caller, Trace, sent_from};
ghost use Rattle.gz_round.specs.Starting.{AreUnread, AreForRows, AreRowRequests, MakeNoStep, ReadAlone, SitesRise, reads_from};
ghost use Rattle.gz_round.specs.Steps.{IsStepOf};
ghost use Rattle.gz_round.specs.Asking.{IsAskedAt, IsLeftBy};
ghost use Rattle.gz_round.specs.Following.{Asks, HasAsked, CanAsk, IsNoticeIfAny, IsPlain};
ghost use Rattle.gz_round.specs.Acting.{is_waiting};

use crate::run::Run;
use gz_core::{Config, Items, Out, RowStep};
use std::alloc::{AllocError, Global};

impl Run {
    /// Asks a site for all that it may be asked for.
    fn ask(
        &mut self,
        at: usize,
        step: &Option<RowStep>,
        first: u32,
        send: &mut Items<Out>,
    ) -> Result<(), AllocError>
        requires site { at < 16 }
        requires rows { at < length self.old.rows }
        requires marks { at < length self.old.marks }
        requires step { IsStepOf step.now }
        requires first { first < 2 ^ 31 }
        requires few { length send.old < 2 ^ 20 }

        ensures asked { OnOk result (IsAskedAt self.old at step.now first send.old self.new send.new) }
        ensures few { length send.new ≤ length send.old + 1 }
    {
        let Some(out) = self.request(at, step)? else {
            return Ok(());
        };
        let number = first + send.len() as u32;
        self.note_sent(at, number, &out)?;
        send.push(out)
    }

    /// Asks each site, in ascending order, for all that it may be asked for.
    pub fn ask_all(
        &mut self,
        config: &Config,
        step: &Option<RowStep>,
        first: u32,
        send: &mut Items<Out>,
    ) -> Result<(), AllocError>
        requires config { IsConfig config.now }
        requires step { IsStepOf step.now }
        requires first { first < 2 ^ 31 }
        requires few { length send.old < 2 ^ 19 }
        requires asks { CanAsk config.now self.old first send.old step.now }

        ensures asked { OnOk result ((w : Caller) (past : List Trace) (ms : List Action)
            → Asks config.now w past self.old (sent_from first send.old ms) step.now
            → HasAsked config.now w past self.new (sent_from first send.old ms) (sent_from first send.new ms) step.now) }
        ensures left { OnOk result (IsLeftBy self.old self.new step.now) }
        ensures few { OnOk result (length send.new ≤ length send.old + config.now.n) }
        ensures rows { OnOk result (AreForRows send.old → AreForRows send.new) }
        ensures rising { OnOk result (send.old ≡ [] → SitesRise 0 send.new) }
        ensures stepless { OnOk result (IsNoticeIfAny step.now → MakeNoStep send.old → MakeNoStep send.new) }
        ensures alone { OnOk result (step.now ≡ None → ReadAlone send.old → ReadAlone send.new) }
        ensures idle { OnOk result (IsPlain step.now → (send.new ≡ send.old) ⊎ (is_waiting self.new ≡ true)) }
        ensures reads { OnOk result (AreUnread config.now.n self.old → send.new ≡ send.old ++ reads_from self.old.key 0 config.now.n) }
    {
        for at in 0..config.n as usize {
            self.ask(at, step, first, send)?;
        }
        Ok(())
    }

    /// The requests of a first pass over the sites.
    pub fn first_pass(
        &mut self,
        alloc: Global,
        config: &Config,
        step: &Option<RowStep>,
        first: u32,
    ) -> Result<Items<Out>, AllocError>
        requires config { IsConfig config.now }
        requires step { IsStepOf step.now }
        requires first { first < 2 ^ 31 }
        requires asks { CanAsk config.now self.old first [] step.now }

        ensures asked { IfOk result (λ send. (w : Caller) (past : List Trace) (ms : List Action) → Asks config.now w past self.old ms step.now
            → HasAsked config.now w past self.new ms (sent_from first send ms) step.now) }
        ensures left { OnOk result (IsLeftBy self.old self.new step.now) }
        ensures sends { IfOk result (λ send. AreRowRequests send) }
        ensures stepless { IfOk result (λ send. IsNoticeIfAny step.now → MakeNoStep send) }
        ensures alone { IfOk result (λ send. step.now ≡ None → ReadAlone send) }
        ensures idle { IfOk result (λ send. IsPlain step.now → is_waiting self.new ≡ false → send ≡ []) }
        ensures reads { IfOk result (λ send. AreUnread config.now.n self.old → send ≡ reads_from self.old.key 0 config.now.n) }
    {
        let mut send = Items::new(alloc);
        self.ask_all(config, step, first, &mut send)?;
        Ok(send)
    }
}
