//! What came at an event, noted.
ghost use Rattle.std.specs.Prelude.{◌≡◌, ◌≤◌, ◌<◌, ◌+◌, ◌^◌, List, length, slice_get, ◌∷◌, Option, Some, None, IfOk, OnOk};
ghost use Rattle.gz_core.specs.Rows.{RowAt};
ghost use Rattle.gz_config.specs.declared.Config.{Config};
ghost use Rattle.gz_core.specs.History.{Asked, Action, Handed, GaveUp, Caller, Trace};
ghost use Rattle.gz_round.specs.Sites.{as_heard, is_changed, site_now, seen_in, written_by};
ghost use Rattle.gz_round.specs.Noting.{noted_by, written_at, IsReplyNoted};
ghost use Rattle.gz_round.specs.Following.{Ready};
ghost use Rattle.gz_round.specs.declared.run.Mark.{Mark};

use crate::hearing::{Seen, shown_by};
use crate::run::Run;
use gz_core::{Config, Reply};
use std::alloc::{AllocError, Global};

impl Run {
    /// Notes a reply of the request that is awaited from a site.
    pub fn note_reply(
        &mut self,
        alloc: Global,
        config: &Config,
        at: usize,
        answer: &Reply,
    ) -> Result<(), AllocError>
        requires rows { at < length self.old.rows }
        requires marks { at < length self.old.marks }
        requires met { self.old.met + 1 < 2 ^ 32 }
        ensures noted { OnOk result (IsReplyNoted config.now.n self.old at answer.now self.new) }
        ensures stage { OnOk result (self.new.stage ≡ self.old.stage) }
        ensures ready { OnOk result ((w : Caller) (past : List Trace) (ms : List Action) (a : Asked) → at < config.now.n
            → (site_now ms at).awaits ≡ Some a → Ready config.now w past self.old ms → Ready config.now w past self.new (Handed a (as_heard config.now.n (written_by a.op) answer.now) ∷ ms)) }
    {
        let seen = self.shown_at(alloc, config.n, at, answer)?;
        self.note(at, seen, is_changed(answer));
        Ok(())
    }

    /// Notes that the request that is awaited from a site won't be answered.
    pub fn note_give_up(&mut self, at: usize)
        requires rows { at < length self.old.rows }
        requires marks { at < length self.old.marks }
        ensures stage { self.new.stage ≡ self.old.stage }
        ensures ready { (c : Config) (w : Caller) (past : List Trace) (ms : List Action) (a : Asked) → at < c.n
            → (site_now ms at).awaits ≡ Some a → Ready c w past self.old ms → Ready c w past self.new (GaveUp a ∷ ms) }
    {
        self.leave(at);
    }

    /// The row that a reply of a site's request shows, of `n` sites.
    fn shown_at(
        &self,
        alloc: Global,
        n: u16,
        at: usize,
        answer: &Reply,
    ) -> Result<Option<Seen>, AllocError>
        requires { at < length self.now.marks }
        ensures { IfOk result (λ seen. (mark : Mark) → slice_get self.now.marks at ≡ Some mark → seen ≡ seen_in (written_at mark) (as_heard n (written_at mark) answer.now)) }
    {
        match &self.marks.at(at).awaited {
            None => shown_by(alloc, n, &None, answer),
            Some(awaited) => shown_by(alloc, n, &awaited.written, answer),
        }
    }

    /// Notes the row that a site's request showed, or that a write was overtaken, or that the site is out.
    fn note(&mut self, at: usize, seen: Option<Seen>, changed: bool)
        requires rows { at < length self.old.rows }
        requires marks { at < length self.old.marks }
        requires met { self.old.met + 1 < 2 ^ 32 }
        ensures { (mark : Mark) (row : Option RowAt) → slice_get self.old.marks at ≡ Some mark → slice_get self.old.rows at ≡ Some row
            → self.new ≡ noted_by self.old at mark row seen changed }
    {
        match seen {
            Some(seen) => self.hear(at, seen),
            None => self.note_none(at, changed),
        }
    }

    fn note_none(&mut self, at: usize, changed: bool)
        requires rows { at < length self.old.rows }
        requires marks { at < length self.old.marks }
        requires met { self.old.met + 1 < 2 ^ 32 }
        ensures { (mark : Mark) (row : Option RowAt) → slice_get self.old.marks at ≡ Some mark → slice_get self.old.rows at ≡ Some row
            → self.new ≡ noted_by self.old at mark row None changed }
    {
        if changed {
            self.overtake(at);
        } else {
            self.leave(at);
        }
    }
}

/// Whether a reply shows that a write was overtaken.
fn is_changed(answer: &Reply) -> bool
    ensures { result ≡ is_changed answer.now }
{
    match answer {
        Reply::Changed => true,
        _ => false,
    }
}
