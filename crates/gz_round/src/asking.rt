//! What is asked of a site.
ghost use Rattle.std.specs.Prelude.{◌≡◌, ◌≤◌, ◌<◌, ◌+◌, ◌^◌, if◌then◌else◌, length, slice_get, slice_set, Option, Some, None, IfOk, OnOk};
ghost use Rattle.gz_core.specs.Names.{same_name};
ghost use Rattle.gz_core.specs.Rows.{RowAt};
ghost use Rattle.gz_core.specs.Values.{name_of};
ghost use Rattle.gz_round.specs.Steps.{IsStep, IsStepOf};
ghost use Rattle.gz_round.specs.Asking.{asks_of, step_out, write_out, read_out, sent_run, phase_after, noted};
ghost use Rattle.gz_round.specs.Sites.{written_by};
ghost use Rattle.gz_round.specs.Sent.{vote_by, phase_by, promise_by, round_after, or_earlier};
ghost use Rattle.gz_round.specs.declared.run.Mark.{Mark};

use crate::making::{copy_of, is_notice, made};
use crate::rounds::later_of;
use crate::run::{Awaited, Mark, Run};
use gz_core::{Etag, Key, Op, Out, Phase, Row, RowStep, SiteId, Value, Version};
use std::alloc::AllocError;

impl Run {
    /// What is asked of a site now: nothing where it is out or awaited; a read where no row was heard, or the
    /// last one was overtaken; else the write of the step, where it is done on the last row.
    pub fn request(&self, at: usize, step: &Option<RowStep>) -> Result<Option<Out>, AllocError>
        requires site { at < 16 }
        requires rows { at < length self.now.rows }
        requires marks { at < length self.now.marks }
        requires step { IsStepOf step.now }
        ensures { IfOk result (λ out. (mark : Mark) (row : Option RowAt) → slice_get self.now.marks at ≡ Some mark
            → slice_get self.now.rows at ≡ Some row → out ≡ asks_of self.now at mark step.now row) }
    {
        let mark = self.marks.at(at);
        if mark.out || mark.awaited.is_some() {
            return Ok(None);
        }
        match self.rows.at(at) {
            None => self.read(at),
            Some(row) => {
                if mark.changed {
                    self.read(at)
                } else {
                    self.write(at, mark.etag, step, row)
                }
            },
        }
    }

    /// A copy of the key.
    fn copy_key(&self) -> Result<Key, AllocError>
        ensures { IfOk result (λ key. key ≡ self.now.key) }
    {
        self.key.clone()
    }

    /// The read of a site.
    fn read(&self, at: usize) -> Result<Option<Out>, AllocError>
        requires site { at < 16 }
        ensures { IfOk result (λ out. out ≡ Some (read_out self.now at)) }
    {
        let key = self.copy_key()?;
        Ok(Some(Out {
            site: SiteId(at as u8),
            op: Op::ReadRow { key },
            awaited: true,
        }))
    }

    /// The write that a step makes of the last row of a site, where it is done.
    fn write(
        &self,
        at: usize,
        etag: Option<Etag>,
        step: &Option<RowStep>,
        row: &Row,
    ) -> Result<Option<Out>, AllocError>
        requires site { at < 16 }
        requires step { IsStepOf step.now }
        ensures { IfOk result (λ out. out ≡ step_out self.now at etag step.now row.now) }
    {
        let Some(step) = step else {
            return Ok(None);
        };
        match made(row, step)? {
            None => Ok(None),
            Some(row) => self.write_row(at, etag, step, row),
        }
    }

    /// The write of a row that a step made.
    fn write_row(
        &self,
        at: usize,
        expect: Option<Etag>,
        step: &RowStep,
        row: Row,
    ) -> Result<Option<Out>, AllocError>
        requires site { at < 16 }
        ensures { IfOk result (λ out. out ≡ write_out self.now at expect step.now (Some row)) }
    {
        let step = copy_of(step)?;
        self.write_made(at, expect, step, row)
    }

    /// The write of a row, with the step that made it.
    fn write_made(
        &self,
        at: usize,
        expect: Option<Etag>,
        step: RowStep,
        row: Row,
    ) -> Result<Option<Out>, AllocError>
        requires site { at < 16 }
        ensures { IfOk result (λ out. out ≡ write_out self.now at expect step (Some row)) }
    {
        let awaited = !is_notice(&step);
        let key = self.copy_key()?;
        Ok(Some(Out {
            site: SiteId(at as u8),
            op: Op::WriteRow {
                key,
                expect,
                step,
                row,
            },
            awaited,
        }))
    }

    /// Keeps that a request has gone out to a site under a number.
    pub fn note_sent(&mut self, at: usize, number: u32, out: &Out) -> Result<(), AllocError>
        requires marks { at < length self.old.marks }
        ensures { OnOk result ((mark : Mark) → slice_get self.old.marks at ≡ Some mark → self.new ≡ sent_run self.old at number mark out.now) }
    {
        if out.awaited {
            let etag = self.marks.at(at).etag;
            let changed = self.marks.at(at).changed;
            let is_out = self.marks.at(at).out;
            let written = written(&out.op)?;
            self.marks.set(
                at,
                Mark {
                    etag,
                    changed,
                    out: is_out,
                    left: None,
                    awaited: Some(Awaited { number, written }),
                },
            );
        }
        self.note_step(&out.op);
        Ok(())
    }

    /// Keeps what a request says of the call: where it voted last for its value, which part sent a row last, and the
    /// greatest round.
    fn note_step(&mut self, op: &Op)
        ensures { self.new ≡ noted self.old op.now }
    {
        match op {
            Op::WriteRow { step, .. } => self.note_write(step),
            _ => {},
        }
    }

    fn note_write(&mut self, step: &RowStep)
        ensures { self.new ≡ record self.old { last_vote = or_earlier (vote_by self.old.name step.now) self.old.last_vote; wrote = phase_after (phase_by step.now) self.old.wrote; round = round_after (promise_by step.now) self.old.round } }
    {
        match step {
            RowStep::FastVote { version, value } => {
                self.note_vote(*version, value);
                self.wrote = Phase::Fast;
            },
            RowStep::Promise { ballot, .. } => {
                self.wrote = Phase::Prepare;
                self.round = later_of(ballot.round, self.round);
            },
            RowStep::ClassicVote { version, value, .. } => {
                self.note_vote(*version, value);
                self.wrote = Phase::Accept;
            },
            RowStep::Decide { .. } => {},
            RowStep::Trim { .. } => self.wrote = Phase::Trim,
        }
    }

    /// Keeps where the call votes, where it votes for its own value.
    fn note_vote(&mut self, version: Version, value: &Value)
        ensures { self.new ≡ record self.old { last_vote = if same_name (name_of value.now) self.old.name then Some version else self.old.last_vote } }
    {
        if value.name() == self.name {
            self.last_vote = Some(version);
        }
    }
}

/// A copy of the row that an operation writes, if it is a write.
fn written(op: &Op) -> Result<Option<Row>, AllocError>
    ensures { IfOk result (λ row. row ≡ written_by op.now) }
{
    match op {
        Op::WriteRow { row, .. } => {
            let row = row.clone()?;
            Ok(Some(row))
        },
        _ => Ok(None),
    }
}
