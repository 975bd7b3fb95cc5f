//! The votes that a call looks back at when it prepares a ballot.
ghost use Rattle.std.specs.Prelude.{◌≡◌, ◌<◌, ℕ, List, Option, length, slice_get, Some, None, IfOk};
ghost use Rattle.std.specs.Option.{option_copied};
ghost use Rattle.gz_core.specs.Rows.{RowAt};
ghost use Rattle.gz_core.specs.Configurations.{IsConfig};
ghost use Rattle.gz_core.specs.declared.values.Value.{Value};
ghost use Rattle.gz_round.specs.declared.run.Mark.{Mark};
ghost use Rattle.gz_core.specs.History.{Action, Caller, Trace};
ghost use Rattle.gz_round.specs.LookBack.{column_cast, row_cast, or_next, lowest, lowest_vote};
ghost use Rattle.gz_round.specs.Choosing.{AreLastVotes};
ghost use Rattle.gz_round.specs.Standing.{Stands};

use crate::acting::value_of;
use crate::run::{Run, copy_of};
use gz_core::{Column, Config, Row, Value, Version};
use std::alloc::AllocError;

impl Run {
    /// A copy of the value that the lowest site with a vote at a version votes for there, by the last row of each
    /// site, also of those that are out. A call that writes has a value of its own, and looks back at none.
    pub fn look_back(&self, config: &Config, version: Version) -> Result<Option<Value>, AllocError>
        requires config { IsConfig config.now }
        requires rows { length self.now.rows ≡ config.now.n }
        requires marks { length self.now.marks ≡ config.now.n }
        ensures { IfOk result (λ found. (w : Caller) (past : List Trace) (ms : List Action) → Stands config.now w past self.now ms
            → w.own ≡ None → found ≡ lowest_vote config.now.n version ms) }
    {
        if self.own.is_some() {
            return Ok(None);
        }
        copied(self.lowest_vote(config, version))
    }

    /// The value that the lowest site with a vote at a version votes for there.
    fn lowest_vote(&self, config: &Config, version: Version) -> Option<&Value>
        requires config { IsConfig config.now }
        requires rows { length self.now.rows ≡ config.now.n }
        requires marks { length self.now.marks ≡ config.now.n }
        ensures { (f : ℕ → Option Value) → AreLastVotes self.now version f → option_copied result ≡ lowest config.now.n f }
    {
        for at in 0..config.n as usize {
            match self.last_vote(at, version) {
                None => {},
                Some(value) => return Some(value),
            }
        }
        None
    }

    /// The value that the last row of a site has a vote for at a version.
    fn last_vote(&self, at: usize, version: Version) -> Option<&Value>
        requires rows { at < length self.now.rows }
        requires marks { at < length self.now.marks }
        ensures { (row : Option RowAt) (mark : Mark) → slice_get self.now.rows at ≡ Some row → slice_get self.now.marks at ≡ Some mark
            → option_copied result ≡ row_cast version (or_next row mark.left) }
    {
        match self.rows.at(at) {
            None => vote_of(&self.marks.at(at).left, version),
            Some(row) => vote_at(row, version),
        }
    }
}

/// A copy of a value, if there is one.
fn copied(value: Option<&Value>) -> Result<Option<Value>, AllocError>
    ensures { IfOk result (λ copy. copy ≡ option_copied value.entry) }
{
    match value {
        None => Ok(None),
        Some(value) => Ok(Some(copy_of(value)?)),
    }
}

fn vote_of(row: &Option<Row>, version: Version) -> Option<&Value>
    ensures { option_copied result ≡ row_cast version row.now }
{
    match row {
        None => None,
        Some(row) => vote_at(row, version),
    }
}

fn vote_at(row: &Row, version: Version) -> Option<&Value>
    ensures { option_copied result ≡ row_cast version (Some row.now) }
{
    match row.column(version) {
        None => None,
        Some(column) => vote_in(column),
    }
}

fn vote_in(column: &Column) -> Option<&Value>
    ensures { option_copied result ≡ column_cast (Some column.now) }
{
    match column {
        Column::Open { vote, .. } => value_of(vote),
        Column::Decided { .. } => None,
    }
}
