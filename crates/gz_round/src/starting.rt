//! How a call begins.
ghost use Rattle.std.specs.Prelude.{◌≡◌, ℕ, ◌≤◌, ◌<◌, List, [], length, slice_get, Some, None, IfOk};
ghost use Rattle.gz_core.specs.Calls.{key_of};
ghost use Rattle.gz_core.specs.History.{Caller, Trace};
ghost use Rattle.gz_round.specs.Rounds.{top_rounds};
ghost use Rattle.gz_round.specs.Following.{Ready};
ghost use Rattle.gz_round.specs.Standing.{IsNamed, WritesLatest};
ghost use Rattle.gz_round.specs.Targets.{target_of};
ghost use Rattle.gz_round.specs.Starting.{fresh_mark, idle_run};

use crate::run::{Mark, Run, Stage, Target};
use gz_core::{Config, Items, Key, Phase, PutName, Row, Value};
use std::alloc::{AllocError, Global};

impl Run {
    /// A call that has sent nothing and heard nothing, which asks for this version, and writes this value if it writes one, of
    /// a session that promised ballots up to a round.
    pub fn start(
        alloc: Global,
        config: &Config,
        name: PutName,
        key: Key,
        target: Target,
        own: Option<Value>,
        round: u32,
    ) -> Result<Run, AllocError>
        ensures ready { IfOk result (λ run. (w : Caller) (past : List Trace) → w.name ≡ name → key_of w.call ≡ key → target_of w.call ≡ target → w.own ≡ own
            → IsNamed w.name w.own → WritesLatest w → top_rounds past ≡ round → Ready config.now w past run []) }
        ensures stage { IfOk result (λ run. run.stage ≡ Stage.Look) }
    {
        let mut run = Run::idle(alloc, name, key, target, own, round);
        run.rows = no_rows(alloc, config.n as usize)?;
        run.marks = fresh_marks(alloc, config.n as usize)?;
        Ok(run)
    }

    /// A call that knows no site yet.
    fn idle(
        alloc: Global,
        name: PutName,
        key: Key,
        target: Target,
        own: Option<Value>,
        round: u32,
    ) -> Run
        ensures { result ≡ idle_run name key target own round [] [] }
    {
        Run {
            name,
            key,
            target,
            own,
            rows: Items::new(alloc),
            marks: Items::new(alloc),
            met: 0,
            last_vote: None,
            wrote: Phase::Look,
            round,
            stage: Stage::Look,
        }
    }
}

/// No row of any site.
fn no_rows(alloc: Global, n: usize) -> Result<Items<Option<Row>>, AllocError>
    ensures len { IfOk result (λ rows. length rows ≡ n) }
    ensures none { IfOk result (λ rows. (s : ℕ) → s < n → slice_get rows s ≡ Some None) }
{
    let mut rows = Items::new(alloc);
    for site in 0..n {
        let _ = site;
        rows.push(None)?;
    }
    Ok(rows)
}

/// Sites of which nothing is known.
fn fresh_marks(alloc: Global, n: usize) -> Result<Items<Mark>, AllocError>
    ensures len { IfOk result (λ marks. length marks ≡ n) }
    ensures fresh { IfOk result (λ marks. (s : ℕ) → s < n → slice_get marks s ≡ Some fresh_mark) }
{
    let mut marks = Items::new(alloc);
    for site in 0..n {
        let _ = site;
        marks.push(Mark {
            etag: None,
            changed: false,
            out: false,
            left: None,
            awaited: None,
        })?;
    }
    Ok(marks)
}
