//! The judge of long histories.
ghost use Rattle.std.specs.Prelude.{IfOk, IfErr};
ghost use Rattle.gz_history.specs.Broken.{IsHistory, IsFirstBroken};
ghost use Rattle.gz_history.specs.Index.{AreKept};
ghost use Rattle.gz_history.specs.Legal.{IsLegal};

use crate::agreement::{agreeing, taking_effect_once};
use crate::groups::groups_of;
use crate::legality::{Broken, Starts, legal, legal_from};
use crate::order::keeping_order;
use crate::record::CallRec;
use crate::repeats::repeats_of;
use crate::sources::{reading_writes, returning, sources_of};
use std::alloc::{AllocError, Global};

/// The same answer as `legal` gives, in time that grows little more than linearly with the history, where there is memory
/// for an index of it. Where there is none, this is `legal`.
pub fn judge(alloc: Global, calls: &[CallRec]) -> Result<(), Broken>
    requires { IsHistory calls.now }
    ensures legal { IfOk result (λ _. IsLegal calls.now) }
    ensures broken { IfErr result (λ broken. IsFirstBroken calls.now broken) }
{
    match starts_of(alloc, calls) {
        Ok(starts) => legal_from(calls, &starts),
        Err(AllocError) => legal(calls),
    }
}

/// Of each rule the number of first calls that surely keep it.
fn starts_of(alloc: Global, calls: &[CallRec]) -> Result<Starts, AllocError>
    requires { IsHistory calls.now }
    ensures { IfOk result (λ starts. AreKept calls.now starts) }
{
    let groups = groups_of(alloc, calls)?;
    let repeats = repeats_of(alloc, calls, groups.as_slice())?;
    let agreement = agreeing(alloc, calls, groups.as_slice(), repeats.as_slice())?;
    let once = taking_effect_once(alloc, calls, groups.as_slice(), repeats.as_slice())?;
    let order = keeping_order(alloc, calls, groups.as_slice())?;
    let sources = sources_of(alloc, calls)?;
    Ok(Starts {
        agreement,
        once,
        order,
        sources: reading_writes(calls, sources.as_slice()),
        values: returning(calls, sources.as_slice()),
    })
}
