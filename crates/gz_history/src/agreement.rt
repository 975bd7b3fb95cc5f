//! How many first calls surely keep the first two rules: no version has two names, and no name two versions.
ghost use Rattle.std.specs.Prelude.{◌≡◌, ◌+◌, ◌<◌, ℕ, IfOk, Option, length};
ghost use Rattle.gz_core.specs.Names.{Name};
ghost use Rattle.std.specs.BTreeMap as tree;
ghost use Rattle.std.specs.Ordering.{nat_cmp, ordering_then};
ghost use Rattle.gz_history.specs.Broken.{KeptBefore};
ghost use Rattle.gz_history.specs.Legal.{Agree, TakeEffectOnce};
ghost use Rattle.gz_history.specs.Index.{AreGroups, AreRepeats, AreHeads, version_cmp, name_cmp, named_of, versioned_of};

use crate::heads::brought;
use crate::record::CallRec;
use crate::serial::naming;
use gz_core::PutName;
use std::alloc::{AllocError, Global};
use std::collections::BTreeMap;

/// So many first calls give to each version the name that all others give to it: those before the first one of a version that
/// has another name too.
pub(crate) fn agreeing(
    alloc: Global,
    calls: &[CallRec],
    groups: &[usize],
    repeats: &[bool],
) -> Result<usize, AllocError>
    requires len { length groups.now ≡ length calls.now }
    requires groups { AreGroups calls.now groups.now }
    requires repeats_len { length repeats.now ≡ length calls.now }
    requires repeats { AreRepeats calls.now groups.now repeats.now }
    ensures { IfOk result (λ start. KeptBefore Agree calls.now start) }
{
    let mut heads = BTreeMap::new(alloc);
    let mut start = calls.len();
    for place in 0..calls.len() {
        if repeats[place] {
            continue;
        }
        start = agreeing_with(&mut heads, start, groups[place], &calls[place], place)?;
    }
    Ok(start)
}

/// The same number, with one more call.
fn agreeing_with(
    heads: &mut BTreeMap<(usize, u64), (usize, PutName)>,
    start: usize,
    group: usize,
    call: &CallRec,
    place: usize,
) -> Result<usize, AllocError>
    ensures { IfOk result (λ next. (marks : ℕ → Option ((ℕ × ℕ) × Name)) → marks place ≡ named_of group call.now
        → AreHeads marks place start (tree.get version_cmp heads.old) → AreHeads marks (place + 1) next (tree.get version_cmp heads.new)) }
{
    match naming(call) {
        Some((version, name)) => agreeing_where(heads, start, (group, version), name, place),
        None => Ok(start),
    }
}

/// The same number, with one more name of a version.
fn agreeing_where(
    heads: &mut BTreeMap<(usize, u64), (usize, PutName)>,
    start: usize,
    tag: (usize, u64),
    name: PutName,
    place: usize,
) -> Result<usize, AllocError>
    ensures { IfOk result (λ next. (marks : ℕ → Option ((ℕ × ℕ) × Name)) → marks place ≡ Some (tag, name)
        → AreHeads marks place start (tree.get version_cmp heads.old) → AreHeads marks (place + 1) next (tree.get version_cmp heads.new)) }
{
    let (head, first) = brought(heads, tag, (place, name))?;
    if first == name {
        Ok(start)
    } else {
        Ok(start.min(head))
    }
}

/// So many first calls give each name to the version to which all others give it.
pub(crate) fn taking_effect_once(
    alloc: Global,
    calls: &[CallRec],
    groups: &[usize],
    repeats: &[bool],
) -> Result<usize, AllocError>
    requires len { length groups.now ≡ length calls.now }
    requires groups { AreGroups calls.now groups.now }
    requires repeats_len { length repeats.now ≡ length calls.now }
    requires repeats { AreRepeats calls.now groups.now repeats.now }
    ensures { IfOk result (λ start. KeptBefore TakeEffectOnce calls.now start) }
{
    let mut heads = BTreeMap::new(alloc);
    let mut start = calls.len();
    for place in 0..calls.len() {
        if repeats[place] {
            continue;
        }
        start = taking_effect_once_with(&mut heads, start, groups[place], &calls[place], place)?;
    }
    Ok(start)
}

/// The same number, with one more call.
fn taking_effect_once_with(
    heads: &mut BTreeMap<(usize, PutName), (usize, u64)>,
    start: usize,
    group: usize,
    call: &CallRec,
    place: usize,
) -> Result<usize, AllocError>
    ensures { IfOk result (λ next. (marks : ℕ → Option ((ℕ × Name) × ℕ)) → marks place ≡ versioned_of group call.now
        → AreHeads marks place start (tree.get name_cmp heads.old) → AreHeads marks (place + 1) next (tree.get name_cmp heads.new)) }
{
    match naming(call) {
        Some((version, name)) => taking_effect_once_where(
            heads,
            start,
            (group, name),
            version,
            place,
        ),
        None => Ok(start),
    }
}

/// The same number, with one more version of a name.
fn taking_effect_once_where(
    heads: &mut BTreeMap<(usize, PutName), (usize, u64)>,
    start: usize,
    tag: (usize, PutName),
    version: u64,
    place: usize,
) -> Result<usize, AllocError>
    ensures { IfOk result (λ next. (marks : ℕ → Option ((ℕ × Name) × ℕ)) → marks place ≡ Some (tag, version)
        → AreHeads marks place start (tree.get name_cmp heads.old) → AreHeads marks (place + 1) next (tree.get name_cmp heads.new)) }
{
    let (head, first) = brought(heads, tag, (place, version))?;
    if first == version {
        Ok(start)
    } else {
        Ok(start.min(head))
    }
}
