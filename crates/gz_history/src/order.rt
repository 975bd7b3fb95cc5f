//! How many first calls surely keep the third rule: no call that began after another had ended stands at an older version.
ghost use Rattle.std.specs.Prelude.{◌≡◌, ◌<◌, ◌≤◌, ◌-◌, ℕ, Some, true, IfOk, OnOk, length, slice_set};
ghost use Rattle.std.specs.BTreeMap as tree;
ghost use Rattle.std.specs.Ordering.{nat_cmp};
ghost use Rattle.gz_history.specs.Answers.{shows};
ghost use Rattle.gz_history.specs.Broken.{IsHistory, KeptWith, KeptBefore};
ghost use Rattle.gz_history.specs.Legal.{KeepOrder};
ghost use Rattle.gz_history.specs.Index.{AreGroups, IsLowered, AreTaken, IsNotAfter, IsBelowLeast, AreInOrderWhere, bound_of};

use crate::legality::{bound, shown};
use crate::record::CallRec;
use std::alloc::{AllocError, Global};
use std::collections::BTreeMap;

/// So many first calls keep the order with all later ones: those before the first one that ended before a call of its
/// object began which stands too low for it.
pub(crate) fn keeping_order(
    alloc: Global,
    calls: &[CallRec],
    groups: &[usize],
) -> Result<usize, AllocError>
    requires history { IsHistory calls.now }
    requires len { length groups.now ≡ length calls.now }
    requires groups { AreGroups calls.now groups.now }
    ensures { IfOk result (λ start. KeptBefore KeepOrder calls.now start) }
{
    let ends = ends_of(alloc, calls)?;
    let kept = in_order(alloc, calls, groups, ends.as_slice())?;
    Ok(first_doubtful(calls, kept.as_slice()))
}

/// The ends of calls with the places of the calls, in the order of the ends.
fn ends_of(alloc: Global, calls: &[CallRec]) -> Result<Vec<(u32, usize)>, AllocError> {
    let mut ends = Vec::new(alloc);
    for place in 0..calls.len() {
        if let Some(end) = calls[place].end {
            ends.push((end, place))?;
        }
    }
    ends.sort_unstable();
    Ok(ends)
}

/// For each call whether it surely keeps the order with all later ones. The ends are gone through from the last one
/// to the first, so that each call is taken once among those that began after an end.
fn in_order(
    alloc: Global,
    calls: &[CallRec],
    groups: &[usize],
    ends: &[(u32, usize)],
) -> Result<Vec<bool>, AllocError>
    requires history { IsHistory calls.now }
    requires len { length groups.now ≡ length calls.now }
    requires groups { AreGroups calls.now groups.now }
    ensures len { IfOk result (λ kept. length kept.items ≡ length calls.now) }
    ensures kept { IfOk result (λ kept. AreInOrderWhere calls.now kept.items) }
{
    let mut kept = vec![in alloc; false; calls.len()]?;
    let mut least = BTreeMap::new(alloc);
    let mut from = calls.len();
    for step in 0..ends.len() {
        let (_, place) = ends[ends.len() - 1 - step];
        from = marked(calls, groups, &mut least, &mut kept, from, place)?;
    }
    Ok(kept)
}

/// Marks a call, if it surely keeps the order with all later ones. Takes the calls that began after its end, down to a
/// place, which is told.
fn marked(
    calls: &[CallRec],
    groups: &[usize],
    least: &mut BTreeMap<usize, u64>,
    kept: &mut Vec<bool>,
    from: usize,
    place: usize,
) -> Result<usize, AllocError>
    requires history { IsHistory calls.now }
    requires len { length groups.now ≡ length calls.now }
    requires groups { AreGroups calls.now groups.now }
    requires from { from ≤ length calls.now }
    requires kept { length kept.old.items ≡ length calls.now }
    ensures from { IfOk result (λ next. next ≤ from) }
    ensures len { OnOk result (length kept.new.items ≡ length calls.now) }
    ensures taken { IfOk result (λ next. AreTaken calls.now groups.now from (tree.get nat_cmp least.old) → AreTaken calls.now groups.now next (tree.get nat_cmp least.new)) }
    ensures kept { OnOk result (AreTaken calls.now groups.now from (tree.get nat_cmp least.old) → AreInOrderWhere calls.now kept.old.items → AreInOrderWhere calls.now kept.new.items) }
{
    if place >= calls.len() {
        return Ok(from);
    }
    let (next, is_kept) = tried(calls, groups, least, from, place)?;
    mark(kept, place, is_kept);
    Ok(next)
}

fn mark(kept: &mut Vec<bool>, place: usize, is_kept: bool)
    requires { place < length kept.old.items }
    ensures { kept.new.items ≡ slice_set kept.old.items place is_kept }
{
    kept[place] = is_kept;
}

/// Takes the calls that began after the end of a call, down to a place, and tells the place, and whether the call
/// surely keeps the order with all later ones.
fn tried(
    calls: &[CallRec],
    groups: &[usize],
    least: &mut BTreeMap<usize, u64>,
    from: usize,
    place: usize,
) -> Result<(usize, bool), AllocError>
    requires history { IsHistory calls.now }
    requires len { length groups.now ≡ length calls.now }
    requires groups { AreGroups calls.now groups.now }
    requires from { from ≤ length calls.now }
    requires place { place < length calls.now }
    ensures from { IfOk result (λ tried. tried.0 ≤ from) }
    ensures taken { IfOk result (λ tried. AreTaken calls.now groups.now from (tree.get nat_cmp least.old) → AreTaken calls.now groups.now tried.0 (tree.get nat_cmp least.new)) }
    ensures kept { IfOk result (λ tried. AreTaken calls.now groups.now from (tree.get nat_cmp least.old) → tried.1 ≡ true → KeptWith KeepOrder calls.now place (length calls.now)) }
{
    let call = &calls[place];
    match call.end {
        None => Ok((from, true)),
        Some(end) => {
            let next = taken_after(calls, groups, least, from, end)?;
            Ok((next, is_below_least(least, groups[place], call)))
        }
    }
}

/// Takes the calls that began after a tick, from a place down to another, which is told.
fn taken_after(
    calls: &[CallRec],
    groups: &[usize],
    least: &mut BTreeMap<usize, u64>,
    from: usize,
    tick: u32,
) -> Result<usize, AllocError>
    requires len { length groups.now ≡ length calls.now }
    requires from { from ≤ length calls.now }
    ensures from { IfOk result (λ next. next ≤ from) }
    ensures taken { IfOk result (λ next. AreTaken calls.now groups.now from (tree.get nat_cmp least.old) → AreTaken calls.now groups.now next (tree.get nat_cmp least.new)) }
    ensures before { IfOk result (λ next. IsNotAfter calls.now next tick) }
{
    for step in 0..from {
        let place = from - 1 - step;
        if calls[place].begin <= tick {
            return Ok(place + 1);
        }
        take(least, groups[place], &calls[place])?;
    }
    Ok(0)
}

/// Takes a call of a group.
fn take(least: &mut BTreeMap<usize, u64>, group: usize, call: &CallRec) -> Result<(), AllocError>
    ensures keeps { OnOk result ((g l : ℕ) → tree.get nat_cmp least.old g ≡ Some l → (m : ℕ) × ((tree.get nat_cmp least.new g ≡ Some m) × (m ≤ l))) }
    ensures takes { OnOk result ((w : ℕ) → bound_of call.now ≡ Some w → (m : ℕ) × ((tree.get nat_cmp least.new group ≡ Some m) × (m ≤ w))) }
{
    match bound(call) {
        Some(bound) => lower(least, group, bound),
        None => Ok(()),
    }
}

/// Takes a bound of a group, if it is the least one.
fn lower(least: &mut BTreeMap<usize, u64>, group: usize, bound: u64) -> Result<(), AllocError>
    ensures { OnOk result (IsLowered (tree.get nat_cmp least.old) (tree.get nat_cmp least.new) group bound) }
{
    if let Some(old) = least.get(&group) {
        if *old <= bound {
            return Ok(());
        }
    }
    least.insert(group, bound)?;
    Ok(())
}

/// Whether a call shows no version at the least bound of its group, or above.
fn is_below_least(least: &BTreeMap<usize, u64>, group: usize, call: &CallRec) -> bool
    ensures { result ≡ true → IsBelowLeast (tree.get nat_cmp least.now) group call.now }
{
    match (shown(call), least.get(&group)) {
        (Some(version), Some(bound)) => version < *bound,
        _ => true,
    }
}

/// The place of the first call that ended and does not surely keep the order; the number of calls where there is none.
fn first_doubtful(calls: &[CallRec], kept: &[bool]) -> usize
    requires len { length kept.now ≡ length calls.now }
    requires kept { AreInOrderWhere calls.now kept.now }
    ensures { KeptBefore KeepOrder calls.now result }
{
    for i in 0..calls.len() {
        if !kept[i] && calls[i].end.is_some() {
            return i;
        }
    }
    calls.len()
}
