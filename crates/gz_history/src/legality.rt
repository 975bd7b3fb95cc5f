//! Whether a history is legal, and where it first isn't.
ghost use Rattle.std.specs.Prelude.{◌≡◌, ◌<◌, ◌≤◌, true, false, IfOk, IfErr, MatchOption, IfSome, ◌^◌, ◌+◌, option_map, length, Contains};
ghost use Rattle.gz_history.specs.declared.record.CallRec.{CallRec as CallOf};
ghost use Rattle.gz_history.specs.Answers.{shows, stands, latest_told, names, read_from, bytes_written, IsWrite, IsPut, IsDelete, Writes, MayTakeEffect, IsOfVersion, AnswersAsked};
ghost use Rattle.gz_history.specs.Index.{AreKept, bound_at, bound_of};
ghost use Rattle.gz_history.specs.Legal.{IsLegal, Agree, TakeEffectOnce, KeepOrder, IsBefore, IsBeforeEnd, IsSource, ReadsAWrite, ReturnWritten, KeepsAsked};
ghost use Rattle.gz_history.specs.Broken.{IsHistory, Precedes, EndsLater, AllPrecede, IsFirstBroken, relation_of, clause_of, NameOneWrite, ShowOneVersion, OfOneObject, Broke, KeptWith, KeptBefore, BreaksWith, BreaksFirst, IsMissing, HaveSources, LacksSource, ReturnedUpTo, ReturnedBefore, ReturnsOther, ReturnsOtherFirst, KeptAsked, StraysFirst};

use crate::record::CallRec;
use gz_core::{Answer, Call, Items, PutName, Version};

/// The first rule of a legal history that does not hold, with the first two calls that break it: 1, agreement; 2, effect at
/// most once; 3, real-time order; 4, reads from writes; 5, values; 6, versions asked for. In 1 to 3 `a` began before `b`; in
/// 4 and 5 `a` reads and `b` is the call that it names; in 6 both are the call that asked.
#[derive(Clone, Copy, Debug, PartialEq, Eq)]
pub struct Broken {
    pub clause: u8,
    pub a: PutName,
    pub b: PutName,
}

/// A rule of each two calls of one object, in the order in which they began.
#[derive(Clone, Copy)]
enum Rule {
    Agreement,
    Once,
    Order,
}

/// Whether the history is legal (Herlihy and Wing 1990, "Linearizability"), and else what breaks it: the first rule
/// that doesn't hold, then the first call that breaks it, in the order of the log, then the first one with it. Takes no
/// memory. Each rule is tried once at most on each two calls, and calls of two objects are told apart by one comparison.
pub fn legal(calls: &[CallRec]) -> Result<(), Broken>
    requires { IsHistory calls.now }
    ensures legal { IfOk result (λ _. IsLegal calls.now) }
    ensures broken { IfErr result (λ broken. IsFirstBroken calls.now broken) }
{
    legal_from(
        calls,
        &Starts {
            agreement: 0,
            once: 0,
            order: 0,
            sources: 0,
            values: 0,
        },
    )
}

/// For each rule but the last a number of first calls that are known to keep it.
#[derive(Clone, Copy)]
pub(crate) struct Starts {
    /// So many calls agree with all later ones.
    pub(crate) agreement: usize,
    /// So many calls take effect once with all later ones.
    pub(crate) once: usize,
    /// So many calls keep the order with all later ones.
    pub(crate) order: usize,
    /// So many calls read what is in the history.
    pub(crate) sources: usize,
    /// So many calls return what was written.
    pub(crate) values: usize,
}

/// The same as `legal`, where of each rule so many first calls are known to keep it. They are not tried again.
pub(crate) fn legal_from(calls: &[CallRec], starts: &Starts) -> Result<(), Broken>
    requires history { IsHistory calls.now }
    requires kept { AreKept calls.now starts.now }
    ensures legal { IfOk result (λ _. IsLegal calls.now) }
    ensures broken { IfErr result (λ broken. IsFirstBroken calls.now broken) }
{
    each_two(Rule::Agreement, calls, starts.agreement)?;
    each_two(Rule::Once, calls, starts.once)?;
    each_two(Rule::Order, calls, starts.order)?;
    each_source(calls, starts.sources)?;
    each_return(calls, starts.values)?;
    each_asked(calls)
}

/// Whether the calls are those of a run: in the order in which they began, each with a name of its own and an end, if it
/// has one, above its beginning. Goes once over each two calls.
pub fn is_history(calls: &[CallRec]) -> bool
    ensures yes { result ≡ true → IsHistory calls.now }
    ensures no { result ≡ false → IsHistory calls.now → ⊥ }
{
    for i in 0..calls.len() {
        if !ends_later(&calls[i]) || !all_precede(calls, i) {
            return false;
        }
    }
    true
}

/// Whether the calls before a place precede the one there.
fn all_precede(calls: &[CallRec], j: usize) -> bool
    requires { j < length calls.now }
    ensures yes { result ≡ true → AllPrecede calls.now j j }
    ensures no { result ≡ false → AllPrecede calls.now j j → ⊥ }
{
    for i in 0..j {
        if !precedes(&calls[i], &calls[j]) {
            return false;
        }
    }
    true
}

fn precedes(a: &CallRec, b: &CallRec) -> bool
    ensures yes { result ≡ true → Precedes a.now b.now }
    ensures no { result ≡ false → Precedes a.now b.now → ⊥ }
{
    a.begin < b.begin && a.name != b.name
}

fn ends_later(a: &CallRec) -> bool
    ensures yes { result ≡ true → EndsLater a.now }
    ensures no { result ≡ false → EndsLater a.now → ⊥ }
{
    match a.end {
        Some(end) => a.begin < end,
        None => true,
    }
}

impl Rule {
    /// The rule's number.
    fn clause(self) -> u8
        ensures { result ≡ clause_of self }
    {
        match self {
            Rule::Agreement => 1,
            Rule::Once => 2,
            Rule::Order => 3,
        }
    }

    /// Whether two calls are of two objects or keep the rule.
    fn is_kept(self, a: &CallRec, b: &CallRec) -> bool
        ensures kept { result ≡ true → OfOneObject (relation_of self) a.now b.now }
        ensures broken { result ≡ false → Broke (relation_of self) a.now b.now }
    {
        a.call.key() != b.call.key() || self.holds(a, b)
    }

    /// Whether the rule holds of two calls.
    fn holds(self, a: &CallRec, b: &CallRec) -> bool
        ensures kept { result ≡ true → relation_of self a.now b.now }
        ensures broken { result ≡ false → relation_of self a.now b.now → ⊥ }
    {
        match self {
            Rule::Agreement => agree(a, b),
            Rule::Once => take_effect_once(a, b),
            Rule::Order => keep_order(a, b),
        }
    }
}

/// Tries a rule on each two calls of one object, of which the first does not stand below a place.
fn each_two(rule: Rule, calls: &[CallRec], start: usize) -> Result<(), Broken>
    requires { KeptBefore (relation_of rule) calls.now start }
    ensures kept { IfOk result (λ _. KeptBefore (relation_of rule) calls.now (length calls.now)) }
    ensures broken { IfErr result (λ broken. BreaksFirst (relation_of rule) (clause_of rule) calls.now broken) }
{
    for i in start..calls.len() {
        each_later(rule, calls, i)?;
    }
    Ok(())
}

/// Tries a rule on one call with each later one of its object.
fn each_later(rule: Rule, calls: &[CallRec], i: usize) -> Result<(), Broken>
    requires { i < length calls.now }
    ensures kept { IfOk result (λ _. KeptWith (relation_of rule) calls.now i (length calls.now)) }
    ensures broken { IfErr result (λ broken. BreaksWith (relation_of rule) (clause_of rule) calls.now i broken) }
{
    let a = &calls[i];
    for j in i + 1..calls.len() {
        let b = &calls[j];
        if !rule.is_kept(a, b) {
            return Err(Broken {
                clause: rule.clause(),
                a: a.name,
                b: b.name,
            });
        }
    }
    Ok(())
}

/// Whether two calls whose answers name one version name one write.
fn agree(a: &CallRec, b: &CallRec) -> bool
    ensures kept { result ≡ true → Agree a.now b.now }
    ensures broken { result ≡ false → Agree a.now b.now → ⊥ }
{
    match (shown(a), shown(b)) {
        (Some(v), Some(w)) => v != w || name_one_write(a, b),
        _ => true,
    }
}

/// Whether two calls that name writes name the same one.
fn name_one_write(a: &CallRec, b: &CallRec) -> bool
    ensures kept { result ≡ true → NameOneWrite a.now b.now }
    ensures broken { result ≡ false → NameOneWrite a.now b.now → ⊥ }
{
    match (named(a), named(b)) {
        (Some(x), Some(y)) => x == y,
        _ => true,
    }
}

/// Whether two calls whose answers name one write name one version.
fn take_effect_once(a: &CallRec, b: &CallRec) -> bool
    ensures kept { result ≡ true → TakeEffectOnce a.now b.now }
    ensures broken { result ≡ false → TakeEffectOnce a.now b.now → ⊥ }
{
    match (named(a), named(b)) {
        (Some(x), Some(y)) => x != y || show_one_version(a, b),
        _ => true,
    }
}

/// Whether two calls that show versions show the same one.
fn show_one_version(a: &CallRec, b: &CallRec) -> bool
    ensures kept { result ≡ true → ShowOneVersion a.now b.now }
    ensures broken { result ≡ false → ShowOneVersion a.now b.now → ⊥ }
{
    match (shown(a), shown(b)) {
        (Some(v), Some(w)) => v == w,
        _ => true,
    }
}

/// Whether a call that began after another had ended stands at no older version, and a write at a newer one.
fn keep_order(a: &CallRec, b: &CallRec) -> bool
    ensures kept { result ≡ true → KeepOrder a.now b.now }
    ensures broken { result ≡ false → KeepOrder a.now b.now → ⊥ }
{
    match (shown(a), standing(b)) {
        (Some(v), Some(w)) => !is_before(a.end, b.begin) || v < w || (v == w && !is_write(&b.call)),
        _ => true,
    }
}

/// The write that the call's answer names.
pub fn named(a: &CallRec) -> Option<PutName>
    ensures { result ≡ names a.now.name a.now.answer }
{
    match &a.answer {
        Some(Answer::Ok { .. } | Answer::Thin { .. }) => Some(a.name),
        _ => read(a),
    }
}

/// The version that the call's answer shows to exist, 0 where it says that there is none.
pub fn shown(a: &CallRec) -> Option<u64>
    ensures same { result ≡ shows a.now.answer }
    ensures bounded { IfSome result (λ version. version ≤ 2 ^ 63) }
{
    match &a.answer {
        Some(
            Answer::Ok { version }
            | Answer::Thin { version, .. }
            | Answer::Bytes { version, .. }
            | Answer::Incomplete { version, .. }
            | Answer::Gone { version, .. },
        ) => Some(version.number()),
        Some(Answer::Absent) => Some(0),
        Some(Answer::Unborn { latest }) => Some(latest.number()),
        Some(Answer::Collected { floor } | Answer::Swept { floor, .. }) => Some(floor.number() + 1),
        _ => None,
    }
}

/// The version that the call's answer shows as the latest one.
fn standing(a: &CallRec) -> Option<u64>
    ensures same { result ≡ stands a.now.call a.now.answer }
    ensures bounded { IfSome result (λ version. version ≤ 2 ^ 63) }
{
    match &a.call {
        Call::Put { .. } | Call::Delete { .. } | Call::Get { .. } => shown(a),
        Call::GetAt { .. } | Call::Collect { .. } => told_latest(&a.answer),
    }
}

/// The version that the answer calls the latest one, where the one that was asked for has not begun.
fn told_latest(answer: &Option<Answer>) -> Option<u64>
    ensures same { result ≡ latest_told answer.now }
    ensures bounded { IfSome result (λ version. version ≤ 2 ^ 63) }
{
    match answer {
        Some(Answer::Unborn { latest }) => Some(latest.number()),
        _ => None,
    }
}

/// The bound of the versions that calls which ended before this one began may show.
pub(crate) fn bound(a: &CallRec) -> Option<u64>
    ensures { result ≡ bound_of a.now }
{
    let version = standing(a)?;
    match &a.call {
        Call::Put { .. } | Call::Delete { .. } => Some(version),
        Call::Get { .. } | Call::GetAt { .. } | Call::Collect { .. } => Some(version + 1),
    }
}

/// Whether a call had ended by then.
fn is_before(end: Option<u32>, tick: u32) -> bool
    ensures yes { result ≡ true → IsBefore end tick }
    ensures no { result ≡ false → IsBefore end tick → ⊥ }
{
    match end {
        Some(end) => end < tick,
        None => false,
    }
}

pub(crate) fn is_write(call: &Call) -> bool
    ensures yes { result ≡ true → IsWrite call.now }
    ensures no { result ≡ false → IsWrite call.now → ⊥ }
{
    match call {
        Call::Put { .. } | Call::Delete { .. } => true,
        Call::Get { .. } | Call::GetAt { .. } | Call::Collect { .. } => false,
    }
}

/// Tries whether each call that is read from is in the history, of the reads that do not stand below a place.
fn each_source(calls: &[CallRec], start: usize) -> Result<(), Broken>
    requires { HaveSources calls.now start }
    ensures kept { IfOk result (λ _. HaveSources calls.now (length calls.now)) }
    ensures broken { IfErr result (λ broken. LacksSource calls.now broken) }
{
    for i in start..calls.len() {
        let a = &calls[i];
        if let Some(x) = missing_source(calls, a) {
            return Err(Broken {
                clause: 4,
                a: a.name,
                b: x,
            });
        }
    }
    Ok(())
}

/// The write that a read names, if it is not in the history where it could be read from.
fn missing_source(calls: &[CallRec], a: &CallRec) -> Option<PutName>
    ensures { MatchOption result (ReadsAWrite calls.now a.now) (λ x. IsMissing calls.now a.now x) }
{
    let x = read(a)?;
    if has_source(calls, a, x) {
        None
    } else {
        Some(x)
    }
}

/// The write that a read names.
pub(crate) fn read(a: &CallRec) -> Option<PutName>
    ensures { result ≡ read_from a.now.answer }
{
    match &a.answer {
        Some(
            Answer::Bytes { name, .. }
            | Answer::Incomplete { name, .. }
            | Answer::Gone { name, .. },
        ) => Some(*name),
        _ => None,
    }
}

/// Whether the write that a read names is in the history, where it could be read from.
fn has_source(calls: &[CallRec], a: &CallRec, x: PutName) -> bool
    ensures yes { result ≡ true → (b : CallOf) × (Contains calls.now b × IsSource a.now x b) }
    ensures no { result ≡ false → (b : CallOf) → Contains calls.now b → IsSource a.now x b → ⊥ }
{
    for b in calls {
        if is_source(a, x, b) {
            return true;
        }
    }
    false
}

/// Whether this is the write that a read names, where it could be read from.
pub(crate) fn is_source(a: &CallRec, x: PutName, b: &CallRec) -> bool
    ensures yes { result ≡ true → IsSource a.now x b.now }
    ensures no { result ≡ false → IsSource a.now x b.now → ⊥ }
{
    b.name == x
        && b.call.key() == a.call.key()
        && is_of_kind(&a.answer, &b.call)
        && is_before_end(b.begin, a.end)
        && may_take_effect(&b.answer)
}

/// Whether the call writes what the answer reads: a put bytes, a delete a tombstone.
fn is_of_kind(answer: &Option<Answer>, call: &Call) -> bool
    ensures yes { result ≡ true → Writes answer.now call.now }
    ensures no { result ≡ false → Writes answer.now call.now → ⊥ }
{
    match answer {
        Some(Answer::Bytes { .. } | Answer::Incomplete { .. }) => is_put(call),
        Some(Answer::Gone { .. }) => is_delete(call),
        _ => false,
    }
}

fn is_put(call: &Call) -> bool
    ensures yes { result ≡ true → IsPut call.now }
    ensures no { result ≡ false → IsPut call.now → ⊥ }
{
    match call {
        Call::Put { .. } => true,
        _ => false,
    }
}

fn is_delete(call: &Call) -> bool
    ensures yes { result ≡ true → IsDelete call.now }
    ensures no { result ≡ false → IsDelete call.now → ⊥ }
{
    match call {
        Call::Delete { .. } => true,
        _ => false,
    }
}

/// Tries whether each read that does not stand below a place returns the bytes of the put that it names.
fn each_return(calls: &[CallRec], start: usize) -> Result<(), Broken>
    requires { ReturnedBefore calls.now start }
    ensures kept { IfOk result (λ _. ReturnedBefore calls.now (length calls.now)) }
    ensures broken { IfErr result (λ broken. ReturnsOtherFirst calls.now broken) }
{
    for i in start..calls.len() {
        returns_of(calls, i)?;
    }
    Ok(())
}

/// Tries whether one read returns the bytes of the put that it names.
fn returns_of(calls: &[CallRec], i: usize) -> Result<(), Broken>
    requires { i < length calls.now }
    ensures kept { IfOk result (λ _. ReturnedUpTo calls.now i (length calls.now)) }
    ensures broken { IfErr result (λ broken. ReturnsOther calls.now i broken) }
{
    let a = &calls[i];
    for j in 0..calls.len() {
        let b = &calls[j];
        if !is_returned(a, b) {
            return Err(Broken {
                clause: 5,
                a: a.name,
                b: b.name,
            });
        }
    }
    Ok(())
}

/// Whether two calls are of two objects or the first returns what the other wrote, if it names it.
pub(crate) fn is_returned(a: &CallRec, b: &CallRec) -> bool
    ensures kept { result ≡ true → OfOneObject ReturnWritten a.now b.now }
    ensures broken { result ≡ false → Broke ReturnWritten a.now b.now }
{
    a.call.key() != b.call.key() || returns_written(a, b)
}

/// Whether a read of this put returns its bytes.
fn returns_written(a: &CallRec, b: &CallRec) -> bool
    ensures kept { result ≡ true → ReturnWritten a.now b.now }
    ensures broken { result ≡ false → ReturnWritten a.now b.now → ⊥ }
{
    match &a.answer {
        Some(Answer::Bytes { name, bytes, .. }) => *name != b.name || writes(&b.call, bytes),
        _ => true,
    }
}

/// Whether the call writes these bytes.
fn writes(call: &Call, bytes: &Items<u8>) -> bool
    ensures yes { result ≡ true → bytes_written call.now ≡ Some bytes.now }
    ensures no { result ≡ false → bytes_written call.now ≡ Some bytes.now → ⊥ }
{
    match call {
        Call::Put { bytes: written, .. } => written == bytes,
        _ => false,
    }
}

/// Whether a tick stands before the end of a call, which may have none yet.
fn is_before_end(tick: u32, end: Option<u32>) -> bool
    ensures yes { result ≡ true → IsBeforeEnd tick end }
    ensures no { result ≡ false → IsBeforeEnd tick end → ⊥ }
{
    match end {
        Some(end) => tick < end,
        None => true,
    }
}

/// Whether the answer does not rule out that the write took effect.
fn may_take_effect(answer: &Option<Answer>) -> bool
    ensures yes { result ≡ true → MayTakeEffect answer.now }
    ensures no { result ≡ false → MayTakeEffect answer.now → ⊥ }
{
    match answer {
        Some(Answer::NoQuorum { .. } | Answer::Contended { .. } | Answer::Short { .. }) => false,
        _ => true,
    }
}

/// Tries whether each call that asked for a version is answered about it.
fn each_asked(calls: &[CallRec]) -> Result<(), Broken>
    ensures kept { IfOk result (λ _. KeptAsked calls.now (length calls.now)) }
    ensures broken { IfErr result (λ broken. StraysFirst calls.now broken) }
{
    for a in calls {
        if !answers_asked(a) {
            return Err(Broken {
                clause: 6,
                a: a.name,
                b: a.name,
            });
        }
    }
    Ok(())
}

/// Whether a call that asked for a version is answered about it.
fn answers_asked(a: &CallRec) -> bool
    ensures kept { result ≡ true → KeepsAsked a.now }
    ensures broken { result ≡ false → KeepsAsked a.now → ⊥ }
{
    match &a.call {
        Call::GetAt { version, .. } => is_of_version(*version, &a.answer),
        _ => true,
    }
}

/// Whether an answer is about the version that was asked for.
fn is_of_version(asked: Version, answer: &Option<Answer>) -> bool
    ensures yes { result ≡ true → IsOfVersion asked answer.now }
    ensures no { result ≡ false → IsOfVersion asked answer.now → ⊥ }
{
    match answer {
        Some(
            Answer::Bytes { version, .. }
            | Answer::Incomplete { version, .. }
            | Answer::Gone { version, .. },
        ) => *version == asked,
        Some(Answer::Unborn { latest }) => *latest < asked,
        Some(Answer::Collected { floor }) => asked <= *floor,
        _ => true,
    }
}
