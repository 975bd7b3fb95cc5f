//! Which calls say what an earlier call says, so that a search for what was said of their versions and names finds nothing new.
ghost use Rattle.std.specs.Prelude.{◌≡◌, ◌<◌, true, IfOk, length};
ghost use Rattle.gz_history.specs.Index.{IsRepeat, AreRepeats};
ghost use Rattle.gz_history.specs.Serial.{naming};

use crate::record::CallRec;
use crate::serial::naming;
use std::alloc::{AllocError, Global};

/// For each call whether an earlier one of its group is known to give the same name to the same version. Tried is the
/// last one before it that gives a name to a version.
pub(crate) fn repeats_of(
    alloc: Global,
    calls: &[CallRec],
    groups: &[usize],
) -> Result<Vec<bool>, AllocError>
    requires { length groups.now ≡ length calls.now }
    ensures len { IfOk result (λ repeats. length repeats.items ≡ length calls.now) }
    ensures repeats { IfOk result (λ repeats. AreRepeats calls.now groups.now repeats.items) }
{
    let mut last = vec![in alloc; 0; calls.len()]?;
    let mut repeats = Vec::new(alloc);
    for place in 0..calls.len() {
        let is_repeat = repeats_last(calls, groups, &mut last, place);
        repeats.push(is_repeat)?;
    }
    Ok(repeats)
}

/// Whether a call gives the same name to the same version as the last one before it of its group. It is the last one
/// from then on, if it gives any.
fn repeats_last(calls: &[CallRec], groups: &[usize], last: &mut [usize], place: usize) -> bool
    requires len { length groups.now ≡ length calls.now }
    requires place { place < length calls.now }
    ensures { result ≡ true → IsRepeat calls.now groups.now place }
{
    let group = groups[place];
    if group >= last.len() || naming(&calls[place]).is_none() {
        return false;
    }
    let earlier = last[group];
    last[group] = place;
    earlier < place && groups[earlier] == group && say_the_same(&calls[earlier], &calls[place])
}

/// Whether two calls give the same name to the same version.
fn say_the_same(a: &CallRec, b: &CallRec) -> bool
    ensures { result ≡ true → naming a.now ≡ naming b.now }
{
    match (naming(a), naming(b)) {
        (Some((version, name)), Some((other_version, other_name))) => {
            version == other_version && name == other_name
        },
        _ => false,
    }
}
