//! The calls of a history by their objects.
ghost use Rattle.std.specs.Prelude.{◌≡◌, IfOk, length};
ghost use Rattle.std.specs.BTreeMap as tree;
ghost use Rattle.std.specs.Ordering.{nat_cmp};
ghost use Rattle.std.specs.Cmp.Lexicographic.{slice_cmp};
ghost use Rattle.gz_history.specs.Index.{IsBrought, AreGroups};

use crate::heads::brought;
use crate::record::CallRec;
use gz_core::Key;
use std::alloc::{AllocError, Global};
use std::collections::BTreeMap;

/// The group of each call: a number that calls of one object share.
pub(crate) fn groups_of(alloc: Global, calls: &[CallRec]) -> Result<Vec<usize>, AllocError>
    ensures len { IfOk result (λ groups. length groups.items ≡ length calls.now) }
    ensures same { IfOk result (λ groups. AreGroups calls.now groups.items) }
{
    let mut heads = BTreeMap::new(alloc);
    let mut groups = Vec::new(alloc);
    for i in 0..calls.len() {
        let group = group_of(&mut heads, calls[i].call.key(), i)?;
        groups.push(group)?;
    }
    Ok(groups)
}

/// The group of a key, which is the new one where the key had none. A key is copied only then.
fn group_of(heads: &mut BTreeMap<Key, usize>, key: &Key, new: usize) -> Result<usize, AllocError>
    ensures { IfOk result (λ group. IsBrought (tree.get (slice_cmp nat_cmp) heads.old) (tree.get (slice_cmp nat_cmp) heads.new) key.now new group) }
{
    if let Some(group) = heads.get(key) {
        return Ok(*group);
    }
    let copy = key.clone()?;
    brought(heads, copy, new)
}
