//! The first entry under each tag.
ghost use Rattle.std.specs.Prelude.{◌≡◌, IfOk};
ghost use Rattle.std.specs.BTreeMap as tree;
ghost use Rattle.gz_history.specs.Index.{IsBrought};

use std::alloc::AllocError;
use std::collections::BTreeMap;

/// The entry under a tag, which is the new one where there was none.
pub(crate) fn brought<K: Ord + Drop, V: Copy>(
    entries: &mut BTreeMap<K, V>,
    tag: K,
    entry: V,
) -> Result<V, AllocError>
    ensures { IfOk result (λ first. IsBrought (tree.get K.cmp entries.old) (tree.get K.cmp entries.new) tag entry first) }
{
    if let Some(first) = entries.get(&tag) {
        return Ok(*first);
    }
    entries.insert(tag, entry)?;
    Ok(entry)
}
