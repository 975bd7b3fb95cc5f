//! The order of an object's writes, as answers tell it.
ghost use Rattle.std.specs.Prelude.{◌≡◌, ℕ, IfOk, OnOk, option_and_then};
ghost use Rattle.std.specs.BTreeMap as tree;
ghost use Rattle.std.specs.Map.{values_of};
ghost use Rattle.std.specs.Ordering.{nat_cmp};
ghost use Rattle.gz_history.specs.Serial.{is_about, naming, naming_of, name_at, or_else, first_name, IsSerial};

use crate::legality::{named, shown};
use crate::record::CallRec;
use gz_core::{Key, PutName};
use std::alloc::{AllocError, Global};
use std::collections::BTreeMap;

/// The names that answers give to the versions of an object, in the order of the versions. Where answers give several
/// names to a version, which no legal history has, the first of them.
pub fn serialise(alloc: Global, calls: &[CallRec], key: &Key) -> Result<Vec<PutName>, AllocError>
    ensures { IfOk result (λ names. IsSerial key.now calls.now names.items) }
{
    let named = named_versions(alloc, calls, key)?;
    names_of(alloc, &named)
}

/// The names, by the versions to which they were given first.
fn named_versions(
    alloc: Global,
    calls: &[CallRec],
    key: &Key,
) -> Result<BTreeMap<u64, PutName>, AllocError>
    ensures { IfOk result (λ names. (version : ℕ) → tree.get nat_cmp names version ≡ first_name key.now calls.now version) }
{
    let mut names = BTreeMap::new(alloc);
    for call in calls {
        note(&mut names, key, call)?;
    }
    Ok(names)
}

/// Notes the name that a call's answer gives to a version, unless the version has one.
fn note(names: &mut BTreeMap<u64, PutName>, key: &Key, call: &CallRec) -> Result<(), AllocError>
    ensures { OnOk result ((version : ℕ) → tree.get nat_cmp names.new version ≡ or_else (tree.get nat_cmp names.old version) (option_and_then (name_at version) (naming_of key.now call.now))) }
{
    if let Some((version, name)) = naming_of(key, call) {
        if !names.contains_key(&version) {
            names.insert(version, name)?;
        }
    }
    Ok(())
}

/// The version of the object that a call's answer shows, with the name that it gives to it.
fn naming_of(key: &Key, call: &CallRec) -> Option<(u64, PutName)>
    ensures { result ≡ naming_of key.now call.now }
{
    if call.call.key() == key {
        naming(call)
    } else {
        None
    }
}

pub(crate) fn naming(call: &CallRec) -> Option<(u64, PutName)>
    ensures { result ≡ naming call.now }
{
    let version = shown(call)?;
    let name = named(call)?;
    Some((version, name))
}

/// The names, in the order of the versions.
fn names_of(alloc: Global, named: &BTreeMap<u64, PutName>) -> Result<Vec<PutName>, AllocError>
    ensures ordered { tree.IsOrdered nat_cmp named.now }
    ensures names { IfOk result (λ names. names.items ≡ tree.values named.now) }
{
    let mut names = Vec::new(alloc);
    for name in named.values() {
        names.push(*name)?;
    }
    Ok(names)
}
