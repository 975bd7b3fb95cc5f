//! The requests for fragments, and those that are awaited.
ghost use Rattle.std.specs.Prelude.{◌≡◌, ◌≤◌, ◌<◌, ◌+◌, ◌^◌, ◌++◌, ◌∷◌, [], ℕ, List, Some, IsSome, IfSome, true, length, position, option_map, slice_get, IfOk, OnOk};
ghost use Rattle.gz_data.specs.Requests.{put_out, puts_from, get_out, gets_from, AreAdded, is_numbered, without_number};
ghost use Rattle.gz_core.specs.declared.requests.Out.{Out};
ghost use Rattle.std.specs.List.{list_any};

use gz_core::{BlobName, FragRef, Items, Key, Op, Out, PutName, SiteId};
use std::alloc::{AllocError, Global};

/// A request for a blob that is awaited: its number, and the index of the fragment that it is about.
#[derive(Clone, Copy, Debug, PartialEq, Eq)]
pub struct AwaitedBlob {
    pub number: u32,
    pub index: u8,
}

/// The name of a fragment's blob.
fn blob_name(name: PutName, key: &Key, index: u8) -> Result<BlobName, AllocError>
    ensures { IfOk result (λ blob. blob ≡ record { key = key.now; name = name; index = index }) }
{
    let key = key.clone()?;
    Ok(BlobName { key, name, index })
}

/// The request that stores a record at the site of its index.
fn put_request(name: PutName, key: &Key, index: u8, bytes: Items<u8>) -> Result<Out, AllocError>
    requires { index < 16 }
    ensures { IfOk result (λ out. out ≡ put_out name key.now index bytes) }
{
    let name = blob_name(name, key, index)?;
    Ok(Out {
        site: SiteId(index),
        op: Op::PutBlob { name, bytes },
        awaited: true,
    })
}

/// The request that reads a fragment at the site that its value names.
fn get_request(name: PutName, key: &Key, index: u8, fragment: &FragRef) -> Result<Out, AllocError>
    ensures { IfOk result (λ out. out ≡ get_out name key.now index fragment.now) }
{
    let name = blob_name(name, key, index)?;
    Ok(Out {
        site: fragment.site,
        op: Op::GetBlob { name },
        awaited: true,
    })
}

/// Adds a request to what an event sends under the numbers from `first` on, and to those that are awaited.
fn add(
    out: Out,
    first: u32,
    send: &mut Items<Out>,
    awaited: &mut Items<AwaitedBlob>,
) -> Result<(), AllocError>
    requires first { first < 2 ^ 31 }
    requires few { length awaited.old < 16 }
    requires room { length send.old < 48 }
    ensures { OnOk result ((start added : List Out) → AreAdded first start send.old awaited.old added → AreAdded first start send.new awaited.new (added ++ out ∷ [])) }
{
    let index = awaited.len() as u8;
    let number = first + send.len() as u32;
    send.push(out)?;
    awaited.push(AwaitedBlob { number, index })?;
    Ok(())
}

/// Adds the requests that store the records of a put, each at the site of its index, to what an event sends under the numbers
/// from `first` on. Gives those that are awaited.
#[tactic(auto, using(crate::proofs::Adding::puts_length, crate::proofs::Adding::puts_push))]
pub fn store(
    alloc: Global,
    name: PutName,
    key: &Key,
    records: Vec<Items<u8>>,
    first: u32,
    send: &mut Items<Out>,
) -> Result<Items<AwaitedBlob>, AllocError>
    requires few { length records.items ≤ 16 }
    requires first { first < 2 ^ 31 }
    requires room { length send.old ≤ 16 }
    ensures { IfOk result (λ awaited. AreAdded first send.old send.new awaited (puts_from name key.now 0 records.items)) }
{
    let mut awaited = Items::new(alloc);
    for record in records {
        let out = put_request(name, key, awaited.len() as u8, record)?;
        add(out, first, send, &mut awaited)?;
    }
    Ok(awaited)
}

/// Adds the requests that read the fragments of a put, each at the site that the put names, to what an event sends under the
/// numbers from `first` on. Gives those that are awaited.
#[tactic(auto, using(crate::proofs::Adding::gets_length, crate::proofs::Adding::gets_push))]
pub fn fetch(
    alloc: Global,
    name: PutName,
    key: &Key,
    fragments: &[FragRef],
    first: u32,
    send: &mut Items<Out>,
) -> Result<Items<AwaitedBlob>, AllocError>
    requires few { length fragments.now ≤ 16 }
    requires first { first < 2 ^ 31 }
    requires room { length send.old ≤ 32 }
    ensures { IfOk result (λ awaited. AreAdded first send.old send.new awaited (gets_from name key.now 0 fragments.now)) }
{
    let mut awaited = Items::new(alloc);
    for fragment in fragments {
        let out = get_request(name, key, awaited.len() as u8, fragment)?;
        add(out, first, send, &mut awaited)?;
    }
    Ok(awaited)
}

/// Whether request `n` is awaited.
pub fn awaits_blob(awaited: &[AwaitedBlob], n: u32) -> bool
    ensures { result ≡ list_any (is_numbered n) awaited.now }
{
    awaited.iter().any(|blob| blob.number == n)
}

/// The place of request `n` among those that are awaited.
fn place_of(awaited: &[AwaitedBlob], n: u32) -> Option<usize>
    ensures place { result ≡ position (is_numbered n) awaited.now }
    ensures within { IfSome result (λ at. at < length awaited.now) }
{
    awaited.iter().position(|blob| blob.number == n)
}

/// The index of the fragment that request `n`, which is awaited, is about.
pub fn index_of(awaited: &Items<AwaitedBlob>, n: u32) -> u8
    requires { IsSome (position (is_numbered n) awaited.now) }
    ensures { (at : ℕ) → position (is_numbered n) awaited.now ≡ Some at → option_map (λ blob. blob.index) (slice_get awaited.now at) ≡ Some result }
{
    match place_of(awaited.as_slice(), n) {
        Some(at) => awaited.at(at).index,
        None => unreachable!(),
    }
}

/// Awaits request `n` no more. Takes no memory.
pub fn await_no_more(awaited: &mut Items<AwaitedBlob>, n: u32)
    ensures { awaited.new ≡ without_number n awaited.old }
{
    awaited.retain(|blob| blob.number != n);
}
