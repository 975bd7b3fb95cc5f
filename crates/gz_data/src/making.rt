//! An object into the records of its fragments.
ghost use Rattle.std.specs.Prelude.{◌≡◌, ℕ, List, ◌+◌, ◌<◌, ◌≤◌, length, map, IfOk};
ghost use Rattle.std.specs.List.{range_with_len};
ghost use Rattle.gz_core.specs.Configurations.{IsConfig};
ghost use Rattle.gz_data.specs.Own.{record_at, fragments_from, IsMade};

use gz_code::split;
use gz_core::{Config, FragRef, Items, Key, PutName, PutValue, SiteId};
use gz_fragfmt::{Shape, digest, encode_parts};
use std::alloc::{AllocError, Global};

/// What a put writes of its object, and the records of the fragments, by their indices.
#[derive(Drop)]
pub struct Made {
    pub put: PutValue,
    pub records: Vec<Items<u8>>,
}

/// The records of an object's pieces.
fn records_of(
    alloc: Global,
    config: &Config,
    name: PutName,
    key: &Key,
    object: &[u8],
    pieces: &[Vec<u8>],
) -> Result<Vec<Items<u8>>, AllocError>
    requires config { IsConfig config.now }
    requires few { length pieces.now ≤ 16 }
    requires bounded { length object.now ≤ 1048576 }
    ensures { IfOk result (λ records. records.items ≡ map (record_at config.now name key.now object.now (map (λ piece. piece.items) pieces.now)) (range_with_len 0 (length pieces.now))) }
{
    let mut records = Vec::with_capacity(alloc, pieces.len())?;
    for (i, piece) in pieces.iter().enumerate() {
        let shape = Shape {
            index: i as u8,
            k: config.k as u8,
            m: config.m as u8,
            length: object.len() as u32,
        };
        let record = encode_parts(alloc, key, name, shape, piece)?;
        records.push(Items::from_vec(record))?;
    }
    Ok(records)
}

/// The fragments of these records, each for the site of its index.
fn fragments_of(alloc: Global, records: &[Items<u8>]) -> Result<Items<FragRef>, AllocError>
    requires { length records.now ≤ 16 }
    ensures { IfOk result (λ fragments. (f : ℕ → List ℕ) → records.now ≡ map f (range_with_len 0 (length records.now)) → fragments ≡ fragments_from f (length records.now)) }
{
    let mut fragments = Vec::with_capacity(alloc, records.len())?;
    for (i, record) in records.iter().enumerate() {
        fragments.push(FragRef {
            site: SiteId(i as u8),
            digest: digest(record.as_slice()),
        })?;
    }
    Ok(Items::from_vec(fragments))
}

/// What a put of this name writes of its object, which it stores under the key, and the records of the fragments, the i-th for
/// site i. Each record is digested once.
pub fn make(
    alloc: Global,
    config: &Config,
    name: PutName,
    key: &Key,
    object: &[u8],
) -> Result<Made, AllocError>
    requires config { IsConfig config.now }
    requires bounded { length object.now ≤ 1048576 }
    ensures { IfOk result (λ made. IsMade config.now name key.now object.now made.put made.records.items) }
{
    let pieces = split(alloc, config.k as usize, config.m as usize, object)?;
    let records = records_of(alloc, config, name, key, object, &pieces)?;
    let fragments = fragments_of(alloc, &records)?;
    let put = PutValue {
        name,
        length: object.len() as u32,
        k: config.k as u8,
        m: config.m as u8,
        fragments,
    };
    Ok(Made { put, records })
}
