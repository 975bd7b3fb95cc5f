//! Fragment records are written, each in one list that is as long as it needs.
ghost use Rattle.std.specs.Prelude.{◌≡◌, ◌++◌, IfOk, OnOk};
ghost use Rattle.gz_fragfmt.specs.Fragments.{fragment_of};
ghost use Rattle.gz_bytes.specs.Spelling.{name_bytes};
ghost use Rattle.gz_fragfmt.specs.Spelling.{spelling, string, shape_bytes};

use crate::fragments::{Fragment, Shape};
use crate::reading::MAGIC;
use gz_core::{Key, PutName};
use std::alloc::{AllocError, Global};

fn put_key(out: &mut Vec<u8>, key: &Key) -> Result<(), AllocError>
    ensures { OnOk result (out.new.items ≡ out.old.items ++ string key.now) }
{
    let bytes = key.as_bytes();
    out.push(bytes.len() as u8)?;
    out.extend_from_slice(bytes)
}

fn put_name(out: &mut Vec<u8>, name: PutName) -> Result<(), AllocError>
    ensures { OnOk result (out.new.items ≡ out.old.items ++ name_bytes name) }
{
    out.extend_from_slice(&name.session_number().to_be_bytes())?;
    out.extend_from_slice(&name.seq_number().to_be_bytes())
}

fn put_shape(out: &mut Vec<u8>, shape: Shape) -> Result<(), AllocError>
    ensures { OnOk result (out.new.items ≡ out.old.items ++ shape_bytes shape.index shape.k shape.m shape.length) }
{
    out.extend_from_slice(&[shape.index, shape.k, shape.m])?;
    out.extend_from_slice(&shape.length.to_be_bytes())
}

/// All that stands between the magic and the piece.
fn put_header(out: &mut Vec<u8>, key: &Key, name: PutName, shape: Shape) -> Result<(), AllocError>
    ensures { OnOk result (out.new.items ≡ out.old.items ++ (string key.now ++ (name_bytes name ++ shape_bytes shape.index shape.k shape.m shape.length))) }
{
    put_key(out, key)?;
    put_name(out, name)?;
    put_shape(out, shape)
}

/// The record of the fragment with these parts.
pub fn encode_parts(
    alloc: Global,
    key: &Key,
    name: PutName,
    shape: Shape,
    piece: &[u8],
) -> Result<Vec<u8>, AllocError>
    ensures { IfOk result (λ bytes. bytes.items ≡ spelling (fragment_of key.now name shape piece.now)) }
{
    let mut bytes = Vec::with_capacity(alloc, HEADER_BYTES + key.as_bytes().len() + piece.len())?;
    bytes.extend_from_slice(&MAGIC)?;
    put_header(&mut bytes, key, name, shape)?;
    bytes.extend_from_slice(piece)?;
    Ok(bytes)
}

/// How many bytes stand before the piece, those of the key apart.
const HEADER_BYTES: usize = 20;

/// The one record of a fragment.
pub fn encode_fragment(alloc: Global, fragment: &Fragment) -> Result<Vec<u8>, AllocError>
    ensures { IfOk result (λ bytes. bytes.items ≡ spelling fragment.now) }
{
    let shape = Shape {
        index: fragment.index,
        k: fragment.k,
        m: fragment.m,
        length: fragment.length,
    };
    encode_parts(
        alloc,
        &fragment.key,
        fragment.name,
        shape,
        fragment.piece.as_slice(),
    )
}
