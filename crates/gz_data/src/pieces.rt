//! The piece of a record that came for a fragment, and the object from pieces.
ghost use Rattle.std.specs.Prelude.{◌≡◌, ◌+◌, ◌<◌, ◌≤◌, length, option_map, IfOk};
ghost use Rattle.gz_code.specs.declared.error.CodeError.{CodeError};
ghost use Rattle.gz_fragfmt.specs.Fragments.{parts_at};
ghost use Rattle.gz_data.specs.Records.{same_header, IsFragmentByPiece, fragment_at, record_piece, whole_piece};
ghost use Rattle.gz_data.specs.Whole.{pieces_of, ArePieces, IsRebuilt};

use gz_code::{CodeError, join};
use gz_core::{Key, PutValue};
use gz_fragfmt::{Parts, digest, read_fragment};
use std::alloc::{AllocError, Global};

/// The parts of a value's fragment but for its piece.
fn header_of<'a>(key: &'a Key, put: &PutValue, index: u8) -> Parts<'a>
    requires { index < put.now.k + put.now.m }
    ensures parts { parts_at result ≡ fragment_at key.now put.now index }
    ensures rules { IsFragmentByPiece (parts_at result) }
{
    Parts {
        key: key.as_bytes(),
        session: put.name.session_number(),
        seq: put.name.seq_number(),
        index,
        k: put.k,
        m: put.m,
        length: put.length,
        piece: &[],
    }
}

/// Whether two records have the same parts but for their pieces.
fn have_same_header(one: &Parts<'_>, other: &Parts<'_>) -> bool
    ensures { result ≡ same_header (parts_at one.now) (parts_at other.now) }
{
    one.key == other.key
        && one.session == other.session
        && one.seq == other.seq
        && one.index == other.index
        && one.k == other.k
        && one.m == other.m
        && one.length == other.length
}

/// The piece of a record that has the parts of this header.
fn record_piece<'a>(header: &Parts<'_>, bytes: &'a [u8]) -> Option<&'a [u8]>
    requires { IsFragmentByPiece (parts_at header.now) }
    ensures { option_map (λ piece. piece.now) result ≡ record_piece (parts_at header.now) bytes.now }
{
    match read_fragment(bytes) {
        Ok(parts) => {
            if have_same_header(&parts, header) {
                Some(parts.piece)
            } else {
                None
            }
        },
        Err(_) => None,
    }
}

/// The piece of the bytes that came for a fragment of a value, where they are whole: the fragment's record, with the digest that
/// the value names. Takes no memory, and digests nothing that is no record of the fragment.
#[tactic(auto, unfolding(crate::specs::Records::record_piece, crate::specs::Records::checked_piece))]
pub fn piece_of<'a>(key: &Key, put: &PutValue, index: u8, bytes: &'a [u8]) -> Option<&'a [u8]>
    requires { index < put.now.k + put.now.m }
    ensures { option_map (λ piece. piece.now) result ≡ whole_piece key.now put.now index bytes.now }
{
    let header = header_of(key, put, index);
    let piece = record_piece(&header, bytes)?;
    let fragment = put.fragments.at(index as usize);
    if digest(bytes) == fragment.digest {
        Some(piece)
    } else {
        None
    }
}

/// The want of memory that was all that a join refused.
fn want_of_memory(error: CodeError) -> AllocError
    requires { error ≡ CodeError.NoMemory }
{
    match error {
        CodeError::NoMemory => AllocError,
        _ => unreachable!(),
    }
}

/// The object of a value from k of its pieces, each with the index of its fragment.
pub fn rebuild(
    alloc: Global,
    put: &PutValue,
    pieces: &[(usize, Vec<u8>)],
) -> Result<Vec<u8>, AllocError>
    requires pieces { ArePieces put.now (pieces_of pieces.now) }
    requires enough { length pieces.now ≡ put.now.k }
    ensures { IfOk result (λ bytes. IsRebuilt put.now.k put.now.m put.now.length (pieces_of pieces.now) bytes.items) }
{
    match join(
        alloc,
        put.k as usize,
        put.m as usize,
        put.length as usize,
        pieces,
    ) {
        Ok(bytes) => Ok(bytes),
        Err(error) => Err(want_of_memory(error)),
    }
}
