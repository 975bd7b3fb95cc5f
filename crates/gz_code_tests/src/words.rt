//! Code words: worked ones, refusals, any pieces in place of all, and the plain body beside the one over vectors.
ghost use Rattle.std.specs.Prelude.{◌+◌, ◌≤◌};

use gz_code::{CodeError, join, split, split_plainly};
use std::alloc::{AllocError, Global};
use std::test::Fail;

/// Into how many pieces an object is cut, how many are added, the object, and all pieces.
const WORDS: &[(usize, usize, &[u8], &[&[u8]])] = &[
    (2, 1, &[1, 2], &[&[1], &[2], &[7]]),
    (2, 1, &[0x80, 0], &[&[0x80], &[0], &[0x9d]]),
    (2, 1, &[1, 2, 3], &[&[1, 2], &[3, 0], &[5, 6]]),
    (3, 1, &[5, 6, 7], &[&[5], &[6], &[7], &[4]]),
    (1, 0, &[0], &[&[0]]),
    (2, 1, &[], &[&[], &[], &[]]),
];

fn are(pieces: &[Vec<u8>], words: &[&[u8]]) -> bool {
    for (piece, word) in pieces.iter().zip(words) {
        if piece.as_slice() != *word {
            return false;
        }
    }
    pieces.len() == words.len()
}

/// Whether an object is cut into these pieces.
fn is_cut(alloc: Global, k: usize, m: usize, object: &[u8], words: &[&[u8]]) -> bool {
    if k < 1 || k > 3 || m > 1 {
        return false;
    }
    match split(alloc, k, m, object) {
        Err(_) => false,
        Ok(pieces) => are(&pieces, words),
    }
}

#[test]
fn worked_code_words(rt: HostRuntime) {
    for (k, m, object, words) in WORDS {
        assert!(rt; is_cut(rt.alloc(), *k, *m, object, words));
    }
}

/// The pieces of these indices, with the same number of bytes each.
fn given(alloc: Global, pieces: &[(usize, &[u8])]) -> Result<Vec<(usize, Vec<u8>)>, AllocError> {
    let mut given = Vec::new(alloc);
    for (index, piece) in pieces {
        given.push((*index, Vec::from_slice(alloc, piece)?))?;
    }
    Ok(given)
}

/// What comes of these pieces of two bytes that were cut into 2 + 1.
fn joined(alloc: Global, pieces: &[(usize, &[u8])]) -> Result<Vec<u8>, CodeError> {
    let pieces = given(alloc, pieces)?;
    join(alloc, 2, 1, 2, &pieces)
}

/// Whether this comes of the pieces.
fn is_joined(alloc: Global, pieces: &[(usize, &[u8])], wanted: &Result<&[u8], CodeError>) -> bool {
    match joined(alloc, pieces) {
        Ok(object) => *wanted == Ok(object.as_slice()),
        Err(error) => *wanted == Err(error),
    }
}

/// Pieces, and the object that they give or why they are refused.
const JOINED: &[(&[(usize, &[u8])], Result<&[u8], CodeError>)] = &[
    (&[(1, &[2]), (2, &[7])], Ok(&[1, 2])),
    (&[(0, &[1])], Err(CodeError::TooFew { have: 1, need: 2 })),
    (
        &[(0, &[1]), (0, &[1])],
        Err(CodeError::Repeated { index: 0 }),
    ),
    (
        &[(0, &[1]), (1, &[2, 2])],
        Err(CodeError::Width { index: 1 }),
    ),
    (&[(3, &[1])], Err(CodeError::Index { index: 3 })),
    (&[(0, &[1, 1])], Err(CodeError::Width { index: 0 })),
    (
        &[(2, &[1, 1]), (2, &[1]), (9, &[1])],
        Err(CodeError::Index { index: 9 }),
    ),
];

#[test]
fn pieces_joined_or_refused(rt: HostRuntime) {
    for (pieces, wanted) in JOINED {
        assert!(rt; is_joined(rt.alloc(), pieces, wanted));
    }
}

/// Those of the pieces that a choice has the bit of.
fn chosen(
    alloc: Global,
    pieces: &[Vec<u8>],
    choice: u32,
) -> Result<Vec<(usize, Vec<u8>)>, AllocError> {
    let mut chosen = Vec::new(alloc);
    let mut left = choice;
    for (index, piece) in pieces.iter().enumerate() {
        if left % 2 == 1 {
            chosen.push((index, piece.clone()?))?;
        }
        left /= 2;
    }
    Ok(chosen)
}

/// Bytes of a linear congruential generator.
fn sample(alloc: Global, len: usize) -> Result<Vec<u8>, AllocError> {
    let mut bytes = Vec::new(alloc);
    let mut state = 1u8;
    for _ in 0..len {
        state = state.wrapping_mul(29).wrapping_add(113);
        bytes.push(state)?;
    }
    Ok(bytes)
}

/// Whether the pieces that a choice takes give the object back, or are fewer than k.
fn gives_back(
    alloc: Global,
    k: usize,
    m: usize,
    object: &[u8],
    pieces: &[Vec<u8>],
    choice: u32,
) -> Result<bool, CodeError>
    requires at_least_one { 1 ≤ k }
    requires within_field { k + m ≤ 256 }
{
    let given = chosen(alloc, pieces, choice)?;
    if given.len() < k {
        return Ok(true);
    }
    let joined = join(alloc, k, m, object.len(), &given)?;
    Ok(joined.as_slice() == object)
}

/// Whether any k of the first six pieces give the object back.
fn any_give_back(alloc: Global, k: usize, m: usize, object: &[u8]) -> Result<bool, CodeError>
    requires at_least_one { 1 ≤ k }
    requires within_field { k + m ≤ 256 }
{
    let pieces = split(alloc, k, m, object)?;
    for choice in 0..64u32 {
        if !gives_back(alloc, k, m, object, &pieces, choice)? {
            return Ok(false);
        }
    }
    Ok(true)
}

/// Joins any pieces of an object, which is cut into up to six in each way; else the k and the pieces that it fails at.
fn join_any(alloc: Global, object: &[u8]) -> Result<(), (usize, usize)> {
    for count in 1..7usize {
        for k in 1..count + 1 {
            if any_give_back(alloc, k, count - k, object) != Ok(true) {
                return Err((k, count));
            }
        }
    }
    Ok(())
}

#[test]
fn any_pieces_give_back(rt: HostRuntime) -> Result<(), Fail> {
    let object = sample(rt.alloc(), 103)?;
    join_any(rt.alloc(), &object)?;
    Ok(())
}

/// Whether both bodies cut an object into the same pieces, k of the 20 with its bytes.
fn bodies_agree(alloc: Global, k: usize, object: &[u8]) -> Result<bool, AllocError>
    requires at_least_one { 1 ≤ k }
    requires at_most_all { k ≤ 20 }
{
    let pieces = split(alloc, k, 20 - k, object)?;
    Ok(pieces == split_plainly(alloc, k, 20 - k, object)?)
}

/// Cuts parts of an object by both bodies; else the k and the width that they differ at.
fn cut_by_both(alloc: Global, object: &[u8]) -> Result<(), (usize, usize)> {
    for k in 1..21usize {
        for width in 0..71usize {
            let len = (k * width).saturating_sub(k / 2).min(object.len());
            if bodies_agree(alloc, k, &object[..len]) != Ok(true) {
                return Err((k, width));
            }
        }
    }
    Ok(())
}

/// Cuts parts of an object into 2 and more, by both bodies, and joins them; else the width that this fails at. Over
/// vectors pieces are summed in blocks of 1,024 places.
fn cut_across_blocks(alloc: Global, object: &[u8]) -> Result<(), usize> {
    for width in [1023, 1024, 1025, 2049usize] {
        let part = &object[..(2 * width).min(object.len())];
        let agree = bodies_agree(alloc, 2, part) == Ok(true);
        if !agree || any_give_back(alloc, 2, 2, part) != Ok(true) {
            return Err(width);
        }
    }
    Ok(())
}

#[test]
fn both_bodies_agree(rt: HostRuntime) -> Result<(), Fail> {
    let object = sample(rt.alloc(), 4098)?;
    cut_by_both(rt.alloc(), &object)?;
    cut_across_blocks(rt.alloc(), &object)?;
    Ok(())
}
