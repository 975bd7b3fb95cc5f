//! Objects to code, and sums of what comes of them.
use std::alloc::{AllocError, Global};

/// A piece, with its index.
pub type Piece = (usize, Vec<u8>);

/// `len` bytes of a linear congruential generator.
pub fn object_of(alloc: Global, seed: u32, len: usize) -> Result<Vec<u8>, AllocError> {
    let mut object = Vec::with_capacity(alloc, len)?;
    let mut state = seed;
    for _ in 0..len {
        state = state.wrapping_mul(1_664_525).wrapping_add(1_013_904_223);
        object.push((state >> 24) as u8)?;
    }
    Ok(object)
}

/// The sum, modulo 2^64, of the bytes of all pieces, each times its place among all of them, from 1.
pub fn checksum(pieces: &[Vec<u8>]) -> u64 {
    let mut sum = 0u64;
    let mut place = 1u64;
    for piece in pieces {
        for byte in piece {
            sum = sum.wrapping_add(place.wrapping_mul(u64::from(*byte)));
            place = place.wrapping_add(1);
        }
    }
    sum
}

/// The last `count` of the pieces, with their indices.
pub fn last_pieces(
    alloc: Global,
    pieces: Vec<Vec<u8>>,
    count: usize,
) -> Result<Vec<Piece>, AllocError> {
    let skipped = pieces.len().saturating_sub(count);
    let mut last = Vec::new(alloc);
    let mut index = 0usize;
    for piece in pieces {
        if index >= skipped {
            last.push((index, piece))?;
        }
        index = index.saturating_add(1);
    }
    Ok(last)
}
