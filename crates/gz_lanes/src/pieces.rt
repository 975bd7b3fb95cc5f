//! Pieces that hold combinations of sources, and copies of the sources, made block by block, so that a block of the sources is read
//! from afar once.
ghost use Rattle.std.specs.Prelude.{◌≡◌, ℕ, ◌+◌, ◌*◌, ◌/◌, ◌<◌, ◌≤◌, [], ◌∷◌, ◌++◌, length, map, max, min, take, slice_index, All, IfOk, IfSome, OnOk};
ghost use Rattle.gz_lanes.specs.Combination.{combination, column, contents, HasSums, IsCombined, IsSum, IsPiece, AreFour, AreCombined, AreCopies};
ghost use Rattle.std.specs.Prelude.{List};
ghost use Rattle.gz_lanes.specs.Quads.{AreQuads};

use crate::plain;
use crate::quads::quads_of;
use crate::rows::CoefficientRow;
use crate::vector::{Blocks, four_blocks, one_block, one_sum, put, sums_of_four};
use std::alloc::{AllocError, Global};
use std::simd::prelude::*;

/// How many places are summed before the sources are copied as far.
const BLOCK: usize = 1024;

/// Adds sums to a piece, which are those from its end on. `at`, `row` and `sources` are for the contract alone.
#[inline(always)]
fn append(
    sums: &[u8],
    at: usize,
    piece: &mut Vec<u8>,
    row: &CoefficientRow,
    sources: &[&[u8]],
) -> Result<(), AllocError>
    requires end { at ≡ length piece.old.items }
    requires sums_are { HasSums row.now (contents sources.now) at (length sums.now) sums.now }
    requires before { IsCombined row.now (contents sources.now) piece.old.items (length piece.old.items) }
    ensures { OnOk result (IsPiece row.now (contents sources.now) (at + length sums.now) piece.new.items) }
{
    piece.extend_from_slice(sums)?;
    Ok(())
}

/// Adds to a piece those of the 16 sums from `at` on that lie beyond its end.
#[inline(always)]
fn append_vector(
    sums: u8x16,
    at: usize,
    piece: &mut Vec<u8>,
    row: &CoefficientRow,
    sources: &[&[u8]],
) -> Result<(), AllocError>
    requires begun { at ≤ length piece.old.items }
    requires ended { length piece.old.items ≤ at + 16 }
    requires sums_are { IsSum row.now (contents sources.now) at sums }
    requires before { IsCombined row.now (contents sources.now) piece.old.items (length piece.old.items) }
    ensures { OnOk result (IsPiece row.now (contents sources.now) (at + 16) piece.new.items) }
{
    let mut block = [0; 16];
    put(sums, &mut block, 0, at, row, sources);
    let end = piece.len();
    append(&block[end - at..], end, piece, row, sources)
}

/// Adds the sums of one row to a piece, 64 at a time, so that fewer than 64 are left to the given end.
fn extend_by_blocks(
    row: &CoefficientRow,
    sources: &[&[u8]],
    end: usize,
    piece: &mut Vec<u8>,
) -> Result<(), AllocError>
    requires paired { length row.now ≡ length sources.now }
    requires some { 0 < length sources.now }
    requires inside { All (λ source. end ≤ length source) (contents sources.now) }
    requires before { length piece.old.items ≤ end }
    requires combined { IsCombined row.now (contents sources.now) piece.old.items (length piece.old.items) }
    ensures { OnOk result ((length piece.new.items ≤ end) × IsCombined row.now (contents sources.now) piece.new.items (length piece.new.items)) }
{
    for _block in 0..(end - piece.len()) / 64 {
        let at = piece.len();
        let block = one_block(row, sources, at);
        append(&block, at, piece, row, sources)?;
    }
    Ok(())
}

/// Adds the sums of one row to a piece up to the given end. The last block of 16 ends there, so that it may sum some places again.
fn extend_to(
    row: &CoefficientRow,
    sources: &[&[u8]],
    end: usize,
    piece: &mut Vec<u8>,
) -> Result<(), AllocError>
    requires paired { length row.now ≡ length sources.now }
    requires some { 0 < length sources.now }
    requires inside { All (λ source. end ≤ length source) (contents sources.now) }
    requires long { 16 ≤ end }
    requires before { length piece.old.items ≤ end }
    requires combined { IsCombined row.now (contents sources.now) piece.old.items (length piece.old.items) }
    ensures { OnOk result (IsPiece row.now (contents sources.now) end piece.new.items) }
{
    extend_by_blocks(row, sources, end, piece)?;
    for _block in 0..(end - piece.len()).div_ceil(16) {
        let at = piece.len().min(end - 16);
        let sums = one_sum(row, sources, at);
        append_vector(sums, at, piece, row, sources)?;
    }
    Ok(())
}

/// Four pieces of one length that hold the combinations of four rows so far.
struct Four {
    a: Vec<u8>,
    b: Vec<u8>,
    c: Vec<u8>,
    d: Vec<u8>,
}

impl Drop for Four {
    fn drop(self) {
        let Four {
            a: _,
            b: _,
            c: _,
            d: _,
        } = self;
    }
}

impl Four {
    /// Four empty pieces, with room for the width.
    fn new(alloc: Global, width: usize) -> Result<Four, AllocError>
        ensures { IfOk result (λ four. (length four.a.items ≡ 0) × (length four.b.items ≡ 0) × (length four.c.items ≡ 0) × (length four.d.items ≡ 0)) }
    {
        Ok(Four {
            a: Vec::with_capacity(alloc, width)?,
            b: Vec::with_capacity(alloc, width)?,
            c: Vec::with_capacity(alloc, width)?,
            d: Vec::with_capacity(alloc, width)?,
        })
    }

    /// Adds the pieces at the end of others.
    fn push_to(self, pieces: &mut Vec<Vec<u8>>) -> Result<(), AllocError>
        ensures { OnOk result (pieces.new.items ≡ (((pieces.old.items ++ (self.a ∷ [])) ++ (self.b ∷ [])) ++ (self.c ∷ [])) ++ (self.d ∷ [])) }
    {
        let Four { a, b, c, d } = self;
        pieces.push(a)?;
        pieces.push(b)?;
        pieces.push(c)?;
        pieces.push(d)?;
        Ok(())
    }
}

/// Adds the sums of four rows at 64 places to their pieces, which end there.
#[inline(always)]
fn append_four(
    blocks: &Blocks,
    at: usize,
    pieces: &mut Four,
    rows: (
        &CoefficientRow,
        &CoefficientRow,
        &CoefficientRow,
        &CoefficientRow,
    ),
    sources: &[&[u8]],
) -> Result<(), AllocError>
    requires first { HasSums rows.0.now (contents sources.now) at 64 blocks.now.a }
    requires second { HasSums rows.1.now (contents sources.now) at 64 blocks.now.b }
    requires third { HasSums rows.2.now (contents sources.now) at 64 blocks.now.c }
    requires fourth { HasSums rows.3.now (contents sources.now) at 64 blocks.now.d }
    requires pieces_are { AreFour rows.0.now rows.1.now rows.2.now rows.3.now (contents sources.now) at pieces.old.a.items pieces.old.b.items pieces.old.c.items pieces.old.d.items }
    ensures { OnOk result (AreFour rows.entry.0.now rows.entry.1.now rows.entry.2.now rows.entry.3.now (contents sources.now) (at + 64) pieces.new.a.items pieces.new.b.items pieces.new.c.items pieces.new.d.items) }
{
    append(&blocks.a, at, &mut pieces.a, rows.0, sources)?;
    append(&blocks.b, at, &mut pieces.b, rows.1, sources)?;
    append(&blocks.c, at, &mut pieces.c, rows.2, sources)?;
    append(&blocks.d, at, &mut pieces.d, rows.3, sources)
}

/// Adds to four pieces those of their 16 sums from `at` on that lie beyond their end.
#[inline(always)]
fn append_four_vectors(
    sums: (u8x16, u8x16, u8x16, u8x16),
    at: usize,
    pieces: &mut Four,
    rows: (
        &CoefficientRow,
        &CoefficientRow,
        &CoefficientRow,
        &CoefficientRow,
    ),
    sources: &[&[u8]],
) -> Result<(), AllocError>
    requires begun { at ≤ length pieces.old.a.items }
    requires ended { length pieces.old.a.items ≤ at + 16 }
    requires first { IsSum rows.0.now (contents sources.now) at sums.0 }
    requires second { IsSum rows.1.now (contents sources.now) at sums.1 }
    requires third { IsSum rows.2.now (contents sources.now) at sums.2 }
    requires fourth { IsSum rows.3.now (contents sources.now) at sums.3 }
    requires pieces_are { AreFour rows.0.now rows.1.now rows.2.now rows.3.now (contents sources.now) (length pieces.old.a.items) pieces.old.a.items pieces.old.b.items pieces.old.c.items pieces.old.d.items }
    ensures { OnOk result (AreFour rows.entry.0.now rows.entry.1.now rows.entry.2.now rows.entry.3.now (contents sources.now) (at + 16) pieces.new.a.items pieces.new.b.items pieces.new.c.items pieces.new.d.items) }
{
    append_vector(sums.0, at, &mut pieces.a, rows.0, sources)?;
    append_vector(sums.1, at, &mut pieces.b, rows.1, sources)?;
    append_vector(sums.2, at, &mut pieces.c, rows.2, sources)?;
    append_vector(sums.3, at, &mut pieces.d, rows.3, sources)
}

/// Adds the sums of four rows to their pieces, 64 at a time, so that fewer than 64 are left to the given end.
fn extend_four_by_blocks(
    constants: &Option<CoefficientRow>,
    rows: (
        &CoefficientRow,
        &CoefficientRow,
        &CoefficientRow,
        &CoefficientRow,
    ),
    sources: &[&[u8]],
    end: usize,
    pieces: &mut Four,
) -> Result<(), AllocError>
    requires quads { IfSome constants.now (λ c. AreQuads c rows.0.now rows.1.now rows.2.now rows.3.now) }
    requires paired { (length rows.0.now ≡ length sources.now) × (length rows.1.now ≡ length sources.now) × (length rows.2.now ≡ length sources.now) × (length rows.3.now ≡ length sources.now) }
    requires inside { All (λ source. end ≤ length source) (contents sources.now) }
    requires before { length pieces.old.a.items ≤ end }
    requires pieces_are { AreFour rows.0.now rows.1.now rows.2.now rows.3.now (contents sources.now) (length pieces.old.a.items) pieces.old.a.items pieces.old.b.items pieces.old.c.items pieces.old.d.items }
    ensures { OnOk result ((length pieces.new.a.items ≤ end) × AreFour rows.entry.0.now rows.entry.1.now rows.entry.2.now rows.entry.3.now (contents sources.now) (length pieces.new.a.items) pieces.new.a.items pieces.new.b.items pieces.new.c.items pieces.new.d.items) }
{
    for _block in 0..(end - pieces.a.len()) / 64 {
        let at = pieces.a.len();
        let blocks = four_blocks(constants, rows, sources, at);
        append_four(&blocks, at, pieces, rows, sources)?;
    }
    Ok(())
}

/// Adds the sums of four rows to their pieces up to the given end. The last block of 16 ends there, as with one row.
fn extend_four_to(
    constants: &Option<CoefficientRow>,
    rows: (
        &CoefficientRow,
        &CoefficientRow,
        &CoefficientRow,
        &CoefficientRow,
    ),
    sources: &[&[u8]],
    end: usize,
    pieces: &mut Four,
) -> Result<(), AllocError>
    requires quads { IfSome constants.now (λ c. AreQuads c rows.0.now rows.1.now rows.2.now rows.3.now) }
    requires paired { (length rows.0.now ≡ length sources.now) × (length rows.1.now ≡ length sources.now) × (length rows.2.now ≡ length sources.now) × (length rows.3.now ≡ length sources.now) }
    requires inside { All (λ source. end ≤ length source) (contents sources.now) }
    requires long { 16 ≤ end }
    requires before { length pieces.old.a.items ≤ end }
    requires pieces_are { AreFour rows.0.now rows.1.now rows.2.now rows.3.now (contents sources.now) (length pieces.old.a.items) pieces.old.a.items pieces.old.b.items pieces.old.c.items pieces.old.d.items }
    ensures { OnOk result (AreFour rows.entry.0.now rows.entry.1.now rows.entry.2.now rows.entry.3.now (contents sources.now) end pieces.new.a.items pieces.new.b.items pieces.new.c.items pieces.new.d.items) }
{
    extend_four_by_blocks(constants, rows, sources, end, pieces)?;
    for _block in 0..(end - pieces.a.len()).div_ceil(16) {
        let at = pieces.a.len().min(end - 16);
        let sums = sums_of_four(constants, rows, sources, at);
        append_four_vectors(sums, at, pieces, rows, sources)?;
    }
    Ok(())
}

/// Copies of the first few sources, all of them up to one place.
#[derive(Drop)]
struct Copies {
    pieces: Vec<Vec<u8>>,
    end: usize,
}

/// So many empty copies, with room for the width.
fn no_copies(alloc: Global, count: usize, width: usize) -> Result<Copies, AllocError>
    ensures { IfOk result (λ copies. (copies.end ≡ 0) × (length copies.pieces.items ≡ count) × ((sources : List (List ℕ)) → AreCopies sources 0 (map (λ piece. piece.items) copies.pieces.items))) }
{
    let mut pieces = Vec::with_capacity(alloc, count)?;
    for _copy in 0..count {
        pieces.push(Vec::with_capacity(alloc, width)?)?;
    }
    Ok(Copies { pieces, end: 0 })
}

/// Goes on with the copy of one source.
fn extend_copy(source: &[u8], from: usize, end: usize, copy: &mut Vec<u8>) -> Result<(), AllocError>
    requires onward { from ≤ end }
    requires inside { end ≤ length source.now }
    requires copied { copy.old.items ≡ take from source.now }
    ensures { OnOk result (copy.new.items ≡ take end source.now) }
{
    copy.extend_from_slice(&source[from..end])?;
    Ok(())
}

/// Copies on to the given end, unless the copies have reached it.
fn copy_to(sources: &[&[u8]], end: usize, copies: &mut Copies) -> Result<(), AllocError>
    requires few { length copies.old.pieces.items ≤ length sources.now }
    requires inside { All (λ source. end ≤ length source) (contents sources.now) }
    requires copied { AreCopies (contents sources.now) copies.old.end (map (λ piece. piece.items) copies.old.pieces.items) }
    ensures { OnOk result ((copies.new.end ≡ max copies.old.end end) × (length copies.new.pieces.items ≡ length copies.old.pieces.items) × AreCopies (contents sources.now) copies.new.end (map (λ piece. piece.items) copies.new.pieces.items)) }
{
    let from = copies.end;
    if end <= from {
        return Ok(());
    }
    for j in 0..copies.pieces.len() {
        extend_copy(sources[j], from, end, &mut copies.pieces[j])?;
    }
    copies.end = end;
    Ok(())
}

/// A piece of the width that holds the combinations of one row. The copies go on beside it.
fn combined(
    alloc: Global,
    row: &CoefficientRow,
    sources: &[&[u8]],
    width: usize,
    copies: &mut Copies,
) -> Result<Vec<u8>, AllocError>
    requires paired { length row.now ≡ length sources.now }
    requires some { 0 < length sources.now }
    requires widths { All (λ source. length source ≡ width) (contents sources.now) }
    requires long { 16 ≤ width }
    requires few { length copies.old.pieces.items ≤ length sources.now }
    requires not_beyond { copies.old.end ≤ width }
    requires copied { AreCopies (contents sources.now) copies.old.end (map (λ piece. piece.items) copies.old.pieces.items) }
    ensures piece { IfOk result (λ piece. IsPiece row.now (contents sources.now) width piece.items) }
    ensures copies { OnOk result ((copies.new.end ≤ width) × (length copies.new.pieces.items ≡ length copies.old.pieces.items) × AreCopies (contents sources.now) copies.new.end (map (λ piece. piece.items) copies.new.pieces.items)) }
{
    let mut piece = Vec::with_capacity(alloc, width)?;
    for block in 0..width.div_ceil(BLOCK) {
        let end = (block * BLOCK + BLOCK).min(width);
        extend_to(row, sources, end, &mut piece)?;
        copy_to(sources, end, copies)?;
    }
    Ok(piece)
}

/// The same by the plain bodies, with no copies.
fn combined_plainly(
    alloc: Global,
    row: &CoefficientRow,
    sources: &[&[u8]],
    width: usize,
) -> Result<Vec<u8>, AllocError>
    requires paired { length row.now ≡ length sources.now }
    requires widths { All (λ source. length source ≡ width) (contents sources.now) }
    ensures { IfOk result (λ piece. IsPiece row.now (contents sources.now) width piece.items) }
{
    let mut piece = vec![in alloc; 0; width]?;
    plain::combine(row.coefficients(), sources, &mut piece);
    Ok(piece)
}

/// Sums the rows into four empty pieces. The copies go on beside them.
fn fill_four(
    constants: &Option<CoefficientRow>,
    rows: (
        &CoefficientRow,
        &CoefficientRow,
        &CoefficientRow,
        &CoefficientRow,
    ),
    sources: &[&[u8]],
    width: usize,
    pieces: &mut Four,
    copies: &mut Copies,
) -> Result<(), AllocError>
    requires quads { IfSome constants.now (λ c. AreQuads c rows.0.now rows.1.now rows.2.now rows.3.now) }
    requires paired { (length rows.0.now ≡ length sources.now) × (length rows.1.now ≡ length sources.now) × (length rows.2.now ≡ length sources.now) × (length rows.3.now ≡ length sources.now) }
    requires widths { All (λ source. length source ≡ width) (contents sources.now) }
    requires long { 16 ≤ width }
    requires empty { (length pieces.old.a.items ≡ 0) × (length pieces.old.b.items ≡ 0) × (length pieces.old.c.items ≡ 0) × (length pieces.old.d.items ≡ 0) }
    requires few { length copies.old.pieces.items ≤ length sources.now }
    requires not_beyond { copies.old.end ≤ width }
    requires copied { AreCopies (contents sources.now) copies.old.end (map (λ piece. piece.items) copies.old.pieces.items) }
    ensures pieces { OnOk result (AreFour rows.entry.0.now rows.entry.1.now rows.entry.2.now rows.entry.3.now (contents sources.now) width pieces.new.a.items pieces.new.b.items pieces.new.c.items pieces.new.d.items) }
    ensures copies { OnOk result ((copies.new.end ≤ width) × (length copies.new.pieces.items ≡ length copies.old.pieces.items) × AreCopies (contents sources.now) copies.new.end (map (λ piece. piece.items) copies.new.pieces.items)) }
{
    for block in 0..width.div_ceil(BLOCK) {
        let end = (block * BLOCK + BLOCK).min(width);
        extend_four_to(constants, rows, sources, end, pieces)?;
        copy_to(sources, end, copies)?;
    }
    Ok(())
}

/// The pieces of four rows. The copies go on beside them.
fn combined_four(
    alloc: Global,
    rows: (
        &CoefficientRow,
        &CoefficientRow,
        &CoefficientRow,
        &CoefficientRow,
    ),
    sources: &[&[u8]],
    width: usize,
    copies: &mut Copies,
) -> Result<Four, AllocError>
    requires paired { (length rows.0.now ≡ length sources.now) × (length rows.1.now ≡ length sources.now) × (length rows.2.now ≡ length sources.now) × (length rows.3.now ≡ length sources.now) }
    requires widths { All (λ source. length source ≡ width) (contents sources.now) }
    requires long { 16 ≤ width }
    requires few { length copies.old.pieces.items ≤ length sources.now }
    requires not_beyond { copies.old.end ≤ width }
    requires copied { AreCopies (contents sources.now) copies.old.end (map (λ piece. piece.items) copies.old.pieces.items) }
    ensures pieces { IfOk result (λ pieces. AreFour rows.entry.0.now rows.entry.1.now rows.entry.2.now rows.entry.3.now (contents sources.now) width pieces.a.items pieces.b.items pieces.c.items pieces.d.items) }
    ensures copies { OnOk result ((copies.new.end ≤ width) × (length copies.new.pieces.items ≡ length copies.old.pieces.items) × AreCopies (contents sources.now) copies.new.end (map (λ piece. piece.items) copies.new.pieces.items)) }
{
    let constants = quads_of(alloc, rows)?;
    let mut pieces = Four::new(alloc, width)?;
    fill_four(&constants, rows, sources, width, &mut pieces, copies)?;
    Ok(pieces)
}

/// The pieces of all rows by the plain bodies.
fn combined_rows_plainly(
    alloc: Global,
    rows: &[CoefficientRow],
    sources: &[&[u8]],
    width: usize,
) -> Result<Vec<Vec<u8>>, AllocError>
    requires paired { All (λ row. length row ≡ length sources.now) rows.now }
    requires widths { All (λ source. length source ≡ width) (contents sources.now) }
    ensures { IfOk result (λ pieces. AreCombined rows.now (contents sources.now) width (length rows.now) (map (λ piece. piece.items) pieces.items)) }
{
    let mut pieces = Vec::with_capacity(alloc, rows.len())?;
    for at in 0..rows.len() {
        pieces.push(combined_plainly(alloc, &rows[at], sources, width)?)?;
    }
    Ok(pieces)
}

/// Adds the pieces of the four rows from `at` on to those before them. The copies go on beside them.
fn add_four(
    alloc: Global,
    rows: &[CoefficientRow],
    at: usize,
    sources: &[&[u8]],
    width: usize,
    copies: &mut Copies,
    pieces: &mut Vec<Vec<u8>>,
) -> Result<(), AllocError>
    requires four { at + 4 ≤ length rows.now }
    requires paired { All (λ row. length row ≡ length sources.now) rows.now }
    requires widths { All (λ source. length source ≡ width) (contents sources.now) }
    requires long { 16 ≤ width }
    requires few { length copies.old.pieces.items ≤ length sources.now }
    requires not_beyond { copies.old.end ≤ width }
    requires copied { AreCopies (contents sources.now) copies.old.end (map (λ piece. piece.items) copies.old.pieces.items) }
    requires before { AreCombined rows.now (contents sources.now) width at (map (λ piece. piece.items) pieces.old.items) }
    ensures pieces { OnOk result (AreCombined rows.now (contents sources.now) width (at + 4) (map (λ piece. piece.items) pieces.new.items)) }
    ensures copies { OnOk result ((copies.new.end ≤ width) × (length copies.new.pieces.items ≡ length copies.old.pieces.items) × AreCopies (contents sources.now) copies.new.end (map (λ piece. piece.items) copies.new.pieces.items)) }
{
    let group = (&rows[at], &rows[at + 1], &rows[at + 2], &rows[at + 3]);
    let four = combined_four(alloc, group, sources, width, copies)?;
    four.push_to(pieces)?;
    Ok(())
}

/// The pieces of the rows that stand in whole groups of four. The copies go on beside them.
fn combined_fours(
    alloc: Global,
    rows: &[CoefficientRow],
    sources: &[&[u8]],
    width: usize,
    copies: &mut Copies,
) -> Result<Vec<Vec<u8>>, AllocError>
    requires paired { All (λ row. length row ≡ length sources.now) rows.now }
    requires widths { All (λ source. length source ≡ width) (contents sources.now) }
    requires long { 16 ≤ width }
    requires few { length copies.old.pieces.items ≤ length sources.now }
    requires not_beyond { copies.old.end ≤ width }
    requires copied { AreCopies (contents sources.now) copies.old.end (map (λ piece. piece.items) copies.old.pieces.items) }
    ensures pieces { IfOk result (λ pieces. AreCombined rows.now (contents sources.now) width (length rows.now / 4 * 4) (map (λ piece. piece.items) pieces.items)) }
    ensures copies { OnOk result ((copies.new.end ≤ width) × (length copies.new.pieces.items ≡ length copies.old.pieces.items) × AreCopies (contents sources.now) copies.new.end (map (λ piece. piece.items) copies.new.pieces.items)) }
{
    let mut pieces = Vec::with_capacity(alloc, rows.len())?;
    for four in 0..rows.len() / 4 {
        add_four(alloc, rows, four * 4, sources, width, copies, &mut pieces)?;
    }
    Ok(pieces)
}

/// The pieces of all rows, four at a time while there are four. The copies go on beside them.
fn combined_rows(
    alloc: Global,
    rows: &[CoefficientRow],
    sources: &[&[u8]],
    width: usize,
    copies: &mut Copies,
) -> Result<Vec<Vec<u8>>, AllocError>
    requires paired { All (λ row. length row ≡ length sources.now) rows.now }
    requires some { 0 < length sources.now }
    requires widths { All (λ source. length source ≡ width) (contents sources.now) }
    requires long { 16 ≤ width }
    requires few { length copies.old.pieces.items ≤ length sources.now }
    requires not_beyond { copies.old.end ≤ width }
    requires copied { AreCopies (contents sources.now) copies.old.end (map (λ piece. piece.items) copies.old.pieces.items) }
    ensures pieces { IfOk result (λ pieces. AreCombined rows.now (contents sources.now) width (length rows.now) (map (λ piece. piece.items) pieces.items)) }
    ensures copies { OnOk result ((copies.new.end ≤ width) × (length copies.new.pieces.items ≡ length copies.old.pieces.items) × AreCopies (contents sources.now) copies.new.end (map (λ piece. piece.items) copies.new.pieces.items)) }
{
    let mut pieces = combined_fours(alloc, rows, sources, width, copies)?;
    for at in rows.len() / 4 * 4..rows.len() {
        pieces.push(combined(alloc, &rows[at], sources, width, copies)?)?;
    }
    Ok(pieces)
}

/// The pieces of all rows, by the plain bodies where the width is below 16. The copies go on beside them.
fn combined_any(
    alloc: Global,
    rows: &[CoefficientRow],
    sources: &[&[u8]],
    width: usize,
    copies: &mut Copies,
) -> Result<Vec<Vec<u8>>, AllocError>
    requires paired { All (λ row. length row ≡ length sources.now) rows.now }
    requires widths { All (λ source. length source ≡ width) (contents sources.now) }
    requires few { length copies.old.pieces.items ≤ length sources.now }
    requires not_beyond { copies.old.end ≤ width }
    requires copied { AreCopies (contents sources.now) copies.old.end (map (λ piece. piece.items) copies.old.pieces.items) }
    ensures pieces { IfOk result (λ pieces. AreCombined rows.now (contents sources.now) width (length rows.now) (map (λ piece. piece.items) pieces.items)) }
    ensures copies { OnOk result ((copies.new.end ≤ width) × (length copies.new.pieces.items ≡ length copies.old.pieces.items) × AreCopies (contents sources.now) copies.new.end (map (λ piece. piece.items) copies.new.pieces.items)) }
{
    if width < 16 || sources.is_empty() {
        return combined_rows_plainly(alloc, rows, sources, width);
    }
    combined_rows(alloc, rows, sources, width, copies)
}

/// Copies of the first `count` sources, and a piece of the width for each row, with the combinations of the sources' bytes at each place.
pub fn copy_and_combine(
    alloc: Global,
    rows: &[CoefficientRow],
    sources: &[&[u8]],
    count: usize,
    width: usize,
) -> Result<(Vec<Vec<u8>>, Vec<Vec<u8>>), AllocError>
    requires paired { All (λ row. length row ≡ length sources.now) rows.now }
    requires few { count ≤ length sources.now }
    requires widths { All (λ source. length source ≡ width) (contents sources.now) }
    ensures copies { IfOk result (λ both. map (λ piece. piece.items) both.0.items ≡ take count (contents sources.now)) }
    ensures pieces { IfOk result (λ both. AreCombined rows.now (contents sources.now) width (length rows.now) (map (λ piece. piece.items) both.1.items)) }
{
    let mut copies = no_copies(alloc, count, width)?;
    let pieces = combined_any(alloc, rows, sources, width, &mut copies)?;
    copy_to(sources, width, &mut copies)?;
    Ok((copies.pieces, pieces))
}

/// A piece of the width for each row, with the combinations of the sources' bytes at each place.
pub fn combine_rows(
    alloc: Global,
    rows: &[CoefficientRow],
    sources: &[&[u8]],
    width: usize,
) -> Result<Vec<Vec<u8>>, AllocError>
    requires paired { All (λ row. length row ≡ length sources.now) rows.now }
    requires widths { All (λ source. length source ≡ width) (contents sources.now) }
    ensures { IfOk result (λ pieces. AreCombined rows.now (contents sources.now) width (length rows.now) (map (λ piece. piece.items) pieces.items)) }
{
    let (_, pieces) = copy_and_combine(alloc, rows, sources, 0, width)?;
    Ok(pieces)
}
