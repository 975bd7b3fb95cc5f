//! Sums of products at worked columns, by the plain body and over vectors.
ghost use Rattle.std.specs.Prelude.{◌≡◌, length, All, IfSome};

use gz_lanes::plain::combine;
use gz_lanes::{CoefficientRow, combine_rows, copy_and_combine};
use std::alloc::Global;

/// The sum of 3 times the first source and 2 times the second, at two columns.
fn two_columns() -> [u8; 2] {
    let mut sum = [9, 9];
    combine(&[3, 2], &[&[1, 0x80], &[2, 0]], &mut sum);
    sum
}

/// The row of 3 and 2, alone.
fn rows(alloc: Global) -> Option<Vec<CoefficientRow>>
    ensures { IfSome result (λ rows. All (λ row. length row ≡ 2) rows.items) }
{
    let coefficients = vec![in alloc; 3, 2].ok()?;
    let row = CoefficientRow::new(alloc, coefficients).ok()?;
    vec![in alloc; row].ok()
}

/// Whether there is one row, of 3 and 2.
fn is_row(rows: &[CoefficientRow]) -> bool {
    match rows {
        [row] => row.coefficients() == [3, 2].as_slice(),
        _ => false,
    }
}

/// Whether there is one piece, of 17 times the byte.
fn is_piece(pieces: &[Vec<u8>], byte: u8) -> bool {
    match pieces {
        [piece] => piece.as_slice() == [byte; 17].as_slice(),
        _ => false,
    }
}

/// Whether the row's sum of 17 columns is right, beside a copy of the first source and without.
fn is_summed_over_vectors(alloc: Global) -> Option<bool> {
    let rows = rows(alloc)?;
    let sources: [&[u8]; 2] = [&[1; 17], &[2; 17]];
    let (copies, pieces) = copy_and_combine(alloc, &rows, &sources, 1, 17).ok()?;
    let alone = combine_rows(alloc, &rows, &sources, 17).ok()?;
    Some(is_row(&rows) && is_piece(&copies, 1) && is_piece(&pieces, 7) && is_piece(&alone, 7))
}

#[test]
fn a_row_summed_both_ways(rt: HostRuntime) {
    assert!(rt; two_columns() == [7, 0x9d]);
    assert!(rt; is_summed_over_vectors(rt.alloc()) == Some(true));
}
