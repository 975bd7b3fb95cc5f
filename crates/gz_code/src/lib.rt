//! Reed-Solomon codes: an object is cut into k data pieces, and m parity pieces are added, so that any k of the k + m
//! pieces give it back.
#![tactic(auto)]

ghost use Rattle.gz_code.specs.Laws.{FewerZerosThanCoefficients, EqualAtPointsIsEqual, SplitIsOne};

mod decode;
mod encode;
mod error;
mod interpolate;

pub use decode::join;
pub use encode::{split, split_plainly};
pub use error::CodeError;

/// Law: a polynomial of degree below k that is not 0 has fewer than k zeros.
pub fn fewer_zeros_than_coefficients()
    ensures { FewerZerosThanCoefficients }
{}

/// Law: two polynomials of degree below k that agree at k different points are equal.
pub fn equal_at_points_is_equal()
    ensures { EqualAtPointsIsEqual }
{}

/// Law: an object has one list of k + m pieces, so any two that are its split are equal.
pub fn split_is_one()
    ensures { SplitIsOne }
{}
