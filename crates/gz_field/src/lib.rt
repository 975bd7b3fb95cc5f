//! The field with 256 elements: a byte stands for a polynomial over GF(2) of degree below 8, and products are taken
//! modulo x^8 + x^4 + x^3 + x^2 + 1 (0x11d).
#![tactic(auto)]

ghost use Rattle.std.specs.Prelude.{◌≡◌, ◌≢◌, ℕ, ◌*◌, ◌<◌, length, slice_index, bit_xor};
ghost use Rattle.gz_field.specs.Field.{product, carryless, IsRemainder};
ghost use Rattle.gz_field.specs.Laws.{IsFieldOfBytes, AllPowersOfTwo};

mod tables;

use tables::{HIGH_PRODUCTS, INVERSES, LOW_PRODUCTS};

/// The sum of two elements: of their polynomials, coefficient by coefficient, without carries.
pub fn add(a: u8, b: u8) -> u8
    ensures { result ≡ bit_xor a b }
{
    a ^ b
}

/// The product of two elements.
pub fn mul(a: u8, b: u8) -> u8
    ensures { result ≡ product a b }
{
    let row = usize::from(a) * 16;
    let low = LOW_PRODUCTS[row + usize::from(b % 16)];
    let high = HIGH_PRODUCTS[row + usize::from(b / 16)];
    add(low, high)
}

/// The products of an element with 0 to 15.
pub fn products_with_low(a: u8) -> &'static [u8]
    ensures long { length result.now ≡ 16 }
    ensures products { (k : ℕ) → k < 16 → slice_index result.now k ≡ product a k }
{
    let row = usize::from(a) * 16;
    &LOW_PRODUCTS[row..row + 16]
}

/// The products of an element with the multiples of 16.
pub fn products_with_high(a: u8) -> &'static [u8]
    ensures long { length result.now ≡ 16 }
    ensures products { (k : ℕ) → k < 16 → slice_index result.now k ≡ product a (k * 16) }
{
    let row = usize::from(a) * 16;
    &HIGH_PRODUCTS[row..row + 16]
}

/// The inverse of an element: the one whose product with it is 1.
pub fn inv(a: u8) -> u8
    requires { a ≢ 0 }
    ensures { product a result ≡ 1 }
{
    INVERSES[usize::from(a)]
}

/// Law: the bytes are a field.
pub fn bytes_are_a_field()
    ensures { IsFieldOfBytes bit_xor product }
{}

/// Law: the product of two elements is the remainder of their product as polynomials over GF(2), on division by
/// x^8 + x^4 + x^3 + x^2 + 1.
pub fn product_is_remainder()
    ensures { (a b : ℕ) → a < 256 → b < 256 → IsRemainder (carryless 8 a b) (product a b) }
{}

/// Law: the powers of two run through all 255 elements but 0.
pub fn powers_of_two_reach_all()
    ensures { AllPowersOfTwo }
{}
