//! The plain bodies: one look-up in a row of products for each byte.
ghost use Rattle.std.specs.Prelude.{◌≡◌, ℕ, ◌<◌, ◌≤◌, length, slice_index, bit_xor, All};
ghost use Rattle.gz_field.specs.Field.{product};
ghost use Rattle.gz_lanes.specs.Combination.{IsCombined, contents, HasAdded};

use gz_field::mul;

/// The products of a coefficient with each byte.
fn products_of(coefficient: u8) -> [u8; 256]
    ensures { (k : ℕ) → k < 256 → slice_index result k ≡ product coefficient k }
{
    let mut row = [0; 256];
    for byte in 0..256 {
        row[byte] = mul(coefficient, byte as u8);
    }
    row
}

/// Adds to each byte of the sum the product of the source's byte there and the coefficient.
fn add_multiple(coefficient: u8, source: &[u8], sum: &mut [u8])
    requires { length source.now ≡ length sum.old }
    ensures { HasAdded coefficient source.now sum.old sum.new (length sum.old) }
{
    let row = products_of(coefficient);
    for i in 0..sum.len() {
        sum[i] ^= row[usize::from(source[i])];
    }
}

/// Writes to each place of the sum the combination of the sources' bytes there.
pub fn combine(coefficients: &[u8], sources: &[&[u8]], sum: &mut [u8])
    requires paired { length coefficients.now ≡ length sources.now }
    requires widths { All (λ source. length source ≡ length sum.old) (contents sources.now) }
    ensures { IsCombined coefficients.now (contents sources.now) sum.new (length sum.old) }
{
    sum.fill(0);
    for j in 0..coefficients.len() {
        add_multiple(coefficients[j], sources[j], sum);
    }
}
