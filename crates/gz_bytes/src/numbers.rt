//! Bytes, and numbers, which are big-endian.
ghost use Rattle.std.specs.Prelude.{◌≡◌, ◌+◌, length, IfOk};
ghost use Rattle.std.specs.Int.{w32, w64};
ghost use Rattle.gz_bytes.specs.Steps.{Gives};
ghost use Rattle.gz_bytes.specs.Fields.{bytes_at, byte_at, number_at};

use crate::faults::Fault;

/// The first `count` bytes.
pub fn bytes_of(count: usize, at: usize, bytes: &[u8]) -> Result<(&[u8], &[u8]), Fault>
    ensures gives { Gives (λ x. (x.0.now, x.1.now)) result (bytes_at count at bytes.now) }
    ensures long { IfOk result (λ x. length x.0.now ≡ count) }
    ensures left { IfOk result (λ x. count + length x.1.now ≡ length bytes.now) }
{
    if bytes.len() < count {
        return Err(Fault::Short { at });
    }
    Ok(bytes.split_at(count))
}

/// A number of one byte.
pub fn byte_of(at: usize, bytes: &[u8]) -> Result<(u8, &[u8]), Fault>
    ensures gives { Gives (λ x. (x.0, x.1.now)) result (byte_at at bytes.now) }
    ensures left { IfOk result (λ x. 1 + length x.1.now ≡ length bytes.now) }
{
    match bytes {
        [] => Err(Fault::Short { at }),
        [byte, rest @ ..] => Ok((*byte, rest)),
    }
}

/// A number of four bytes.
pub fn u32_of(at: usize, bytes: &[u8]) -> Result<(u32, &[u8]), Fault>
    ensures gives { Gives (λ x. (x.0, x.1.now)) result (number_at w32 at bytes.now) }
    ensures left { IfOk result (λ x. 4 + length x.1.now ≡ length bytes.now) }
{
    if bytes.len() < 4 {
        return Err(Fault::Short { at });
    }
    let (front, rest) = bytes.split_at(4);
    let number = u32::from_be_bytes([front[0], front[1], front[2], front[3]]);
    Ok((number, rest))
}

/// A number of eight bytes.
pub fn u64_of(at: usize, bytes: &[u8]) -> Result<(u64, &[u8]), Fault>
    ensures gives { Gives (λ x. (x.0, x.1.now)) result (number_at w64 at bytes.now) }
    ensures left { IfOk result (λ x. 8 + length x.1.now ≡ length bytes.now) }
{
    if bytes.len() < 8 {
        return Err(Fault::Short { at });
    }
    let (front, rest) = bytes.split_at(8);
    let number = u64::from_be_bytes([
        front[0], front[1], front[2], front[3], front[4], front[5], front[6], front[7],
    ]);
    Ok((number, rest))
}
