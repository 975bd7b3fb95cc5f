//! The forms of fields: numbers, sites and keys.
ghost use Rattle.std.specs.Prelude.{◌≡◌, ◌==◌, ◌<◌, ◌≤◌, ◌^◌, IfOk, IsTrue, min, slice_index, map, filter_map};
ghost use Rattle.std.specs.List.{list_all};
ghost use Rattle.std.specs.Char.{is_ascii_digit};
ghost use Rattle.gz_text.specs.Fields.{is_numeral, value_of, number_below, number_field, from_one, positive_below, is_printable, is_key_field, key_field, is_dash};

use gz_core::Key;
use std::alloc::{AllocError, Global};

/// Whether the field is decimal digits without leading zeros, except 0 itself.
fn is_numeral(field: &[u8]) -> bool
    ensures { result ≡ is_numeral field.now }
{
    are_digits(field) && (first(field) > b'0' || field.len() == 1)
}

fn are_digits(field: &[u8]) -> bool
    ensures { result ≡ list_all is_ascii_digit field.now }
{
    field.iter().all(|byte| byte.is_ascii_digit())
}

/// The first byte, 0 where there is none.
fn first(field: &[u8]) -> u8
    ensures { result ≡ slice_index field.now 0 }
{
    match field {
        [first, ..] => *first,
        [] => 0,
    }
}

/// The number that decimal digits spell, or the bound where it is greater.
fn value(digits: &[u8], bound: u64) -> u64
    requires { IsTrue (is_numeral digits.now) }
    ensures { result ≡ min (value_of digits.now) bound }
{
    let bound = bound as u128;
    let mut value = 0u128;
    for digit in digits {
        value = (value * 10 + digit.saturating_sub(b'0') as u128).min(bound);
    }
    value as u64
}

/// A number below a bound.
pub fn number_below(field: &[u8], bound: u64) -> Option<u64>
    ensures { result ≡ number_below bound field.now }
{
    if !is_numeral(field) {
        return None;
    }
    let value = value(field, bound);
    if value < bound { Some(value) } else { None }
}

/// A number from 1 on below a bound.
pub fn positive_below(field: &[u8], bound: u64) -> Option<u64>
    ensures { result ≡ positive_below bound field.now }
{
    let number = number_below(field, bound)?;
    if number >= 1 { Some(number) } else { None }
}

/// A number from 0 to 4294967295.
pub fn number(field: &[u8]) -> Option<u32>
    ensures { result ≡ number_field field.now }
{
    let number = number_below(field, 1 << 32)?;
    Some(number as u32)
}

/// A number from 1 to 4294967295.
pub fn positive(field: &[u8]) -> Option<u32>
    ensures { result ≡ positive_below (2 ^ 32) field.now }
{
    let number = positive_below(field, 1 << 32)?;
    Some(number as u32)
}

/// Whether the field is a key.
fn is_key(field: &[u8]) -> bool
    ensures { result ≡ is_key_field field.now }
{
    field.len() >= 1 && field.len() <= 255 && are_printable(field)
}

fn are_printable(field: &[u8]) -> bool
    ensures { result ≡ list_all is_printable field.now }
{
    field.iter().all(|byte| 0x21 <= *byte && *byte <= 0x7e)
}

/// A key.
pub fn key(alloc: Global, field: &[u8]) -> Result<Option<Key>, AllocError>
    ensures { IfOk result (λ key. key ≡ key_field field.now) }
{
    if !is_key(field) {
        return Ok(None);
    }
    let bytes = Vec::from_slice(alloc, field)?;
    Ok(Key::new(bytes))
}

/// Whether the field is a dash, which stands for nothing.
pub fn is_dash(field: &[u8]) -> bool
    ensures { result ≡ is_dash field.now }
{
    field == b"-".as_slice()
}
