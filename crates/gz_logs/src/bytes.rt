//! The bytes that a field of a log stands for.
ghost use Rattle.std.specs.Prelude.{◌≡◌, IfOk};
ghost use Rattle.std.specs.List.{list_all};
ghost use Rattle.gz_logs.specs.Bytes.{is_lower_digit, are_lower_digits, spelled, bytes_in};

use gz_core::{Items, Why};
use gz_text::Fault;
use gz_text::fields::is_dash;
use gz_text::objects::within;
use std::alloc::{AllocError, Global};

/// Bytes in hexadecimal digits of lower case, a dash where there are none. A field of another form has the fault of this
/// word.
pub fn bytes(alloc: Global, why: Why, field: &[u8]) -> Result<Result<Items<u8>, Fault>, AllocError>
    ensures { IfOk result (λ bytes. bytes ≡ bytes_in why field.now) }
{
    if is_dash(field) {
        Ok(Ok(Items::new(alloc)))
    } else {
        spelled(alloc, why, field)
    }
}

/// The bytes that hexadecimal digits in lower case spell.
fn spelled(alloc: Global, why: Why, field: &[u8]) -> Result<Result<Items<u8>, Fault>, AllocError>
    ensures { IfOk result (λ bytes. bytes ≡ spelled why field.now) }
{
    if !are_lower_digits(field) {
        return Ok(Err(Fault::Bad(why)));
    }
    match hex::decode(alloc, field) {
        Ok(bytes) => Ok(within(bytes)),
        Err(hex::FromHexError::OutOfMemory) => Err(AllocError),
        Err(_) => Ok(Err(Fault::Bad(why))),
    }
}

/// Whether the field is hexadecimal digits in lower case, at least one.
fn are_lower_digits(field: &[u8]) -> bool
    ensures { result ≡ are_lower_digits field.now }
{
    field.len() >= 1 && all_lower_digits(field)
}

fn all_lower_digits(field: &[u8]) -> bool
    ensures { result ≡ list_all is_lower_digit field.now }
{
    field.iter().all(|byte| is_lower_digit(*byte))
}

fn is_lower_digit(byte: u8) -> bool
    ensures { result ≡ is_lower_digit byte }
{
    b'0' <= byte && byte <= b'9' || b'a' <= byte && byte <= b'f'
}
