//! The pieces of an object, as lines.
ghost use Rattle.std.specs.Prelude.{◌≡◌, ◌≤◌, ◌+◌, ◌⊎◌, List, ℕ, IfOk, Ok, map, true};
ghost use Rattle.std.specs.String.{string_bytes};
ghost use Rattle.gz_site.specs.Files.{IsSomePart};
ghost use Rattle.hex.specs.Hex.{decode_of};
ghost use Rattle.gz_history.specs.Log.{bytes_text};
ghost use Rattle.gz_cli.specs.Codes.{piece_line, lines_from, IsCodeText, Codes};
ghost use Rattle.gz_cli.specs.Causes.{WriteCause};
ghost use Rattle.gz_cli.specs.Runs.{Whole};
ghost use Rattle.gz_words.specs.Words.{is_hex};

use crate::output::write;
use crate::status::Status;
use gz_code::split;
use gz_site::Sink;
use hex::FromHexError;
use std::alloc::{AllocError, Global};

/// Cuts the bytes that the digits spell into k pieces, adds m more, and writes a line for each.
pub fn write_pieces<O: Sink>(
    alloc: Global,
    k: usize,
    m: usize,
    digits: &[u8],
    out: &mut O,
) -> Status
    requires at_least_one { 1 ≤ k }
    requires within_field { k + m ≤ 256 }
    requires hex { is_hex digits.now ≡ true }
    ensures cause { WriteCause (O.faults out.old) (O.faults out.new) result }
    ensures done { result ≡ Status.Done → Codes k m digits.now (λ text. Whole (O.written out.old) text (O.written out.new)) }
    ensures part { (O.written out.new ≡ O.written out.old) ⊎ Codes k m digits.now (λ text. IsSomePart (O.written out.old) text (O.written out.new)) }
    ensures unwritten { result ≡ Status.SinkFault → Codes k m digits.now (λ text. IsSomePart (O.written out.old) text (O.written out.new)) }
{
    match text(alloc, k, m, digits) {
        Ok(text) => write(out, text.as_bytes()),
        Err(_) => Status::NoMemory,
    }
}

/// The lines of the pieces of the bytes that the digits spell.
fn text(alloc: Global, k: usize, m: usize, digits: &[u8]) -> Result<String, AllocError>
    requires at_least_one { 1 ≤ k }
    requires within_field { k + m ≤ 256 }
    requires hex { is_hex digits.now ≡ true }
    ensures { IfOk result (λ text. IsCodeText k m digits.now (string_bytes text)) }
{
    let object = object(alloc, digits)?;
    let pieces = split(alloc, k, m, object.as_slice())?;
    lines(alloc, pieces.as_slice())
}

/// The bytes that hexadecimal digits spell.
fn object(alloc: Global, digits: &[u8]) -> Result<Vec<u8>, AllocError>
    requires { is_hex digits.now ≡ true }
    ensures { IfOk result (λ object. decode_of digits.now ≡ Ok object.items) }
{
    match hex::decode(alloc, digits) {
        Ok(object) => Ok(object),
        Err(error) => Err(no_memory(error)),
    }
}

fn no_memory(error: FromHexError) -> AllocError
    requires { error ≡ FromHexError.OutOfMemory }
{
    match error {
        FromHexError::OutOfMemory => AllocError,
        _ => unreachable!(),
    }
}

/// The lines of pieces that are numbered from 0.
fn lines(alloc: Global, pieces: &[Vec<u8>]) -> Result<String, AllocError>
    ensures { IfOk result (λ text. string_bytes text ≡ lines_from 0 (map (λ piece. piece.items) pieces.now)) }
{
    let mut text = String::new(alloc);
    for (index, piece) in pieces.iter().enumerate() {
        let line = line(alloc, index, piece.as_slice())?;
        text.push_str(line.as_str())?;
    }
    Ok(text)
}

/// The line of a piece.
fn line(alloc: Global, index: usize, piece: &[u8]) -> Result<String, AllocError>
    ensures { IfOk result (λ line. string_bytes line ≡ piece_line index piece.now) }
{
    let bytes = digits(alloc, piece)?;
    let mut line = index.to_string(alloc)?;
    line.push_str(" ")?;
    line.push_str(bytes.as_str())?;
    line.push_str("\n")?;
    Ok(line)
}

/// Bytes in hexadecimal, a dash where there are none.
fn digits(alloc: Global, bytes: &[u8]) -> Result<String, AllocError>
    ensures { IfOk result (λ text. string_bytes text ≡ bytes_text bytes.now) }
{
    if bytes.is_empty() {
        return String::from_str(alloc, "-");
    }
    hex::encode(alloc, bytes)
}
