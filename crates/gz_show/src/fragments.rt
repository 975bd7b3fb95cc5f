//! The line of a fragment.
ghost use Rattle.std.specs.Prelude.{◌≡◌, ◌++◌, IfOk, OnOk, List, ℕ, Ok, codes};
ghost use Rattle.std.specs.String.{string_bytes};
ghost use Rattle.gz_core.specs.Names.{Name};
ghost use Rattle.gz_history.specs.Log.{name_text, bytes_text};
ghost use Rattle.gz_show.specs.Shown.{IsFragmentText, MayShow, shown_fragment};
ghost use Rattle.gz_show.specs.Texts.{shape_text, fragment_text};

use crate::errors::ShowError;
use crate::names::{put_counted, put_name};
use gz_core::PutName;
use gz_fragfmt::{Fragment, Shape, decode_fragment};
use std::alloc::{AllocError, Global};

/// The line of the fragment whose record these bytes are, all of them.
pub fn show_fragment(alloc: Global, bytes: &[u8]) -> Result<Vec<u8>, ShowError>
    // What is shown is the fragment that is spelled so.
    ensures found { IfOk result (λ text. IsFragmentText bytes.now text.items) }
    // A fragment that is spelled so is shown, unless memory runs out.
    ensures only { (text : List ℕ) → IsFragmentText bytes.now text → MayShow result (Ok text) }
    // Which fault it is: the first one.
    ensures exact { MayShow result (shown_fragment bytes.now) }
{
    let fragment = decode_fragment(alloc, bytes)?;
    Ok(fragment_text(alloc, &fragment)?)
}

/// The line of a fragment.
pub fn fragment_text(alloc: Global, fragment: &Fragment) -> Result<Vec<u8>, AllocError>
    ensures { IfOk result (λ text. text.items ≡ fragment_text fragment.now) }
{
    let shape = Shape {
        index: fragment.index,
        k: fragment.k,
        m: fragment.m,
        length: fragment.length,
    };
    let numbers = numbers_text(alloc, fragment.name, shape)?;
    let piece = piece_text(alloc, fragment.piece.as_slice())?;
    let mut text = Vec::from_slice(alloc, b"key ")?;
    text.extend_from_slice(fragment.key.as_bytes())?;
    text.extend_from_slice(numbers.as_bytes())?;
    text.extend_from_slice(piece.as_bytes())?;
    Ok(text)
}

/// The name and the numbers of a fragment, after a space.
fn numbers_text(alloc: Global, name: PutName, shape: Shape) -> Result<String, AllocError>
    ensures { IfOk result (λ text. string_bytes text ≡ codes " put " ++ name_text name ++ shape_text shape.index shape.k shape.m shape.length) }
{
    let mut text = String::from_str(alloc, " put ")?;
    put_name(&mut text, name)?;
    put_shape(&mut text, shape)?;
    Ok(text)
}

fn put_shape(text: &mut String, shape: Shape) -> Result<(), AllocError>
    ensures { OnOk result (string_bytes text.new ≡ string_bytes text.old ++ shape_text shape.index shape.k shape.m shape.length) }
{
    put_counted(text, " index ", shape.index as u64)?;
    put_counted(text, " k ", shape.k as u64)?;
    put_counted(text, " m ", shape.m as u64)?;
    put_counted(text, " length ", shape.length as u64)
}

/// A piece after a space, with a dash where it has no bytes, and the end of the line.
fn piece_text(alloc: Global, piece: &[u8]) -> Result<String, AllocError>
    ensures { IfOk result (λ text. string_bytes text ≡ codes " piece " ++ bytes_text piece.now ++ codes "\n") }
{
    if piece.is_empty() {
        return String::from_str(alloc, " piece -\n");
    }
    let digits = hex::encode(alloc, piece)?;
    format!(in alloc; " piece {digits}\n")
}
