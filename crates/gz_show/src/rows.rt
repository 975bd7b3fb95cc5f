//! The lines of a row: its floor, and its columns.
ghost use Rattle.std.specs.Prelude.{◌≡◌, ◌++◌, IfOk, OnOk, List, ℕ, Ok, flat_map};
ghost use Rattle.std.specs.String.{string_bytes};
ghost use Rattle.gz_show.specs.Shown.{IsRowText, MayShow, shown_row};
ghost use Rattle.gz_show.specs.Texts.{fragment_ref_text, object_text, value_text, vote_text, column_text, column_line, floor_line, row_text};

use crate::errors::ShowError;
use crate::names::{put_ballot, put_counted, put_name};
use gz_core::{Column, FragRef, PutValue, Row, Value, Version, Vote};
use gz_rowfmt::decode_row;
use std::alloc::{AllocError, Global};
use std::fmt::Write;

/// The lines of the row whose record these bytes are, all of them.
pub fn show_row(alloc: Global, bytes: &[u8]) -> Result<Vec<u8>, ShowError>
    // What is shown is the row that is spelled so.
    ensures found { IfOk result (λ text. IsRowText bytes.now text.items) }
    // A row that is spelled so is shown, unless memory runs out.
    ensures only { (text : List ℕ) → IsRowText bytes.now text → MayShow result (Ok text) }
    // Which fault it is: the first one.
    ensures exact { MayShow result (shown_row bytes.now) }
{
    let row = decode_row(alloc, bytes)?;
    Ok(row_text(alloc, &row)?)
}

/// The lines of a row: that of its floor, and one for each column.
pub fn row_text(alloc: Global, row: &Row) -> Result<Vec<u8>, AllocError>
    ensures { IfOk result (λ text. text.items ≡ row_text row.now) }
{
    let mut text = String::new(alloc);
    put_floor(&mut text, row.floor())?;
    put_columns(alloc, &mut text, row.columns())?;
    Ok(text.into_bytes())
}

fn put_floor(text: &mut String, floor: Version) -> Result<(), AllocError>
    ensures { OnOk result (string_bytes text.new ≡ string_bytes text.old ++ floor_line floor) }
{
    put_counted(text, "floor ", floor.number())?;
    text.push_str("\n")
}

fn put_columns(
    alloc: Global,
    text: &mut String,
    columns: &[(Version, Column)],
) -> Result<(), AllocError>
    ensures { OnOk result (string_bytes text.new ≡ string_bytes text.old ++ flat_map column_line columns.now) }
{
    for column in columns {
        put_line(alloc, text, column)?;
    }
    Ok(())
}

/// The line of a column.
fn put_line(alloc: Global, text: &mut String, column: &(Version, Column)) -> Result<(), AllocError>
    ensures { OnOk result (string_bytes text.new ≡ string_bytes text.old ++ column_line column.now) }
{
    let (version, body) = column;
    put_counted(text, "", version.number())?;
    put_column(alloc, text, body)?;
    text.push_str("\n")
}

/// What a column holds, after a space.
fn put_column(alloc: Global, text: &mut String, column: &Column) -> Result<(), AllocError>
    ensures { OnOk result (string_bytes text.new ≡ string_bytes text.old ++ column_text column.now) }
{
    match column {
        Column::Open {
            promise,
            vote: None,
        } => {
            text.push_str(" open ")?;
            put_ballot(text, *promise)
        },
        Column::Open {
            promise,
            vote: Some(vote),
        } => {
            text.push_str(" open ")?;
            put_ballot(text, *promise)?;
            put_vote(alloc, text, vote)
        },
        Column::Decided { value } => {
            text.push_str(" decided ")?;
            put_value(alloc, text, value)
        },
    }
}

/// A vote that stands, after a space.
fn put_vote(alloc: Global, text: &mut String, vote: &Vote) -> Result<(), AllocError>
    ensures { OnOk result (string_bytes text.new ≡ string_bytes text.old ++ vote_text vote.now) }
{
    text.push_str(" vote ")?;
    put_ballot(text, vote.ballot)?;
    text.push_str(" ")?;
    put_value(alloc, text, &vote.value)
}

fn put_value(alloc: Global, text: &mut String, value: &Value) -> Result<(), AllocError>
    ensures { OnOk result (string_bytes text.new ≡ string_bytes text.old ++ value_text value.now) }
{
    match value {
        Value::Tomb { name } => {
            text.push_str("tomb ")?;
            put_name(text, *name)
        },
        Value::Put(put) => {
            put_object(text, put)?;
            put_fragments(alloc, text, put.fragments.as_slice())
        },
    }
}

/// What a put says of its object.
fn put_object(text: &mut String, put: &PutValue) -> Result<(), AllocError>
    ensures { OnOk result (string_bytes text.new ≡ string_bytes text.old ++ object_text put.now) }
{
    text.push_str("put ")?;
    put_name(text, put.name)?;
    put_counted(text, " ", put.length as u64)?;
    put_counted(text, " ", put.k as u64)?;
    put_counted(text, "+", put.m as u64)
}

fn put_fragments(alloc: Global, text: &mut String, fragments: &[FragRef]) -> Result<(), AllocError>
    ensures { OnOk result (string_bytes text.new ≡ string_bytes text.old ++ flat_map fragment_ref_text fragments.now) }
{
    for fragment in fragments {
        put_fragment(alloc, text, fragment)?;
    }
    Ok(())
}

/// The site of a fragment and its digest, after a space.
fn put_fragment(alloc: Global, text: &mut String, fragment: &FragRef) -> Result<(), AllocError>
    ensures { OnOk result (string_bytes text.new ≡ string_bytes text.old ++ fragment_ref_text fragment.now) }
{
    let site = fragment.site.index();
    let digest = hex::encode(alloc, &fragment.digest)?;
    write!(text, " {site}:{digest}")
}
