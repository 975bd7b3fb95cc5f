//! Row records are written. What is written has a record: the numbers of each part fit their fields.
ghost use Rattle.std.specs.Prelude.{◌≡◌, ◌∷◌, ◌++◌, ◌^◌, ◌<◌, ℕ, get_or, length, IfOk, OnOk, Ok};
ghost use Rattle.std.specs.List.{AllByRecursion, flat_map};
ghost use Rattle.gz_bytes.specs.Spelling.{IsName, name_bytes};
ghost use Rattle.gz_rowfmt.specs.Records.{IsFragRef, IsPut, IsValue, IsBallot, FitsVote, FitsBody, FitsColumn, HasRecord};
ghost use Rattle.gz_rowfmt.specs.Spelling.{spelling, fragment_bytes, object_bytes, put_bytes, value_bytes, ballot_bytes, vote_bytes, body_bytes, column_bytes, columns_bytes};
ghost use Rattle.gz_rowfmt.specs.Reading.{row_in};

use crate::reading::MAGIC;
use gz_core::{Ballot, Column, FragRef, PutName, PutValue, Row, Value, Version, Vote};
use std::alloc::{AllocError, Global};

fn put_name(out: &mut Vec<u8>, name: PutName) -> Result<(), AllocError>
    ensures spelled { OnOk result (out.new.items ≡ out.old.items ++ name_bytes name) }
    ensures fits { IsName name }
{
    out.extend_from_slice(&name.session_number().to_be_bytes())?;
    out.extend_from_slice(&name.seq_number().to_be_bytes())
}

fn put_ballot(out: &mut Vec<u8>, ballot: Ballot) -> Result<(), AllocError>
    ensures spelled { OnOk result (out.new.items ≡ out.old.items ++ ballot_bytes ballot) }
    ensures fits { IsBallot ballot }
{
    out.extend_from_slice(&ballot.round.to_be_bytes())?;
    out.extend_from_slice(&ballot.session.to_be_bytes())
}

fn put_digest(out: &mut Vec<u8>, digest: &[u8; 32]) -> Result<(), AllocError>
    ensures spelled { OnOk result (out.new.items ≡ out.old.items ++ digest.now) }
    ensures wide { length digest.now ≡ 32 }
    ensures fits { (i : ℕ) → get_or digest.now i 0 < 256 }
{
    out.extend_from_slice(digest)
}

fn put_fragment(out: &mut Vec<u8>, fragment: &FragRef) -> Result<(), AllocError>
    ensures spelled { OnOk result (out.new.items ≡ out.old.items ++ fragment_bytes fragment.now) }
    ensures fits { OnOk result (IsFragRef fragment.now) }
{
    out.push(fragment.site.index() as u8)?;
    put_digest(out, &fragment.digest)
}

#[tactic(auto, using(crate::proofs::Loops::all_next))]
fn put_fragments(out: &mut Vec<u8>, fragments: &[FragRef]) -> Result<(), AllocError>
    ensures spelled { OnOk result (out.new.items ≡ out.old.items ++ flat_map fragment_bytes fragments.now) }
    ensures fits { OnOk result (AllByRecursion IsFragRef fragments.now) }
{
    for fragment in fragments {
        put_fragment(out, fragment)?;
    }
    Ok(())
}

/// The length of a put's object, and the numbers of its fragments.
fn put_object(out: &mut Vec<u8>, put: &PutValue) -> Result<(), AllocError>
    ensures { OnOk result (out.new.items ≡ out.old.items ++ object_bytes put.now) }
{
    out.extend_from_slice(&put.length.to_be_bytes())?;
    out.extend_from_slice(&[put.k, put.m])
}

/// What a put says of its object.
fn put_parts(out: &mut Vec<u8>, put: &PutValue) -> Result<(), AllocError>
    ensures spelled { OnOk result (out.new.items ≡ out.old.items ++ (object_bytes put.now ++ flat_map fragment_bytes put.now.fragments)) }
    ensures fits { OnOk result (AllByRecursion IsFragRef put.now.fragments) }
{
    put_object(out, put)?;
    put_fragments(out, put.fragments.as_slice())
}

fn put_put(out: &mut Vec<u8>, put: &PutValue) -> Result<(), AllocError>
    ensures spelled { OnOk result (out.new.items ≡ out.old.items ++ put_bytes put.now) }
    ensures fits { OnOk result (IsPut put.now) }
{
    put_name(out, put.name)?;
    put_parts(out, put)
}

fn put_value(out: &mut Vec<u8>, value: &Value) -> Result<(), AllocError>
    ensures spelled { OnOk result (out.new.items ≡ out.old.items ++ value_bytes value.now) }
    ensures fits { OnOk result (IsValue value.now) }
{
    match value {
        Value::Tomb { name } => {
            out.push(0)?;
            put_name(out, *name)
        },
        Value::Put(put) => {
            out.push(1)?;
            put_put(out, put)
        },
    }
}

fn put_vote(out: &mut Vec<u8>, vote: &Vote) -> Result<(), AllocError>
    ensures spelled { OnOk result (out.new.items ≡ out.old.items ++ vote_bytes vote.now) }
    ensures fits { OnOk result (FitsVote vote.now) }
{
    put_ballot(out, vote.ballot)?;
    put_value(out, &vote.value)
}

/// The kind of a column, 0 or 1, and the ballot that it promises.
fn put_promise(out: &mut Vec<u8>, kind: u8, promise: Ballot) -> Result<(), AllocError>
    ensures spelled { OnOk result (out.new.items ≡ out.old.items ++ kind ∷ ballot_bytes promise) }
    ensures fits { IsBallot promise }
{
    out.push(kind)?;
    put_ballot(out, promise)
}

/// What a column holds.
fn put_body(out: &mut Vec<u8>, column: &Column) -> Result<(), AllocError>
    ensures spelled { OnOk result (out.new.items ≡ out.old.items ++ body_bytes column.now) }
    ensures fits { OnOk result (FitsBody column.now) }
{
    match column {
        Column::Open {
            promise,
            vote: None,
        } => put_promise(out, 0, *promise),
        Column::Open {
            promise,
            vote: Some(vote),
        } => {
            put_promise(out, 1, *promise)?;
            put_vote(out, vote)
        },
        Column::Decided { value } => {
            out.push(2)?;
            put_value(out, value)
        },
    }
}

/// A column with its version.
fn put_column(out: &mut Vec<u8>, column: &(Version, Column)) -> Result<(), AllocError>
    ensures spelled { OnOk result (out.new.items ≡ out.old.items ++ column_bytes column.now) }
    ensures fits { OnOk result (FitsColumn column.now) }
{
    let (version, body) = column;
    out.extend_from_slice(&version.number().to_be_bytes())?;
    put_body(out, body)
}

fn put_columns(out: &mut Vec<u8>, columns: &[(Version, Column)]) -> Result<(), AllocError>
    ensures spelled { OnOk result (out.new.items ≡ out.old.items ++ flat_map column_bytes columns.now) }
    ensures fits { OnOk result (AllByRecursion FitsColumn columns.now) }
{
    for column in columns {
        put_column(out, column)?;
    }
    Ok(())
}

/// How many columns there are, and the columns.
fn put_counted(out: &mut Vec<u8>, columns: &[(Version, Column)]) -> Result<(), AllocError>
    requires { length columns.now < 2 ^ 32 }
    ensures spelled { OnOk result (out.new.items ≡ out.old.items ++ columns_bytes columns.now) }
    ensures fits { OnOk result (AllByRecursion FitsColumn columns.now) }
{
    out.extend_from_slice(&(columns.len() as u32).to_be_bytes())?;
    put_columns(out, columns)
}

/// A row, from its magic on.
fn record_of(alloc: Global, row: &Row) -> Result<Vec<u8>, AllocError>
    requires { length row.now.columns < 2 ^ 32 }
    ensures spelled { IfOk result (λ bytes. bytes.items ≡ spelling row.now) }
    ensures fits { OnOk result (HasRecord row.now) }
{
    let mut bytes = Vec::new(alloc);
    bytes.extend_from_slice(&MAGIC)?;
    bytes.extend_from_slice(&row.floor().number().to_be_bytes())?;
    put_counted(&mut bytes, row.columns())?;
    Ok(bytes)
}

/// The one record of a row.
pub fn encode_row(alloc: Global, row: &Row) -> Result<Vec<u8>, AllocError>
    requires { length row.now.columns < 2 ^ 32 }
    ensures spelled { IfOk result (λ bytes. bytes.items ≡ spelling row.now) }
    // It is read back.
    ensures read { IfOk result (λ bytes. row_in bytes.items ≡ Ok row.now) }
    ensures record { OnOk result (HasRecord row.now) }
{
    record_of(alloc, row)
}
