//! What a reply shows of a site.
ghost use Rattle.std.specs.Prelude.{◌≡◌, ◌<◌, ◌+◌, ◌^◌, length, slice_get, Option, Some, None, IfOk};
ghost use Rattle.gz_core.specs.Rows.{RowAt};
ghost use Rattle.std.specs.List.{list_all};
ghost use Rattle.gz_round.specs.Sites.{fragment_stands, value_stands, vote_stands, column_stands, entry_stands, can_stand, if_it_stands, as_heard, seen_in};
ghost use Rattle.gz_round.specs.declared.run.Mark.{Mark};
ghost use Rattle.gz_round.specs.Noting.{heard_run, overtaken_run, left_run};

use crate::run::{Mark, Run};
use gz_core::{Column, Etag, FragRef, Reply, Row, Value, Version, Vote};
use std::alloc::{AllocError, Global};

/// A row that was heard, and the tag that it stands under (none: there was no row).
#[derive(Drop)]
pub struct Seen {
    pub etag: Option<Etag>,
    pub row: Row,
}

/// Versions and floors that a run reaches lie below this one.
const VERSIONS: u64 = 1 << 62;

/// Rounds that a run reaches lie below this one.
const ROUNDS: u32 = 1 << 31;

/// A row of a run has fewer columns.
const COLUMNS: usize = 1 << 22;

/// Whether a run over `n` sites can hold the row. One that no run can hold is not heard.
pub fn can_stand(n: u16, row: &Row) -> bool
    ensures { result ≡ can_stand n row.now }
{
    row.floor().number() < VERSIONS
        && row.columns().len() < COLUMNS
        && columns_stand(n, row.columns())
}

fn columns_stand(n: u16, columns: &[(Version, Column)]) -> bool
    ensures { result ≡ list_all (entry_stands n) columns.now }
{
    for entry in columns {
        if !entry_stands(n, entry) {
            return false;
        }
    }
    true
}

fn entry_stands(n: u16, entry: &(Version, Column)) -> bool
    ensures { result ≡ entry_stands n entry.now }
{
    entry.0.number() < VERSIONS && column_stands(n, &entry.1)
}

fn column_stands(n: u16, column: &Column) -> bool
    ensures { result ≡ column_stands n column.now }
{
    match column {
        Column::Open { promise, vote } => promise.round < ROUNDS && vote_stands(n, vote),
        Column::Decided { value } => value_stands(n, value),
    }
}

fn vote_stands(n: u16, vote: &Option<Vote>) -> bool
    ensures { result ≡ vote_stands n vote.now }
{
    match vote {
        None => true,
        Some(vote) => value_stands(n, &vote.value),
    }
}

/// Whether each fragment of a value lies at one of `n` sites.
fn value_stands(n: u16, value: &Value) -> bool
    ensures { result ≡ value_stands n value.now }
{
    match value {
        Value::Tomb { .. } => true,
        Value::Put(put) => fragments_stand(n, put.fragments.as_slice()),
    }
}

fn fragments_stand(n: u16, fragments: &[FragRef]) -> bool
    ensures { result ≡ list_all (fragment_stands n) fragments.now }
{
    for fragment in fragments {
        if !fragment_stands(n, fragment) {
            return false;
        }
    }
    true
}

fn fragment_stands(n: u16, fragment: &FragRef) -> bool
    ensures { result ≡ fragment_stands n fragment.now }
{
    fragment.site.index() < n as usize
}

/// The row that a reply shows to a call over `n` sites, where `written` is the row that its request writes, if it is a
/// write.
pub fn shown_by(
    alloc: Global,
    n: u16,
    written: &Option<Row>,
    answer: &Reply,
) -> Result<Option<Seen>, AllocError>
    ensures { IfOk result (λ seen. seen ≡ seen_in written.now (as_heard n written.now answer.now)) }
{
    match answer {
        Reply::Row { etag, row } => seen_under(n, *etag, row),
        Reply::NoRow => Ok(Some(Seen {
            etag: None,
            row: Row::empty(alloc),
        })),
        Reply::Written { etag } => seen_written(n, *etag, written),
        _ => Ok(None),
    }
}

/// The row, under its tag, if a run can hold it.
fn seen_under(n: u16, etag: Etag, row: &Row) -> Result<Option<Seen>, AllocError>
    ensures { IfOk result (λ seen. seen ≡ seen_in None (if_it_stands n row.now (Reply.Row etag row.now))) }
{
    if can_stand(n, row) {
        let row = row.clone()?;
        Ok(Some(Seen {
            etag: Some(etag),
            row,
        }))
    } else {
        Ok(None)
    }
}

/// The row that was written, under its new tag, if a run can hold it.
fn seen_written(n: u16, etag: Etag, written: &Option<Row>) -> Result<Option<Seen>, AllocError>
    ensures { IfOk result (λ seen. seen ≡ seen_in written.now (as_heard n written.now (Reply.Written etag))) }
{
    match written {
        None => Ok(None),
        Some(row) => seen_under(n, etag, row),
    }
}

impl Run {
    /// Takes a row as the last one of a site.
    pub fn hear(&mut self, at: usize, seen: Seen)
        requires rows { at < length self.old.rows }
        requires marks { at < length self.old.marks }
        ensures { self.new ≡ heard_run self.old at seen }
    {
        let Seen { etag, row } = seen;
        self.rows.set(at, Some(row));
        self.marks.set(
            at,
            Mark {
                etag,
                changed: false,
                out: false,
                left: None,
                awaited: None,
            },
        );
    }

    /// Notes that the last row of a site was overtaken.
    pub fn overtake(&mut self, at: usize)
        requires marks { at < length self.old.marks }
        requires met { self.old.met + 1 < 2 ^ 32 }
        ensures { (mark : Mark) → slice_get self.old.marks at ≡ Some mark → self.new ≡ overtaken_run self.old at mark }
    {
        let etag = self.marks.at(at).etag;
        let out = self.marks.at(at).out;
        self.marks.set(
            at,
            Mark {
                etag,
                changed: true,
                out,
                left: None,
                awaited: None,
            },
        );
        self.met += 1;
    }

    /// Puts a site out for the rest of the call, and keeps its last row apart.
    pub fn leave(&mut self, at: usize)
        requires rows { at < length self.old.rows }
        requires marks { at < length self.old.marks }
        ensures { (mark : Mark) (row : Option RowAt) → slice_get self.old.marks at ≡ Some mark → slice_get self.old.rows at ≡ Some row
            → self.new ≡ left_run self.old at mark row }
    {
        let etag = self.marks.at(at).etag;
        let changed = self.marks.at(at).changed;
        let left = self.rows.replace(at, None);
        self.marks.set(
            at,
            Mark {
                etag,
                changed,
                out: true,
                left,
                awaited: None,
            },
        );
    }
}
