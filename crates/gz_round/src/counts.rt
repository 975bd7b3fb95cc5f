//! The counts by which a call goes on or ends.
ghost use Rattle.std.specs.Prelude.{◌≡◌, count_by, is_some};
ghost use Rattle.std.specs.List.{list_any, list_all};
ghost use Rattle.gz_round.specs.Following.{is_blank_known, is_topless};

use crate::run::{Mark, Run};
use gz_core::{Row, Version};
use gz_pick::top_of;

impl Run {
    /// How many sites are out.
    pub fn outs(&self) -> usize
        ensures { result ≡ count_by (λ mark. mark.out) self.now.marks }
    {
        count_out(self.marks.as_slice())
    }

    /// How many sites are known.
    pub fn known(&self) -> usize
        ensures { result ≡ count_by (λ row. is_some row) self.now.rows }
    {
        count_known(self.rows.as_slice())
    }

    /// Whether a request is awaited.
    pub fn waits(&self) -> bool
        ensures { result ≡ list_any (λ mark. is_some mark.awaited) self.now.marks }
    {
        self.live_count() > 0
    }

    /// Whether no row that is known has a vote or a decision. Such a row has no floor either.
    pub fn is_unwritten(&self) -> bool
        ensures blank { result ≡ list_all is_blank_known self.now.rows }
        ensures top { result ≡ list_all is_topless self.now.rows }
    {
        are_blank(self.rows.as_slice())
    }
}

fn count_out(marks: &[Mark]) -> usize
    ensures { result ≡ count_by (λ mark. mark.out) marks.now }
{
    let mut count = 0;
    for mark in marks {
        if mark.out {
            count += 1;
        }
    }
    count
}

fn count_known(rows: &[Option<Row>]) -> usize
    ensures { result ≡ count_by (λ row. is_some row) rows.now }
{
    let mut count = 0;
    for row in rows {
        if row.is_some() {
            count += 1;
        }
    }
    count
}

fn are_blank(rows: &[Option<Row>]) -> bool
    ensures blank { result ≡ list_all is_blank_known rows.now }
    ensures top { result ≡ list_all is_topless rows.now }
{
    for row in rows {
        if !is_blank(row) {
            return false;
        }
    }
    true
}

fn is_blank(row: &Option<Row>) -> bool
    ensures blank { result ≡ is_blank_known row.now }
    ensures top { result ≡ is_topless row.now }
{
    match row {
        None => true,
        Some(row) => is_blank_row(row),
    }
}

fn is_blank_row(row: &Row) -> bool
    ensures blank { result ≡ is_blank_known (Some row.now) }
    ensures top { result ≡ is_topless (Some row.now) }
{
    let _columns = row.columns();
    top_of(row) == Version::none()
}
