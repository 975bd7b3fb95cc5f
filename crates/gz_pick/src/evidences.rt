//! Whether known rows show that a value is chosen at a version.
ghost use Rattle.std.specs.Prelude.{◌≡◌, ◌<◌, length, position, IfSome};
ghost use Rattle.gz_core.specs.Names.{fast};
ghost use Rattle.gz_core.specs.Configurations.{IsConfig, need};
ghost use Rattle.gz_pick.specs.Evidences.{evidence_of, has_decided, first_in, shows_in, is_chosen, top_ballot, votes_at, or_else, IsEvidence};

use crate::votes::{count_votes, is_cast_in, is_decided, raise, vote_of_row};
use gz_core::{Ballot, Config, PutName, Row, SiteId, Version};

/// The site whose row shows that a value is chosen at version `v`: one with `v` decided, with one of `qf` fast
/// votes for one name, or with one of `qc` votes of one classic ballot for one name. The lowest site with a
/// decision comes first, then the lowest with such a fast vote, then the lowest with such a vote of the highest
/// ballot. Rows stand one a site, none where the row is not known. Takes no memory.
pub fn evidence(config: &Config, rows: &[Option<Row>], v: Version) -> Option<SiteId>
    requires config { IsConfig config.now }
    requires rows { length rows.now ≡ config.now.n }
    ensures exact { result ≡ evidence_of config.now.qc config.now.qf rows.now v }
    ensures shows { IsEvidence config.now.n config.now.qc config.now.qf rows.now v result }
{
    match evident_place(config, rows, v) {
        None => None,
        Some(place) => Some(SiteId(place as u8)),
    }
}

/// The place of the row that shows a chosen value.
fn evident_place(config: &Config, rows: &[Option<Row>], v: Version) -> Option<usize>
    ensures same { result ≡ evidence_of config.now.qc config.now.qf rows.now v }
    ensures within { IfSome result (λ place. place < length rows.now) }
{
    match first_decided(rows, v) {
        Some(place) => Some(place),
        None => voted_place(config, rows, v),
    }
}

/// The first row with the version decided.
fn first_decided(rows: &[Option<Row>], v: Version) -> Option<usize>
    ensures same { result ≡ position (has_decided v) rows.now }
    ensures within { IfSome result (λ place. place < length rows.now) }
{
    rows.iter().position(|row| is_decided(row, v))
}

/// The first row with a chosen fast vote, or else with one of the highest ballot that has one.
fn voted_place(config: &Config, rows: &[Option<Row>], v: Version) -> Option<usize>
    ensures same { result ≡ or_else (first_in config.now.qc config.now.qf rows.now v (Some fast)) (first_in config.now.qc config.now.qf rows.now v (top_ballot (is_chosen config.now.qc config.now.qf rows.now v) (votes_at v rows.now))) }
    ensures within { IfSome result (λ place. place < length rows.now) }
{
    match first_chosen(config, rows, v, Ballot::fast()) {
        Some(place) => Some(place),
        None => match top_chosen(config, rows, v) {
            None => None,
            Some(ballot) => first_chosen(config, rows, v, ballot),
        },
    }
}

/// The first row whose vote is a chosen one of ballot `b`.
fn first_chosen(config: &Config, rows: &[Option<Row>], v: Version, b: Ballot) -> Option<usize>
    ensures same { result ≡ position (shows_in config.now.qc config.now.qf rows.now v b) rows.now }
    ensures within { IfSome result (λ place. place < length rows.now) }
{
    rows.iter()
        .position(|row| is_chosen_in(config, rows, v, b, row))
}

/// Whether a row's vote is a chosen one of ballot `b`.
fn is_chosen_in(
    config: &Config,
    rows: &[Option<Row>],
    v: Version,
    b: Ballot,
    row: &Option<Row>,
) -> bool
    ensures { result ≡ shows_in config.now.qc config.now.qf rows.now v b row.now }
{
    let vote = vote_of_row(row, v);
    is_cast_in(&vote, b) && is_chosen_vote(config, rows, v, &vote)
}

/// Whether as many rows have a vote as its ballot needs.
fn is_chosen_vote(
    config: &Config,
    rows: &[Option<Row>],
    v: Version,
    vote: &Option<(Ballot, PutName)>,
) -> bool
    ensures { result ≡ is_chosen config.now.qc config.now.qf rows.now v vote.now }
{
    match vote {
        None => false,
        Some((ballot, name)) => needed(config, *ballot) <= count_votes(rows, v, *ballot, *name),
    }
}

/// How many votes of a ballot choose a value.
fn needed(config: &Config, ballot: Ballot) -> usize
    ensures { result ≡ need config.now.qc config.now.qf ballot }
{
    if ballot.is_fast() {
        config.qf as usize
    } else {
        config.qc as usize
    }
}

/// The highest ballot of the rows' chosen votes.
#[tactic(auto, using(crate::proofs::Joins::join_none, crate::proofs::Joins::rows_step_yes, crate::proofs::Joins::rows_step_no))]
fn top_chosen(config: &Config, rows: &[Option<Row>], v: Version) -> Option<Ballot>
    ensures { result ≡ top_ballot (is_chosen config.now.qc config.now.qf rows.now v) (votes_at v rows.now) }
{
    let mut top = None;
    for row in rows {
        let vote = vote_of_row(row, v);
        if is_chosen_vote(config, rows, v, &vote) {
            top = raise(top, &vote);
        }
    }
    top
}
