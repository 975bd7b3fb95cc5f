//! The audit list of votes, with an index that finds a vote in logarithmic time.
ghost use Rattle.std.specs.Prelude.{option_map, ◌≡◌, ◌+◌, ◌≤◌, ◌<◌, length, fold, IfOk, OnOk, [], All, true, false, unwrap_or, vec_len, vec_capacity};
ghost use Rattle.std.specs.Option.{option_to_list};
ghost use Rattle.gz_model.specs.declared.casts.Cast.{Cast};
ghost use Rattle.gz_world.specs.Audit.{is_listed, with_cast, with_casts, with_unlisted, listed_in, is_known, cast_at, cast_of, casts_of};

use gz_core::{Column, Key, Row, SiteId, Version, Vote};
use gz_model::Cast;
use std::alloc::{AllocError, Global};
use std::collections::BTreeMap;

/// The audit list. `list` has each vote once, in the order in which they were first seen; the index finds a vote:
/// it has true at one in the list, and false at one that is only known, as of a row that is about to be written.
#[derive(Drop)]
pub struct Casts {
    pub list: Vec<Cast>,
    pub index: BTreeMap<Cast, bool>,
    ghost tied: { (c : Cast) → is_listed list.items c ≡ unwrap_or (listed_in index.entries c) false },
}

/// A copy of a vote.
fn copy_of(cast: &Cast) -> Result<Cast, AllocError>
    ensures { IfOk result (λ copy. copy ≡ cast.now) }
{
    cast.clone()
}

/// Makes a vote known to the index, as not listed where it wasn't known, and tells whether it is listed.
fn know_in(index: &mut BTreeMap<Cast, bool>, cast: &Cast) -> Result<bool, AllocError>
    ensures flags { (c : Cast) → unwrap_or (listed_in index.new.entries c) false ≡ unwrap_or (listed_in index.old.entries c) false }
    ensures listed { IfOk result (λ listed. listed ≡ unwrap_or (listed_in index.old.entries cast.now) false) }
    ensures known { OnOk result (is_known index.new.entries cast.now ≡ true) }
    ensures others { (c : Cast) → is_known index.old.entries c ≡ true → is_known index.new.entries c ≡ true }
{
    match index.get(cast) {
        Some(listed) => Ok(*listed),
        None => {
            let copy = copy_of(cast)?;
            index.insert(copy, false)?;
            Ok(false)
        },
    }
}

impl Casts {
    /// No votes.
    pub fn new(alloc: Global) -> Casts
        ensures { result.list.items ≡ [] }
    {
        Casts {
            list: Vec::new(alloc),
            index: BTreeMap::new(alloc),
        }
    }

    /// Makes a vote known to the index, and tells whether it is in the list, which stays.
    fn know(&mut self, cast: &Cast) -> Result<bool, AllocError>
        ensures list { self.new.list ≡ self.old.list }
        ensures listed { IfOk result (λ listed. listed ≡ is_listed self.old.list.items cast.now) }
        ensures known { OnOk result (is_known self.new.index.entries cast.now ≡ true) }
        ensures others { (c : Cast) → is_known self.old.index.entries c ≡ true → is_known self.new.index.entries c ≡ true }
    {
        know_in(&mut self.index, cast)
    }

    /// Puts a vote after the fresh ones, unless the list has it, and makes it known. Gives its key back.
    fn note(&mut self, fresh: &mut Vec<Cast>, cast: Cast) -> Result<Key, AllocError>
        ensures key { IfOk result (λ key. key ≡ cast.key) }
        ensures list { self.new.list ≡ self.old.list }
        ensures fresh { OnOk result (fresh.new.items ≡ with_unlisted self.old.list.items fresh.old.items cast) }
        ensures known { All (λ c. is_known self.old.index.entries c ≡ true) fresh.old.items → OnOk result (All (λ c. is_known self.new.index.entries c ≡ true) fresh.new.items) }
    {
        if !self.know(&cast)? {
            let copy = copy_of(&cast)?;
            fresh.push(copy)?;
        }
        Ok(cast.into_key())
    }

    /// Puts the vote in a column of a site's row, where one stands, after the fresh ones, unless the list has it, and makes
    /// it known. Gives the key back.
    fn note_column(
        &mut self,
        fresh: &mut Vec<Cast>,
        site: SiteId,
        key: Key,
        version: Version,
        column: &Column,
    ) -> Result<Key, AllocError>
        ensures key { IfOk result (λ k. k ≡ key) }
        ensures list { self.new.list ≡ self.old.list }
        ensures fresh { OnOk result (fresh.new.items ≡ fold (with_unlisted self.old.list.items) fresh.old.items (option_to_list (cast_of site key version column.now))) }
        ensures known { All (λ c. is_known self.old.index.entries c ≡ true) fresh.old.items → OnOk result (All (λ c. is_known self.new.index.entries c ≡ true) fresh.new.items) }
    {
        match column {
            Column::Decided { .. } => Ok(key),
            Column::Open { vote, .. } => self.note_vote(fresh, site, key, version, vote),
        }
    }

    fn note_vote(
        &mut self,
        fresh: &mut Vec<Cast>,
        site: SiteId,
        key: Key,
        version: Version,
        vote: &Option<Vote>,
    ) -> Result<Key, AllocError>
        ensures key { IfOk result (λ k. k ≡ key) }
        ensures list { self.new.list ≡ self.old.list }
        ensures fresh { OnOk result (fresh.new.items ≡ fold (with_unlisted self.old.list.items) fresh.old.items (option_to_list (option_map (cast_at site key version) vote.now))) }
        ensures known { All (λ c. is_known self.old.index.entries c ≡ true) fresh.old.items → OnOk result (All (λ c. is_known self.new.index.entries c ≡ true) fresh.new.items) }
    {
        match vote {
            None => Ok(key),
            Some(vote) => self.note(fresh, cast_at(site, key, version, vote)),
        }
    }

    /// Puts a known vote into the list, unless it is there.
    fn add(&mut self, cast: Cast)
        requires room { vec_len self.old.list < vec_capacity self.old.list }
        requires known { is_known self.old.index.entries cast ≡ true }
        ensures list { self.new.list.items ≡ with_cast self.old.list.items cast }
        ensures len { vec_len self.new.list ≤ vec_len self.old.list + 1 }
        ensures capacity { vec_capacity self.new.list ≡ vec_capacity self.old.list }
        ensures others { (c : Cast) → is_known self.new.index.entries c ≡ is_known self.old.index.entries c }
    {
        if let Some(listed) = self.index.get_mut(&cast) {
            if !*listed {
                *listed = true;
                self.list.push_reserved(cast);
            }
        }
    }

    /// The votes that stand in the row of a site and that the list lacks, with the memory that they need: each is made known,
    /// and there is room for each. The list stays.
    pub fn prepare(
        &mut self,
        alloc: Global,
        site: SiteId,
        key: &Key,
        row: &Row,
    ) -> Result<Vec<Cast>, AllocError>
        ensures list { self.new.list.items ≡ self.old.list.items }
        ensures fresh { IfOk result (λ fresh. with_casts self.old.list.items fresh.items ≡ with_casts self.old.list.items (casts_of site key.now row.now)) }
        ensures room { IfOk result (λ fresh. vec_len self.new.list + length fresh.items ≤ vec_capacity self.new.list) }
        ensures known { IfOk result (λ fresh. All (λ c. is_known self.new.index.entries c ≡ true) fresh.items) }
    {
        let fresh = self.unlisted(alloc, site, key, row)?;
        self.list.reserve(fresh.len())?;
        Ok(fresh)
    }

    /// The votes that stand in the row of a site and that the list lacks, each made known.
    fn unlisted(
        &mut self,
        alloc: Global,
        site: SiteId,
        key: &Key,
        row: &Row,
    ) -> Result<Vec<Cast>, AllocError>
        ensures list { self.new.list ≡ self.old.list }
        ensures fresh { IfOk result (λ fresh. fresh.items ≡ fold (with_unlisted self.old.list.items) [] (casts_of site key.now row.now)) }
        ensures known { IfOk result (λ fresh. All (λ c. is_known self.new.index.entries c ≡ true) fresh.items) }
    {
        let mut fresh = Vec::new(alloc);
        let mut key = copy_of_key(key)?;
        for (version, column) in row.columns() {
            key = self.note_column(&mut fresh, site, key, *version, column)?;
        }
        Ok(fresh)
    }

    /// Puts votes into the list that were prepared, each unless it is there. Takes no memory.
    pub fn extend(&mut self, fresh: Vec<Cast>)
        requires room { vec_len self.old.list + length fresh.items ≤ vec_capacity self.old.list }
        requires known { All (λ c. is_known self.old.index.entries c ≡ true) fresh.items }
        ensures { self.new.list.items ≡ with_casts self.old.list.items fresh.items }
    {
        for cast in fresh {
            self.add(cast);
        }
    }
}

/// The vote of a site at a version.
fn cast_at(site: SiteId, key: Key, version: Version, vote: &Vote) -> Cast
    ensures { result ≡ cast_at site key version vote.now }
{
    Cast {
        name: vote.value.name(),
        site,
        version,
        ballot: vote.ballot,
        key,
    }
}

/// A copy of a key.
fn copy_of_key(key: &Key) -> Result<Key, AllocError>
    ensures { IfOk result (λ copy. copy ≡ key.now) }
{
    key.clone()
}
