//! The votes that were cast, as an audit keeps them, and the values that they choose.
ghost use Rattle.std.specs.Prelude.{◌≡◌, ◌<◌, ◌≤◌, length, ℕ};
ghost use Rattle.gz_core.specs.Configurations.{IsConfig, need};
ghost use Rattle.gz_core.specs.Counts.{count_sites};
ghost use Rattle.gz_model.specs.Casts.{is_at, is_vote, has_cast, has_enough, is_before_name, IsChosen, IsLeastName};

use gz_core::{Ballot, Config, Key, PutName, SiteId, Version};
use std::alloc::AllocError;

/// A vote that a site cast: for the value of this name, in this ballot, at this version of the object of this key.
/// Votes are ordered by what tells them apart soonest, so that few comparisons come to the keys.
#[derive(PartialEq, Eq, PartialOrd, Ord)]
pub struct Cast {
    pub name: PutName,
    pub site: SiteId,
    pub version: Version,
    pub ballot: Ballot,
    pub key: Key,
}

impl Drop for Cast {
    fn drop(self) {
        let Cast {
            name: _,
            site: _,
            version: _,
            ballot: _,
            key: _,
        } = self;
    }
}

impl Clone for Cast {
    ghost use Rattle.std.specs.Prelude.{◌≡◌};

    ghost is_clone = { λ a b. b ≡ a };

    fn clone(&self) -> Result<Cast, AllocError> {
        let key = self.key.clone()?;
        Ok(Cast {
            name: self.name,
            site: self.site,
            version: self.version,
            ballot: self.ballot,
            key,
        })
    }
}

/// The value that is chosen at this version of the object: the least name, by session and then by number, for
/// which in some ballot a fast or a classic quorum of the sites has cast votes. An audit: it takes no memory,
/// and a time that grows with the square of the number of casts, times the number of sites.
pub fn chosen(cfg: &Config, casts: &[Cast], key: &Key, v: Version) -> Option<PutName>
    requires { IsConfig cfg.now }
    ensures { IsLeastName (IsChosen cfg.now casts.now key.now v) result }
{
    let mut least: Option<PutName> = None;
    for cast in casts {
        if cast.is_at(key, v) && is_before(cast.name, &least) && is_chosen(cfg, casts, cast) {
            least = Some(cast.name);
        }
    }
    least
}

impl Cast {
    /// The key of the object.
    pub fn into_key(self) -> Key
        ensures { result ≡ self.key }
    {
        let Cast {
            name: _,
            site: _,
            version: _,
            ballot: _,
            key,
        } = self;
        key
    }

    /// Whether the vote was cast at this version of the object.
    fn is_at(&self, key: &Key, v: Version) -> bool
        ensures { result ≡ is_at self.now key.now v }
    {
        self.version == v && self.key == *key
    }

    /// Whether the other cast is this vote, by whatever site.
    fn is_vote(&self, other: &Cast) -> bool
        ensures { result ≡ is_vote self.now other.now.key other.now.version other.now.ballot other.now.name }
    {
        self.is_at(&other.key, other.version)
            && self.ballot == other.ballot
            && self.name == other.name
    }
}

/// Whether a quorum has cast this vote.
fn is_chosen(cfg: &Config, casts: &[Cast], cast: &Cast) -> bool
    requires { IsConfig cfg.now }
    ensures { result ≡ has_enough cfg.now casts.now cast.now.key cast.now.version cast.now.ballot cast.now.name }
{
    let need = if cast.ballot.is_fast() {
        cfg.qf
    } else {
        cfg.qc
    };
    need <= votes_of(cfg.n, casts, cast)
}

/// How many sites have cast this vote.
fn votes_of(sites: u16, casts: &[Cast], cast: &Cast) -> u16
    ensures { result ≡ count_sites sites (has_cast casts.now cast.now.key cast.now.version cast.now.ballot cast.now.name) }
{
    let mut votes = 0;
    for site in 0..sites {
        if has_voted(casts, cast, site) {
            votes += 1;
        }
    }
    votes
}

/// Whether a site has cast this vote.
fn has_voted(casts: &[Cast], cast: &Cast, site: u16) -> bool
    ensures { result ≡ has_cast casts.now cast.now.key cast.now.version cast.now.ballot cast.now.name site }
{
    for other in casts {
        if other.site.index() == site as usize && other.is_vote(cast) {
            return true;
        }
    }
    false
}

/// Whether a name stands before the least one so far.
fn is_before(name: PutName, least: &Option<PutName>) -> bool
    ensures { result ≡ is_before_name name least.now }
{
    match least {
        Some(other) => name < *other,
        None => true,
    }
}
