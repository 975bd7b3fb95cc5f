//! When a phase reaches its goal, and what follows then.
ghost use Rattle.std.specs.Prelude.{◌≡◌, ◌≤◌, ◌<◌, ◌+◌, ◌^◌, ◌⊎◌, ◌↔◌, ℕ, List, length, count_by, is_some, IsTrue, IsSome, Some, slice_get, MatchOption};
ghost use Rattle.gz_core.specs.Rows.{RowAt};
ghost use Rattle.gz_pick.specs.Looks.{row_name};
ghost use Rattle.gz_core.specs.Configurations.{IsConfig};
ghost use Rattle.gz_core.specs.History.{Action, Caller, Trace};
ghost use Rattle.gz_round.specs.Floors.{top_floor_of, AreRows, AreNoneAsked, IsAskedBelow};
ghost use Rattle.gz_round.specs.Following.{IsReady, Ready, NextMeans, IsOnward, MayPass, IsUnwritten, IsStageAt, IsWriteNext};
ghost use Rattle.gz_round.specs.Targets.{target_of, IsAskedFor};
ghost use Rattle.gz_config.specs.declared.Config.{Config};
ghost use Rattle.gz_round.specs.Evidence.{NoneEvident, EvidentAt, NoEvidence};
ghost use Rattle.gz_round.specs.Standing.{Stands, IsKept};

use crate::run::{Run, Stage, Target};
use gz_core::{Config, PutName, Row, SiteId, Version};
use gz_pick::{evidence, named_at};

/// What the rows that are known come to.
#[derive(Clone, Copy)]
pub enum Next {
    /// The phase goes on.
    Wait,
    /// The fast ballot of this version is voted in.
    Vote { version: Version },
    /// The version at which the call worked was collected, and the fast ballot of this one, two above a floor, is voted in,
    /// whatever is known there.
    Skip { version: Version },
    /// The call's value is chosen at this version.
    Chosen { version: Version },
    /// The value of the version that is asked for is known, from the row of this site.
    Learnt { version: Version, site: SiteId },
    /// The object was never written.
    Absent,
    /// The version that is asked for lies above this one, which is the latest.
    Unborn { latest: Version },
    /// The version that is asked for was collected: a row has this floor.
    Collected { floor: Version },
    /// The version at which the call voted last was collected: a row has this floor.
    Trimmed { floor: Version },
}

impl Run {
    /// What the rows that are known come to.
    pub fn next(&self, config: &Config) -> Next
        requires config { IsConfig config.now }
        requires ready { IsReady config.now self.now }
        ensures { (w : Caller) (past : List Trace) (ms : List Action) → Ready config.now w past self.now ms → NextMeans config.now w self.now ms result }
    {
        match &self.stage {
            Stage::Look => self.after_look(config),
            Stage::Fast { version } => self.after_vote(config, *version),
            Stage::Prepare { version, .. } => self.after_vote(config, *version),
            Stage::Accept { version, .. } => self.after_vote(config, *version),
        }
    }

    /// The goal of `Look` is a classic quorum of known rows, of which the version at which the call looks is known to be
    /// chosen, or none has begun, or the one that is asked for was collected.
    fn after_look(&self, config: &Config) -> Next
        requires config { IsConfig config.now }
        requires ready { IsReady config.now self.now }
        requires stage { self.now.stage ≡ Stage.Look }
        ensures { (w : Caller) (past : List Trace) (ms : List Action) → Ready config.now w past self.now ms → NextMeans config.now w self.now ms result }
    {
        if self.known() < config.qc as usize {
            return Next::Wait;
        }
        match self.collected_to() {
            None => self.at_looked(config),
            Some(floor) => Next::Collected { floor },
        }
    }

    /// A classic quorum of rows is known, and the version that is asked for wasn't collected.
    fn at_looked(&self, config: &Config) -> Next
        requires config { IsConfig config.now }
        requires ready { IsReady config.now self.now }
        requires stage { self.now.stage ≡ Stage.Look }
        requires known { config.now.qc ≤ count_by (λ row. is_some row) self.now.rows }
        requires asked { AreNoneAsked self.now }
        ensures { (w : Caller) (past : List Trace) (ms : List Action) → Ready config.now w past self.now ms → NextMeans config.now w self.now ms result }
    {
        if self.is_unwritten() {
            return self.begin_first();
        }
        let version = self.looked();
        match evident(config, self.rows.as_slice(), version) {
            None => Next::Wait,
            Some(site) => self.found(config, version, site),
        }
    }

    /// The greatest floor that is known, where the call asks for a version at or below it.
    fn collected_to(&self) -> Option<Version>
        ensures { MatchOption result (AreNoneAsked self.now) (IsAskedBelow self.now) }
    {
        let floor = self.top_floor();
        match self.target {
            Target::Latest => None,
            Target::At { version } => if version <= floor { Some(floor) } else { None },
        }
    }

    /// The greatest floor that is known, where it is at this version or above.
    pub fn floor_from(&self, version: Version) -> Option<Version>
        ensures rows { AreRows self.now.rows }
        ensures floor { MatchOption result (top_floor_of self.now.rows < version) (λ floor. (version ≤ floor) × (floor ≡ top_floor_of self.now.rows)) }
    {
        let floor = self.top_floor();
        if version <= floor { Some(floor) } else { None }
    }

    /// An object that was never written is voted for at its first version; to a call that reads it is absent, or the version that
    /// is asked for isn't born.
    fn begin_first(&self) -> Next
        requires asked { AreNoneAsked self.now }
        ensures { (c : Config) (w : Caller) (past : List Trace) (ms : List Action) → Stands c w past self.now ms → IsUnwritten c w ms
            → IsOnward c self.now ms 1 → NextMeans c w self.now ms result }
    {
        if self.own.is_some() {
            return Next::Vote {
                version: Version(1),
            };
        }
        match self.target {
            Target::Latest => Next::Absent,
            Target::At { .. } => Next::Unborn {
                latest: Version::none(),
            },
        }
    }

    /// The value of a version is known: a call that writes goes on from there, and one that reads has learnt it, or asks for a
    /// later one.
    fn found(&self, config: &Config, version: Version, site: SiteId) -> Next
        requires config { IsConfig config.now }
        requires kept { IsKept config.now self.now }
        requires evident { EvidentAt config.now self.now.rows version site }
        ensures { (w : Caller) (past : List Trace) (ms : List Action) → Stands config.now w past self.now ms → MayPass config.now w ms version
            → IsOnward config.now self.now ms (version + 1) → NextMeans config.now w self.now ms result }
    {
        if self.own.is_some() {
            return self.after_chosen(config, version, site);
        }
        match self.target {
            Target::Latest => Next::Learnt { version, site },
            Target::At { version: asked } => if asked == version {
                Next::Learnt { version, site }
            } else {
                Next::Unborn { latest: version }
            },
        }
    }

    /// Work at a version ends once a value is known to be chosen there, or it is known to be collected.
    fn after_vote(&self, config: &Config, version: Version) -> Next
        requires config { IsConfig config.now }
        requires ready { IsReady config.now self.now }
        requires stage { IsStageAt self.now.stage version }
        ensures { (w : Caller) (past : List Trace) (ms : List Action) → Ready config.now w past self.now ms → NextMeans config.now w self.now ms result }
    {
        match evident(config, self.rows.as_slice(), version) {
            None => self.unless_collected(config, version),
            Some(site) => self.found(config, version, site),
        }
    }

    /// The phase goes on, unless the version at which it works was collected.
    fn unless_collected(&self, config: &Config, version: Version) -> Next
        requires config { IsConfig config.now }
        requires ready { IsReady config.now self.now }
        requires stage { IsStageAt self.now.stage version }
        requires none { NoneEvident config.now self.now.rows version }
        ensures { (w : Caller) (past : List Trace) (ms : List Action) → Ready config.now w past self.now ms → NextMeans config.now w self.now ms result }
    {
        match self.floor_from(version) {
            None => Next::Wait,
            Some(floor) => self.after_floor(version, floor),
        }
    }

    /// The version at which the call works was collected. A call that voted for its own value there can't know what became of it;
    /// one that writes goes on two above the floor, since the version after the floor is decided, and one that reads learns that
    /// version, where it asks for it.
    fn after_floor(&self, version: Version, floor: Version) -> Next
        requires low { floor + 2 < 2 ^ 63 }
        requires few { length self.now.rows ≤ 16 }
        requires stage { IsStageAt self.now.stage version }
        requires rows { AreRows self.now.rows }
        requires above { 1 ≤ version }
        requires at { version ≤ floor }
        requires top { floor ≡ top_floor_of self.now.rows }
        ensures { (c : Config) (w : Caller) (past : List Trace) (ms : List Action) → Stands c w past self.now ms → MayPass c w ms version
            → NoEvidence c ms version → NextMeans c w self.now ms result }
    {
        if self.own.is_some() {
            return self.skip_or_end(version, floor);
        }
        match self.target {
            Target::Latest => self.learn_above(floor),
            Target::At { version: asked } => self.read_above(asked, floor),
        }
    }

    /// A call that writes goes on two above the floor, where it didn't vote at the version.
    fn skip_or_end(&self, version: Version, floor: Version) -> Next
        requires low { floor + 2 < 2 ^ 63 }
        requires stage { IsStageAt self.now.stage version }
        requires rows { AreRows self.now.rows }
        requires above { 1 ≤ version }
        requires at { version ≤ floor }
        requires top { floor ≡ top_floor_of self.now.rows }
        requires own { IsSome self.now.own }
        ensures { (c : Config) (w : Caller) (past : List Trace) (ms : List Action) → Stands c w past self.now ms → MayPass c w ms version
            → NoEvidence c ms version → NextMeans c w self.now ms result }
    {
        if self.has_voted_last(version) {
            return Next::Trimmed { floor };
        }
        Next::Skip {
            version: floor.next().next(),
        }
    }

    /// Whether the call voted last for its value at this version.
    fn has_voted_last(&self, version: Version) -> bool
        ensures { IsTrue result ↔ (self.now.last_vote ≡ Some version) }
    {
        match self.last_vote {
            None => false,
            Some(last) => last == version,
        }
    }

    /// A call that asks for a version by its number learns it where it follows the floor.
    fn read_above(&self, asked: Version, floor: Version) -> Next
        requires low { floor + 1 < 2 ^ 63 }
        requires few { length self.now.rows ≤ 16 }
        requires rows { AreRows self.now.rows }
        requires above { 1 ≤ floor }
        requires top { floor ≡ top_floor_of self.now.rows }
        requires target { self.now.target ≡ Target.At asked }
        requires own { self.now.own ≡ None }
        ensures { (c : Config) (w : Caller) (past : List Trace) (ms : List Action) (v : ℕ) → Stands c w past self.now ms → MayPass c w ms v → v ≤ floor
            → NextMeans c w self.now ms result }
    {
        if asked <= floor {
            return Next::Collected { floor };
        }
        let latest = floor.next();
        if latest == asked {
            return self.learn_above(floor);
        }
        Next::Unborn { latest }
    }

    /// The version after the greatest floor is decided.
    fn learn_above(&self, floor: Version) -> Next
        requires low { floor + 1 < 2 ^ 63 }
        requires few { length self.now.rows ≤ 16 }
        requires rows { AreRows self.now.rows }
        requires above { 1 ≤ floor }
        requires top { floor ≡ top_floor_of self.now.rows }
        requires own { self.now.own ≡ None }
        ensures { (c : Config) (w : Caller) (past : List Trace) (ms : List Action) → Stands c w past self.now ms → IsAskedFor c (target_of w.call) ms (floor + 1)
            → NextMeans c w self.now ms result }
    {
        Next::Learnt {
            version: floor.next(),
            site: self.site_with_floor(floor),
        }
    }

    /// A value is chosen at the version: the call's own one, or another, and then the next version is tried.
    pub fn after_chosen(&self, config: &Config, version: Version, site: SiteId) -> Next
        requires config { IsConfig config.now }
        requires kept { IsKept config.now self.now }
        requires evident { EvidentAt config.now self.now.rows version site }
        requires own { IsSome self.now.own }
        ensures means { (w : Caller) (past : List Trace) (ms : List Action) → Stands config.now w past self.now ms → MayPass config.now w ms version
            → IsOnward config.now self.now ms (version + 1) → NextMeans config.now w self.now ms result }
        ensures writes { IsWriteNext version result }
    {
        if self.is_own(site, version) {
            return Next::Chosen { version };
        }
        let next = version.next();
        match evident(config, self.rows.as_slice(), next) {
            None => Next::Vote { version: next },
            Some(site) => self.after_chosen(config, next, site),
        }
    }

    /// Whether the row of a site names the call's own value at a version.
    fn is_own(&self, site: SiteId, version: Version) -> bool
        requires { site < length self.now.rows }
        ensures { (row : RowAt) → slice_get self.now.rows site ≡ Some (Some row) → IsTrue result ↔ (row_name row version ≡ Some self.now.name) }
    {
        match self.rows.at(site.index()) {
            None => false,
            Some(row) => is_named(row, version, self.name),
        }
    }
}

/// Whether a row names this value at a version.
fn is_named(row: &Row, version: Version, name: PutName) -> bool
    ensures { IsTrue result ↔ (row_name row.now version ≡ Some name) }
{
    match named_at(row, version) {
        None => false,
        Some(named) => named == name,
    }
}

/// The site whose row shows that a value is chosen at a version, if one does.
pub fn evident(config: &Config, rows: &[Option<Row>], v: Version) -> Option<SiteId>
    requires config { IsConfig config.now }
    requires rows { length rows.now ≡ config.now.n }
    ensures { MatchOption result (NoneEvident config.now rows.now v) (λ site. EvidentAt config.now rows.now v site) }
{
    evidence(config, rows, v)
}
