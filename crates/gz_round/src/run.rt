//! What a running call keeps.
ghost use Rattle.std.specs.Prelude.{◌≡◌, IfOk};

use gz_core::{Ballot, Etag, Items, Key, Phase, PutName, Row, Value, Version};
use std::alloc::AllocError;

/// A row request that is awaited: its number, and the row that it writes if it is a write.
#[derive(Clone)]
pub struct Awaited {
    pub number: u32,
    pub written: Option<Row>,
}

impl Drop for Awaited {
    fn drop(self) {
        let Awaited {
            number: _,
            written: _,
        } = self;
    }
}

/// What a call keeps of a site beside its row: the tag of the last row that was heard (none: there was no row),
/// whether that row was overtaken since, whether the site is out for the call, its last row where it is, and the
/// request that is awaited.
pub struct Mark {
    pub etag: Option<Etag>,
    pub changed: bool,
    pub out: bool,
    pub left: Option<Row>,
    pub awaited: Option<Awaited>,
}

impl Drop for Mark {
    fn drop(self) {
        let Mark {
            etag: _,
            changed: _,
            out: _,
            left: _,
            awaited: _,
        } = self;
    }
}

impl Clone for Mark {
    ghost use Rattle.std.specs.Prelude.{◌≡◌};

    ghost is_clone = { λ a b. b ≡ a };

    fn clone(&self) -> Result<Mark, AllocError> {
        let left = self.left.clone()?;
        let awaited = self.awaited.clone()?;
        Ok(Mark {
            etag: self.etag,
            changed: self.changed,
            out: self.out,
            left,
            awaited,
        })
    }
}

/// The phase of a call. `Look` reads every site; `Fast` votes in the fast ballot of a version; `Prepare` asks for
/// promises of a classic ballot, after it `found` a value to propose in the votes that were heard if the call has
/// none of its own, and `Accept` votes in it for a value that the promises allow.
pub enum Stage {
    Look,
    Fast {
        version: Version,
    },
    Prepare {
        version: Version,
        ballot: Ballot,
        found: Option<Value>,
    },
    Accept {
        version: Version,
        ballot: Ballot,
        value: Value,
    },
}

impl Drop for Stage {
    fn drop(self) {
        match self {
            Stage::Look => {},
            Stage::Fast { version: _ } => {},
            Stage::Prepare {
                version: _,
                ballot: _,
                found: _,
            } => {},
            Stage::Accept {
                version: _,
                ballot: _,
                value: _,
            } => {},
        }
    }
}

impl Clone for Stage {
    ghost use Rattle.std.specs.Prelude.{◌≡◌};

    ghost is_clone = { λ a b. b ≡ a };

    fn clone(&self) -> Result<Stage, AllocError> {
        match self {
            Stage::Look => Ok(Stage::Look),
            Stage::Fast { version } => Ok(Stage::Fast { version: *version }),
            Stage::Prepare {
                version,
                ballot,
                found,
            } => preparation(*version, *ballot, found),
            Stage::Accept {
                version,
                ballot,
                value,
            } => acceptance(*version, *ballot, value),
        }
    }
}

/// A copy of a value.
pub fn copy_of(value: &Value) -> Result<Value, AllocError>
    ensures { IfOk result (λ copy. copy ≡ value.now) }
{
    value.clone()
}

/// A copy of a value, if there is one.
pub fn copy_if_some(value: &Option<Value>) -> Result<Option<Value>, AllocError>
    ensures { IfOk result (λ copy. copy ≡ value.now) }
{
    match value {
        None => Ok(None),
        Some(value) => Ok(Some(copy_of(value)?)),
    }
}

/// The phase that prepares a ballot, with a copy of what was found.
fn preparation(version: Version, ballot: Ballot, found: &Option<Value>) -> Result<Stage, AllocError>
    ensures { IfOk result (λ stage. stage ≡ Stage.Prepare version ballot found.now) }
{
    let found = copy_if_some(found)?;
    Ok(Stage::Prepare {
        version,
        ballot,
        found,
    })
}

/// The phase that votes in a ballot for a copy of a value.
fn acceptance(version: Version, ballot: Ballot, value: &Value) -> Result<Stage, AllocError>
    ensures { IfOk result (λ stage. stage ≡ Stage.Accept version ballot value.now) }
{
    let value = copy_of(value)?;
    Ok(Stage::Accept {
        version,
        ballot,
        value,
    })
}

/// The version that a call asks for: the latest one, to read it or to write after it, or that of a number.
#[derive(Clone, Copy)]
pub enum Target {
    Latest,
    At { version: Version },
}

/// A running call: its name, the object's key, the version that it asks for, the value that it writes if it writes one,
/// the last row of each site that isn't out, what else it keeps of each site, how often it was overtaken, the version at
/// which it voted last for its value, the part that sent its last row write, the greatest round that its session
/// promised, and its phase.
pub struct Run {
    pub name: PutName,
    pub key: Key,
    pub target: Target,
    pub own: Option<Value>,
    pub rows: Items<Option<Row>>,
    pub marks: Items<Mark>,
    pub met: u32,
    pub last_vote: Option<Version>,
    pub wrote: Phase,
    pub round: u32,
    pub stage: Stage,
}

impl Drop for Run {
    fn drop(self) {
        let Run {
            name: _,
            key: _,
            target: _,
            own: _,
            rows: _,
            marks: _,
            met: _,
            last_vote: _,
            wrote: _,
            round: _,
            stage: _,
        } = self;
    }
}

impl Run {
    /// The object's key, of a call that asks for no rows any more.
    pub fn into_key(self) -> Key
        ensures { result ≡ self.key }
    {
        let Run {
            name: _,
            key,
            target: _,
            own: _,
            rows: _,
            marks: _,
            met: _,
            last_vote: _,
            wrote: _,
            round: _,
            stage: _,
        } = self;
        key
    }

    /// A copy of all that the call keeps.
    pub fn copy(&self) -> Result<Run, AllocError>
        ensures { IfOk result (λ run. run ≡ self.now) }
    {
        let stage = self.stage.clone()?;
        let own = copy_if_some(&self.own)?;
        self.copy_with(own, stage)
    }

    /// A copy of all else that the call keeps, with this value of its own and this phase.
    fn copy_with(&self, own: Option<Value>, stage: Stage) -> Result<Run, AllocError>
        ensures { IfOk result (λ run. run ≡ record self.now { own = own; stage = stage }) }
    {
        let key = self.key.clone()?;
        let rows = self.rows.clone()?;
        self.copy_marks(key, own, rows, stage)
    }

    /// A copy of the marks and counts, with these parts beside them.
    fn copy_marks(
        &self,
        key: Key,
        own: Option<Value>,
        rows: Items<Option<Row>>,
        stage: Stage,
    ) -> Result<Run, AllocError>
        ensures { IfOk result (λ run. run ≡ record self.now { key = key; own = own; rows = rows; stage = stage }) }
    {
        let marks = self.marks.clone()?;
        Ok(Run {
            name: self.name,
            key,
            target: self.target,
            own,
            rows,
            marks,
            met: self.met,
            last_vote: self.last_vote,
            wrote: self.wrote,
            round: self.round,
            stage,
        })
    }
}
