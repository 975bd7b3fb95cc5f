//! The calls that were read, with an index that finds a name in logarithmic time.
ghost use Rattle.std.specs.Prelude.{◌≡◌, [], ◌∷◌, ◌++◌, OnOk};
ghost use Rattle.gz_core.specs.Names.{Name};
ghost use Rattle.gz_logs.specs.Named.{is_among, is_named};

use gz_core::PutName;
use gz_history::CallRec;
use std::alloc::{AllocError, Global};
use std::collections::BTreeSet;

/// The calls that were read, in the order of their lines, and their names.
#[derive(Drop)]
pub struct Calls {
    pub list: Vec<CallRec>,
    names: BTreeSet<PutName>,
    ghost tied: { (n : Name) → is_among names.keys n ≡ is_named n list.items },
}

impl Calls {
    /// No calls.
    pub fn new(alloc: Global) -> Calls
        ensures { result.list.items ≡ [] }
    {
        Calls {
            list: Vec::new(alloc),
            names: BTreeSet::new(alloc),
        }
    }

    /// The calls, in the order of their lines.
    pub fn into_list(self) -> Vec<CallRec>
        ensures { result.items ≡ self.list.items }
    {
        let Calls { list, names: _ } = self;
        list
    }

    /// Whether a call of this name was read.
    pub fn has(&self, name: PutName) -> bool
        ensures { result ≡ is_named name self.now.list.items }
    {
        self.names.contains(&name)
    }

    /// Puts a call after the last.
    pub fn add(&mut self, call: CallRec) -> Result<(), AllocError>
        ensures { OnOk result (self.new.list.items ≡ self.old.list.items ++ call ∷ []) }
    {
        self.list.reserve(1)?;
        self.names.insert(call.name)?;
        self.list.push_reserved(call);
        Ok(())
    }
}
