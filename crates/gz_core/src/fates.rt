//! What came of the fragments of a value.
ghost use Rattle.std.specs.Prelude.{◌≡◌, ◌≤◌, length, SomeIff};

use crate::lists::Items;
use std::marker::Model;

/// What came of a fragment that was asked for.
#[derive(Clone, Copy, Debug, PartialEq, Eq)]
pub enum Fate {
    /// It came with the digest that its value names.
    Whole,
    /// Other bytes came.
    Damaged,
    /// The site has no such fragment.
    Missing,
    /// The request was given up.
    GivenUp,
    /// The site failed.
    Failed,
}

/// The fates of a value's fragments, in their order: 1 to 16 of them.
#[derive(Clone, Debug, PartialEq, Eq, Drop)]
pub struct Fates {
    fates: Items<Fate>,
}

impl Model for Fates {
    ghost use Rattle.std.specs.Prelude.{List, length, ◌≤◌};
    ghost use Rattle.gz_core.specs.declared.fates.Fate.{Fate};

    ghost Value = { List Fate };

    ghost view = { λ f. f.fates };

    ghost invariant = { λ f. (1 ≤ length f.fates) × (length f.fates ≤ 16) };

    ghost inverse = { λ fates. record { fates = fates } };
}

/// The most fragments of a value.
pub const MOST_FRAGMENTS: usize = 16;

impl Fates {
    /// These fates: none where there are none of them, or more than 16.
    pub fn new(fates: Vec<Fate>) -> Option<Fates>
        ensures { SomeIff result ((1 ≤ length fates.items) × (length fates.items ≤ 16)) fates.items }
    {
        if !fates.is_empty() && fates.len() <= MOST_FRAGMENTS {
            Some(Fates {
                fates: Items::from_vec(fates),
            })
        } else {
            None
        }
    }

    /// The fates, as a slice.
    pub fn as_slice(&self) -> &[Fate]
        ensures same { result.now ≡ self.now }
        ensures some { 1 ≤ length result.now }
        ensures bounded { length result.now ≤ 16 }
    {
        self.fates.as_slice()
    }
}
