//! The values that versions of an object may take.
ghost use Rattle.std.specs.Prelude.{◌≡◌};
ghost use Rattle.gz_core.specs.Values.{name_of};

use crate::fragments::FragRef;
use crate::lists::Items;
use crate::names::PutName;
use std::marker::Model;

/// The most bytes of an object.
pub const MOST_OBJECT_BYTES: usize = 1_048_576;

/// What a put writes: its name, and of the object that it stores the length, how many of its fragments are data and how many
/// parity, and each fragment by its index. The length is at most 1,048,576; there is at least one data fragment, and there are
/// at most 16 fragments in all.
#[derive(Clone, Debug, PartialEq, Eq, Drop)]
pub struct PutValue {
    pub name: PutName,
    pub length: u32,
    pub k: u8,
    pub m: u8,
    pub fragments: Items<FragRef>,
}

impl Model for PutValue {
    ghost use Rattle.gz_core.specs.Puts.{PutData, IsPutData};

    ghost Value = { PutData };

    ghost view = { λ p. record { name = p.name; length = p.length; k = p.k; m = p.m; fragments = p.fragments } };

    ghost invariant = { λ p. IsPutData (record { name = p.name; length = p.length; k = p.k; m = p.m; fragments = p.fragments }) };

    ghost inverse = { λ p. record { name = p.name; length = p.length; k = p.k; m = p.m; fragments = p.fragments } };
}

/// The value of a version: a tombstone, which a delete writes, or what a put writes. Two values are the same
/// exactly where their names are.
#[derive(Clone, Debug, PartialEq, Eq, Drop)]
pub enum Value {
    Tomb { name: PutName },
    Put(PutValue),
}

impl Value {
    /// The name of the put or delete that writes this value.
    pub fn name(&self) -> PutName
        ensures { result ≡ name_of self.now }
    {
        match self {
            Value::Tomb { name } => *name,
            Value::Put(put) => put.name,
        }
    }
}
