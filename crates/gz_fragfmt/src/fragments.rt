//! A fragment of an object, and the parts of its record where they lie.
use gz_core::{Items, Key, PutName};
use std::marker::Model;

/// Which fragment this is, of how many data and parity pieces, and of an object of how many bytes.
#[derive(Clone, Copy)]
pub struct Shape {
    pub index: u8,
    pub k: u8,
    pub m: u8,
    pub length: u32,
}

/// A fragment: one of the k + m pieces of the object that a put stored. k is at least 1, k + m at most 16, the index
/// below k + m, the object's length at most 1,048,576, and the piece has that length divided by k, rounded up.
#[derive(Drop)]
pub struct Fragment {
    pub key: Key,
    pub name: PutName,
    pub index: u8,
    pub k: u8,
    pub m: u8,
    pub length: u32,
    pub piece: Items<u8>,
}

impl Model for Fragment {
    ghost use Rattle.gz_fragfmt.specs.Fragments.{FragmentAt, IsFragmentPiece};

    ghost Value = { FragmentAt };

    ghost view = { λ f. record { key = f.key; name = f.name; index = f.index; k = f.k; m = f.m; length = f.length; piece = f.piece } };

    ghost invariant = { λ f. IsFragmentPiece f.index f.k f.m f.length f.piece };

    ghost inverse = { λ f. record { key = f.key; name = f.name; index = f.index; k = f.k; m = f.m; length = f.length; piece = f.piece } };
}

/// The parts of a fragment record, borrowed from its bytes.
#[derive(Clone, Copy)]
pub struct Parts<'a> {
    pub key: &'a [u8],
    pub session: u32,
    pub seq: u32,
    pub index: u8,
    pub k: u8,
    pub m: u8,
    pub length: u32,
    pub piece: &'a [u8],
}
