//! The names under which sites keep fragments.
use crate::keys::Key;
use crate::names::PutName;
use std::marker::Model;

/// The name of a blob: the key of the object, the put that stored it, and the index of the fragment.
#[derive(Clone, Debug, PartialEq, Eq, PartialOrd, Ord, Drop)]
pub struct BlobName {
    pub key: Key,
    pub name: PutName,
    pub index: u8,
}

impl Model for BlobName {
    ghost use Rattle.gz_core.specs.Blobs.{BlobAt};

    ghost Value = { BlobAt };

    ghost view = { λ b. record { key = b.key; name = b.name; index = b.index } };

    ghost inverse = { λ b. record { key = b.key; name = b.name; index = b.index } };
}
