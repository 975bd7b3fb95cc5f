//! The key of an object.
ghost use Rattle.std.specs.Prelude.{◌≡◌, ◌↔◌, ◌≤◌, length, IsTrue, Some, None, SomeIff, All};
ghost use Rattle.gz_core.specs.Keys.{IsKey, IsKeyByte};

use crate::lists::Items;
use std::marker::Model;

/// The key of an object: 1 to 255 bytes, each from 0x21 to 0x7E.
#[derive(Clone, Debug, PartialEq, Eq, PartialOrd, Ord, Drop)]
pub struct Key {
    bytes: Items<u8>,
}

impl Model for Key {
    ghost use Rattle.std.specs.Prelude.{List, ℕ};
    ghost use Rattle.gz_core.specs.Keys.{IsKey};

    ghost Value = { List ℕ };

    ghost view = { λ k. k.bytes };

    ghost invariant = { λ k. IsKey k.bytes };

    ghost inverse = { λ bytes. record { bytes = bytes } };
}

/// The most bytes of a key.
pub const MOST_KEY_BYTES: usize = 255;

impl Key {
    /// The key of these bytes: none where they are not the bytes of a key.
    pub fn new(bytes: Vec<u8>) -> Option<Key>
        ensures { SomeIff result (IsKey bytes.items) bytes.items }
    {
        if is_key(bytes.as_slice()) {
            Some(Key {
                bytes: Items::from_vec(bytes),
            })
        } else {
            None
        }
    }

    /// The bytes of the key.
    pub fn as_bytes(&self) -> &[u8]
        ensures same { result.now ≡ self.now }
        ensures key { IsKey result.now }
    {
        self.bytes.as_slice()
    }
}

/// Whether these bytes are those of a key.
pub fn is_key(bytes: &[u8]) -> bool
    ensures { IsTrue result ↔ IsKey bytes.now }
{
    !bytes.is_empty()
        && bytes.len() <= MOST_KEY_BYTES
        && bytes.iter().all(|byte| is_key_byte(*byte))
}

/// Whether a byte may stand in a key: a printable ASCII character that is no blank.
pub fn is_key_byte(byte: u8) -> bool
    ensures { IsTrue result ↔ IsKeyByte byte }
{
    (0x21..=0x7e).contains(&byte)
}
