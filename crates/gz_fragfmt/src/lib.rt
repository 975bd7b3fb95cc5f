//! Fragment records: what a site keeps of an object, as bytes with one spelling.
#![tactic(auto)]

ghost use Rattle.std.specs.Prelude.{◌≡◌};
ghost use Rattle.sha2.specs.Sha256.{sha256};

mod errors;
mod fragments;
mod reading;
mod writing;

pub use errors::FragError;
pub use fragments::{Fragment, Parts, Shape};
pub use reading::{decode_fragment, read_fragment};
use sha2::{Digest, Sha256};
pub use writing::{encode_fragment, encode_parts};

/// The digest of a fragment record: the SHA-256 of all its bytes.
pub fn digest(bytes: &[u8]) -> [u8; 32]
    ensures { result ≡ sha256 bytes.now }
{
    Sha256::digest(bytes)
}
