//! The bytes of an object.
ghost use Rattle.std.specs.Prelude.{◌≡◌};
ghost use Rattle.gz_text.specs.Objects.{within};

use crate::faults::Fault;
use gz_core::Items;

/// The most bytes of an object.
pub const MOST_BYTES: usize = 1_048_576;

/// The bytes of an object, which are not too many.
pub fn within(bytes: Vec<u8>) -> Result<Items<u8>, Fault>
    ensures { result ≡ within bytes.items }
{
    if bytes.len() <= MOST_BYTES {
        Ok(Items::from_vec(bytes))
    } else {
        Err(Fault::TooLong)
    }
}
