//! Where the fragments of an object lie.
ghost use Rattle.std.specs.Prelude.{◌≡◌};

use crate::names::SiteId;
use std::alloc::AllocError;

/// A fragment of an object: the site that keeps it, and the SHA-256 of its record.
#[derive(Copy, Debug, PartialEq, Eq)]
pub struct FragRef {
    pub site: SiteId,
    pub digest: [u8; 32],
}

impl Clone for FragRef {
    ghost is_clone = { λ a b. b ≡ a };

    fn clone(&self) -> Result<FragRef, AllocError> {
        Ok(*self)
    }
}
