//! Why bytes are no fragment record.
use gz_bytes::Fault;
use std::alloc::AllocError;
use thiserror::Error;

/// The first fault of bytes that are no fragment record, and its place, or want of memory.
#[derive(Clone, Copy, Debug, PartialEq, Eq, Error)]
pub enum FragError {
    /// The bytes don't begin as a fragment record does.
    #[error("no fragment record at {at}")]
    Magic { at: usize },
    /// The field that begins here isn't whole.
    #[error("a field is cut off at {at}")]
    Short { at: usize },
    /// A field breaks its rule: the place is that of the field, in the key that of the byte.
    #[error("a wrong field at {at}")]
    Field { at: usize },
    /// Here bytes stand after the piece.
    #[error("bytes after the piece at {at}")]
    Trailing { at: usize },
    #[error("out of memory")]
    NoMemory,
}

impl From<AllocError> for FragError {
    ghost use Rattle.std.specs.Prelude.{◌≡◌};
    ghost use Rattle.gz_fragfmt.specs.declared.errors.FragError.TheVariants.{NoMemory};

    ghost from_gives = { λ _ e. e ≡ NoMemory };

    fn from(_error: AllocError) -> FragError {
        FragError::NoMemory
    }
}

impl From<Fault> for FragError {
    ghost use Rattle.std.specs.Prelude.{◌≡◌};
    ghost use Rattle.gz_fragfmt.specs.Reading.{fault_of};

    ghost from_gives = { λ fault e. e ≡ fault_of fault };

    fn from(fault: Fault) -> FragError {
        match fault {
            Fault::Short { at } => FragError::Short { at },
            Fault::Wrong { at } => FragError::Field { at },
        }
    }
}
