//! Why bytes are no row record.
use gz_bytes::Fault;
use std::alloc::{AllocError, AllocFailed};
use thiserror::Error;

/// The first fault of bytes that are no row record, and its place, or want of memory.
#[derive(Clone, Copy, Debug, PartialEq, Eq, Error)]
pub enum RowError {
    /// The bytes don't begin as a row record does.
    #[error("no row record at {at}")]
    Magic { at: usize },
    /// The field that begins here isn't whole.
    #[error("a field is cut off at {at}")]
    Short { at: usize },
    /// The version here isn't above the one before it and below 2^63.
    #[error("a version out of order at {at}")]
    Order { at: usize },
    /// The floor isn't below 2^63, or what stands above it isn't the next version, decided.
    #[error("a wrong floor at {at}")]
    Floor { at: usize },
    /// There is no such kind of column.
    #[error("no kind of column at {at}")]
    Kind { at: usize },
    /// The ballot here is none, or none that may stand here.
    #[error("a wrong ballot at {at}")]
    Ballot { at: usize },
    /// A field of a value breaks its rule.
    #[error("a wrong field of a value at {at}")]
    ValueField { at: usize },
    /// Here bytes stand after the last column.
    #[error("bytes after the last column at {at}")]
    Trailing { at: usize },
    #[error("out of memory")]
    NoMemory,
}

impl From<AllocError> for RowError {
    ghost use Rattle.std.specs.Prelude.{◌≡◌};
    ghost use Rattle.gz_rowfmt.specs.declared.errors.RowError.TheVariants.{NoMemory};

    ghost from_gives = { λ _ e. e ≡ NoMemory };

    fn from(_error: AllocError) -> RowError {
        RowError::NoMemory
    }
}

impl<T: Drop> From<AllocFailed<T>> for RowError {
    ghost use Rattle.std.specs.Prelude.{◌≡◌};
    ghost use Rattle.gz_rowfmt.specs.declared.errors.RowError.TheVariants.{NoMemory};

    ghost from_gives = { λ _ e. e ≡ NoMemory };

    fn from(_error: AllocFailed<T>) -> RowError {
        RowError::NoMemory
    }
}

impl From<Fault> for RowError {
    ghost use Rattle.std.specs.Prelude.{◌≡◌};
    ghost use Rattle.gz_rowfmt.specs.Reading.{fault_of};

    ghost from_gives = { λ fault e. e ≡ fault_of fault };

    fn from(fault: Fault) -> RowError {
        match fault {
            Fault::Short { at } => RowError::Short { at },
            Fault::Wrong { at } => RowError::ValueField { at },
        }
    }
}
