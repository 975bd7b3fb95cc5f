//! Why bytes are not shown.
ghost use Rattle.std.specs.Prelude.{◌≡◌};

use gz_fragfmt::FragError;
use gz_rowfmt::RowError;
use std::alloc::AllocError;
use std::fmt;
use thiserror::Error;

/// What is wrong with a record; each has its word.
#[derive(Clone, Copy, Debug, PartialEq, Eq)]
pub enum RecordWhy {
    /// The bytes don't begin as such a record does.
    Magic,
    /// A field isn't whole.
    Short,
    /// A version isn't above the one before it and below 2^63.
    Order,
    /// The floor isn't below 2^63, or what stands above it isn't the next version, decided.
    Floor,
    /// There is no such kind of column.
    Kind,
    /// A ballot is none, or none that may stand there.
    Ballot,
    /// A field of a value breaks its rule.
    Value,
    /// A field of a fragment breaks its rule.
    Field,
    /// Bytes stand after the record.
    Trailing,
}

impl fmt::Display for RecordWhy {
    fn fmt<W: fmt::Write>(&self, f: &mut fmt::Formatter<W>) -> fmt::Result {
        match self {
            RecordWhy::Magic => write!(f, "magic"),
            RecordWhy::Short => write!(f, "short"),
            RecordWhy::Order => write!(f, "order"),
            RecordWhy::Floor => write!(f, "floor"),
            RecordWhy::Kind => write!(f, "kind"),
            RecordWhy::Ballot => write!(f, "ballot"),
            RecordWhy::Value => write!(f, "value"),
            RecordWhy::Field => write!(f, "field"),
            RecordWhy::Trailing => write!(f, "trailing"),
        }
    }
}

/// The first fault of bytes that are no record, and its place, or want of memory.
#[derive(Clone, Copy, Debug, PartialEq, Eq, Error)]
pub enum ShowError {
    #[error("{why} at {at}")]
    Bad { at: usize, why: RecordWhy },
    #[error("out of memory")]
    NoMemory,
}

fn bad(at: usize, why: RecordWhy) -> ShowError
    ensures { result ≡ ShowError.Bad at why }
{
    ShowError::Bad { at, why }
}

impl From<AllocError> for ShowError {
    ghost use Rattle.std.specs.Prelude.{◌≡◌};
    ghost use Rattle.gz_show.specs.declared.errors.ShowError.TheVariants.{NoMemory};

    ghost from_gives = { λ _ e. e ≡ NoMemory };

    fn from(_error: AllocError) -> ShowError {
        ShowError::NoMemory
    }
}

impl From<RowError> for ShowError {
    ghost use Rattle.std.specs.Prelude.{◌≡◌};
    ghost use Rattle.gz_show.specs.Shown.{row_error};

    ghost from_gives = { λ error e. e ≡ row_error error };

    fn from(error: RowError) -> ShowError {
        match error {
            RowError::Magic { at } => bad(at, RecordWhy::Magic),
            RowError::Short { at } => bad(at, RecordWhy::Short),
            RowError::Order { at } => bad(at, RecordWhy::Order),
            RowError::Floor { at } => bad(at, RecordWhy::Floor),
            RowError::Kind { at } => bad(at, RecordWhy::Kind),
            RowError::Ballot { at } => bad(at, RecordWhy::Ballot),
            RowError::ValueField { at } => bad(at, RecordWhy::Value),
            RowError::Trailing { at } => bad(at, RecordWhy::Trailing),
            RowError::NoMemory => ShowError::NoMemory,
        }
    }
}

impl From<FragError> for ShowError {
    ghost use Rattle.std.specs.Prelude.{◌≡◌};
    ghost use Rattle.gz_show.specs.Shown.{fragment_error};

    ghost from_gives = { λ error e. e ≡ fragment_error error };

    fn from(error: FragError) -> ShowError {
        match error {
            FragError::Magic { at } => bad(at, RecordWhy::Magic),
            FragError::Short { at } => bad(at, RecordWhy::Short),
            FragError::Field { at } => bad(at, RecordWhy::Field),
            FragError::Trailing { at } => bad(at, RecordWhy::Trailing),
            FragError::NoMemory => ShowError::NoMemory,
        }
    }
}
