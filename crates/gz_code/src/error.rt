//! Why pieces are refused.
use std::alloc::AllocError;
use thiserror::Error;

/// The first fault of the pieces that were given to `join`, in the order of the variants. An `index` is that of the piece.
#[derive(Clone, Copy, Debug, PartialEq, Eq, Error)]
pub enum CodeError {
    /// There is no piece of this index.
    #[error("no piece has the index {index}")]
    Index { index: usize },
    /// The index was given before.
    #[error("the piece {index} is given twice")]
    Repeated { index: usize },
    /// The piece has another width than the object's pieces.
    #[error("the piece {index} has another width")]
    Width { index: usize },
    /// Fewer pieces are given than the object needs.
    #[error("{have} pieces are given where {need} are needed")]
    TooFew { have: usize, need: usize },
    #[error("out of memory")]
    NoMemory,
}

impl From<AllocError> for CodeError {
    ghost use Rattle.std.specs.Prelude.{◌≡◌};
    ghost use Rattle.gz_code.specs.declared.error.CodeError.TheVariants.{NoMemory};

    ghost from_gives = { λ _ e. e ≡ NoMemory };

    fn from(_error: AllocError) -> CodeError {
        CodeError::NoMemory
    }
}
