//! What is wrong with a line.
ghost use Rattle.std.specs.Prelude.{◌≡◌, ◌+◌};
ghost use Rattle.gz_text.specs.Faults.{error_at, told_number};

use gz_core::{TextError, Why};

/// What is wrong with a line.
#[derive(Clone, Copy, Debug, PartialEq, Eq)]
pub enum Fault {
    /// The line is outside the grammar.
    Bad(Why),
    /// The line has more bytes than an object may have.
    TooLong,
}

impl Fault {
    /// The error of a text whose line, counted from 1, has this fault.
    pub fn at(self, line: u32) -> TextError
        ensures { result ≡ error_at line self }
    {
        match self {
            Fault::Bad(why) => TextError::Bad { line, why },
            Fault::TooLong => TextError::TooLong { line },
        }
    }
}

/// The number that is told of the line at a place: lines count from 1, up to the greatest number of 32 bits.
pub fn number_at(place: usize) -> u32
    ensures { result ≡ told_number (place + 1) }
{
    if place < u32::MAX as usize {
        place as u32 + 1
    } else {
        u32::MAX
    }
}
