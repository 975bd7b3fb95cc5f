//! Words of the command line, and the faults of texts.
ghost use Rattle.std.specs.Prelude.{◌≡◌};

use std::marker::Model;

/// One word of the command line.
#[derive(Debug, Drop)]
pub struct Word(pub String);

impl Model for Word {
    ghost use Rattle.std.specs.Prelude.{List, ℕ};
    ghost use Rattle.std.specs.String.{string_bytes};

    ghost Value = { List ℕ };

    ghost view = { λ w. string_bytes w.0 };
}

impl Word {
    /// The text of the word.
    pub fn as_str(&self) -> &str
        ensures { result.now ≡ self.now }
    {
        self.0.as_str()
    }
}

/// The fault of a line.
#[derive(Clone, Copy, Debug, PartialEq, Eq)]
pub enum Why {
    /// The line is none of those that can be played.
    Unbuilt,
    /// The first field, or a fixed word after it, is none of those that may stand there.
    Word,
    /// Too many fields, or too few.
    Count,
    /// A number of another form, or out of its range.
    Number,
    /// A key of another form.
    Key,
    /// A name of another form, or one that stood before.
    Name,
    /// Bytes of another form.
    Bytes,
    /// A list of sites of another form.
    List,
    /// A call before the first client.
    Client,
    /// More clients or calls than a script may have.
    Many,
    /// Moments that are out of order.
    Order,
    /// An answer of another form, or of another kind of call.
    Answer,
    /// The last line is missing, stands too early, or counts other calls.
    End,
}

/// Why a text could not be read. Lines count from 1, skipped ones too.
#[derive(Clone, Copy, Debug, PartialEq, Eq)]
pub enum TextError {
    /// The first line outside the grammar.
    Bad { line: u32, why: Why },
    /// That line holds bytes beyond the limit of an object.
    TooLong { line: u32 },
    NoMemory,
}
