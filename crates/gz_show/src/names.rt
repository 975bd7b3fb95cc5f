//! Numbers, and names and ballots: two numbers with a point between.
ghost use Rattle.std.specs.Prelude.{◌≡◌, ◌++◌, OnOk};
ghost use Rattle.std.specs.String.{string_bytes};
ghost use Rattle.gz_history.specs.Log.{name_text};
ghost use Rattle.gz_show.specs.Texts.{ballot_text, counted};

use gz_core::{Ballot, PutName};
use std::alloc::AllocError;
use std::fmt::Write;

/// A word and a number after it.
pub(crate) fn put_counted(text: &mut String, word: &str, n: u64) -> Result<(), AllocError>
    ensures { OnOk result (string_bytes text.new ≡ string_bytes text.old ++ counted word.now n) }
{
    write!(text, "{word}{n}")
}

pub(crate) fn put_name(text: &mut String, name: PutName) -> Result<(), AllocError>
    ensures { OnOk result (string_bytes text.new ≡ string_bytes text.old ++ name_text name) }
{
    put_counted(text, "", name.session_number() as u64)?;
    put_counted(text, ".", name.seq_number() as u64)
}

pub(crate) fn put_ballot(text: &mut String, ballot: Ballot) -> Result<(), AllocError>
    ensures { OnOk result (string_bytes text.new ≡ string_bytes text.old ++ ballot_text ballot) }
{
    put_counted(text, "", ballot.round as u64)?;
    put_counted(text, ".", ballot.session as u64)
}
