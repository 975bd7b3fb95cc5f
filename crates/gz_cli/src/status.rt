//! How a run ends.
ghost use Rattle.std.specs.Prelude.{◌≡◌};
ghost use Rattle.gz_cli.specs.Statuses.{exit_number};

use gz_core::{PutName, Why, Word};
use gz_settings::ConfigText;
use gz_show::RecordWhy;
use std::fmt;

/// How a run ends, with its number and its text.
pub enum Status {
    Done,
    /// The log isn't legal: the first clause that is broken, and the first two calls that break it.
    NotLegal { clause: u8, a: PutName, b: PutName },
    /// The words are of no form.
    Usage,
    /// The shelf failed.
    ShelfFault { name: Word },
    NoFile { name: Word },
    /// The file has more than 67,108,864 bytes.
    FileTooLarge { name: Word },
    /// The text of the configuration gives none.
    BadConfig { why: ConfigText },
    /// The first line of the schedule or the log with a fault, counted from 1.
    BadText { line: u32, why: Why },
    /// That line has more bytes than an object may have.
    TooLong { line: u32 },
    /// The world took no more events: so many are in its journal, and so many bytes are held.
    Full { events: u32, held: u64 },
    /// The file is no record of the kind that was asked for: the place of its first fault, and what is wrong there.
    BadRecord { at: usize, why: RecordWhy },
    /// The sink failed.
    SinkFault,
    NoMemory,
}

impl Drop for Status {
    fn drop(self) {
        match self {
            Status::Done => {},
            Status::NotLegal {
                clause: _,
                a: _,
                b: _,
            } => {},
            Status::Usage => {},
            Status::ShelfFault { name: _ } => {},
            Status::NoFile { name: _ } => {},
            Status::FileTooLarge { name: _ } => {},
            Status::BadConfig { why: _ } => {},
            Status::BadText { line: _, why: _ } => {},
            Status::TooLong { line: _ } => {},
            Status::Full { events: _, held: _ } => {},
            Status::BadRecord { at: _, why: _ } => {},
            Status::SinkFault => {},
            Status::NoMemory => {},
        }
    }
}

impl Status {
    /// The number with which the program ends.
    pub fn number(&self) -> u8
        ensures { result ≡ exit_number self.now }
    {
        match self {
            Status::Done => 0,
            Status::NotLegal { .. } => 1,
            Status::Usage => 2,
            Status::ShelfFault { .. } => 3,
            Status::NoFile { .. } => 4,
            Status::FileTooLarge { .. } => 5,
            Status::BadConfig { .. } => 6,
            Status::BadText { .. } => 7,
            Status::TooLong { .. } => 8,
            Status::Full { .. } => 9,
            Status::BadRecord { .. } => 10,
            Status::SinkFault => 11,
            Status::NoMemory => 12,
        }
    }
}

impl fmt::Display for Status {
    fn fmt<W: fmt::Write>(&self, f: &mut fmt::Formatter<W>) -> fmt::Result {
        match self {
            Status::Done => write!(f, "done"),
            Status::NotLegal { clause, a, b } => not_legal(f, *clause, *a, *b),
            Status::Usage => write!(f, "usage"),
            Status::ShelfFault { name } => {
                let name = name.as_str();
                write!(f, "cannot read {name}")
            }
            Status::NoFile { name } => {
                let name = name.as_str();
                write!(f, "no file {name}")
            }
            Status::FileTooLarge { name } => {
                let name = name.as_str();
                write!(f, "file too large {name}")
            }
            Status::BadConfig { why } => write!(f, "config: {why}"),
            Status::BadText { line, why } => {
                let why = word(*why);
                write!(f, "line {line}: {why}")
            }
            Status::TooLong { line } => write!(f, "line {line}: too long"),
            Status::Full { events, held } => write!(f, "full after {events} events, {held} bytes"),
            Status::BadRecord { at, why } => write!(f, "record: {why} at {at}"),
            Status::SinkFault => write!(f, "cannot write"),
            Status::NoMemory => write!(f, "out of memory"),
        }
    }
}

/// The text of a log that isn't legal.
fn not_legal<W: fmt::Write>(
    f: &mut fmt::Formatter<W>,
    clause: u8,
    a: PutName,
    b: PutName,
) -> fmt::Result {
    let first = a.session.0;
    let first_call = a.seq;
    let second = b.session.0;
    let second_call = b.seq;
    write!(
        f,
        "not legal: clause {clause}, calls {first}.{first_call} and {second}.{second_call}"
    )
}

/// The word of a fault.
fn word(why: Why) -> &'static str {
    match why {
        Why::Unbuilt => "unbuilt",
        Why::Word => "word",
        Why::Count => "count",
        Why::Number => "number",
        Why::Key => "key",
        Why::Name => "name",
        Why::Bytes => "bytes",
        Why::List => "list",
        Why::Client => "client",
        Why::Many => "many",
        Why::Order => "order",
        Why::Answer => "answer",
        Why::End => "end",
    }
}
