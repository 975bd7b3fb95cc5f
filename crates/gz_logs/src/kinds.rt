//! The kinds of calls and of answers, by their words.
ghost use Rattle.std.specs.Prelude.{◌≡◌};
ghost use Rattle.gz_logs.specs.Kinds.{kind_in, kind_of, told_in, ended_in, may_answer};

use gz_core::Call;

/// The kind of a call.
#[derive(Clone, Copy, Debug, PartialEq, Eq)]
pub enum Kind {
    Put,
    Delete,
    Get,
    GetAt,
    Collect,
}

/// The kind of an answer.
#[derive(Clone, Copy, Debug, PartialEq, Eq)]
pub enum Told {
    Ok,
    Thin,
    Short,
    Bytes,
    Incomplete,
    Gone,
    Absent,
    Unborn,
    Collected,
    Swept,
    Held,
    NoQuorum,
    Contended,
    Unsure,
}

/// The kind of call that a word names.
pub fn kind_in(word: &[u8]) -> Option<Kind>
    ensures { result ≡ kind_in word.now }
{
    if word == b"put".as_slice() {
        Some(Kind::Put)
    } else if word == b"delete".as_slice() {
        Some(Kind::Delete)
    } else if word == b"get".as_slice() {
        Some(Kind::Get)
    } else if word == b"getat".as_slice() {
        Some(Kind::GetAt)
    } else if word == b"collect".as_slice() {
        Some(Kind::Collect)
    } else {
        None
    }
}

/// The kind of a call.
pub fn kind_of(call: &Call) -> Kind
    ensures { result ≡ kind_of call.now }
{
    match call {
        Call::Put { .. } => Kind::Put,
        Call::Delete { .. } => Kind::Delete,
        Call::Get { .. } => Kind::Get,
        Call::GetAt { .. } => Kind::GetAt,
        Call::Collect { .. } => Kind::Collect,
    }
}

/// The kind of answer that begins with a word.
pub fn told_in(word: &[u8]) -> Option<Told>
    ensures { result ≡ told_in word.now }
{
    if word == b"ok".as_slice() {
        Some(Told::Ok)
    } else if word == b"thin".as_slice() {
        Some(Told::Thin)
    } else if word == b"short".as_slice() {
        Some(Told::Short)
    } else if word == b"bytes".as_slice() {
        Some(Told::Bytes)
    } else if word == b"incomplete".as_slice() {
        Some(Told::Incomplete)
    } else if word == b"gone".as_slice() {
        Some(Told::Gone)
    } else {
        ended_in(word)
    }
}

/// The same for answers that tell of no value of a put or delete.
fn ended_in(word: &[u8]) -> Option<Told>
    ensures { result ≡ ended_in word.now }
{
    if word == b"absent".as_slice() {
        Some(Told::Absent)
    } else if word == b"unborn".as_slice() {
        Some(Told::Unborn)
    } else if word == b"collected".as_slice() {
        Some(Told::Collected)
    } else if word == b"swept".as_slice() {
        Some(Told::Swept)
    } else if word == b"held".as_slice() {
        Some(Told::Held)
    } else if word == b"noquorum".as_slice() {
        Some(Told::NoQuorum)
    } else if word == b"contended".as_slice() {
        Some(Told::Contended)
    } else if word == b"unsure".as_slice() {
        Some(Told::Unsure)
    } else {
        None
    }
}

/// Whether a kind of call has a kind of answer.
pub fn may_answer(kind: Kind, told: Told) -> bool
    ensures { result ≡ may_answer kind told }
{
    match (kind, told) {
        (_, Told::NoQuorum | Told::Contended) => true,
        (Kind::Put, Told::Ok | Told::Thin | Told::Short | Told::Unsure) => true,
        (Kind::Delete, Told::Ok | Told::Unsure) => true,
        (Kind::Get, Told::Bytes | Told::Incomplete | Told::Gone | Told::Absent) => true,
        (
            Kind::GetAt,
            Told::Bytes | Told::Incomplete | Told::Gone | Told::Unborn | Told::Collected,
        ) => true,
        (Kind::Collect, Told::Swept | Told::Held) => true,
        _ => false,
    }
}
