//! The first words of lines.
ghost use Rattle.std.specs.Prelude.{◌≡◌};
ghost use Rattle.gz_lines.specs.Verbs.{verb_of, request_verb_of, other_verb_of};

/// The first word of a line of a schedule, which says what the line asks for.
#[derive(Clone, Copy, Debug, PartialEq, Eq)]
pub enum Verb {
    Session,
    Put,
    Delete,
    Get,
    GetAt,
    Deliver,
    Reply,
    GiveUp,
    Take,
    Crash,
    Settle,
    Drain,
    /// A line that can't be played yet: `collect`, `lose`, `rot`.
    Unbuilt,
}

/// What a word asks for.
pub fn verb_of(word: &[u8]) -> Option<Verb>
    ensures { result ≡ verb_of word.now }
{
    if word == b"session".as_slice() {
        Some(Verb::Session)
    } else if word == b"put".as_slice() {
        Some(Verb::Put)
    } else if word == b"delete".as_slice() {
        Some(Verb::Delete)
    } else if word == b"get".as_slice() {
        Some(Verb::Get)
    } else if word == b"getat".as_slice() {
        Some(Verb::GetAt)
    } else {
        request_verb_of(word)
    }
}

/// The same for lines about requests.
fn request_verb_of(word: &[u8]) -> Option<Verb>
    ensures { result ≡ request_verb_of word.now }
{
    if word == b"deliver".as_slice() {
        Some(Verb::Deliver)
    } else if word == b"reply".as_slice() {
        Some(Verb::Reply)
    } else if word == b"giveup".as_slice() {
        Some(Verb::GiveUp)
    } else if word == b"take".as_slice() {
        Some(Verb::Take)
    } else {
        other_verb_of(word)
    }
}

/// The same for lines about what a session has begun, and for those that can't be played yet.
fn other_verb_of(word: &[u8]) -> Option<Verb>
    ensures { result ≡ other_verb_of word.now }
{
    if word == b"crash".as_slice() {
        Some(Verb::Crash)
    } else if word == b"settle".as_slice() {
        Some(Verb::Settle)
    } else if word == b"drain".as_slice() {
        Some(Verb::Drain)
    } else if word == b"collect".as_slice()
        || word == b"lose".as_slice()
        || word == b"rot".as_slice()
    {
        Some(Verb::Unbuilt)
    } else {
        None
    }
}
