//! Answers of calls, as they are short to write in a table.
use gz_core::{Answer, Phase, PutName, UnsureWhy};

/// The answer of a call: versions, names by their session and number, bytes by the number that they spell, and how many
/// sites were heard or writes met; `Otherwise` where there is none, or one that no scene has.
#[derive(Clone, Copy, PartialEq)]
pub enum Answered {
    Ok(u64),
    Bytes(u64, (u32, u32), u64),
    Gone(u64, (u32, u32)),
    Absent,
    Unborn(u64),
    Collected(u64),
    NoQuorum(u32),
    UnsureNoQuorum(u32),
    UnsureContended(u32),
    UnsureTrimmed(u64),
    Otherwise,
}

/// The bytes as the digits of one number.
fn number_of(bytes: &[u8]) -> u64 {
    let mut number = 0u64;
    for byte in bytes {
        number = number.saturating_mul(256).saturating_add(*byte as u64);
    }
    number
}

fn name_of(name: &PutName) -> (u32, u32) {
    (name.session.number(), name.seq)
}

fn unsure(why: &UnsureWhy) -> Answered {
    match why {
        UnsureWhy::NoQuorum {
            phase: Phase::Fast,
            heard,
        } => Answered::UnsureNoQuorum(*heard),
        UnsureWhy::Contended { met } => Answered::UnsureContended(*met),
        UnsureWhy::Trimmed { floor } => Answered::UnsureTrimmed(floor.number()),
        _ => Answered::Otherwise,
    }
}

/// The answer, where there is one; a call is without a quorum where it looks, and unsure of its fast ballot.
pub fn answered_of(answer: &Option<Answer>) -> Answered {
    match answer {
        Some(Answer::Ok { version }) => Answered::Ok(version.number()),
        Some(
            Answer::Bytes {
                version,
                name,
                bytes,
            },
        ) => Answered::Bytes(version.number(), name_of(name), number_of(bytes.as_slice())),
        Some(Answer::Gone { version, name }) => Answered::Gone(version.number(), name_of(name)),
        Some(Answer::Absent) => Answered::Absent,
        Some(Answer::Unborn { latest }) => Answered::Unborn(latest.number()),
        Some(Answer::Collected { floor }) => Answered::Collected(floor.number()),
        Some(
            Answer::NoQuorum {
                phase: Phase::Look,
                heard,
            },
        ) => Answered::NoQuorum(*heard),
        Some(Answer::Unsure { why }) => unsure(why),
        _ => Answered::Otherwise,
    }
}
