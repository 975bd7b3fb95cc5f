//! Records of calls, made from what is short to write in a table.
use gz_core::{Answer, Call, Items, Key, Phase, PutName, Session, UnsureWhy, Version};
use gz_history::CallRec;
use std::alloc::Global;

/// What a call does: a put with the two bytes of this number, or with none.
#[derive(Clone, Copy)]
pub enum Asked {
    Put(u16),
    PutNothing,
    Delete,
    Get,
}

/// What a call learnt: versions, the session whose first call is named, the two bytes that were read.
#[derive(Clone, Copy)]
pub enum Told {
    Open,
    Placed(u32),
    Read(u32, u32, u16),
    Gone(u32, u32),
    Absent,
    NoQuorum,
    Contended,
    UnsureNoQuorum,
    UnsureContended,
}

/// A call of a session: its session, its key, what it does, its ticks, and what it learnt.
pub type Brief = (u32, u8, Asked, u32, u32, Told);

/// How the calls of a table are numbered within their sessions.
#[derive(Clone, Copy)]
pub enum Numbered {
    /// Each call is the first of its session.
    First,
    /// The calls are those of one session, one after another.
    InTurn,
}

/// The name of a call; the numbers of sessions and of their calls begin at 1.
fn name_of(session: u32, seq: u32) -> Option<PutName> {
    if session == 0 || seq == 0 {
        return None;
    }
    Some(PutName {
        session: Session(session),
        seq,
    })
}

fn version_of(version: u32) -> Version {
    Version(version as u64)
}

fn bytes_of(alloc: Global, number: u16) -> Option<Items<u8>> {
    Items::from_slice(alloc, &[(number / 256) as u8, (number % 256) as u8]).ok()
}

/// The answer of a get that was given bytes.
fn read_of(alloc: Global, version: u32, session: u32, bytes: u16) -> Option<Answer> {
    let name = name_of(session, 1)?;
    let bytes = bytes_of(alloc, bytes)?;
    let version = version_of(version);
    Some(Answer::Bytes {
        version,
        name,
        bytes,
    })
}

/// The answer of a get of what a delete took away.
fn gone_of(version: u32, session: u32) -> Option<Answer> {
    let name = name_of(session, 1)?;
    let version = version_of(version);
    Some(Answer::Gone { version, name })
}

/// The answer of a call that ended.
fn answer_of(alloc: Global, told: Told) -> Option<Answer> {
    match told {
        Told::Open => None,
        Told::Absent => Some(Answer::Absent),
        Told::NoQuorum => Some(Answer::NoQuorum {
            phase: Phase::Look,
            heard: 1,
        }),
        Told::Contended => Some(Answer::Contended { met: 1 }),
        Told::UnsureNoQuorum => Some(Answer::Unsure {
            why: UnsureWhy::NoQuorum {
                phase: Phase::Fast,
                heard: 0,
            },
        }),
        Told::UnsureContended => Some(Answer::Unsure {
            why: UnsureWhy::Contended { met: 1 },
        }),
        Told::Gone(version, session) => gone_of(version, session),
        Told::Placed(version) => Some(Answer::Ok {
            version: version_of(version),
        }),
        Told::Read(version, session, bytes) => read_of(alloc, version, session, bytes),
    }
}

fn put_of(key: Key, bytes: Items<u8>) -> Call {
    Call::Put { key, bytes }
}

fn call_of(alloc: Global, key: u8, asked: Asked) -> Option<Call> {
    let key = key_of(alloc, key)?;
    match asked {
        Asked::Put(bytes) => Some(put_of(key, bytes_of(alloc, bytes)?)),
        Asked::PutNothing => Some(put_of(key, Items::new(alloc))),
        Asked::Delete => Some(Call::Delete { key }),
        Asked::Get => Some(Call::Get { key }),
    }
}

/// The key of one byte.
pub fn key_of(alloc: Global, byte: u8) -> Option<Key> {
    Key::new(Vec::from_slice(alloc, &[byte]).ok()?)
}

/// The record of a call, the how-many-eth of its session.
fn record_of(alloc: Global, seq: u32, brief: Brief) -> Option<CallRec> {
    let (session, key, asked, begin, end, told) = brief;
    let name = name_of(session, seq)?;
    let call = call_of(alloc, key, asked)?;
    let answer = answer_of(alloc, told);
    let end = match answer {
        None => None,
        Some(_) => Some(end),
    };
    Some(CallRec {
        name,
        call,
        begin,
        end,
        answer,
    })
}

/// The records of calls; none where memory runs out.
pub fn calls_of(alloc: Global, briefs: &[Brief], numbered: Numbered) -> Option<Vec<CallRec>> {
    let mut calls = Vec::new(alloc);
    let mut seq = 1u32;
    for brief in briefs {
        calls.push(record_of(alloc, seq, *brief)?).ok()?;
        if let Numbered::InTurn = numbered {
            seq = seq.saturating_add(1);
        }
    }
    Some(calls)
}

/// The table with a row that comes out otherwise than it says, and the row's place.
pub type Otherwise = (&'static str, usize);
