//! The judge of long histories answers as the plain search does.
ghost use Rattle.std.specs.Prelude.{◌<◌, ◌≤◌, ◌^◌};

use gz_core::{Answer, Call, Items, Key, PutName, Session, Version};
use gz_history::{Broken, CallRec, is_history, judge, legal, log_text};
use gz_logs::parse_log;
use std::alloc::Global;
use std::test::Fail;

/// Numbers that follow from one another, as in `g:SEED:LEN` of schedules.
#[derive(Drop)]
struct Dice {
    state: u32,
}

impl Dice {
    /// A number below a bound.
    fn below(&mut self, bound: u32) -> u32
        requires { 0 < bound }
        ensures { result < bound }
    {
        self.state = ((self.state as u64 * 1_664_525 + 1_013_904_223) % (1 << 32)) as u32;
        self.state / 65_536 % bound
    }
}

/// A name of one of four sessions, each with four calls.
fn name_at(place: u32) -> PutName
    requires { place < 16 }
{
    PutName {
        session: Session(place % 4 + 1),
        seq: place / 4 + 1,
    }
}

fn key_of(alloc: Global, byte: u8) -> Option<Key> {
    Key::new(Vec::from_slice(alloc, &[byte]).ok()?)
}

fn object_of(alloc: Global, byte: u8) -> Option<Items<u8>> {
    Items::from_slice(alloc, &[byte]).ok()
}

/// A call about one of two objects.
fn call_of(alloc: Global, dice: &mut Dice) -> Option<Call> {
    let letter = if dice.below(3) == 0 { b'b' } else { b'a' };
    let key = key_of(alloc, letter)?;
    let version = Version(dice.below(3) as u64 + 1);
    let byte = dice.below(2) as u8;
    match dice.below(6) {
        0 | 1 => {
            let bytes = object_of(alloc, byte)?;
            Some(Call::Put { key, bytes })
        },
        2 => Some(Call::Delete { key }),
        3 => Some(Call::GetAt { key, version }),
        4 => Some(Call::Collect { key, keep: 1 }),
        _ => Some(Call::Get { key }),
    }
}

/// An answer that names any of the calls, and shows a low version.
fn answer_of(alloc: Global, dice: &mut Dice) -> Option<Answer> {
    let version = Version(dice.below(4) as u64 + 1);
    let name = name_at(dice.below(16));
    let byte = dice.below(2) as u8;
    match dice.below(8) {
        0 | 1 | 2 => Some(Answer::Ok { version }),
        3 | 4 => {
            let bytes = object_of(alloc, byte)?;
            Some(Answer::Bytes {
                version,
                name,
                bytes,
            })
        },
        5 => Some(Answer::Gone { version, name }),
        6 => Some(Answer::Unborn { latest: version }),
        _ => Some(Answer::Absent),
    }
}

/// So many calls, with any answers.
fn calls_of(alloc: Global, dice: &mut Dice, count: u32) -> Option<Vec<CallRec>>
    requires { count ≤ 16 }
{
    let mut calls = Vec::new(alloc);
    for place in 0..count {
        let begin = place * 4 + 1;
        let answer = if dice.below(6) == 0 {
            None
        } else {
            Some(answer_of(alloc, dice)?)
        };
        let end = match answer {
            None => None,
            Some(_) => Some(begin + 1 + dice.below(12)),
        };
        calls
            .push(CallRec {
                name: name_at(place),
                call: call_of(alloc, dice)?,
                begin,
                end,
                answer,
            })
            .ok()?;
    }
    Some(calls)
}

/// Whether both answer alike, and what is broken; none where the calls are no history.
fn judged_twice(alloc: Global, calls: &[CallRec]) -> Option<(bool, Option<Broken>)> {
    if !is_history(calls) {
        return None;
    }
    let plain = legal(calls).err();
    let quick = judge(alloc, calls).err();
    Some((plain == quick, plain))
}

/// How many of so many histories break each rule first, after those that are legal; none where two answers differ.
fn broken_rules(alloc: Global, histories: u32) -> Option<[u32; 7]> {
    let mut dice = Dice { state: 7 };
    let mut rules = [0u32; 7];
    for _history in 0..histories {
        let count = 1 + dice.below(16);
        let calls = calls_of(alloc, &mut dice, count)?;
        let (alike, broken) = judged_twice(alloc, &calls)?;
        if !alike {
            return None;
        }
        let rule = match broken {
            None => 0,
            Some(broken) => broken.clause as usize,
        };
        if rule < 7 {
            rules[rule] = rules[rule].saturating_add(1);
        }
    }
    Some(rules)
}

/// The rule that is never the first to be broken, 0 for legal histories; 7 where each occurs.
fn absent_rule(rules: &[u32]) -> usize {
    for rule in 0..rules.len() {
        if rules[rule] == 0 {
            return rule;
        }
    }
    rules.len()
}

#[test]
fn random_histories_are_judged_alike(rt: HostRuntime) -> Result<(), Fail> {
    let absent = match broken_rules(rt.alloc(), 4000) {
        Some(rules) => Some(absent_rule(&rules)),
        None => None,
    };
    assert!(rt; absent == Some(7));
    Ok(())
}

/// The put or the get of a turn: each put has the next version, and the get after it reads it.
fn turn_of(alloc: Global, turn: u32) -> Option<CallRec>
    requires { turn < 2 ^ 20 }
{
    let writer = PutName {
        session: Session(1),
        seq: turn / 2 + 1,
    };
    let reader = PutName {
        session: Session(2),
        seq: turn / 2 + 1,
    };
    let key = key_of(alloc, b'a')?;
    let bytes = object_of(alloc, 1)?;
    let version = Version(turn as u64 / 2 + 1);
    let begin = turn * 2 + 1;
    let end = Some(begin + 1);
    if turn % 2 == 0 {
        Some(CallRec {
            name: writer,
            call: Call::Put { key, bytes },
            begin,
            end,
            answer: Some(Answer::Ok { version }),
        })
    } else {
        Some(CallRec {
            name: reader,
            call: Call::Get { key },
            begin,
            end,
            answer: Some(Answer::Bytes {
                version,
                name: writer,
                bytes,
            }),
        })
    }
}

/// The log of so many turns.
fn long_log(alloc: Global, turns: u32) -> Option<Vec<u8>>
    requires { turns ≤ 2 ^ 20 }
{
    let mut calls = Vec::new(alloc);
    for turn in 0..turns {
        calls.push(turn_of(alloc, turn)?).ok()?;
    }
    log_text(alloc, &calls, turns, 0).ok()
}

/// How a log is judged; none where it is none.
fn judged(alloc: Global, text: &[u8]) -> Option<Option<Broken>> {
    let calls = parse_log(alloc, text).ok()?;
    Some(judge(alloc, &calls).err())
}

#[test]
fn a_long_history_is_judged(rt: HostRuntime) -> Result<(), Fail> {
    let alloc = rt.alloc();
    let judged = match long_log(alloc, 10_000) {
        Some(text) => judged(alloc, &text),
        None => None,
    };
    assert!(rt; judged == Some(None));
    Ok(())
}
