//! Objects that are gathered from the fragments that come.
use crate::cuts::{key, made};
use gz_core::{Answer, Fate, Items, Reply, Version};
use gz_data::{Gathering, Made};
use std::alloc::Global;

/// What comes of a fragment.
#[derive(Clone, Copy)]
enum Came {
    Record,
    OtherBytes,
    Nothing,
    Fault,
    GaveUp,
}

/// The reply that says so, where there is one.
fn reply_of(alloc: Global, made: &Made, index: u8, came: Came) -> Option<Reply> {
    let record = made.records.get(usize::from(index))?;
    match came {
        Came::Record => Some(Reply::Blob {
            bytes: record.clone().ok()?,
        }),
        Came::OtherBytes => Some(Reply::Blob {
            bytes: Items::from_slice(alloc, b"other").ok()?,
        }),
        Came::Nothing => Some(Reply::NoBlob),
        Came::Fault => Some(Reply::Failed),
        Came::GaveUp => None,
    }
}

/// What a get answers where this comes of the fragments of an object, in this order.
fn answer_of(alloc: Global, object: &[u8], events: &[(u8, Came)]) -> Option<Answer> {
    let made = made(alloc, object)?;
    let key = key(alloc)?;
    let mut gathering = Gathering::new(alloc, Version(3), made.put.clone().ok()?).ok()?;
    for (index, came) in events {
        if gathering.is_over() || !gathering.is_waited_for(*index) {
            return None;
        }
        match reply_of(alloc, &made, *index, *came) {
            Some(reply) => gathering.note(alloc, &key, *index, &reply).ok()?,
            None => gathering.give_up(*index),
        }
    }
    if gathering.is_over() {
        gathering.answer(alloc).ok()
    } else {
        None
    }
}

/// Whether a get answers with the object, at the version and with the name of its put.
fn gives_back(alloc: Global, object: &[u8], events: &[(u8, Came)]) -> bool {
    match &answer_of(alloc, object, events) {
        Some(
            Answer::Bytes {
                version,
                name,
                bytes,
            },
        ) => version.0 == 3 && name.seq == 1 && bytes.as_slice() == object,
        _ => false,
    }
}

/// Whether a get answers with these fates.
fn tells(alloc: Global, events: &[(u8, Came)], wanted: &[Fate]) -> bool {
    match &answer_of(alloc, &[1, 2, 3], events) {
        Some(
            Answer::Incomplete {
                version,
                name,
                fates,
            },
        ) => version.0 == 3 && name.seq == 1 && fates.as_slice() == wanted,
        _ => false,
    }
}

/// Objects of no byte, of one, and of a last piece that isn't full.
const OBJECTS: &[&[u8]] = &[b"", b"x", b"even", b"uneven number"];

#[test]
fn any_two_of_three_give_the_object(rt: HostRuntime) {
    for object in OBJECTS {
        for (one, other) in [(0, 1), (1, 0), (0, 2), (2, 0), (1, 2), (2, 1)] {
            assert!(rt;
                gives_back(
                    rt.alloc(),
                    object,
                    &[(one, Came::Record), (other, Came::Record)]
                )
            );
        }
    }
}

#[test]
fn one_that_is_not_whole_is_spared(rt: HostRuntime) {
    for came in [Came::OtherBytes, Came::Nothing, Came::Fault, Came::GaveUp] {
        let events = [(1, came), (2, Came::Record), (0, Came::Record)];
        assert!(rt; gives_back(rt.alloc(), b"spared", &events));
    }
}

#[test]
fn too_few_that_are_whole_tell_their_fates(rt: HostRuntime) {
    let alloc = rt.alloc();
    let events = [(2, Came::OtherBytes), (0, Came::Record), (1, Came::Nothing)];
    assert!(rt; tells(alloc, &events, &[Fate::Whole, Fate::Missing, Fate::Damaged]));
    let events = [(0, Came::Fault), (1, Came::GaveUp), (2, Came::Record)];
    assert!(rt; tells(alloc, &events, &[Fate::Failed, Fate::GivenUp, Fate::Whole]));
}

#[test]
fn what_awaits_a_fragment_has_no_answer(rt: HostRuntime) {
    assert!(rt; answer_of(rt.alloc(), b"xy", &[(0, Came::Record), (1, Came::Nothing)]).is_none());
}
