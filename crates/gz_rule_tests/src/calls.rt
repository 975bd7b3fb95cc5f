//! What calls, values and words show.
use crate::samples::{ONE, TWO, key_of, tomb};
use gz_core::{Call, FragRef, Items, PutName, PutValue, SiteId, Value, Word};
use std::alloc::Global;

fn put(alloc: Global) -> Option<Call> {
    let key = key_of(alloc, b"a")?;
    let bytes = Items::new(alloc);
    Some(Call::Put { key, bytes })
}

fn delete(alloc: Global) -> Option<Call> {
    let key = key_of(alloc, b"b")?;
    Some(Call::Delete { key })
}

fn get(alloc: Global) -> Option<Call> {
    let key = key_of(alloc, b"c")?;
    Some(Call::Get { key })
}

/// Whether there is a call, and it is about the key of these bytes.
fn is_about(call: Option<Call>, bytes: &[u8]) -> bool {
    match call {
        None => false,
        Some(call) => call.key().as_bytes() == bytes,
    }
}

fn keys_of_calls(alloc: Global) -> [bool; 3] {
    [
        is_about(put(alloc), b"a"),
        is_about(delete(alloc), b"b"),
        is_about(get(alloc), b"c"),
    ]
}

/// The name of what a put writes.
fn name_of_put(alloc: Global) -> Option<PutName> {
    let fragment = FragRef {
        site: SiteId(0),
        digest: [0; 32],
    };
    let value = Value::Put(PutValue {
        name: TWO,
        length: 0,
        k: 1,
        m: 0,
        fragments: Items::from_slice(alloc, &[fragment]).ok()?,
    });
    Some(value.name())
}

fn name_of_delete() -> PutName {
    tomb(ONE).name()
}

/// Whether a word has its text.
fn is_word(alloc: Global, text: &str) -> bool {
    match String::from_str(alloc, text) {
        Err(_) => false,
        Ok(string) => Word(string).as_str() == text,
    }
}

#[test]
fn calls_values_and_words(rt: HostRuntime) {
    assert!(rt; keys_of_calls(rt.alloc()) == [true, true, true]);
    assert!(rt; (name_of_delete(), name_of_put(rt.alloc())) == (ONE, Some(TWO)));
    assert!(rt; is_word(rt.alloc(), "replay"));
}
