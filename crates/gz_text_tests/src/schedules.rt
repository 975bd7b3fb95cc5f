//! Texts of schedules, read and refused.
use gz_core::{Call, Key, SiteId, TextError, Why};
use gz_lines::{Line, read_schedule};
use std::alloc::Global;
use std::test::Fail;

/// A line in brief: its word, its session or number, the second number or the byte of its key, and its bytes or sites.
type Brief = (&'static str, u32, u32, u64);

/// Bytes as the digits of one number, below the digit 1.
fn number_of(bytes: &[u8]) -> u64 {
    let mut number = 1u64;
    for byte in bytes {
        number = number.saturating_mul(256).saturating_add(*byte as u64);
    }
    number
}

/// Sites as the digits of one number, below the digit 1.
fn number_of_sites(sites: &[SiteId]) -> u64 {
    let mut number = 1u64;
    for site in sites {
        number = number
            .saturating_mul(256)
            .saturating_add(site.index() as u64);
    }
    number
}

/// The byte of a key that has one byte.
fn byte_of(key: &Key) -> u32 {
    match key.as_bytes() {
        [byte] => *byte as u32,
        _ => 0,
    }
}

fn brief_of_call(session: u32, call: &Call) -> Brief {
    let key = byte_of(call.key());
    match call {
        Call::Put { bytes, .. } => ("put", session, key, number_of(bytes.as_slice())),
        Call::Delete { .. } => ("delete", session, key, 1),
        Call::Get { .. } => ("get", session, key, 1),
        Call::GetAt { version, .. } => ("getat", session, key, version.number()),
        Call::Collect { keep, .. } => ("collect", session, key, *keep as u64),
    }
}

fn brief_of(line: &Line) -> Brief {
    match line {
        Line::OpenSession => ("session", 0, 0, 1),
        Line::Begin { session, call } => brief_of_call(session.number(), call),
        Line::Deliver { n } => ("deliver", *n, 0, 1),
        Line::Reply { n, which } => ("reply", *n, *which, 1),
        Line::GiveUp { n } => ("giveup", *n, 0, 1),
        Line::Crash { session } => ("crash", session.number(), 0, 1),
        Line::Take { n } => ("take", *n, 0, 1),
        Line::Settle { session, without } => {
            (
                "settle",
                session.number(),
                0,
                number_of_sites(without.as_slice()),
            )
        }
        Line::Drain { session } => ("drain", session.number(), 0, 1),
    }
}

fn are(lines: &[Line], briefs: &[Brief]) -> bool {
    for (line, brief) in lines.iter().zip(briefs) {
        if brief_of(line) != *brief {
            return false;
        }
    }
    lines.len() == briefs.len()
}

/// Whether a text has these lines.
fn is_read(alloc: Global, text: &str, briefs: &[Brief]) -> bool {
    match read_schedule(alloc, text.as_bytes()) {
        Err(_) => false,
        Ok(lines) => are(lines.as_slice(), briefs),
    }
}

/// Texts of the same six lines, with the bytes of their put.
const SIX_LINES: &[(&str, u64)] = &[
    (
        "session\nput 1 a x:0102\nsettle 1\nget 1 a\nsettle 1\ndelete 1 a\n",
        0x10102,
    ),
    (
        "session\r\nput 1 a x:0102\r\nsettle 1\r\nget 1 a\r\nsettle 1\r\ndelete 1 a\r\n",
        0x10102,
    ),
    (
        "session\nput 1 a x:AbcD\nsettle 1\nget 1 a\nsettle 1\ndelete 1 a",
        0x1abcd,
    ),
    (
        "# c\n\nsession\nput 1 a x:\n  \nsettle 1\nget 1 a\n# d\nsettle 1\n delete  1 a \n",
        1,
    ),
];

/// Whether a text has the six lines.
fn has_six_lines(alloc: Global, text: &str, bytes: u64) -> bool {
    let lines = [
        ("session", 0, 0, 1),
        ("put", 1, 0x61, bytes),
        ("settle", 1, 0, 1),
        ("get", 1, 0x61, 1),
        ("settle", 1, 0, 1),
        ("delete", 1, 0x61, 1),
    ];
    is_read(alloc, text, lines.as_slice())
}

/// Texts of other lines. A call needs no session above it and a put no line below it, and a text may have no line.
const OTHERS: &[(&str, &[Brief])] = &[
    (
        "deliver 0\n reply  7 0 \ngiveup 4294967295\ncrash 2\n#\ntake 10\ndrain 2\nsettle 2 without 0,15,15\nsettle 2 without 3\nsession",
        &[
            ("deliver", 0, 0, 1),
            ("reply", 7, 0, 1),
            ("giveup", 4_294_967_295, 0, 1),
            ("crash", 2, 0, 1),
            ("take", 10, 0, 1),
            ("drain", 2, 0, 1),
            ("settle", 2, 0, 0x1000f0f),
            ("settle", 2, 0, 0x103),
            ("session", 0, 0, 1),
        ],
    ),
    (
        "getat 2 a 1\n getat  4294967295 b  4294967295\r\ngetat 1 c 10",
        &[
            ("getat", 2, 0x61, 1),
            ("getat", 4_294_967_295, 0x62, 4_294_967_295),
            ("getat", 1, 0x63, 10),
        ],
    ),
    (
        "put 1 a x:01\nget 2 a\n",
        &[("put", 1, 0x61, 0x101), ("get", 2, 0x61, 1)],
    ),
    ("", &[]),
];

#[test]
fn schedules_are_read(rt: HostRuntime) {
    for (text, bytes) in SIX_LINES {
        assert!(rt; has_six_lines(rt.alloc(), text, *bytes));
    }
    for (text, briefs) in OTHERS {
        assert!(rt; is_read(rt.alloc(), text, briefs));
    }
}

/// What a text is refused with, if it is.
fn refusal_of(alloc: Global, text: &str) -> Option<TextError> {
    match read_schedule(alloc, text.as_bytes()) {
        Err(error) => Some(error),
        Ok(_) => None,
    }
}

/// Texts, and the first line of each that has a fault, with its fault.
const REFUSED: &[(&str, u32, Why)] = &[
    ("session\ngetat 1 a\n", 2, Why::Count),
    ("getat 1 a 1 1\n", 1, Why::Count),
    ("getat 0 a\x07 0\n", 1, Why::Number),
    ("getat 1 a\x07 0\n", 1, Why::Key),
    ("getat 1 a 1\ngetat 1 a 0\n", 2, Why::Number),
    ("getat 1 a 4294967296\n", 1, Why::Number),
    ("getat 1 a 01\n", 1, Why::Number),
    ("getAt 1 a 1\n", 1, Why::Word),
    ("collect 0 a 1\n", 1, Why::Unbuilt),
    ("lose\nput 1\n", 1, Why::Unbuilt),
    ("take 1\n\nrot 1 a 1.1 0 y:\n", 3, Why::Unbuilt),
    ("session\npat 1 a\n", 2, Why::Word),
    ("Session\n", 1, Why::Word),
    ("session 1\n", 1, Why::Count),
    ("# c\n\nsession\nput 1 a x:0\nsettle 1\n", 4, Why::Bytes),
    ("session\nput 01 a x:01\nsettle 1\n", 2, Why::Number),
    ("put 1 a\n", 1, Why::Count),
    ("put 0 a\x07 y\n", 1, Why::Number),
    ("put 1 a\x07 y\n", 1, Why::Key),
    ("put 1 a 01\n", 1, Why::Bytes),
    ("put 1 a g:0\n", 1, Why::Bytes),
    ("put 1 a g:0:01\n", 1, Why::Bytes),
    ("put 1 a g:0:1:2\n", 1, Why::Bytes),
    ("put 1 a g:4294967296:1\n", 1, Why::Bytes),
    ("put 1 a g::1\n", 1, Why::Bytes),
    ("deliver 1\ndeliver 01\n", 2, Why::Number),
    ("deliver 4294967296\n", 1, Why::Number),
    ("deliver\n", 1, Why::Count),
    ("take 1\ntake -1\n", 2, Why::Number),
    ("delete 1\n", 1, Why::Count),
    ("delete 0 a\n", 1, Why::Number),
    ("session\ndelete 1 a x:01\n", 2, Why::Count),
    ("get 1 é\n", 1, Why::Key),
    ("giveup 1 2\n", 1, Why::Count),
    ("crash 1\ncrash 0\n", 2, Why::Number),
    ("drain x\n", 1, Why::Number),
    ("reply 1\n", 1, Why::Count),
    ("reply 1 1\nreply 1 1 1\n", 2, Why::Count),
    ("reply x y\nreply 1 y\n", 1, Why::Number),
    ("settle 0\n", 1, Why::Number),
    ("settle 1 without\n", 1, Why::Count),
    ("settle 1 with 1\n", 1, Why::Word),
    ("settle 0 with 1\n", 1, Why::Number),
    ("settle 1 without 16\n", 1, Why::List),
    ("settle 1 without 1,\n", 1, Why::List),
    ("settle 1 without 1, 2\n", 1, Why::Count),
    ("settle 1 without ,1\n", 1, Why::List),
    ("session\r", 1, Why::Word),
];

/// Has each of the texts refused; else the place of the first one that isn't, or with another fault.
fn refuse_each(alloc: Global) -> Result<(), usize> {
    for (place, (text, line, why)) in REFUSED.iter().enumerate() {
        let told = TextError::Bad {
            line: *line,
            why: *why,
        };
        if refusal_of(alloc, text) != Some(told) {
            return Err(place);
        }
    }
    Ok(())
}

#[test]
fn the_first_fault_is_told(rt: HostRuntime) -> Result<(), Fail> {
    refuse_each(rt.alloc())?;
    Ok(())
}

/// Texts whose first faulty line has too many bytes, with the number of that line.
const TOO_LONG: &[(&str, u32)] = &[
    ("put 1 a g:0:1048577\n", 1),
    ("session\n\nput 1 a g:4294967295:4294967295\nput 1\n", 3),
];

#[test]
fn too_many_bytes_are_told(rt: HostRuntime) {
    for (text, line) in TOO_LONG {
        assert!(rt; refusal_of(rt.alloc(), text) == Some(TextError::TooLong { line: *line }));
    }
}

/// The number of bytes of the one put of a text, and the last of them.
fn put_in(alloc: Global, text: &str) -> Option<(usize, u8)> {
    let lines = read_schedule(alloc, text.as_bytes()).ok()?;
    match lines.as_slice() {
        [
            Line::Begin {
                call: Call::Put { bytes, .. },
                ..
            },
        ] => {
            let last = bytes.as_slice().last()?;
            Some((bytes.len(), *last))
        }
        _ => None,
    }
}

/// Puts of generated bytes, with their number and the last of them.
const GENERATED: &[(&str, usize, u8)] = &[
    ("put 1 a g:0:1", 1, 0x3c),
    ("put 1 a g:0:2", 2, 0x47),
    ("put 1 a g:0:3", 3, 0xd1),
    ("put 1 a g:0:4", 4, 0xaa),
    ("put 1 a g:4294967295:1048576", 1_048_576, 0x8e),
];

#[test]
fn bytes_are_generated(rt: HostRuntime) {
    for (text, count, last) in GENERATED {
        assert!(rt; put_in(rt.alloc(), text) == Some((*count, *last)));
    }
}
