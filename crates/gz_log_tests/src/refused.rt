//! Texts that are no logs, and the first line of each that has a fault.
use gz_core::{TextError, Why};
use gz_logs::parse_log;
use std::alloc::{AllocError, Global};
use std::test::Fail;

/// A text, the number of its first line with a fault, and the fault.
type Refused = (&'static str, u32, Why);

/// What a text is refused with, if it is.
fn refusal_of(alloc: Global, text: &[u8]) -> Option<TextError> {
    match parse_log(alloc, text) {
        Err(error) => Some(error),
        Ok(_) => None,
    }
}

/// Has each text of a table refused; the place of the first that isn't, or with another fault.
fn refuse_each(alloc: Global, texts: &[Refused]) -> Result<(), usize> {
    for (place, (text, line, why)) in texts.iter().enumerate() {
        let told = TextError::Bad {
            line: *line,
            why: *why,
        };
        if refusal_of(alloc, text.as_bytes()) != Some(told) {
            return Err(place);
        }
    }
    Ok(())
}

/// The last line is missing, stands too early, or counts other calls.
const LAST_LINES: &[Refused] = &[
    ("", 1, Why::End),
    ("\n", 2, Why::End),
    ("# end 0 0 0\n\n", 3, Why::End),
    ("1.1 put a 01 1 2 ok 1\n", 2, Why::End),
    ("1.1 put a 01 1 2 ok 1", 2, Why::End),
    (
        "1.1 put a 0102 2 20 ok 1\n1.2 get a - 21 31 bytes 1 1.1 0102\n",
        3,
        Why::End,
    ),
    ("1.1 put a 01 1 2 ok 1\nend 0 2 0\n", 2, Why::End),
    ("1.1 put a 01 1 2 ok 1\nend 2 2 0\n", 2, Why::End),
    ("end 0 0 0\nend 0 0 0\n", 2, Why::End),
    ("end 0 0 0\n\n# c\n1.1 put a 01 1 2 ok 1\n", 4, Why::End),
    ("end 0 0 0\nx\n", 2, Why::End),
];

/// Faults of fields, the first from the left.
const FIELDS: &[Refused] = &[
    ("end 0 0\n", 1, Why::Count),
    ("end 1 0 0 0\n", 1, Why::Count),
    ("1.1 put a 01 1 2 ok 1\nend 01 2 0\n", 2, Why::Number),
    ("end 5 4294967296 0\n", 1, Why::Number),
    ("end 0 0 -\n", 1, Why::Number),
    ("end 0 0 0\r", 1, Why::Number),
    (" #\nend 0 0 0\n", 1, Why::Word),
    ("End 0 0 0\n", 1, Why::Word),
    ("1 put a 01 1 2 ok 1\n", 1, Why::Word),
    ("0.1 put a 01 1 2 ok 1\n", 1, Why::Word),
    ("1.01 put a 01 1 2 ok 1\n", 1, Why::Word),
    ("1.4294967296 put\n", 1, Why::Word),
    ("1.1.1 put a 01 1 2 ok 1\n", 1, Why::Word),
    ("\n# c\n1.1 pat a 01 1 2 ok 1\n", 3, Why::Word),
    ("1.1 putif a 0:01 1 2 ok 1\n", 1, Why::Word),
    ("1.1 pat a 01 1 2\n", 1, Why::Count),
    ("1.1 put a 01 1 -\n", 1, Why::Count),
    ("1.1\n", 1, Why::Count),
    ("1.1 get é - x 2 absent\n", 1, Why::Key),
    ("1.1 put a\x7f 0 1 2 ok 1\n", 1, Why::Key),
    (
        "1.1 get kkkkkkkkkkkkkkkkkkkkkkkkkkkkkkkkkkkkkkkkkkkkkkkkkkkkkkkkkkkkkkkkkkkkkkkkkkkkkkkkkkkkkkkkkkkkkkkkkkkkkkkkkkkkkkkkkkkkkkkkkkkkkkkkkkkkkkkkkkkkkkkkkkkkkkkkkkkkkkkkkkkkkkkkkkkkkkkkkkkkkkkkkkkkkkkkkkkkkkkkkkkkkkkkkkkkkkkkkkkkkkkkkkkkkkkkkkkkkkkkkkkkkkkkkkkkkkkk - 1 2 absent\n",
        1,
        Why::Key,
    ),
    ("1.1 put a 0 x 2 ok 1\n", 1, Why::Bytes),
    ("1.1 put a 0A 1 2 ok 1\n", 1, Why::Bytes),
    ("1.1 put a x:01 1 2 ok 1\n", 1, Why::Bytes),
    ("1.1 put a -- 1 2 ok 1\n", 1, Why::Bytes),
    ("1.1 get a 0 1 2 absent\n", 1, Why::Number),
    ("1.1 delete a 01 1 2 ok 1\n", 1, Why::Number),
    ("1.1 getat a 0 1 2 absent\n", 1, Why::Number),
    (
        "1.1 getat a 9223372036854775808 1 2 unborn 1\n",
        1,
        Why::Number,
    ),
    ("1.1 getat a - 1 2 unborn 1\n", 1, Why::Number),
    ("1.1 collect a 0 1 2 held noolder\n", 1, Why::Number),
    ("1.1 collect a 1001 1 2 held noolder\n", 1, Why::Number),
    ("1.1 put a 01 01 2 ok 1\n", 1, Why::Number),
    ("1.1 put a 01 - 2 ok 1\n", 1, Why::Number),
    ("1.1 put a 01 1 4294967296 ok 1\n", 1, Why::Number),
    ("1.1 put a 01 1 +2 ok 1\n", 1, Why::Number),
];

/// Faults of lines whose fields have none.
const AFTER_FIELDS: &[Refused] = &[
    ("1.1 put a 01 1 2 ok 1\n1.1 put a 01 1 2 ko\n", 2, Why::Name),
    (
        "1.1 put a 01 1 2 ok 1\n1.2 put a 01 1 5 ok 1\n",
        2,
        Why::Order,
    ),
    (
        "1.1 put a 01 1 2 ok 1\n\n1.2 put a 01 2 2 ok 1\n",
        3,
        Why::Order,
    ),
    ("1.1 put a 01 2 1 ko\n", 1, Why::Order),
    ("1.1 put a 01 3999999 4000001 ok 1\n", 1, Why::Order),
    ("1.1 put a 01 4000001 - open\n", 1, Why::Order),
    ("1.1 put a 01 1 - ok 1\n", 1, Why::Order),
    ("1.1 put a 01 1 2 open\n", 1, Why::Order),
    ("1.1 put a 01 1 - open x\n", 1, Why::Order),
    ("1.1 put a 01 1 2 open x\n", 1, Why::Answer),
    ("1.1 put a 01 1 2 ko\n", 1, Why::Answer),
    ("1.1 put a 01 1 2 absent\n", 1, Why::Answer),
    ("1.1 put a 01 1 2 ok\n", 1, Why::Answer),
    ("1.1 put a 01 1 2 ok 0\n", 1, Why::Answer),
    ("1.1 put a 01 1 2 ok 1 1\n", 1, Why::Answer),
    ("1.1 put a 01 1 2 ok 9223372036854775808\n", 1, Why::Answer),
    ("1.1 put a 01 1 2 thin 1\n", 1, Why::Answer),
    ("1.1 put a 01 1 2 thin 1 4294967296\n", 1, Why::Answer),
    ("1.1 put a 01 1 2 short 01\n", 1, Why::Answer),
    ("1.1 put a 01 1 2 noquorum quick 1\n", 1, Why::Answer),
    ("1.1 put a 01 1 2 unsure\n", 1, Why::Answer),
    ("1.1 put a 01 1 2 unsure trimmed 0\n", 1, Why::Answer),
    ("1.1 put a 01 1 2 unsure noquorum fast\n", 1, Why::Answer),
    ("1.1 delete a - 1 2 thin 1 1\n", 1, Why::Answer),
    ("1.1 delete a - 1 2 short 1\n", 1, Why::Answer),
    ("1.1 get a - 1 2 ok 1\n", 1, Why::Answer),
    ("1.1 get a - 1 2 unborn 1\n", 1, Why::Answer),
    ("1.1 get a - 1 2 unsure contended 1\n", 1, Why::Answer),
    ("1.1 get a - 1 2 absent 0\n", 1, Why::Answer),
    ("1.1 get a - 1 2 bytes 1 1.1\n", 1, Why::Answer),
    ("1.1 get a - 1 2 bytes 1 1.0 01\n", 1, Why::Answer),
    ("1.1 get a - 1 2 bytes 1 1.1 0F\n", 1, Why::Answer),
    ("1.1 get a - 1 2 incomplete 1 1.1 WX\n", 1, Why::Answer),
    (
        "1.1 get a - 1 2 incomplete 1 1.1 WWWWWWWWWWWWWWWWW\n",
        1,
        Why::Answer,
    ),
    ("1.1 get a - 1 2 gone 1 1\n", 1, Why::Answer),
    ("1.1 getat a 1 1 2 absent\n", 1, Why::Answer),
    ("1.1 getat a 1 1 2 unborn -\n", 1, Why::Answer),
    ("1.1 getat a 1 1 2 collected 0\n", 1, Why::Answer),
    ("1.1 collect a 1 1 2 swept 0 1\n", 1, Why::Answer),
    ("1.1 collect a 1 1 2 held\n", 1, Why::Answer),
    ("1.1 collect a 1 1 2 held notwhole\n", 1, Why::Answer),
    ("1.1 collect a 1 1 2 held noolder W\n", 1, Why::Answer),
];

#[test]
fn the_first_fault_is_told(rt: HostRuntime) -> Result<(), Fail> {
    refuse_each(rt.alloc(), LAST_LINES)?;
    refuse_each(rt.alloc(), FIELDS)?;
    refuse_each(rt.alloc(), AFTER_FIELDS)?;
    Ok(())
}

/// What stands before and after so many bytes in hexadecimal, and what the text is refused with, if it is.
type Long = (&'static str, usize, &'static str, Option<TextError>);

/// The text with so many zero bytes.
fn with_zeros(
    alloc: Global,
    before: &str,
    count: usize,
    after: &str,
) -> Result<Vec<u8>, AllocError> {
    let mut text = Vec::from_slice(alloc, before.as_bytes())?;
    for _ in 0..count {
        text.extend_from_slice(b"00")?;
    }
    text.extend_from_slice(after.as_bytes())?;
    Ok(text)
}

/// Objects of the greatest size, and larger ones, with faults to the right of them and to the left.
const LONG: &[Long] = &[
    ("1.1 put a ", 1_048_576, " 1 2 ok 1\nend 1 2 0\n", None),
    (
        "1.1 put a ",
        1_048_577,
        " x 2 ok 1\n",
        Some(TextError::TooLong { line: 1 }),
    ),
    (
        "\n1.1 get a - 1 2 bytes 1 1.1 ",
        1_048_577,
        "\n",
        Some(TextError::TooLong { line: 2 }),
    ),
    (
        "\n1.1 get a - 2 1 bytes 1 1.1 ",
        1_048_577,
        "\n",
        Some(TextError::Bad {
            line: 2,
            why: Why::Order,
        }),
    ),
];

#[test]
fn too_many_bytes_are_told(rt: HostRuntime) -> Result<(), AllocError> {
    for (before, count, after, refusal) in LONG {
        let text = with_zeros(rt.alloc(), before, *count, after)?;
        assert!(rt; refusal_of(rt.alloc(), text.as_slice()) == *refusal);
    }
    Ok(())
}
