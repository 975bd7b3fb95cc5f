//! Words of the command line, and what they ask for.
use gz_core::Word;
use gz_words::{Command, command_of, texts_of};
use std::alloc::{AllocError, Global};

/// A command in brief: its word and its texts, and the numbers of a code.
type Brief<'a> = (&'static str, &'a str, &'a str, usize, usize);

/// Whether a command is this one.
fn is_asked(command: &Option<Command>, brief: Option<Brief>) -> bool {
    match (command, brief) {
        (None, None) => true,
        (Some(Command::Replay { schedule, config }), Some((word, first, second, _, _))) => {
            word == "replay" && *schedule == first && config.unwrap_or("none") == second
        }
        (Some(Command::Check { log }), Some((word, first, _, _, _))) => {
            word == "check" && *log == first
        }
        (Some(Command::Code { k, m, digits }), Some((word, first, _, pieces, more))) => {
            word == "code" && *digits == first.as_bytes() && *k == pieces && *m == more
        }
        _ => false,
    }
}

/// Whether words ask for this.
fn holds(alloc: Global, texts: &[&str], brief: Option<Brief>) -> Result<bool, AllocError> {
    let mut words = Vec::new(alloc);
    for text in texts {
        words.push(Word(String::from_str(alloc, text)?))?;
    }
    let texts = texts_of(alloc, words.as_slice())?;
    let command = command_of(alloc, texts.as_slice())?;
    Ok(is_asked(&command, brief))
}

/// Words with what they ask for.
const WORDS: &[(&[&str], Option<Brief<'static>>)] = &[
    (&[], None),
    (&["replay"], None),
    (&["replay", "s"], Some(("replay", "s", "none", 0, 0))),
    (&["replay", "s", "c"], Some(("replay", "s", "c", 0, 0))),
    (&["replay", "", "é"], Some(("replay", "", "é", 0, 0))),
    (
        &["replay", "replay"],
        Some(("replay", "replay", "none", 0, 0)),
    ),
    (
        &["replay", "help", "a=b"],
        Some(("replay", "help", "a=b", 0, 0)),
    ),
    (&["replay", "a", "b", "c"], None),
    (&["replay", "-a"], None),
    (&["replay", "--", "-a"], None),
    (&["replay", "s", "--help"], None),
    (&["Replay", "s"], None),
    (&["check"], None),
    (&["check", "l"], Some(("check", "l", "", 0, 0))),
    (&["check", "check"], Some(("check", "check", "", 0, 0))),
    (&["check", "l", "l"], None),
    (&["check", "-l"], None),
    (&["check", "--", "l"], None),
    (&["Check", "l"], None),
    (&["help"], None),
    (&["", "s"], None),
    (
        &["code", "2", "1", "00fF"],
        Some(("code", "00fF", "", 2, 1)),
    ),
    (&["code", "255", "1", ""], Some(("code", "", "", 255, 1))),
    (&["code", "1", "0", "07"], Some(("code", "07", "", 1, 0))),
    (&["code", "256", "1", "00"], None),
    (&["code", "0", "1", "00"], None),
    (&["code", "02", "1", "00"], None),
    (&["code", "+2", "1", "00"], None),
    (&["code", "2", "1", "0"], None),
    (&["code", "2", "1", "0x"], None),
    (&["code", "2", "1", "-"], None),
    (&["code", "2", "1"], None),
    (&["code", "2", "1", "00", "00"], None),
];

#[test]
fn words_are_read(rt: HostRuntime) -> Result<(), AllocError> {
    for (texts, brief) in WORDS {
        assert!(rt; holds(rt.alloc(), texts, *brief)?);
    }
    Ok(())
}
