//! The words of the command line are read.
ghost use Rattle.std.specs.Prelude.{◌≡◌, true, IfOk, IfSome, map, option_map};
ghost use Rattle.gz_words.specs.Words.{task_in, task_of, IsWellFormed};

use crate::command::Command;
use crate::grammar::own_reading;
use crate::parser::parsed;
use gz_core::Word;
use std::alloc::{AllocError, Global};

/// The texts of words.
pub fn texts_of(alloc: Global, words: &[Word]) -> Result<Vec<&str>, AllocError>
    ensures { IfOk result (λ texts. map (λ text. text.now) texts.items ≡ words.now) }
{
    let mut texts = Vec::new(alloc);
    for word in words {
        texts.push(word.as_str())?;
    }
    Ok(texts)
}

/// What the words ask for: `replay SCHEDULE [CONFIG]`, `check LOG`, `show row FILE`, `show fragment FILE` or `code K M HEX`;
/// none where they are of no form. A word that begins with a dash is of no form.
pub fn command_of<'a>(
    alloc: Global,
    words: &'a [&'a str],
) -> Result<Option<Command<'a>>, AllocError>
    ensures exact { IfOk result (λ command. option_map task_of command ≡ task_in (map (λ word. word.now) words.now)) }
    ensures sound { IfOk result (λ command. IfSome command IsWellFormed) }
{
    let Some(own) = own_reading(words) else {
        return Ok(None);
    };
    match parsed(alloc, words)? {
        Some(read) => {
            if are_same(read.as_slice(), words) {
                Ok(own_reading(read.as_slice()))
            } else {
                Ok(Some(own))
            }
        }
        None => Ok(Some(own)),
    }
}

/// Whether the words are the same.
fn are_same(read: &[&str], words: &[&str]) -> bool
    ensures { result ≡ true → map (λ word. word.now) read.now ≡ map (λ word. word.now) words.now }
{
    read == words
}
