//! The forms of words.
ghost use Rattle.std.specs.Prelude.{◌≡◌, ◌&&◌, IfSome, map, option_map};
ghost use Rattle.std.specs.Char.{is_ascii_hexdigit};
ghost use Rattle.std.specs.List.{list_all, list_any};
ghost use Rattle.gz_words.specs.Words.{task_in, task_of, form_of, replay_in, show_in, record_in, named_in, paired_in, code_in, is_option, is_shape, is_hex, IsWellFormed};

use crate::command::{Command, Record};
use gz_text::fields::number;

/// What the words ask for, none where they are of no form. A word that begins with a dash is of no form.
pub fn own_reading<'a>(words: &[&'a str]) -> Option<Command<'a>>
    ensures exact { option_map task_of result ≡ task_in (map (λ word. word.now) words.now) }
    ensures sound { IfSome result IsWellFormed }
{
    if has_option(words) {
        None
    } else {
        form_of(words)
    }
}

/// Whether a word begins with a dash.
fn has_option(words: &[&str]) -> bool
    ensures { result ≡ list_any is_option (map (λ word. word.now) words.now) }
{
    for word in words {
        if is_option(word) {
            return true;
        }
    }
    false
}

fn is_option(word: &str) -> bool
    ensures { result ≡ is_option word.now }
{
    match word.as_bytes() {
        [first, ..] => *first == b'-',
        [] => false,
    }
}

/// What words without a dash ask for: `check LOG`, `replay SCHEDULE`, `replay SCHEDULE CONFIG`, `show row FILE`,
/// `show fragment FILE`, `code K M HEX`.
#[tactic(auto, using(crate::proofs::Forms::no_form))]
fn form_of<'a>(words: &[&'a str]) -> Option<Command<'a>>
    ensures exact { option_map task_of result ≡ form_of (map (λ word. word.now) words.now) }
    ensures sound { IfSome result IsWellFormed }
{
    match words {
        [] => None,
        [_] => None,
        [verb, name] => named(verb, name),
        [verb, first, second] => paired(verb, first, second),
        [verb, k, m, digits] => code(verb, k, m, digits),
        [_, _, _, _, _, ..] => None,
    }
}

/// What a verb and the name of a file ask for: `check LOG` or `replay SCHEDULE`.
fn named<'a>(verb: &str, name: &'a str) -> Option<Command<'a>>
    ensures exact { option_map task_of result ≡ named_in verb.now name.now }
    ensures sound { IfSome result IsWellFormed }
{
    if verb == "check" {
        Some(Command::Check { log: name })
    } else {
        replay(verb, name, None)
    }
}

/// What a verb and two words ask for: `show row FILE`, `show fragment FILE` or `replay SCHEDULE CONFIG`.
fn paired<'a>(verb: &str, first: &'a str, second: &'a str) -> Option<Command<'a>>
    ensures exact { option_map task_of result ≡ paired_in verb.now first.now second.now }
    ensures sound { IfSome result IsWellFormed }
{
    if verb == "show" {
        show(first, second)
    } else {
        replay(verb, first, Some(second))
    }
}

fn show<'a>(word: &str, file: &'a str) -> Option<Command<'a>>
    ensures exact { option_map task_of result ≡ show_in word.now file.now }
    ensures sound { IfSome result IsWellFormed }
{
    let kind = record_of(word)?;
    Some(Command::Show { kind, file })
}

/// The kind of record that a word names.
fn record_of(word: &str) -> Option<Record>
    ensures { result ≡ record_in word.now }
{
    if word == "row" {
        Some(Record::Row)
    } else if word == "fragment" {
        Some(Record::Fragment)
    } else {
        None
    }
}

fn replay<'a>(verb: &str, schedule: &'a str, config: Option<&'a str>) -> Option<Command<'a>>
    ensures exact { option_map task_of result ≡ replay_in verb.now schedule.now (option_map (λ name. name.now) config.entry) }
    ensures sound { IfSome result IsWellFormed }
{
    if verb == "replay" {
        Some(Command::Replay { schedule, config })
    } else {
        None
    }
}

fn code<'a>(verb: &str, k: &str, m: &str, digits: &'a str) -> Option<Command<'a>>
    ensures exact { option_map task_of result ≡ code_in verb.now k.now m.now digits.now }
    ensures sound { IfSome result IsWellFormed }
{
    if verb != "code" {
        return None;
    }
    let k = number(k.as_bytes())?;
    let m = number(m.as_bytes())?;
    let digits = digits.as_bytes();
    if is_shape(k, m) && is_hex(digits) {
        Some(Command::Code {
            k: k as usize,
            m: m as usize,
            digits,
        })
    } else {
        None
    }
}

/// Whether there is at least one data piece, and there are at most 256 pieces.
fn is_shape(k: u32, m: u32) -> bool
    ensures { result ≡ is_shape k m }
{
    k >= 1 && k as u64 + m as u64 <= 256
}

/// Whether these are an even number of hexadecimal digits.
fn is_hex(digits: &[u8]) -> bool
    ensures { result ≡ is_hex digits.now }
{
    digits.len() % 2 == 0 && are_hex_digits(digits)
}

fn are_hex_digits(digits: &[u8]) -> bool
    ensures { result ≡ list_all is_ascii_hexdigit digits.now }
{
    digits.iter().all(|digit| digit.is_ascii_hexdigit())
}
