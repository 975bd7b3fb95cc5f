//! Words are split by `clap`. What it reads is compared with the words themselves, so nothing is claimed of it here.
use clap::error::ErrorKind;
use clap::{Arg, ArgAction, ArgMatches, Command, Error};
use std::alloc::{AllocError, Global};

/// The command's name and its values as `clap` reads them; none where it refuses the words for another cause than
/// want of memory.
pub fn parsed<'a>(alloc: Global, words: &'a [&'a str]) -> Result<Option<Vec<&'a str>>, AllocError> {
    match matched(alloc, words) {
        Ok(matches) => split(alloc, &matches),
        Err(error) if error.kind() == ErrorKind::OutOfMemory => Err(AllocError),
        Err(_) => Ok(None),
    }
}

fn matched<'a>(alloc: Global, words: &'a [&'a str]) -> Result<ArgMatches<'a>, Error> {
    let program = program(alloc)?;
    program.try_get_matches_from(words)
}

fn split<'a>(alloc: Global, matches: &ArgMatches<'a>) -> Result<Option<Vec<&'a str>>, AllocError> {
    let Some((name, values)) = matches.subcommand() else {
        return Ok(None);
    };
    let mut words = Vec::new(alloc);
    words.push(name)?;
    for id in values.ids() {
        if let Some(value) = values.get_str(id) {
            words.push(value)?;
        }
    }
    Ok(Some(words))
}

fn program<'a>(alloc: Global) -> Result<Command<'a>, AllocError> {
    Command::new(alloc, "giza")
        .no_binary_name(true)
        .disable_help_flag(true)
        .disable_version_flag(true)
        .disable_help_subcommand(true)
        .subcommand_required(true)
        .subcommand(replay(alloc)?)?
        .subcommand(check(alloc)?)?
        .subcommand(show(alloc)?)?
        .subcommand(code(alloc)?)
}

fn replay<'a>(alloc: Global) -> Result<Command<'a>, AllocError> {
    Command::new(alloc, "replay")
        .arg(required(alloc, "schedule"))?
        .arg(Arg::new(alloc, "config").action(ArgAction::Set))
}

fn check<'a>(alloc: Global) -> Result<Command<'a>, AllocError> {
    Command::new(alloc, "check").arg(required(alloc, "log"))
}

fn show<'a>(alloc: Global) -> Result<Command<'a>, AllocError> {
    Command::new(alloc, "show")
        .arg(required(alloc, "kind"))?
        .arg(required(alloc, "file"))
}

fn code<'a>(alloc: Global) -> Result<Command<'a>, AllocError> {
    Command::new(alloc, "code")
        .arg(required(alloc, "k"))?
        .arg(required(alloc, "m"))?
        .arg(required(alloc, "digits"))
}

fn required<'a>(alloc: Global, id: &'a str) -> Arg<'a> {
    Arg::new(alloc, id).required(true).action(ArgAction::Set)
}
