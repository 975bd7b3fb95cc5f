//! The program `giza`: it replays a schedule in a world of sites in memory and prints the log, judges a log, shows a record, or cuts
//! bytes into the pieces of a code.
#![tactic(auto)]

ghost use Rattle.std.specs.Prelude.{◌≡◌, Some};
ghost use Rattle.gz_site.specs.Told.{nothing};

use gz_cli::run::run;
use gz_cli::{Bench, FileShelf, Status, StdSink};
use gz_core::Word;
use gz_site::{BoxedSite, MemSite, Site};
use std::alloc::{AllocError, Global};
use std::process::ExitCode;
use std::{env, io};

fn main(rt: HostRuntime) -> ExitCode {
    let status = match arguments(&rt) {
        Ok(words) => run_words(&rt, words.as_slice()),
        Err(error) => unread(&error),
    };
    if !matches!(&status, Status::Done) {
        let _ = eprintln!(rt; "giza: {status}");
    }
    ExitCode::from(status.number())
}

/// The words of the command line, without the program's own name.
fn arguments(rt: &HostRuntime) -> io::Result<Vec<Word>> {
    let mut words = Vec::new(rt.alloc());
    let mut arguments = env::args(rt)?;
    let _program = arguments.next();
    for word in arguments {
        words.push(Word(word))?;
    }
    Ok(words)
}

/// Runs the words over the files of the folder and sixteen boxes with empty sites in memory, with the output on standard output.
fn run_words(rt: &HostRuntime, words: &[Word]) -> Status {
    match run_over_boxes(rt, words) {
        Ok(status) => status,
        Err(AllocError) => Status::NoMemory,
    }
}

fn run_over_boxes(rt: &HostRuntime, words: &[Word]) -> Result<Status, AllocError> {
    let alloc = rt.alloc();
    let mut bench = Bench::bare(alloc);
    bench.add_four(
        BoxedSite(Box::new(alloc, site(alloc))?),
        BoxedSite(Box::new(alloc, site(alloc))?),
        BoxedSite(Box::new(alloc, site(alloc))?),
        BoxedSite(Box::new(alloc, site(alloc))?),
    )?;
    bench.add_four(
        BoxedSite(Box::new(alloc, site(alloc))?),
        BoxedSite(Box::new(alloc, site(alloc))?),
        BoxedSite(Box::new(alloc, site(alloc))?),
        BoxedSite(Box::new(alloc, site(alloc))?),
    )?;
    bench.add_four(
        BoxedSite(Box::new(alloc, site(alloc))?),
        BoxedSite(Box::new(alloc, site(alloc))?),
        BoxedSite(Box::new(alloc, site(alloc))?),
        BoxedSite(Box::new(alloc, site(alloc))?),
    )?;
    bench.add_four(
        BoxedSite(Box::new(alloc, site(alloc))?),
        BoxedSite(Box::new(alloc, site(alloc))?),
        BoxedSite(Box::new(alloc, site(alloc))?),
        BoxedSite(Box::new(alloc, site(alloc))?),
    )?;
    let mut shelf = FileShelf::new(rt);
    let mut out = StdSink::new(rt);
    Ok(run(alloc, words, &mut shelf, &mut out, &mut bench))
}

/// A site in memory that holds nothing and never fails.
fn site(alloc: Global) -> MemSite
    ensures { ⟦<MemSite as Site>⟧.told result ≡ Some nothing }
{
    MemSite::new(alloc, Vec::new(alloc))
}

/// Words that are no text are of no form.
fn unread(error: &io::Error) -> Status {
    if error.kind() == io::ErrorKind::OutOfMemory {
        Status::NoMemory
    } else {
        Status::Usage
    }
}
