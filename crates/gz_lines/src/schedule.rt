//! A schedule: the lines that the program plays.
ghost use Rattle.std.specs.Prelude.{◌≤◌, ◌+◌, length, map, IfOk, All};
ghost use Rattle.gz_lines.specs.Grammar.{read_line};
ghost use Rattle.gz_lines.specs.Schedule.{readings, IsBoundedLine, Reads};

use crate::grammar::read_line;
use crate::line::{Line, Reading};
use gz_core::TextError;
use gz_text::{cut, number_at};
use std::alloc::{AllocError, Global};

/// The lines of a schedule, or the first line with a fault, counted from 1. Time and memory grow linearly with the text.
pub fn read_schedule(alloc: Global, bytes: &[u8]) -> Result<Vec<Line>, TextError>
    ensures exact { Reads (readings bytes.now) result }
    ensures few { IfOk result (λ lines. length lines.items ≤ length bytes.now + 1) }
    ensures bounded { IfOk result (λ lines. All IsBoundedLine lines.items) }
{
    match read(alloc, bytes) {
        Ok(lines) => lines,
        Err(AllocError) => Err(TextError::NoMemory),
    }
}

/// The same; want of memory stands outside.
fn read(alloc: Global, bytes: &[u8]) -> Result<Result<Vec<Line>, TextError>, AllocError>
    ensures { IfOk result (Reads (readings bytes.now)) }
{
    let texts = cut::lines(alloc, bytes)?;
    lines_read(alloc, texts.as_slice())
}

/// What lines read as, up to the first one with a fault.
fn lines_read(alloc: Global, texts: &[&[u8]]) -> Result<Result<Vec<Line>, TextError>, AllocError>
    ensures { IfOk result (Reads (map read_line (map (λ text. text.now) texts.now))) }
{
    let mut lines = Vec::new(alloc);
    for i in 0..texts.len() {
        let reading = read_line(alloc, texts[i])?;
        match reading {
            Reading::Skipped => {},
            Reading::Faulty(fault) => return Ok(Err(fault.at(number_at(i)))),
            Reading::Is(line) => lines.push(line)?,
        }
    }
    Ok(Ok(lines))
}
