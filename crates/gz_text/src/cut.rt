//! Texts are cut into lines, and lines into fields.
ghost use Rattle.std.specs.Prelude.{◌≡◌, ◌==◌, ◌<◌, ◌≤◌, ◌++◌, length, map, IfOk, IsTrue};
ghost use Rattle.std.specs.List.{slice_split};
ghost use Rattle.std.specs.Str.Lines.{lines_of_parts};
ghost use Rattle.gz_text.specs.Texts.{lines, fields, fields_of, without_return, last_line};

use std::alloc::{AllocError, Global};

/// The parts between separators.
pub fn parts<'a>(alloc: Global, bytes: &'a [u8], separator: u8) -> Result<Vec<&'a [u8]>, AllocError>
    ensures { IfOk result (λ v. map (λ x. x.now) v.items ≡ slice_split (λ b. b == separator) bytes.now) }
{
    bytes.split(|byte| *byte == separator).collect(alloc)
}

/// The lines of a text. A line ends with LF, which may be missing at the last one; a CR before it is no part of
/// the line.
pub fn lines<'a>(alloc: Global, text: &'a [u8]) -> Result<Vec<&'a [u8]>, AllocError>
    ensures { IfOk result (λ v. map (λ x. x.now) v.items ≡ lines text.now) }
{
    let parts = parts(alloc, text, b'\n')?;
    lines_of(alloc, parts.as_slice())
}

/// The lines of the parts between LFs.
fn lines_of<'a>(alloc: Global, parts: &[&'a [u8]]) -> Result<Vec<&'a [u8]>, AllocError>
    ensures { IfOk result (λ v. map (λ x. x.now) v.items ≡ lines_of_parts (map (λ x. x.now) parts.now)) }
{
    match parts {
        [] => Ok(Vec::new(alloc)),
        [ended @ .., last] => {
            let lines = ended_lines(alloc, ended)?;
            let all = with_last(lines, last)?;
            Ok(all)
        }
    }
}

/// The lines with the last part, which is no line where it is empty.
fn with_last<'a>(mut lines: Vec<&'a [u8]>, last: &'a [u8]) -> Result<Vec<&'a [u8]>, AllocError>
    ensures { IfOk result (λ v. map (λ x. x.now) v.items ≡ map (λ x. x.now) lines.entry.items ++ last_line last.now) }
{
    if !last.is_empty() {
        lines.push(last)?;
    }
    Ok(lines)
}

/// The lines that an LF ends.
fn ended_lines<'a>(alloc: Global, parts: &[&'a [u8]]) -> Result<Vec<&'a [u8]>, AllocError>
    ensures { IfOk result (λ v. map (λ x. x.now) v.items ≡ map without_return (map (λ x. x.now) parts.now)) }
{
    let mut lines = Vec::new(alloc);
    for part in parts {
        lines.push(without_return(part))?;
    }
    Ok(lines)
}

/// The line without the one carriage return at its end.
fn without_return<'a>(line: &'a [u8]) -> &'a [u8]
    ensures { result.now ≡ without_return line.now }
{
    match line {
        [rest @ .., b'\r'] => rest,
        _ => line,
    }
}

/// The fields of a line: what stands between blanks.
pub fn fields<'a>(alloc: Global, line: &'a [u8]) -> Result<Vec<&'a [u8]>, AllocError>
    ensures { IfOk result (λ v. map (λ x. x.now) v.items ≡ fields line.now) }
{
    let parts = parts(alloc, line, b' ')?;
    let mut fields = Vec::new(alloc);
    for part in &parts {
        if !part.is_empty() {
            fields.push(*part)?;
        }
    }
    Ok(fields)
}

/// The fields of a line that is no comment.
pub fn fields_of<'a>(alloc: Global, line: &'a [u8]) -> Result<Vec<&'a [u8]>, AllocError>
    ensures { IfOk result (λ v. map (λ x. x.now) v.items ≡ fields_of line.now) }
{
    match line {
        [] => Ok(Vec::new(alloc)),
        [b'#', ..] => Ok(Vec::new(alloc)),
        _ => fields(alloc, line),
    }
}
