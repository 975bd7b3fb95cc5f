//! The trusted edge: files of the folder, and standard output.
ghost use Rattle.std.specs.Prelude.{◌≡◌, ◌≤◌, ◌<◌, length, None, IfOk};
ghost use Rattle.gz_core.specs.Causes.{Rose, HasCountedFault};
ghost use Rattle.gz_site.specs.Files.{refusal};

use gz_site::{Shelf, ShelfError, Sink, SinkError};
use std::alloc::Global;
use std::fs;
use std::io::{self, Read, Write};
use std::rt::Files;

const CHUNK: usize = 4096;

/// The files of the folder. Reads at most one byte more than the limit.
#[derive(Drop)]
pub struct FileShelf<'a, R: Files> {
    rt: &'a R,
    faults: u64,
    absences: u64,
    excesses: u64,
}

impl<'a, R: Files> FileShelf<'a, R> {
    pub fn new(rt: &'a R) -> FileShelf<'a, R> {
        FileShelf {
            rt,
            faults: 0,
            absences: 0,
            excesses: 0,
        }
    }

    /// Counts an answer that is not the file.
    fn count(&mut self, error: ShelfError) -> ShelfError
        ensures same { result ≡ error }
        ensures failed { HasCountedFault ShelfError.Failed self.old.faults self.new.faults (refusal error) }
        ensures absent { HasCountedFault ShelfError.NoSuch self.old.absences self.new.absences (refusal error) }
        ensures excess { HasCountedFault ShelfError.TooLarge self.old.excesses self.new.excesses (refusal error) }
    {
        match error {
            ShelfError::Failed => self.faults = self.faults.saturating_add(1),
            ShelfError::NoSuch => self.absences = self.absences.saturating_add(1),
            ShelfError::TooLarge => self.excesses = self.excesses.saturating_add(1),
            ShelfError::NoMemory => {}
        }
        error
    }
}

impl<R: Files> Shelf for FileShelf<'_, R> {
    ghost files = { λ s. None };

    ghost faults = { λ s. s.faults };

    ghost absences = { λ s. s.absences };

    ghost excesses = { λ s. s.excesses };

    fn read(&mut self, alloc: Global, name: &str, limit: usize) -> Result<Vec<u8>, ShelfError> {
        match file(self.rt, alloc, name, limit) {
            Ok(bytes) => Ok(bytes),
            Err(error) => Err(self.count(error)),
        }
    }
}

/// The bytes of a file of at most `limit` bytes.
fn file<R: Files>(rt: &R, alloc: Global, name: &str, limit: usize) -> Result<Vec<u8>, ShelfError>
    ensures { IfOk result (λ bytes. length bytes.items ≤ limit) }
{
    let mut file = fs::open(rt, name).map_err(fault)?;
    let bytes = read_up_to(alloc, &mut file, limit.saturating_add(1))?;
    if bytes.len() > limit {
        return Err(ShelfError::TooLarge);
    }
    Ok(bytes)
}

/// The first bytes of a reader, at most so many.
fn read_up_to<R: Read>(alloc: Global, from: &mut R, most: usize) -> Result<Vec<u8>, ShelfError> {
    let mut bytes = Vec::new(alloc);
    let mut chunk = [0u8; CHUNK];
    for _ in 0..u64::MAX {
        let room = most.saturating_sub(bytes.len()).min(CHUNK);
        if room == 0 {
            break;
        }
        let read = from.read(&mut chunk[..room]).map_err(fault)?;
        if read == 0 {
            break;
        }
        if bytes.extend_from_slice(&chunk[..read]).is_err() {
            return Err(ShelfError::NoMemory);
        }
    }
    Ok(bytes)
}

fn fault(error: io::Error) -> ShelfError {
    match error.kind() {
        io::ErrorKind::NotFound => ShelfError::NoSuch,
        io::ErrorKind::OutOfMemory => ShelfError::NoMemory,
        _ => ShelfError::Failed,
    }
}

/// Standard output.
#[derive(Drop)]
pub struct StdSink<'a, R: Print> {
    rt: &'a R,
    faults: u64,
}

impl<'a, R: Print> StdSink<'a, R> {
    pub fn new(rt: &'a R) -> StdSink<'a, R> {
        StdSink { rt, faults: 0 }
    }

    fn fail(&mut self) -> SinkError
        ensures fault { result ≡ SinkError.Failed }
        ensures rose { Rose self.old.faults self.new.faults × (self.old.faults ≤ self.new.faults) }
    {
        self.faults = self.faults.saturating_add(1);
        SinkError::Failed
    }
}

impl<R: Print> Sink for StdSink<'_, R> {
    ghost written = { λ s. None };

    ghost faults = { λ s. s.faults };

    fn write(&mut self, piece: &[u8]) -> Result<usize, SinkError> {
        match io::writer(self.rt).write(piece) {
            Ok(taken) if taken > 0 || piece.is_empty() => Ok(taken),
            _ => Err(self.fail()),
        }
    }

    fn flush(&mut self) -> Result<(), SinkError> {
        match io::writer(self.rt).flush() {
            Ok(()) => Ok(()),
            Err(_) => Err(self.fail()),
        }
    }
}
