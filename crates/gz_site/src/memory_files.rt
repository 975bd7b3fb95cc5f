//! A shelf and a sink in memory, which can be made to fail.
ghost use Rattle.std.specs.Prelude.{◌≡◌, ◌≢◌, ◌+◌, ◌-◌, ◌^◌, ◌<◌, ◌≤◌, ◌↔◌, ◌==◌, [], length, Some, None, Ok, Err, All, min, IsErrOf, IsTrue, IfOk, OnErr, option_map};
ghost use Rattle.std.specs.BTreeMap.{get_by_text};
ghost use Rattle.gz_core.specs.Causes.{Rose, HasCountedFault};
ghost use Rattle.gz_site.specs.Files.{ReadsOne, ReadsFile, refusal, upto};
ghost use Rattle.gz_site.specs.MemoryFiles.{files_of, shelf_fails, shelf_asked, sink_bytes, sink_fails, sink_asked, is_failing_call};

use crate::shelves::{Shelf, ShelfError};
use crate::sinks::{Sink, SinkError};
use std::alloc::Global;
use std::collections::BTreeMap;

/// Files in memory. Answers Failed exactly at the listed calls, counted from 1. Its counts stay at 2^64 - 1.
#[derive(Drop)]
pub struct MemShelf {
    files: BTreeMap<String, Vec<u8>>,
    failing: Vec<u64>,
    calls: u64,
    faults: u64,
    absences: u64,
    excesses: u64,
}

impl MemShelf {
    /// A shelf of these files that fails the calls in the list. Takes no memory.
    pub fn new(files: BTreeMap<String, Vec<u8>>, failing: Vec<u64>) -> MemShelf
        requires { All (λ call. call < 2 ^ 64 - 1) failing.items }
        ensures files { (name : _) → files_of result name ≡ option_map (λ v. v.items) (get_by_text files name) }
        ensures fails { shelf_fails result ≡ failing.items }
        ensures calls { shelf_asked result ≡ 0 }
    {
        MemShelf {
            files,
            failing,
            calls: 0,
            faults: 0,
            absences: 0,
            excesses: 0,
        }
    }
}

/// Whether a call is in the list of those that fail.
fn is_in(failing: &Vec<u64>, call: u64) -> bool
    ensures { result ≡ is_failing_call failing.now.items call }
{
    failing.iter().any(|listed| *listed == call)
}

/// The file of at most `limit` bytes, copied.
fn copied(file: Option<&Vec<u8>>, alloc: Global, limit: usize) -> Result<Vec<u8>, ShelfError>
    ensures file { ReadsOne (option_map (λ v. v.now.items) file.entry) limit result }
    ensures answers { result ≢ Err ShelfError.Failed }
{
    match file {
        None => Err(ShelfError::NoSuch),
        Some(bytes) => {
            if bytes.len() > limit {
                return Err(ShelfError::TooLarge);
            }
            match Vec::from_slice(alloc, bytes.as_slice()) {
                Ok(bytes) => Ok(bytes),
                Err(_) => Err(ShelfError::NoMemory),
            }
        }
    }
}

impl MemShelf {
    /// Counts an answer that is not the file.
    fn count(&mut self, error: ShelfError) -> ShelfError
        ensures same { result ≡ error }
        ensures failed { HasCountedFault ShelfError.Failed self.old.faults self.new.faults (refusal error) }
        ensures absent { HasCountedFault ShelfError.NoSuch self.old.absences self.new.absences (refusal error) }
        ensures excess { HasCountedFault ShelfError.TooLarge self.old.excesses self.new.excesses (refusal error) }
        ensures rest { (self.new.files ≡ self.old.files) × ((self.new.failing ≡ self.old.failing) × (self.new.calls ≡ self.old.calls)) }
    {
        match error {
            ShelfError::Failed => self.faults = self.faults.saturating_add(1),
            ShelfError::NoSuch => self.absences = self.absences.saturating_add(1),
            ShelfError::TooLarge => self.excesses = self.excesses.saturating_add(1),
            ShelfError::NoMemory => {}
        }
        error
    }
}

impl Shelf for MemShelf {
    ghost files = { λ s. Some (files_of s) };

    ghost faults = { λ s. s.faults };

    ghost absences = { λ s. s.absences };

    ghost excesses = { λ s. s.excesses };

    fn read(&mut self, alloc: Global, name: &str, limit: usize) -> Result<Vec<u8>, ShelfError>
        ensures file { ReadsFile (Some (files_of self.old)) name.now limit result }
        ensures same { Some (files_of self.new) ≡ Some (files_of self.old) }
        ensures within { IfOk result (λ bytes. length bytes.items ≤ limit) }
        ensures failed { HasCountedFault ShelfError.Failed self.old.faults self.new.faults result }
        ensures absent { HasCountedFault ShelfError.NoSuch self.old.absences self.new.absences result }
        ensures excess { HasCountedFault ShelfError.TooLarge self.old.excesses self.new.excesses result }
        ensures fails { shelf_fails self.new ≡ shelf_fails self.old }
        ensures asked { shelf_asked self.new ≡ min (shelf_asked self.old + 1) (2 ^ 64 - 1) }
        ensures exact { IsErrOf result ShelfError.Failed ↔ IsTrue (is_failing_call (shelf_fails self.old) (shelf_asked self.new)) }
    {
        self.calls = self.calls.saturating_add(1);
        if is_in(&self.failing, self.calls) {
            return Err(self.count(ShelfError::Failed));
        }
        match copied(self.files.get(name), alloc, limit) {
            Ok(bytes) => Ok(bytes),
            Err(error) => Err(self.count(error)),
        }
    }
}

/// A sink in memory. Answers Failed exactly at the listed calls, of `write` and `flush` together, counted from 1.
/// Its counts stay at 2^64 - 1.
#[derive(Drop)]
pub struct MemSink {
    written: Vec<u8>,
    failing: Vec<u64>,
    calls: u64,
    faults: u64,
}

impl MemSink {
    /// An empty sink that fails the calls in the list. Takes no memory.
    pub fn new(alloc: Global, failing: Vec<u64>) -> MemSink
        requires { All (λ call. call < 2 ^ 64 - 1) failing.items }
        ensures empty { sink_bytes result ≡ [] }
        ensures fails { sink_fails result ≡ failing.items }
        ensures calls { sink_asked result ≡ 0 }
    {
        MemSink {
            written: Vec::new(alloc),
            failing,
            calls: 0,
            faults: 0,
        }
    }

    /// All bytes that were written.
    pub fn written(&self) -> &[u8]
        ensures { result.now ≡ sink_bytes self.now }
    {
        self.written.as_slice()
    }

    /// Counts a call, and a fault where it is one that fails. Returns whether it is.
    fn fails(&mut self) -> bool
        ensures exact { result ≡ is_failing_call (sink_fails self.old) (sink_asked self.new) }
        ensures asked { sink_asked self.new ≡ min (sink_asked self.old + 1) (2 ^ 64 - 1) }
        ensures rose { IsTrue result → Rose self.old.faults self.new.faults }
        ensures later { self.old.faults ≤ self.new.faults }
        ensures rest { (self.new.written ≡ self.old.written) × (self.new.failing ≡ self.old.failing) }
    {
        self.calls = self.calls.saturating_add(1);
        if is_in(&self.failing, self.calls) {
            self.faults = self.faults.saturating_add(1);
            return true;
        }
        false
    }
}

impl Sink for MemSink {
    ghost written = { λ s. Some (sink_bytes s) };

    ghost faults = { λ s. s.faults };

    fn write(&mut self, piece: &[u8]) -> Result<usize, SinkError>
        ensures within { IfOk result (λ n. n ≤ length piece.now) }
        ensures some { IfOk result (λ n. 0 < length piece.now → 0 < n) }
        ensures ok { IfOk result (λ n. Some (sink_bytes self.new) ≡ upto (Some (sink_bytes self.old)) piece.now n) }
        ensures err { OnErr result (Some (sink_bytes self.new) ≡ Some (sink_bytes self.old)) }
        ensures cause { HasCountedFault SinkError.Failed self.old.faults self.new.faults result }
        ensures fails { sink_fails self.new ≡ sink_fails self.old }
        ensures asked { sink_asked self.new ≡ min (sink_asked self.old + 1) (2 ^ 64 - 1) }
        ensures exact { IsErrOf result SinkError.Failed ↔ IsTrue (is_failing_call (sink_fails self.old) (sink_asked self.new)) }
    {
        if self.fails() {
            return Err(SinkError::Failed);
        }
        match self.written.extend_from_slice(piece) {
            Ok(()) => Ok(piece.len()),
            Err(_) => Err(SinkError::NoMemory),
        }
    }

    fn flush(&mut self) -> Result<(), SinkError>
        ensures same { Some (sink_bytes self.new) ≡ Some (sink_bytes self.old) }
        ensures memory { result ≢ Err SinkError.NoMemory }
        ensures cause { HasCountedFault SinkError.Failed self.old.faults self.new.faults result }
        ensures fails { sink_fails self.new ≡ sink_fails self.old }
        ensures asked { sink_asked self.new ≡ min (sink_asked self.old + 1) (2 ^ 64 - 1) }
        ensures exact { IsErrOf result SinkError.Failed ↔ IsTrue (is_failing_call (sink_fails self.old) (sink_asked self.new)) }
    {
        if self.fails() {
            return Err(SinkError::Failed);
        }
        Ok(())
    }
}
