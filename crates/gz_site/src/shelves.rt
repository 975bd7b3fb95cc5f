//! A shelf: files that are read whole, by their names.
ghost use Rattle.std.specs.Prelude.{ℕ, ◌≡◌, ◌≤◌, List, Option, length, IfOk};
ghost use Rattle.gz_core.specs.Causes.{HasCountedFault};
ghost use Rattle.gz_site.specs.Files.{ReadsFile};

use std::alloc::Global;

/// Why a file could not be read.
#[derive(Clone, Copy, Debug, PartialEq, Eq)]
pub enum ShelfError {
    /// The shelf failed.
    Failed,
    /// There is no such file.
    NoSuch,
    /// The file is longer than the limit.
    TooLarge,
    NoMemory,
}

/// Files by name. A shelf in memory tells them all; a real one tells nothing, and is bound by its counts: of
/// failures, of files that were not there, and of files above the limit. No count falls.
pub trait Shelf {
    ghost files: { Self → Option (List ℕ → Option (List ℕ)) };

    ghost faults: { Self → ℕ };

    ghost absences: { Self → ℕ };

    ghost excesses: { Self → ℕ };

    /// The bytes of a file of at most `limit` bytes.
    fn read(&mut self, alloc: Global, name: &str, limit: usize) -> Result<Vec<u8>, ShelfError>
        ensures file { ReadsFile (files self.old) name.now limit result }
        ensures same { files self.new ≡ files self.old }
        ensures within { IfOk result (λ bytes. length bytes.items ≤ limit) }
        ensures failed { HasCountedFault ShelfError.Failed (faults self.old) (faults self.new) result }
        ensures absent { HasCountedFault ShelfError.NoSuch (absences self.old) (absences self.new) result }
        ensures excess { HasCountedFault ShelfError.TooLarge (excesses self.old) (excesses self.new) result };
}
