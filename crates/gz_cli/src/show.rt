//! A record is read and shown.
ghost use Rattle.std.specs.Prelude.{◌≡◌, ◌⊎◌};
ghost use Rattle.gz_site.specs.Files.{IsSomePart};
ghost use Rattle.gz_cli.specs.Causes.{ShowCause, IsRefusal};
ghost use Rattle.gz_cli.specs.Runs.{Whole};
ghost use Rattle.gz_cli.specs.Shows.{Shows};

use crate::load::record_lines;
use crate::output::write;
use crate::status::Status;
use gz_site::{Shelf, Sink};
use gz_words::Record;
use std::alloc::Global;

/// Reads the record in the file of a name, and writes its lines.
pub fn show<F: Shelf, O: Sink>(
    alloc: Global,
    kind: Record,
    file: &str,
    shelf: &mut F,
    out: &mut O,
) -> Status
    ensures cause { ShowCause (F.files shelf.old) kind file.now (record { faults = F.faults shelf.old; absences = F.absences shelf.old; excesses = F.excesses shelf.old; sink = O.faults out.old }) (record { faults = F.faults shelf.new; absences = F.absences shelf.new; excesses = F.excesses shelf.new; sink = O.faults out.new }) result }
    ensures done { result ≡ Status.Done → Shows (F.files shelf.old) kind file.now (λ text. Whole (O.written out.old) text (O.written out.new)) }
    ensures refused { IsRefusal result → O.written out.new ≡ O.written out.old }
    ensures unwritten { result ≡ Status.SinkFault → Shows (F.files shelf.old) kind file.now (λ text. IsSomePart (O.written out.old) text (O.written out.new)) }
    ensures memory { result ≡ Status.NoMemory → (O.written out.new ≡ O.written out.old) ⊎ Shows (F.files shelf.old) kind file.now (λ text. IsSomePart (O.written out.old) text (O.written out.new)) }
{
    match record_lines(alloc, kind, file, shelf) {
        Ok(lines) => write(out, lines.as_slice()),
        Err(status) => status,
    }
}
