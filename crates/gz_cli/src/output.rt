//! What a run writes.
ghost use Rattle.std.specs.Prelude.{◌≡◌};
ghost use Rattle.gz_site.specs.Files.{IsSomePart};
ghost use Rattle.gz_cli.specs.Causes.{WriteCause, sink_status};
ghost use Rattle.gz_cli.specs.Runs.{Whole};

use crate::status::Status;
use gz_site::{Sink, SinkError, write_all};

/// Writes the output of a run, and passes it on.
pub fn write<O: Sink>(out: &mut O, bytes: &[u8]) -> Status
    ensures cause { WriteCause (O.faults out.old) (O.faults out.new) result }
    ensures done { result ≡ Status.Done → Whole (O.written out.old) bytes.now (O.written out.new) }
    ensures part { IsSomePart (O.written out.old) bytes.now (O.written out.new) }
{
    match write_all(out, bytes) {
        Err(error) => unwritten(error),
        Ok(()) => match out.flush() {
            Err(error) => unwritten(error),
            Ok(()) => Status::Done,
        },
    }
}

/// The status of an output that could not be written.
fn unwritten(error: SinkError) -> Status
    ensures { result ≡ sink_status error }
{
    match error {
        SinkError::Failed => Status::SinkFault,
        SinkError::NoMemory => Status::NoMemory,
    }
}
