//! A sink: bytes that are written one piece after another.
ghost use Rattle.std.specs.Prelude.{ℕ, ◌≡◌, ◌≢◌, ◌<◌, ◌≤◌, List, Option, Err, length, IfOk, OnOk, OnErr};
ghost use Rattle.gz_core.specs.Causes.{HasCountedFault};
ghost use Rattle.gz_site.specs.Files.{upto, IsSomePart};

/// Why bytes could not be written.
#[derive(Clone, Copy, Debug, PartialEq, Eq)]
pub enum SinkError {
    /// The sink failed, or took nothing.
    Failed,
    NoMemory,
}

/// Where bytes are written. A sink in memory tells all bytes that it took; a real one tells nothing, and is bound
/// by its count of faults, which never falls.
pub trait Sink {
    ghost written: { Self → Option (List ℕ) };

    ghost faults: { Self → ℕ };

    /// Takes the first bytes of the piece, at least one where there is one, and returns how many. Takes none where
    /// it answers an error.
    fn write(&mut self, piece: &[u8]) -> Result<usize, SinkError>
        ensures within { IfOk result (λ n. n ≤ length piece.now) }
        ensures some { IfOk result (λ n. 0 < length piece.now → 0 < n) }
        ensures ok { IfOk result (λ n. written self.new ≡ upto (written self.old) piece.now n) }
        ensures err { OnErr result (written self.new ≡ written self.old) }
        ensures cause { HasCountedFault SinkError.Failed (faults self.old) (faults self.new) result };

    /// Passes on what was taken. Takes no memory.
    fn flush(&mut self) -> Result<(), SinkError>
        ensures same { written self.new ≡ written self.old }
        ensures memory { result ≢ Err SinkError.NoMemory }
        ensures cause { HasCountedFault SinkError.Failed (faults self.old) (faults self.new) result };
}

/// Writes all bytes, piece after piece. Where it answers an error, some first part of them was written.
pub fn write_all<O: Sink>(out: &mut O, bytes: &[u8]) -> Result<(), SinkError>
    ensures ok { OnOk result (O.written out.new ≡ upto (O.written out.old) bytes.now (length bytes.now)) }
    ensures part { IsSomePart (O.written out.old) bytes.now (O.written out.new) }
    ensures cause { HasCountedFault SinkError.Failed (O.faults out.old) (O.faults out.new) result }
{
    let mut at = 0;
    while at < bytes.len() {
        at = write_next(out, bytes, at)?;
    }
    Ok(())
}

/// Writes some of the bytes from a place on, and returns the place after them.
fn write_next<O: Sink>(out: &mut O, bytes: &[u8], at: usize) -> Result<usize, SinkError>
    requires { at < length bytes.now }
    ensures next { IfOk result (λ n. (at < n) × (n ≤ length bytes.now)) }
    ensures ok { (w : Option (List ℕ)) → O.written out.old ≡ upto w bytes.now at → IfOk result (λ n. O.written out.new ≡ upto w bytes.now n) }
    ensures err { OnErr result (O.written out.new ≡ O.written out.old) }
    ensures cause { HasCountedFault SinkError.Failed (O.faults out.old) (O.faults out.new) result }
{
    let taken = out.write(&bytes[at..])?;
    Ok(at + taken)
}
