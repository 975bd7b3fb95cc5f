//! A log is read and judged.
ghost use Rattle.std.specs.Prelude.{◌≡◌, ◌⊎◌, IfOk, length};
ghost use Rattle.std.specs.String.{string_bytes};
ghost use Rattle.gz_history.specs.Broken.{IsHistory};
ghost use Rattle.gz_site.specs.Files.{IsSomePart};
ghost use Rattle.gz_cli.specs.Causes.{CheckCause, JudgeCause, IsRefusal, WriteCause};
ghost use Rattle.gz_cli.specs.Checks.{Checks, legal_text};
ghost use Rattle.gz_cli.specs.Runs.{Whole};

use crate::load::calls;
use crate::output::write;
use crate::status::Status;
use gz_history::{Broken, CallRec, judge};
use gz_site::{Shelf, Sink};
use std::alloc::{AllocError, Global};

/// Judges the log of a name, and writes `legal` with the number of its calls where it is legal.
pub fn check<F: Shelf, O: Sink>(alloc: Global, log: &str, shelf: &mut F, out: &mut O) -> Status
    ensures cause { CheckCause (F.files shelf.old) log.now (record { faults = F.faults shelf.old; absences = F.absences shelf.old; excesses = F.excesses shelf.old; sink = O.faults out.old }) (record { faults = F.faults shelf.new; absences = F.absences shelf.new; excesses = F.excesses shelf.new; sink = O.faults out.new }) result }
    ensures done { result ≡ Status.Done → Checks (F.files shelf.old) log.now (λ text. Whole (O.written out.old) text (O.written out.new)) }
    ensures refused { IsRefusal result → O.written out.new ≡ O.written out.old }
    ensures unwritten { result ≡ Status.SinkFault → Checks (F.files shelf.old) log.now (λ text. IsSomePart (O.written out.old) text (O.written out.new)) }
    ensures memory { result ≡ Status.NoMemory → (O.written out.new ≡ O.written out.old) ⊎ Checks (F.files shelf.old) log.now (λ text. IsSomePart (O.written out.old) text (O.written out.new)) }
{
    match calls(alloc, log, shelf) {
        Ok(calls) => judge_calls(alloc, calls.as_slice(), out),
        Err(status) => status,
    }
}

/// Judges calls, and writes their number where they are legal.
fn judge_calls<O: Sink>(alloc: Global, calls: &[CallRec], out: &mut O) -> Status
    requires { IsHistory calls.now }
    ensures cause { JudgeCause calls.now (O.faults out.old) (O.faults out.new) result }
    ensures done { result ≡ Status.Done → Whole (O.written out.old) (legal_text (length calls.now)) (O.written out.new) }
    ensures refused { IsRefusal result → O.written out.new ≡ O.written out.old }
    ensures part { IsSomePart (O.written out.old) (legal_text (length calls.now)) (O.written out.new) }
{
    match judge(alloc, calls) {
        Ok(()) => tell(alloc, calls.len(), out),
        Err(broken) => not_legal(&broken),
    }
}

/// The status of calls that break a rule.
fn not_legal(broken: &Broken) -> Status
    ensures { result ≡ Status.NotLegal broken.now.clause broken.now.a broken.now.b }
{
    Status::NotLegal {
        clause: broken.clause,
        a: broken.a,
        b: broken.b,
    }
}

/// Writes the number of the calls of a legal log.
fn tell<O: Sink>(alloc: Global, calls: usize, out: &mut O) -> Status
    ensures cause { WriteCause (O.faults out.old) (O.faults out.new) result }
    ensures done { result ≡ Status.Done → Whole (O.written out.old) (legal_text calls) (O.written out.new) }
    ensures part { IsSomePart (O.written out.old) (legal_text calls) (O.written out.new) }
{
    match legal_text(alloc, calls) {
        Ok(text) => write(out, text.as_bytes()),
        Err(_) => Status::NoMemory,
    }
}

fn legal_text(alloc: Global, calls: usize) -> Result<String, AllocError>
    ensures { IfOk result (λ text. string_bytes text ≡ legal_text calls) }
{
    let count = calls.to_string(alloc)?;
    let mut text = String::from_str(alloc, "legal ")?;
    text.push_str(count.as_str())?;
    text.push_str("\n")?;
    Ok(text)
}
