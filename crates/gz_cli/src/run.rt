//! The top call of the program.
ghost use Rattle.std.specs.Prelude.{◌≡◌, ◌⊎◌, ℕ, None, IfSome, option_map};
ghost use Rattle.gz_history.specs.Legal.{IsLegal};
ghost use Rattle.gz_script.specs.Plays.{Plays};
ghost use Rattle.gz_site.specs.Files.{IsSomePart};
ghost use Rattle.gz_words.specs.Words.{task_in};
ghost use Rattle.gz_world.specs.Told.{IsReachedBy};
ghost use Rattle.gz_cli.specs.Causes.{Cause, RunCause, IsFeasible, AreSteady, IsPossibleEnd, IsRefusal};
ghost use Rattle.gz_cli.specs.Runs.{Replays, WritesOutput, FillsUp, Fills, IsCutShort, IsRunCut, IsCode, OnlyReads, Whole};
ghost use Rattle.gz_cli.specs.Worlds.{AreFresh, AllTellAt, AgreesBy, log_of_world};

use crate::bench::Bench;
use crate::check::check;
use crate::load::load;
use crate::pieces::write_pieces;
use crate::replay::replay_lines;
use crate::show::show;
use crate::status::Status;
use gz_core::Word;
use gz_site::{Shelf, Sink, Site};
use gz_words::{Command, command_of, texts_of};
use std::alloc::Global;

/// Does what the words ask for: plays a schedule in a world over the bench's sites and writes the log of its calls,
/// judges a log and writes the number of its calls, writes the lines of a record, or cuts bytes into pieces and writes a line for each.
///
/// A refusal leaves the bench as it was, and writes nothing. Once a world was opened, the bench holds it, with the sites
/// in it.
pub fn run<F: Shelf, O: Sink, S: Site>(
    alloc: Global,
    words: &[Word],
    shelf: &mut F,
    out: &mut O,
    bench: &mut Bench<S>,
) -> Status
    requires fresh { AreFresh S.told bench.old.sites.items }
    requires closed { bench.old.world ≡ None }

    // Each status has its cause, and comes nowhere else, want of memory aside.
    ensures usage { result ≡ Status.Usage → task_in words.now ≡ None }
    ensures formless { task_in words.now ≡ None → (result ≡ Status.Usage) ⊎ (result ≡ Status.NoMemory) }
    ensures cause { RunCause (task_in words.now) (F.files shelf.old) (record { faults = F.faults shelf.old; absences = F.absences shelf.old; excesses = F.excesses shelf.old; sink = O.faults out.old }) (record { faults = F.faults shelf.new; absences = F.absences shelf.new; excesses = F.excesses shelf.new; sink = O.faults out.new }) result }
    ensures complete { IsFeasible (task_in words.now) (F.files shelf.old) → AreSteady (record { faults = F.faults shelf.old; absences = F.absences shelf.old; excesses = F.excesses shelf.old; sink = O.faults out.old }) (record { faults = F.faults shelf.new; absences = F.absences shelf.new; excesses = F.excesses shelf.new; sink = O.faults out.new }) → IsPossibleEnd (task_in words.now) (F.files shelf.old) result }

    // What Done means: the lines were played and the whole log of their world written, a log is legal and the number of its calls was
    // written, the lines of a record, or the whole text of the pieces.
    ensures done { result ≡ Status.Done → WritesOutput S.told (task_in words.now) (F.files shelf.old) bench.old.sites.items bench.new.world (λ text. Whole (O.written out.old) text (O.written out.new)) }

    // What holds of the world that is left, whatever the status.
    ensures reached { IfSome bench.new.world (λ w. IsReachedBy S.told w) }
    ensures legal { IfSome bench.new.world (λ w. AllTellAt S.told bench.old.sites.items w.cfg → IsLegal w.calls.items) }
    ensures agreed { IfSome bench.new.world (λ w. AllTellAt S.told bench.old.sites.items w.cfg → AgreesBy S.told w) }

    // A code reads no file, and leaves the bench as it was.
    ensures untouched { IsCode (task_in words.now) → (shelf.new ≡ shelf.old) × (bench.new ≡ bench.old) }

    // A check of a log leaves the bench as it was, and so does a record that is shown.
    ensures kept { OnlyReads (task_in words.now) → bench.new ≡ bench.old }

    // What stands after another status.
    ensures refused { IsRefusal result → (bench.new ≡ bench.old) × (O.written out.new ≡ O.written out.old) }
    ensures full { (events held : ℕ) → result ≡ Status.Full events held → Fills S.told (task_in words.now) (F.files shelf.old) bench.old.sites.items bench.new.world events held × (O.written out.new ≡ O.written out.old) }
    ensures unwritten { result ≡ Status.SinkFault → WritesOutput S.told (task_in words.now) (F.files shelf.old) bench.old.sites.items bench.new.world (λ text. IsSomePart (O.written out.old) text (O.written out.new)) }
    ensures memory { result ≡ Status.NoMemory → IsRunCut S.told (task_in words.now) (F.files shelf.old) bench.old bench.new (O.written out.old) (O.written out.new) }
{
    let Ok(texts) = texts_of(alloc, words) else {
        return Status::NoMemory;
    };
    match command_of(alloc, texts.as_slice()) {
        Ok(Some(Command::Replay { schedule, config })) => {
            replay(alloc, schedule, config, shelf, out, bench)
        }
        Ok(Some(Command::Check { log })) => check(alloc, log, shelf, out),
        Ok(Some(Command::Show { kind, file })) => show(alloc, kind, file, shelf, out),
        Ok(Some(Command::Code { k, m, digits })) => write_pieces(alloc, k, m, digits, out),
        Ok(None) => Status::Usage,
        Err(_) => Status::NoMemory,
    }
}

/// Replays the schedule of a name under the configuration of a name, or under the default one, and writes the log of its calls.
fn replay<F: Shelf, O: Sink, S: Site>(
    alloc: Global,
    schedule: &str,
    config: Option<&str>,
    shelf: &mut F,
    out: &mut O,
    bench: &mut Bench<S>,
) -> Status
    requires fresh { AreFresh S.told bench.old.sites.items }
    requires closed { bench.old.world ≡ None }
    ensures cause { Cause (F.files shelf.old) schedule.now (option_map (λ name. name.now) config.entry) (record { faults = F.faults shelf.old; absences = F.absences shelf.old; excesses = F.excesses shelf.old; sink = O.faults out.old }) (record { faults = F.faults shelf.new; absences = F.absences shelf.new; excesses = F.excesses shelf.new; sink = O.faults out.new }) result }
    ensures done { result ≡ Status.Done → Replays S.told Plays (F.files shelf.old) schedule.now (option_map (λ name. name.now) config.entry) bench.old.sites.items bench.new.world (λ w. Whole (O.written out.old) (log_of_world w) (O.written out.new)) }
    ensures reached { IfSome bench.new.world (λ w. IsReachedBy S.told w) }
    ensures legal { IfSome bench.new.world (λ w. AllTellAt S.told bench.old.sites.items w.cfg → IsLegal w.calls.items) }
    ensures agreed { IfSome bench.new.world (λ w. AllTellAt S.told bench.old.sites.items w.cfg → AgreesBy S.told w) }
    ensures refused { IsRefusal result → (bench.new ≡ bench.old) × (O.written out.new ≡ O.written out.old) }
    ensures full { (events held : ℕ) → result ≡ Status.Full events held → FillsUp S.told (F.files shelf.old) schedule.now (option_map (λ name. name.now) config.entry) bench.old.sites.items bench.new.world events held × (O.written out.new ≡ O.written out.old) }
    ensures unwritten { result ≡ Status.SinkFault → Replays S.told Plays (F.files shelf.old) schedule.now (option_map (λ name. name.now) config.entry) bench.old.sites.items bench.new.world (λ w. IsSomePart (O.written out.old) (log_of_world w) (O.written out.new)) }
    ensures memory { result ≡ Status.NoMemory → IsCutShort S.told (F.files shelf.old) schedule.now (option_map (λ name. name.now) config.entry) bench.old bench.new (O.written out.old) (O.written out.new) }
{
    match load(alloc, schedule, config, shelf) {
        Ok(inputs) => replay_lines(alloc, inputs.config, inputs.lines.as_slice(), out, bench),
        Err(status) => status,
    }
}
