//! What the log of every world that is reached tells.
ghost use Rattle.gz_history.specs.Log.{log_of};
ghost use Rattle.gz_laws.specs.Logged.{AreTyped};
ghost use Rattle.gz_logs.specs.Fitting.{FitsLog};
ghost use Rattle.gz_logs.specs.Parsed.{Log, parsed};
ghost use Rattle.gz_world.specs.Reached.{IsReached, AllTell};
ghost use Rattle.gz_world.specs.States.{State};
ghost use Rattle.std.specs.Prelude.{◌≡◌, ◌≤◌, ℕ, length, Ok};

/// The calls of a world that is reached and whose sites tell what they hold can be told by a log, after as many events as a world takes; and
/// the log that is written of them is read back as these calls, with the numbers of events and of skipped ones. It is asked that each key is
/// one, that what each put was given are bytes, and that each version asked for has 63 bits, as they have in the program's own types.
pub fn logs_can_be_read()
    ensures fits { (s : State) (skipped : ℕ) → IsReached s → AllTell s → length s.journal ≤ 4000000 → AreTyped s.calls → skipped ≤ length s.journal → FitsLog s.calls (length s.journal) skipped }
    ensures read { (s : State) (skipped : ℕ) → IsReached s → AllTell s → length s.journal ≤ 4000000 → AreTyped s.calls → skipped ≤ length s.journal
        → parsed (log_of s.calls (length s.journal) skipped) ≡ Ok (record { calls = s.calls; events = length s.journal; skipped = skipped }) }
{}
