//! What holds of objects and their fragments in every world that is reached: what is read is what was written, and the calls of
//! an object are those of one register.
ghost use Rattle.gz_world.specs.States.{State};
ghost use Rattle.std.specs.Prelude.{List, ℕ};
ghost use Rattle.gz_world.specs.Reached.{IsReached, AllTell};
ghost use Rattle.gz_world.specs.Steps.{WorldStep};
ghost use Rattle.gz_world.specs.declared.events.Event.{Event};
ghost use Rattle.gz_laws.specs.Blobs.{AreBlobsSent};
ghost use Rattle.gz_laws.specs.Given.{AreGivenBack};
ghost use Rattle.gz_laws.specs.Kept.{AreBlobsKept, BlobsStay};
ghost use Rattle.gz_laws.specs.Pieces.{AreByPieces};
ghost use Rattle.gz_laws.specs.Serial.{IsOneRegister};

/// In a world that is reached and whose sites tell what they hold: each request to store a record is of a put of the history, whose own
/// record it is, and goes to the site of the record's index; and each record that lies at a site, or that a site sent back, is
/// the one that such a request sent to this site under its name, or has another digest.
pub fn blobs_are_sent()
    ensures { (s : State) → IsReached s → AllTell s → AreBlobsSent s }
{}

/// What a site replied to have stored, in a world that is reached and whose sites tell what they hold, lies there with the bytes that were
/// sent, unless a request to drop it was performed at this site since. And whatever lies at a site, be it that the site replied that it
/// failed to store it, stays there through an event, but where the event performs a request that stores bytes in its place, or drops it. No
/// call of a world sends a request to drop anything yet.
pub fn blobs_are_kept()
    ensures stored { (s : State) → IsReached s → AllTell s → AreBlobsKept s }
    ensures stay { (old new : State) (event : Event) → WorldStep old event new → BlobsStay old event new }
{}

/// In a world that is reached and whose sites tell what they hold, the bytes that a call answers are those that the put which it
/// names was given, a put to the same object. No collision of the digest is assumed away.
pub fn gets_give_bytes()
    ensures { (s : State) → IsReached s → AllTell s → AreGivenBack s }
{}

/// In a world that is reached and whose sites tell what they hold, a call that asked for a fragment asks for those of one value
/// alone, which it learnt at a version: it runs while fewer fragments came whole than make the object and one is awaited; else it answers
/// with the bytes of this version where so many came whole, no two of them the same, and as incomplete, with the fate of each
/// fragment, where they did not. No other call has such an answer.
pub fn gets_answer_by_pieces()
    ensures { (s : State) → IsReached s → AllTell s → AreByPieces s }
{}

/// In a world that is reached and whose sites tell what they hold, the calls of each object are those of one register on one
/// thread, in one order. The versions at which a value is chosen count up from 1; each call stands in the order once, and none that was
/// answered that it took no effect; and a call whose answer shows a version stands before each call that began after its end.
pub fn one_register()
    ensures { (key : List ℕ) (s : State) → IsReached s → AllTell s → IsOneRegister key s }
{}
