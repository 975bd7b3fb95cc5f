//! What holds in every world that is reached.
ghost use Rattle.gz_world.specs.States.{State};
ghost use Rattle.std.specs.Prelude.{List, length, ℕ, ◌*◌, ◌≤◌};
ghost use Rattle.gz_ledger.specs.Transitions.{Transition};
ghost use Rattle.gz_world.specs.Reached.{IsReached, AllTell};
ghost use Rattle.gz_laws.specs.Runs.{IsRun};
ghost use Rattle.gz_laws.specs.Listed.{AreCallsListed};
ghost use Rattle.gz_laws.specs.Bounded.{AreWithin, CanStand};
ghost use Rattle.gz_laws.specs.Carried.{AreCarried};
ghost use Rattle.gz_laws.specs.Each.{EachTrace};
ghost use Rattle.gz_laws.specs.Exchanged.{AreExchanged};
ghost use Rattle.gz_laws.specs.Floors.{AreFloorsDue};
ghost use Rattle.gz_laws.specs.Going.{IsGoingOn};
ghost use Rattle.gz_laws.specs.Overtaken.{AreOvertaken};
ghost use Rattle.gz_laws.specs.Placed.{ArePlaced};
ghost use Rattle.gz_laws.specs.Recorded.{AreRecorded};
ghost use Rattle.gz_laws.specs.Valued.{AreValued};
ghost use Rattle.gz_laws.specs.Agreed.{AreAgreed};
ghost use Rattle.gz_history.specs.Broken.{IsHistory};
ghost use Rattle.gz_history.specs.Legal.{IsLegal};

/// Of every world that is reached: the names of the calls differ, each call is that of a trace of its session, each
/// action of a trace was allowed when it came, be it about a row or about a fragment, and its answer, which is the
/// call's, has its cause in what the call was handed; what the call was handed are replies, in the world, to requests that the call sent, as it hears them; each
/// trace is that of a call; and requests and calls are of sites, sessions and ticks that there are. The world's requests and the traces agree
/// in both directions, so that a call's counts can be read off the world; and the calls are a history: they began one
/// after another, with names of their own, and each ended after it began.
pub fn world_laws()
    ensures listed { (s : State) → IsReached s → AreCallsListed s }
    ensures carried { (s : State) → IsReached s → AreCarried s }
    ensures placed { (s : State) → IsReached s → ArePlaced s }
    ensures recorded { (s : State) → IsReached s → AreRecorded s }
    ensures exchanged { (s : State) → IsReached s → AreExchanged s }
    ensures history { (s : State) → IsReached s → IsHistory s.calls }
{}

/// In every world that is reached: a write goes out on the tag of a row that a reply showed to its call before, and at a
/// site that tells what it holds it is refused as overtaken only where the row was written between: whichever reply had shown
/// the tag that the write expects, another delivery of a write of the row on that tag came after it was made, and before the
/// refusal. It was answered as written or as failed; of a write that failed, a world doesn't record whether it had its effect.
pub fn overtaken_only_by_writes()
    ensures { (s : State) → IsReached s → AreOvertaken s }
{}

/// What has happened to an object, in a world that is reached and whose sites tell what they hold, is a run of the
/// machine of agreement.
pub fn object_runs()
    ensures { (key : List ℕ) (s : State) → IsReached s → AllTell s → (ds : List Transition) × IsRun key s ds }
{}

/// Agreement on each object, in a world that is reached and whose sites tell what they hold: each classic vote is
/// safe, a vote at a version shows that a value is chosen at the one before, one value is chosen at a version, and a
/// value at one version; what is shown to a call is chosen, and what is chosen is backed by the rows of a quorum.
pub fn agreement()
    ensures { (key : List ℕ) (s : State) → IsReached s → AllTell s → AreAgreed key s }
{}

/// In a world that is reached and whose sites tell what they hold, no version in a row is above the number of events, and no
/// round above the number of requests, nor above sixteen for each event; and no value has a fragment elsewhere than at a
/// site. So after as many events as a world takes each row is one that a run can hold, and each reply is heard as it was
/// made.
pub fn rows_are_bounded()
    ensures requests { (s : State) → IsReached s → AllTell s → AreWithin (length s.journal) (length s.net) s }
    ensures events { (s : State) → IsReached s → AllTell s → AreWithin (length s.journal) (16 * length s.journal) s }
    ensures stand { (s : State) → IsReached s → AllTell s → length s.journal ≤ 4000000 → CanStand s }
{}

/// In a world that is reached and whose sites tell what they hold, no call gives in for want of promises, votes or a
/// value: the sites that are out for a call are exactly those of which a request for the row was given up, or answered by
/// what the call hears as a fault.
pub fn no_call_gives_in()
    ensures { (s : State) → IsReached s → AllTell s → (session : ℕ) → EachTrace IsGoingOn (s.traces session) }
{}

/// In a world that is reached and whose sites tell what they hold, a site has collected versions of an object only where a
/// call of the history is to collect them: so many versions above as that call keeps, or higher, a value is chosen.
pub fn floors_are_due()
    ensures { (key : List ℕ) (s : State) → IsReached s → AllTell s → AreFloorsDue key s }
{}

/// In a world that is reached and whose sites tell what they hold, every value that a row has is one that a call of
/// the history writes to the row's object: the length of what a put was given and the digests of the records into
/// which it is cut, or the tombstone of a delete.
pub fn values_are_given()
    ensures { (s : State) → IsReached s → AllTell s → AreValued s }
{}

/// The history of a world that is reached and whose sites tell what they hold is legal: two answers that name one
/// version of an object name one put or delete, each of these is at one version, the versions keep the order of calls
/// that ended before others began, and a call that reads returns the bytes that the put of its version was given, or
/// that the object is gone where a delete wrote the version. A call that asks for a version by its number is answered
/// about that one.
pub fn legal()
    ensures { (s : State) → IsReached s → AllTell s → IsLegal s.calls }
{}
