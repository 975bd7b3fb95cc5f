//! Agreement on the versions of one object, over every run: whatever is lost, late or repeated, and whether or not
//! a request that failed took effect. Each law is a function without a body, whose contract is the law. (Lamport
//! 2006, "Fast Paxos".)
#![tactic(auto)]

ghost use Rattle.gz_ledger.specs.Agreements.{Agreement, LatestIsCurrent, OwnIsAbove};
ghost use Rattle.gz_ledger.specs.Guards.{MayMore};
ghost use Rattle.gz_ledger.specs.Runs.{OnePutRuns, OneRecoveryRuns};
ghost use Rattle.gz_ledger.specs.Transitions.{TransitionsAreMoves, TagsNameRows, StoreAgreement, LatestRowsAreCurrent, OwnRowsAreAbove, ShownIsForced};

/// In every run of the machine: each vote of a classic ballot is safe, one value is shown at a version and at one
/// version only, what is shown is chosen and backed by a classic quorum's rows, and versions are chosen in their
/// order. What a quorum's rows show as current is not below what was shown before they were read; a call that
/// began after something was shown gets its own value shown only above it.
pub fn agreement()
    ensures agreed { Agreement }
    ensures latest { LatestIsCurrent }
    ensures above { OwnIsAbove }
{}

/// Guards over what a call heard imply the guards over all that was shown.
pub fn may_more()
    ensures { MayMore }
{}

/// Every run of tagged rows at sites is a run of the machine, and two replies of one site under one tag show one row.
pub fn store_is_ledger()
    ensures moves { TransitionsAreMoves }
    ensures tags { TagsNameRows }
{}

/// Agreement, said of every run of tagged rows at sites. The promises of a ballot don't leave the choice free where a value
/// was shown before the ballot was promised, and nothing was cast in it.
pub fn store_agreement()
    ensures agreed { StoreAgreement }
    ensures latest { LatestRowsAreCurrent }
    ensures above { OwnRowsAreAbove }
    ensures forced { ShownIsForced }
{}

/// The guards can be met: a put reads three sites and writes its fast vote at each, and its value is shown.
pub fn one_put_runs()
    ensures { OnePutRuns }
{}

/// The guards of a classic ballot can be met: a put goes no further than one fast vote, and another one promises a
/// ballot, has its own value chosen in it and sends the decision.
pub fn one_recovery_runs()
    ensures { OneRecoveryRuns }
{}
