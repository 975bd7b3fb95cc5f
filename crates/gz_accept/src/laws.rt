//! What every step of an acceptor keeps.
ghost use Rattle.gz_accept.specs.Laws.{PromisesRise, VotesRise, DecisionsStay, CollectedStays};

/// Whatever step is done to a row that keeps its rule: a promise never falls, the ballot of a vote never falls
/// and the vote is not lost while its version is open, a decision stays until it is collected, and what is
/// collected stays so. (Lamport 2006, "Fast Paxos", section 2.)
pub fn acceptor_laws()
    ensures promises { PromisesRise }
    ensures votes { VotesRise }
    ensures decisions { DecisionsStay }
    ensures collected { CollectedStays }
{}
