//! The laws of Fast Paxos for one version of an object. Each is a function without a body, whose contract is the
//! law. (Lamport 2006, "Fast Paxos", sections 2.2 and 3.)
ghost use Rattle.gz_model.specs.Choosing.{ClassicQuorumsMeet, ClassicAndFastMeet, ClassicAndTwoFastMeet, OneIsForced, ForcesWhatIsForced, AllowedIsSafe, OneIsChosen};

/// Classic quorums meet; a classic and a fast quorum meet; a classic quorum and two fast quorums have a common site.
pub fn quorums_meet()
    ensures classic { ClassicQuorumsMeet }
    ensures fast { ClassicAndFastMeet }
    ensures triple { ClassicAndTwoFastMeet }
{}

/// Where a classic quorum was heard, the choice rule forces at most one value, and it forces one exactly where a
/// vote that was heard does.
pub fn one_forced()
    ensures one { OneIsForced }
    ensures exact { ForcesWhatIsForced }
{}

/// What the choice rule allows in a ballot is safe there, where a classic quorum promised the ballot, each vote of
/// a classic ballot so far is safe, a classic ballot carries one value, no site votes for two values in one ballot,
/// and each heard site shows its highest vote below the ballot and casts none there any more.
pub fn allowed_is_safe()
    ensures { AllowedIsSafe }
{}

/// Two chosen values of one version are the same, where each vote of a classic ballot is safe, a classic ballot
/// carries one value, and no site votes for two values in one ballot.
pub fn one_chosen()
    ensures { OneIsChosen }
{}
