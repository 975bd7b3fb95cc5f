//! A value that takes turns.
ghost use Rattle.std.specs.Prelude.{List, IfOk, OnErr};
ghost use Rattle.gz_lock.specs.Operations.{Operation, TakesTurn, StaysAsItWas};

use std::alloc::AllocError;

/// A value that takes turns: it is told an entry and gives a reply.
pub trait Turned: Drop {
    type Entry: Drop;

    type Reply: Drop;

    // The entries of the turns that grew it.
    ghost past: { Self → List Self.Entry };

    // The entries that a turn may be told.
    ghost fits: { Self.Entry → Type 0 };

    // The value is what these turns make of one that has taken none.
    ghost stands: { Self → List (Operation Self.Entry Self.Reply) → Type 0 };

    // What holds of every list of turns for which a kept value stands.
    ghost sound: { List (Operation Self.Entry Self.Reply) → Type 0 };

    // What each turn keeps, also one that runs out of memory.
    ghost kept: { Self → Type 0 };

    /// One turn. Where memory runs out there was none: the past stays, and the value may answer so ever after.
    fn turn(&mut self, entry: Self::Entry) -> Result<Self::Reply, AllocError>
        requires kept { kept self.old }
        requires fits { fits entry }
        ensures kept { kept self.new }
        ensures ok { IfOk result (λ reply. TakesTurn past stands self.old self.new entry reply) }
        ensures err { OnErr result (StaysAsItWas past stands self.old self.new) };

    ghost stands_is_sound: { (value : Self) (turns : List (Operation Self.Entry Self.Reply)) → kept value → stands value turns → sound turns };
}
