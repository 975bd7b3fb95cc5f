//! The plainest value that takes turns.
ghost use Rattle.std.specs.Prelude.{◌≡◌};
ghost use Rattle.gz_lock.specs.Counted.{IsTally, AreReplies, replies_follow};

use crate::turned::Turned;
use std::alloc::AllocError;

/// A list of numbers. A turn appends its entry, and the reply is the new length.
#[derive(Drop)]
pub struct Tally {
    pub past: Vec<u32>,
}

impl Turned for Tally {
    type Entry = u32;

    type Reply = u64;

    ghost past = { λ tally. tally.past.items };

    ghost fits = { λ _. Unit {0} };

    ghost stands = { λ tally turns. IsTally tally.past.items turns };

    ghost sound = { AreReplies };

    ghost kept = { λ _. Unit {0} };

    fn turn(&mut self, entry: u32) -> Result<u64, AllocError> {
        self.past.push(entry)?;
        Ok(self.past.len() as u64)
    }

    ghost stands_is_sound = { λ tally turns _ stands. replies_follow tally.past.items turns stands };
}
