//! The fragments of a put, counted as the sites answer.
ghost use Rattle.std.specs.Prelude.{◌≡◌, ◌+◌, ◌^◌, ◌<◌, ◌≤◌, ◌↔◌, true, List, ◌∷◌, IsTrue};
ghost use Rattle.gz_core.specs.History.{Asked, Action, Handed, GaveUp};
ghost use Rattle.gz_data.specs.Blobs.{is_put_blob};
ghost use Rattle.gz_data.specs.Storing.{IsCountOf};

use gz_core::{Config, Reply};

/// How many fragments of a put are stored, and how many are lost: their requests were answered otherwise, or given up.
#[derive(Clone, Copy, Debug, PartialEq, Eq)]
pub struct Storing {
    pub stored: u32,
    pub lost: u32,
}

impl Storing {
    /// Before any answer.
    pub const NONE: Storing = Storing { stored: 0, lost: 0 };

    /// Counts what a site answered to the request to store a fragment.
    pub fn note(&mut self, reply: &Reply)
        requires { self.old.stored + self.old.lost + 1 < 2 ^ 32 }
        ensures { (ms : List Action) (a : Asked) → is_put_blob a.op ≡ true → IsCountOf ms self.old → IsCountOf (Handed a reply.now ∷ ms) self.new }
    {
        match reply {
            Reply::Stored => self.stored += 1,
            _ => self.lost += 1,
        }
    }

    /// Counts a request to store a fragment that was given up.
    pub fn give_up(&mut self)
        requires { self.old.stored + self.old.lost + 1 < 2 ^ 32 }
        ensures { (ms : List Action) (a : Asked) → is_put_blob a.op ≡ true → IsCountOf ms self.old → IsCountOf (GaveUp a ∷ ms) self.new }
    {
        self.lost += 1;
    }

    /// Whether so many fragments are stored as a put wants for its answer Ok.
    pub fn has_enough(self, config: &Config) -> bool
        ensures { IsTrue result ↔ (config.now.k + config.now.f ≤ self.stored) }
    {
        u32::from(config.k) + u32::from(config.f) <= self.stored
    }

    /// Whether so many are lost that never enough will be stored.
    pub fn has_lost_too_many(self, config: &Config) -> bool
        ensures { IsTrue result ↔ (config.now.m + 1 ≤ self.lost + config.now.f) }
    {
        u64::from(config.m) < u64::from(self.lost) + u64::from(config.f)
    }
}
