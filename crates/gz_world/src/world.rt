//! The world: its sites, its clients, and all that happened.
ghost use Rattle.std.specs.Prelude.{◌≡◌, ◌↔◌, ◌<◌, ◌≤◌, length, [], IfOk, IfErr, OnOk, OnErr, IsOk, vec_len};

use crate::audit::Casts;
use crate::events::Entry;
use crate::requests::Request;
use gz_client::Client;
use gz_core::Config;
use gz_history::CallRec;
use gz_site::Site;
use std::alloc::Global;

/// A session: its client, whether it has crashed, and the place of its last call among the world's calls.
pub struct Member {
    pub client: Client,
    pub crashed: bool,
    pub last: Option<usize>,
}

impl Drop for Member {
    fn drop(self) {
        let Member {
            client: _,
            crashed: _,
            last: _,
        } = self;
    }
}

/// The world. Request n stands at place n of `net`, session n at place n of `clients`, and the event of tick n at
/// place n of `journal`, each counted from 1. `calls` stand in the order of their beginning. `held` counts the bytes
/// that the world holds, and `spent` shows that memory ran out. Sites past the n-th are kept unused.
#[derive(Drop)]
pub struct World<S: Site> {
    pub cfg: Config,
    pub sites: Vec<S>,
    pub net: Vec<Request>,
    pub clients: Vec<Member>,
    pub journal: Vec<Entry>,
    pub casts: Casts,
    pub calls: Vec<CallRec>,
    pub held: u64,
    pub spent: bool,
    pub alloc: Global,
}

/// Why a world was not opened, with the sites that were handed in.
#[derive(Drop)]
pub struct OpenRefused<S: Drop> {
    pub why: OpenWhy,
    pub sites: Vec<S>,
}

#[derive(Clone, Copy, Debug, PartialEq, Eq)]
pub enum OpenWhy {
    /// Fewer sites were given than the configuration needs.
    Sites { given: usize, need: usize },
    NoMemory,
}
