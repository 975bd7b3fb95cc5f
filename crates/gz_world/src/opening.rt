//! A world opens, and gives its sites back.
ghost use Rattle.std.specs.Prelude.{◌≡◌, ◌↔◌, ◌<◌, length, IfOk, IfErr, IsErr};
ghost use Rattle.gz_core.specs.Configurations.{IsConfig};
ghost use Rattle.gz_world.specs.Fits.{IsFitting};
ghost use Rattle.gz_world.specs.Opening.{AreEmpty, IsOpened};
ghost use Rattle.gz_world.specs.Told.{IsReachedBy};

use crate::audit::Casts;
use crate::world::{OpenRefused, OpenWhy, World};
use gz_core::Config;
use gz_site::Site;
use std::alloc::Global;

impl<S: Site> World<S> {
    /// Opens a world over these sites. Sites past the n-th are kept unused.
    pub fn open(alloc: Global, cfg: Config, sites: Vec<S>) -> Result<World<S>, OpenRefused<S>>
        requires { IsConfig cfg }
        ensures opened { IfOk result (λ world. IsOpened cfg sites.items world) }
        ensures fits { IfOk result (λ world. IsFitting world) }
        ensures reached { IfOk result (λ world. AreEmpty S.told sites.items → IsReachedBy S.told world) }

        // It is refused exactly where fewer sites are given than the configuration has, and they are handed back.
        ensures exact { IsErr result ↔ (length sites.items < cfg.n) }
        ensures refused { IfErr result (λ refused. (refused.why ≡ OpenWhy.Sites (length sites.items) cfg.n) × (refused.sites ≡ sites)) }
    {
        if sites.len() < cfg.n as usize {
            return Err(OpenRefused {
                why: OpenWhy::Sites {
                    given: sites.len(),
                    need: cfg.n as usize,
                },
                sites,
            });
        }
        Ok(World {
            cfg,
            sites,
            net: Vec::new(alloc),
            clients: Vec::new(alloc),
            journal: Vec::new(alloc),
            casts: Casts::new(alloc),
            calls: Vec::new(alloc),
            held: 0,
            spent: false,
            alloc,
        })
    }

    /// The sites of the world.
    pub fn into_sites(self) -> Vec<S>
        ensures { result ≡ self.sites }
    {
        let World {
            cfg: _,
            sites,
            net: _,
            clients: _,
            journal: _,
            casts: _,
            calls: _,
            held: _,
            spent: _,
            alloc: _,
        } = self;
        sites
    }
}
