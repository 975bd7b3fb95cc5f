//! Worlds that are opened over empty sites in memory.
ghost use Rattle.std.specs.Prelude.{IfSome};
ghost use Rattle.gz_world.specs.Fits.{IsFitting};

use gz_core::Config;
use gz_site::{MemSite, Site};
use gz_world::World;
use std::alloc::Global;

/// Empty sites in memory.
pub fn empty_sites(alloc: Global, count: u16) -> Option<Vec<MemSite>> {
    let mut sites = Vec::new(alloc);
    for _ in 0..count {
        sites.push(MemSite::new(alloc, Vec::new(alloc))).ok()?;
    }
    Some(sites)
}

/// A world over these sites, where they are enough.
pub fn opened_over<S: Site>(alloc: Global, config: Config, sites: Vec<S>) -> Option<World<S>>
    ensures { IfSome result (λ world. IsFitting world) }
{
    if config.check().is_err() {
        return None;
    }
    match World::open(alloc, config, sites) {
        Ok(world) => Some(world),
        Err(_) => None,
    }
}

/// A world over the sites that a configuration needs.
pub fn opened(alloc: Global, config: Config) -> Option<World<MemSite>>
    ensures { IfSome result (λ world. IsFitting world) }
{
    let sites = empty_sites(alloc, config.n)?;
    opened_over(alloc, config, sites)
}
