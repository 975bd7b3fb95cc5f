//! What a run works on and leaves.
ghost use Rattle.std.specs.Prelude.{◌≡◌, ◌+◌, [], None, Some, length, IfOk, OnOk};
ghost use Rattle.gz_site.specs.Told.{nothing};
ghost use Rattle.gz_world.specs.Opening.{AreEmpty};
ghost use Rattle.gz_cli.specs.Worlds.{AreFresh};

use gz_site::{MemSite, Site};
use gz_world::World;
use std::alloc::{AllocError, Global};

/// The sites that a run is given, and the world that it leaves. A world that was opened holds the sites.
pub struct Bench<S: Site> {
    pub sites: Vec<S>,
    pub world: Option<World<S>>,
}

impl<S: Site> Drop for Bench<S> {
    fn drop(self) {
        let Bench { sites: _, world: _ } = self;
    }
}

/// How many sites the program makes.
pub const SITES: usize = 16;

impl<S: Site> Bench<S> {
    /// No sites yet, and no world. Takes no memory.
    pub fn bare(alloc: Global) -> Bench<S>
        ensures sites { result.sites.items ≡ [] }
        ensures empty { AreEmpty S.told result.sites.items }
        ensures closed { result.world ≡ None }
    {
        Bench {
            sites: Vec::new(alloc),
            world: None,
        }
    }

    /// Adds a site that holds nothing, after those that are there. Where memory runs out it is dropped.
    #[tactic(auto, using(crate::proofs::EmptySites::grown_empty))]
    fn add(&mut self, site: S) -> Result<(), AllocError>
        requires site { S.told site ≡ Some nothing }
        requires empty { AreEmpty S.told self.old.sites.items }
        ensures empty { AreEmpty S.told self.new.sites.items }
        ensures len { OnOk result (length self.new.sites.items ≡ length self.old.sites.items + 1) }
        ensures world { self.new.world ≡ self.old.world }
    {
        match self.sites.push(site) {
            Ok(()) => Ok(()),
            Err(_) => Err(AllocError),
        }
    }

    /// Adds four sites that hold nothing, after those that are there. Where memory runs out some of them may have been
    /// added.
    pub fn add_four(&mut self, a: S, b: S, c: S, d: S) -> Result<(), AllocError>
        requires first { S.told a ≡ Some nothing }
        requires second { S.told b ≡ Some nothing }
        requires third { S.told c ≡ Some nothing }
        requires fourth { S.told d ≡ Some nothing }
        requires empty { AreEmpty S.told self.old.sites.items }
        ensures empty { AreEmpty S.told self.new.sites.items }
        ensures len { OnOk result (length self.new.sites.items ≡ length self.old.sites.items + 4) }
        ensures world { self.new.world ≡ self.old.world }
    {
        self.add(a)?;
        self.add(b)?;
        self.add(c)?;
        self.add(d)
    }
}

impl Bench<MemSite> {
    /// Sixteen empty sites in memory that never fail, and no world.
    pub fn new(alloc: Global) -> Result<Bench<MemSite>, AllocError>
        ensures fresh { IfOk result (λ bench. AreFresh ⟦<MemSite as Site>⟧.told bench.sites.items) }
        ensures closed { IfOk result (λ bench. bench.world ≡ None) }
    {
        let mut sites = Vec::new(alloc);
        while sites.len() < SITES {
            sites.push(MemSite::new(alloc, Vec::new(alloc)))?;
        }
        Ok(Bench { sites, world: None })
    }
}
