//! Sites that lists of sites have in common.
ghost use Rattle.std.specs.Prelude.{◌≡◌, ◌+◌, ◌*◌, ◌<◌, ◌&&◌, length, IsSome, ℕ};
ghost use Rattle.gz_model.specs.Sites.{has_site, AreSites, IsLeastSite, is_before_least};

use gz_core::SiteId;

/// The least site in both lists. Takes no memory, and a time that grows with the product of their lengths.
pub fn meet(a: &[SiteId], b: &[SiteId]) -> Option<SiteId>
    ensures least { IsLeastSite (λ s. has_site a.now s && has_site b.now s) result }
    ensures quorums { (n : ℕ) → AreSites n a.now → AreSites n b.now → n < length a.now + length b.now → IsSome result }
{
    let mut least: Option<SiteId> = None;
    for site in a {
        if is_lower(*site, &least, b) {
            least = Some(*site);
        }
    }
    least
}

/// The least site in all three lists. Takes no memory, and a time that grows with the product of the length of
/// the first list and the lengths of the others.
pub fn meet3(a: &[SiteId], b: &[SiteId], c: &[SiteId]) -> Option<SiteId>
    ensures least { IsLeastSite (λ s. has_site a.now s && (has_site b.now s && has_site c.now s)) result }
    ensures quorums { (n : ℕ) → AreSites n a.now → AreSites n b.now → AreSites n c.now → 2 * n < length a.now + length b.now + length c.now → IsSome result }
{
    let mut least: Option<SiteId> = None;
    for site in a {
        if is_lower(*site, &least, b) && is_in(c, *site) {
            least = Some(*site);
        }
    }
    least
}

/// Whether a site stands before the least one so far, and is in the list.
fn is_lower(site: SiteId, least: &Option<SiteId>, sites: &[SiteId]) -> bool
    ensures { result ≡ (is_before_least site least.now && has_site sites.now site) }
{
    is_before(site, least) && is_in(sites, site)
}

/// Whether a site stands before the least one so far.
fn is_before(site: SiteId, least: &Option<SiteId>) -> bool
    ensures { result ≡ is_before_least site least.now }
{
    match least {
        Some(other) => site.index() < other.index(),
        None => true,
    }
}

/// Whether a site is in the list.
fn is_in(sites: &[SiteId], site: SiteId) -> bool
    ensures { result ≡ has_site sites.now site }
{
    for other in sites {
        if other.index() == site.index() {
            return true;
        }
    }
    false
}
