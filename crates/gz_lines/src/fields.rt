//! The forms of fields: sessions, versions and sites; numbers and keys are those of every text.
ghost use Rattle.std.specs.Prelude.{◌≡◌, IfOk, map, filter_map};
ghost use Rattle.gz_text.specs.Fields.{number_field};
ghost use Rattle.gz_lines.specs.Fields.{session_field, version_field, site_of, sites_field};

use gz_core::{Items, Session, SiteId, Version};
use gz_text::cut;
use gz_text::fields::positive;
pub use gz_text::fields::{key, number};
use std::alloc::{AllocError, Global};

/// A session: a number from 1 on.
pub fn session(field: &[u8]) -> Option<Session>
    ensures { result ≡ session_field field.now }
{
    let number = positive(field)?;
    Some(Session(number))
}

/// A version: a number from 1 on.
pub fn version(field: &[u8]) -> Option<Version>
    ensures { result ≡ version_field field.now }
{
    let number = positive(field)?;
    Some(Version(number as u64))
}

/// A site: a number below 16.
fn site(field: &[u8]) -> Option<SiteId>
    ensures { result ≡ site_of field.now }
{
    let number = number(field)?;
    if number < SiteId::MOST as u32 {
        Some(SiteId(number as u8))
    } else {
        None
    }
}

/// The sites among the parts of a list.
fn sites_among(alloc: Global, parts: &[&[u8]]) -> Result<Vec<SiteId>, AllocError>
    ensures { IfOk result (λ sites. sites.items ≡ filter_map site_of (map (λ x. x.now) parts.now)) }
{
    let mut sites = Vec::new(alloc);
    for part in parts {
        if let Some(site) = site(part) {
            sites.push(site)?;
        }
    }
    Ok(sites)
}

/// A list: one or more sites with commas between.
pub fn sites(alloc: Global, field: &[u8]) -> Result<Option<Items<SiteId>>, AllocError>
    ensures { IfOk result (λ sites. sites ≡ sites_field field.now) }
{
    let parts = cut::parts(alloc, field, b',')?;
    let sites = sites_among(alloc, parts.as_slice())?;
    if sites.len() == parts.len() {
        Ok(Some(Items::from_vec(sites)))
    } else {
        Ok(None)
    }
}
