//! Marks of the blocks of code in which alternatives sites lie. Most places that no site holds are told by them.

ghost use Rattle.std.specs.Prelude.{◌≡◌, ◌<◌, length, IfOk, OnOk};
ghost use Rattle.object_points.specs.Plain.{AreAllSites};
ghost use Rattle.object_points.specs.Marks.{is_marked as is_marked_by};
ghost use Rattle.object_points.specs.SiteBlocks.{block_behind as one_block_behind, block_of as block_of_place, AreKept, HasUnmarkedNoSite, HaveAllBlocks, HaveBlocks};

use crate::linked::Linked;
use crate::marks::{is_marked, mark_places};
use crate::sites::sites_in_code;
use alternatives::AlternativesSite;
use ot_base::{NoMemory, Place};
use std::alloc::Global;

/// The block of 16 bytes of a place, by its number in its section.
#[inline(always)]
fn block_of(place: Place) -> Place
    ensures { result ≡ block_of_place place }
{
    Place {
        sec: place.sec,
        off: place.off / 16,
    }
}

/// The block so many behind that of a place.
fn block_behind(place: Place, count: u8) -> Place
    ensures { result ≡ one_block_behind place count }
{
    Place {
        sec: place.sec,
        off: place.off / 16 + u64::from(count),
    }
}

/// Adds the blocks in which a site lies.
fn add_blocks(blocks: &mut Vec<Place>, site: &AlternativesSite) -> Result<(), NoMemory>
    ensures kept { OnOk result (AreKept blocks.old.items blocks.new.items) }
    ensures all { OnOk result (HaveBlocks site.now blocks.new.items) }
{
    for count in 0..site.len / 16 + 2 {
        blocks.push(block_behind(site.start, count))?;
    }
    Ok(())
}

/// The blocks in which sites lie.
fn list_blocks(alloc: Global, sites: &[AlternativesSite]) -> Result<Vec<Place>, NoMemory>
    ensures { IfOk result (λ blocks. HaveAllBlocks sites.now blocks.items) }
{
    let mut blocks = Vec::new(alloc);
    for site in sites {
        add_blocks(&mut blocks, site)?;
    }
    Ok(blocks)
}

/// The sites of an object.
fn list_of<'l>(linked: &'l Linked<'_, '_>) -> &'l [AlternativesSite]
    ensures { AreAllSites linked.now result.now }
{
    match sites_in_code(linked) {
        Some(sites) => sites.sites(),
        None => &[],
    }
}

/// Marks of which those of the blocks are set in which sites lie.
pub(crate) fn mark_sites(alloc: Global, linked: &Linked<'_, '_>) -> Result<Vec<u8>, NoMemory>
    ensures some { IfOk result (λ marks. 0 < length marks.items) }
    ensures none { IfOk result (λ marks. HasUnmarkedNoSite linked.now marks.items) }
{
    let blocks = list_blocks(alloc, list_of(linked))?;
    mark_places(alloc, &blocks)
}

/// Whether a site may hold a place, told by these marks: where none may, none does.
#[inline(always)]
pub(crate) fn may_hold(marks: &[u8], place: Place) -> bool
    requires { 0 < length marks.now }
    ensures { result ≡ is_marked_by (length marks.now) marks.now (block_of_place place) }
{
    is_marked(marks, block_of(place))
}
