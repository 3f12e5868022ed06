//! Sites: the places of code that may be patched over.

ghost use Rattle.std.specs.Prelude.{◌≡◌, ◌+◌, ◌-◌, ◌<◌, ◌≤◌, ◌^◌, ℕ, true, false, List, length, slice_index_or, IfOk, All, MatchOption};
ghost use Rattle.ot_base.specs.Places.{is_before as is_lower, same_place};
ghost use Rattle.special_sections.specs.declared.entries.AltEntry.{AltEntry};
ghost use Rattle.alternatives.specs.declared.original.Original.{Original};
ghost use Rattle.alternatives.specs.declared.site.AlternativesSite.{AlternativesSite};
ghost use Rattle.alternatives.specs.Points.{entries_from};
ghost use Rattle.alternatives.specs.Sites.{in_alternatives_site as site_holds, AreSitesOf, AscendApart, FillFrom};
ghost use Rattle.alternatives.specs.Sorted.{AreByPlace, NoneMeet, GroupsOf};

use crate::original::Original;
use ot_base::{NoMemory, Place, is_before};
use std::alloc::Global;

/// A place of code that may be patched over by any one of its replacements, or stay.
#[derive(Clone, Copy, PartialEq, Eq)]
pub struct AlternativesSite {
    /// Where it begins.
    pub start: Place,
    /// Its length in bytes, not 0.
    pub len: u8,
    /// Where its entries begin among [`crate::Sites::entry_numbers`].
    pub first: u32,
    /// How many entries it has, not 0.
    pub count: u32,
}

/// The end of those originals, from one on, that begin where that one does.
fn end_of_site(originals: &[Original], first: usize) -> usize
    requires { first < length originals.now }
    ensures behind { first < result }
    ensures within { result ≤ length originals.now }
    ensures alike { (k : ℕ) (d : Original) → first ≤ k → k < result → same_place (slice_index_or originals.now k d).place (slice_index_or originals.now first d).place ≡ true }
    ensures other { result < length originals.now → (d : Original) → same_place (slice_index_or originals.now result d).place (slice_index_or originals.now first d).place ≡ false }
{
    let place = originals[first].place;
    for end in first + 1..originals.len() {
        if originals[end].place != place {
            return end;
        }
    }
    originals.len()
}

/// The sites of sorted originals of which no two meet.
pub(crate) fn group_sites(
    alloc: Global,
    originals: &[Original],
) -> Result<Vec<AlternativesSite>, NoMemory>
    requires few { length originals.now < 2 ^ 32 }
    requires sorted { AreByPlace originals.now }
    requires apart { NoneMeet originals.now }
    requires some { All (λ o. 0 < o.len) originals.now }
    ensures { IfOk result (λ sites. GroupsOf originals.now sites.items (length originals.now)) }
{
    let mut sites = Vec::new(alloc);
    let mut first = 0usize;
    while first < originals.len() {
        let end = end_of_site(originals, first);
        let original = originals[first];
        sites.push(AlternativesSite {
            start: original.place,
            len: original.len,
            first: first as u32,
            count: (end - first) as u32,
        })?;
        first = end;
    }
    Ok(sites)
}

/// Whether a place lies in a site.
fn in_alternatives_site(site: &AlternativesSite, place: Place) -> bool
    ensures { result ≡ site_holds site.now place }
{
    let start = site.start;
    start.sec == place.sec
        && start.off <= place.off
        && u128::from(place.off) < u128::from(start.off) + u128::from(site.len)
}

/// How many of these begin at a place or before it.
fn search_to(sites: &[AlternativesSite], place: Place) -> usize
    requires { AscendApart sites.now }
    ensures within { result ≤ length sites.now }
    ensures from { (k : ℕ) (d : AlternativesSite) → k < result → is_lower place (slice_index_or sites.now k d).start ≡ false }
    ensures behind { (k : ℕ) (d : AlternativesSite) → result ≤ k → k < length sites.now → is_lower place (slice_index_or sites.now k d).start ≡ true }
{
    sites.partition_point(|site| !is_before(place, site.start))
}

/// Whether so many of these begin at a place or before it, or more.
fn are_from(sites: &[AlternativesSite], place: Place, count: usize) -> bool
    ensures within { result ≡ true → count ≤ length sites.now }
    ensures last { result ≡ true → (d : AlternativesSite) → 0 < count → is_lower place (slice_index_or sites.now (count - 1) d).start ≡ false }
{
    if count > sites.len() {
        return false;
    }
    count == 0 || !is_before(place, sites[count - 1].start)
}

/// How many of these begin at a place or before it, counted on from so many of the first that are thought to.
fn count_to(sites: &[AlternativesSite], place: Place, near: usize) -> usize
    requires { AscendApart sites.now }
    ensures within { result ≤ length sites.now }
    ensures from { (k : ℕ) (d : AlternativesSite) → k < result → is_lower place (slice_index_or sites.now k d).start ≡ false }
    ensures behind { (k : ℕ) (d : AlternativesSite) → result ≤ k → k < length sites.now → is_lower place (slice_index_or sites.now k d).start ≡ true }
{
    if !are_from(sites, place, near) {
        return search_to(sites, place);
    }
    for count in near..sites.len() {
        if is_before(place, sites[count].start) {
            return count;
        }
    }
    sites.len()
}

/// The number of the site that holds a place, looked for near so many.
pub(crate) fn find_site(sites: &[AlternativesSite], place: Place, near: usize) -> Option<u32>
    requires few { length sites.now < 2 ^ 32 }
    requires apart { AscendApart sites.now }
    ensures { MatchOption result ((k : ℕ) (d : AlternativesSite) → k < length sites.now → site_holds (slice_index_or sites.now k d) place ≡ false) (λ i. (i < length sites.now) × ((d : AlternativesSite) → site_holds (slice_index_or sites.now i d) place ≡ true)) }
{
    let count = count_to(sites, place, near);
    if count == 0 {
        return None;
    }
    let last = count - 1;
    if in_alternatives_site(&sites[last], place) {
        Some(last as u32)
    } else {
        None
    }
}

/// The numbers of the entries of the site that begins at a place, of those of all sites, looked for near so many.
pub(crate) fn numbers_from<'n>(
    sites: &[AlternativesSite],
    numbers: &'n [u32],
    place: Place,
    near: usize,
) -> &'n [u32]
    requires few { length sites.now < 2 ^ 32 }
    requires some { length numbers.now ≤ 8388608 }
    requires apart { AscendApart sites.now }
    requires fill { FillFrom 0 sites.now (length numbers.now) }
    ensures { (entries : List AltEntry) → AreSitesOf entries sites.now numbers.now → result.now ≡ entries_from entries place }
{
    let Some(found) = find_site(sites, place, near) else {
        return &[];
    };
    let site = sites[found as usize];
    if site.start != place {
        return &[];
    }
    let first = site.first as usize;
    let end = first + site.count as usize;
    &numbers[first..end]
}
