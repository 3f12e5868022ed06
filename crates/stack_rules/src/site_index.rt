//! Sites by place.

ghost use Rattle.std.specs.Prelude.{◌≡◌, ◌≤◌, ◌<◌, ◌↔◌, ℕ, true, false, All, Contains, IfOk, IfSome, IfNone, IsTrue, length, slice_index_or};
ghost use Rattle.ot_base.specs.Places.{is_before as is_lower};
ghost use Rattle.machine_defs.specs.Program.{Program};
ghost use Rattle.program_graph.specs.declared.parts.GraphSite.{GraphSite};
ghost use Rattle.program_graph.specs.Tells.{Tells};
ghost use Rattle.stack_rules.specs.Sites.{AreApart, AreIndexed, IsIndexOf, in_own_site as is_held};
ghost use Rattle.stack_rules.specs.Gaps.{IsClear};

use crate::gap::{Gap, NO_GAP};
use ot_base::{NoMemory, Place, is_before};
use program_graph::{Graph, GraphSite};
use std::alloc::Global;
use std::marker::Model;

/// Whether a place lies in a site.
fn is_in_site(site: &GraphSite, place: Place) -> bool
    ensures { result ≡ is_held site.now place }
{
    let start = site.start;
    start.sec == place.sec
        && start.off <= place.off
        && u128::from(place.off) < u128::from(start.off) + u128::from(site.len)
}

/// Whether a place lies behind a site.
fn is_behind(site: &GraphSite, place: Place) -> bool
    ensures start { IsTrue result → is_lower place site.now.start ≡ false }
    ensures outside { IsTrue result → is_held site.now place ≡ false }
{
    let start = site.start;
    start.sec < place.sec
        || start.sec == place.sec && start.off <= place.off && place.off - start.off >= site.len
}

/// How many of these begin at a place or before it.
fn count_to(sites: &[GraphSite], place: Place) -> usize
    requires { AreIndexed sites.now }
    ensures within { result ≤ length sites.now }
    ensures from { (k : ℕ) (d : GraphSite) → k < result → is_lower place (slice_index_or sites.now k d).start ≡ false }
    ensures behind { (k : ℕ) (d : GraphSite) → result ≤ k → k < length sites.now → is_lower place (slice_index_or sites.now k d).start ≡ true }
{
    sites.partition_point(|site| !is_before(place, site.start))
}

/// Whether the first so many of these begin at a place or before it.
fn begin_before(sites: &[GraphSite], place: Place, count: usize) -> bool
    requires indexed { AreIndexed sites.now }
    requires within { count ≤ length sites.now }
    ensures { IsTrue result → (k : ℕ) (d : GraphSite) → k < count → is_lower place (slice_index_or sites.now k d).start ≡ false }
{
    count == 0 || !is_before(place, sites[count - 1].start)
}

/// Whether all but the first so many of these begin behind a place.
fn begin_behind(sites: &[GraphSite], place: Place, count: usize) -> bool
    requires indexed { AreIndexed sites.now }
    requires within { count ≤ length sites.now }
    ensures { IsTrue result → (k : ℕ) (d : GraphSite) → count ≤ k → k < length sites.now → is_lower place (slice_index_or sites.now k d).start ≡ true }
{
    count == sites.len() || is_before(place, sites[count].start)
}

/// Whether so many of these begin at a place or before it.
fn is_count(sites: &[GraphSite], place: Place, count: usize) -> bool
    requires { AreIndexed sites.now }
    ensures within { IsTrue result → count ≤ length sites.now }
    ensures from { IsTrue result → (k : ℕ) (d : GraphSite) → k < count → is_lower place (slice_index_or sites.now k d).start ≡ false }
    ensures behind { IsTrue result → (k : ℕ) (d : GraphSite) → count ≤ k → k < length sites.now → is_lower place (slice_index_or sites.now k d).start ≡ true }
{
    count <= sites.len() && begin_before(sites, place, count) && begin_behind(sites, place, count)
}

/// How many of these begin at a place or before it, where one number and the next are tried before they are searched.
fn count_near(sites: &[GraphSite], place: Place, near: usize) -> usize
    requires { AreIndexed sites.now }
    ensures within { result ≤ length sites.now }
    ensures from { (k : ℕ) (d : GraphSite) → k < result → is_lower place (slice_index_or sites.now k d).start ≡ false }
    ensures behind { (k : ℕ) (d : GraphSite) → result ≤ k → k < length sites.now → is_lower place (slice_index_or sites.now k d).start ≡ true }
{
    if is_count(sites, place, near) {
        return near;
    }
    let next = near.saturating_add(1);
    if is_count(sites, place, next) {
        next
    } else {
        count_to(sites, place)
    }
}

/// The site that holds a place, where so many begin there or before it.
fn site_before(sites: &[GraphSite], place: Place, count: usize) -> Option<GraphSite>
    requires indexed { AreIndexed sites.now }
    requires within { count ≤ length sites.now }
    requires from { (k : ℕ) (d : GraphSite) → k < count → is_lower place (slice_index_or sites.now k d).start ≡ false }
    requires behind { (k : ℕ) (d : GraphSite) → count ≤ k → k < length sites.now → is_lower place (slice_index_or sites.now k d).start ≡ true }
    ensures held { IfSome result (λ site. Contains sites.now site × (is_held site place ≡ true)) }
    ensures none { AreApart sites.now → IfNone result ((site : GraphSite) → Contains sites.now site → is_held site place ≡ false) }
{
    if count == 0 {
        return None;
    }
    let site = sites[count - 1];
    if is_in_site(&site, place) {
        Some(site)
    } else {
        None
    }
}

/// A quick test whether a place lies before the site with a number, and behind the one before: where it says so, the place is in no
/// site. Where the number is that of no site, each is before.
#[inline(always)]
fn lies_between(sites: &[GraphSite], place: Place, near: usize) -> bool
    requires { AreIndexed sites.now }
    ensures { IsTrue result → AreApart sites.now → (site : GraphSite) → Contains sites.now site → is_held site place ≡ false }
{
    if near > sites.len() {
        return false;
    }
    if near != 0 && !is_behind(&sites[near - 1], place) {
        return false;
    }
    near == sites.len() || is_before(place, sites[near].start)
}

/// Where in a section the site with a number begins; where it is in another, or there is none, behind all places.
fn gap_end(sites: &[GraphSite], section: u32, number: usize) -> u64
    ensures { (d : GraphSite) → number < length sites.now → (slice_index_or sites.now number d).start.sec ≡ section → result ≡ (slice_index_or sites.now number d).start.off }
{
    if number < sites.len() && sites[number].start.sec == section {
        sites[number].start.off
    } else {
        u64::MAX
    }
}

/// A quick test whether the site before the one with a number holds a place.
#[inline(always)]
fn site_near(sites: &[GraphSite], place: Place, near: usize) -> Option<GraphSite>
    ensures { IfSome result (λ site. Contains sites.now site × (is_held site place ≡ true)) }
{
    if near == 0 || near > sites.len() {
        return None;
    }
    let site = sites[near - 1];
    if is_in_site(&site, place) {
        Some(site)
    } else {
        None
    }
}

/// Sites by place, for quick look-up. Contracts see it as the list of them.
#[derive(Drop)]
pub struct SiteIndex {
    sites: Vec<GraphSite>,
}

impl Model for SiteIndex {
    ghost use Rattle.std.specs.Prelude.{List};
    ghost use Rattle.program_graph.specs.declared.parts.GraphSite.{GraphSite};
    ghost use Rattle.stack_rules.specs.Sites.{AreIndexed};

    ghost Value = { List GraphSite };

    ghost view = { λ s. s.sites.items };

    ghost invariant = { λ s. AreIndexed s.sites.items };
}

impl SiteIndex {
    /// The sites of a graph. A site without a byte is left out.
    ///
    /// # Errors
    ///
    /// [`NoMemory`] may come at any graph.
    pub fn build(alloc: Global, graph: &Graph) -> Result<SiteIndex, NoMemory>
        ensures { IfOk result (λ index. (p : Program) → Tells p graph.now.parts → IsIndexOf p index) }
    {
        let mut sites = Vec::new(alloc);
        for site in graph.sites() {
            if site.len != 0 {
                sites.push(*site)?;
            }
        }
        Ok(SiteIndex::sorted(sites))
    }

    /// These sites, in any order.
    pub(crate) fn sorted(sites: Vec<GraphSite>) -> SiteIndex
        requires { All (λ site. 0 < site.len) sites.items }
        ensures { (site : GraphSite) → Contains result site ↔ Contains sites.items site }
    {
        let mut sites = sites;
        sites.sort_unstable_by_key(|site| site.start);
        SiteIndex { sites }
    }

    /// Whether these are the same sites as others.
    pub(crate) fn is_same(&self, other: &SiteIndex) -> bool
        ensures { IsTrue result → self.now ≡ other.now }
    {
        self.sites.as_slice() == other.sites.as_slice()
    }

    /// The site that holds a place, where one does. Of sites that share no byte that is the only one.
    ///
    /// `near` is any number. Where it is the one that the last look-up left there, and no site begins between that one's place and
    /// this one, nothing is searched.
    #[inline(always)]
    pub fn find(&self, place: Place, near: &mut usize) -> Option<GraphSite>
        ensures held { IfSome result (λ site. Contains self.now site × (is_held site place ≡ true)) }
        ensures none { AreApart self.now → IfNone result ((site : GraphSite) → Contains self.now site → is_held site place ≡ false) }
    {
        let sites = self.sites.as_slice();
        if lies_between(sites, place, *near) {
            return None;
        }
        match site_near(sites, place, *near) {
            Some(site) => Some(site),
            None => self.search(place, near),
        }
    }

    /// The same by a search, but where no site begins between the last one's place and this one, or a single one does.
    #[inline(never)]
    fn search(&self, place: Place, near: &mut usize) -> Option<GraphSite>
        ensures held { IfSome result (λ site. Contains self.now site × (is_held site place ≡ true)) }
        ensures none { AreApart self.now → IfNone result ((site : GraphSite) → Contains self.now site → is_held site place ≡ false) }
    {
        let sites = self.sites.as_slice();
        *near = count_near(sites, place, *near);
        site_before(sites, place, *near)
    }

    /// Places from one on that lie in no site, where that one doesn't: those before the next site of its section. `near` is the
    /// number that the look-up of the place left there; where it isn't, they are none.
    #[inline(never)]
    pub(crate) fn gap_from(&self, place: Place, near: usize) -> Gap
        ensures { AreApart self.now → ((site : GraphSite) → Contains self.now site → is_held site place ≡ false) → IsClear self.now result }
    {
        let sites = self.sites.as_slice();
        if is_count(sites, place, near) {
            Gap {
                section: place.sec,
                from: place.off,
                to: gap_end(sites, place.sec, near),
            }
        } else {
            NO_GAP
        }
    }
}
