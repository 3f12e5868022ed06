//! Kept points that run in sites.

ghost use Rattle.std.specs.Prelude.{◌≡◌, ◌++◌, ◌⊎◌, ℕ, ◌<◌, ◌≤◌, [], false, true, All, AllPairs, IsPermutation, Contains, IfOk, IfSome, IfNone, IsSome, IsTrue, MatchOption, OnOk, length, map};
ghost use Rattle.machine_defs.specs.Program.{Program};
ghost use Rattle.program_graph.specs.declared.parts.GraphSite.{GraphSite};
ghost use Rattle.program_graph.specs.Tells.{Tells};
ghost use Rattle.kept_states.specs.LevelStates.{at};
ghost use Rattle.stack_rules.specs.Sites.{AreApart, in_own_site};
ghost use Rattle.stack_rules.specs.Gaps.{IsClear, is_in_gap};
ghost use Rattle.stack_rules.specs.Points.{AreAmong, AreInOrder, AreKeptIn, ArePointsIn, AreSitePointsOf, IsStartOf, RunsIn, address_by_number, key_by_number};

use crate::gap::{Gap, NO_GAP};
use crate::site_index::SiteIndex;
use kept_states::Kept;
use ot_base::{NoMemory, Place};
use program_graph::{Graph, GraphSite};
use std::alloc::Global;

/// Where nothing runs that is looked up.
const NOWHERE: Place = Place { sec: 0, off: 0 };

/// Where the point with a number runs. Of a number past all points that says nothing.
#[inline(always)]
pub fn address_by_number(graph: &Graph, n: u32) -> Place
    ensures { (p : Program) → Tells p graph.now.parts → result ≡ address_by_number p n }
{
    if n < graph.points() {
        graph.address(n)
    } else {
        NOWHERE
    }
}

/// Where the point with a number runs, and its variant. Of a number past all points that says nothing.
#[inline(always)]
fn key(graph: &Graph, n: u32) -> (Place, u32)
    ensures { (p : Program) → Tells p graph.now.parts → result ≡ key_by_number p n }
{
    if n < graph.points() {
        (graph.address(n), graph.variant(n))
    } else {
        (NOWHERE, 0)
    }
}

/// Whether a point runs in one of these sites.
#[inline(always)]
fn runs_in(graph: &Graph, sites: &SiteIndex, near: &mut usize, n: u32) -> bool
    requires { n < length graph.now.parts.points.items }
    ensures held { IsTrue result → (p : Program) → Tells p graph.now.parts → RunsIn p sites.now n }
    ensures none { (p : Program) → Tells p graph.now.parts → AreApart sites.now → RunsIn p sites.now n → IsTrue result }
{
    sites.find(graph.address(n), near).is_some()
}

/// The one of these sites that holds a place, if one does. Where a gap has the place, which lies in none, nothing is looked up.
#[inline(always)]
fn site_at(sites: &SiteIndex, near: &mut usize, gap: &mut Gap, place: Place) -> Option<GraphSite>
    requires { AreApart sites.now → IsClear sites.now gap.old }
    ensures held { IfSome result (λ site. Contains sites.now site × (in_own_site site place ≡ true)) }
    ensures none { AreApart sites.now → IfNone result ((site : GraphSite) → Contains sites.now site → in_own_site site place ≡ false) }
    ensures clear { AreApart sites.now → IsClear sites.now gap.new }
{
    if gap.has(place) {
        return None;
    }
    let site = sites.find(place, near);
    if site.is_none() {
        *gap = sites.gap_from(place, *near);
    }
    site
}

/// The one of these sites in which a point runs, if it is kept and runs in one.
#[inline(always)]
fn site_of_kept(
    graph: &Graph,
    kept: &Kept,
    sites: &SiteIndex,
    near: &mut usize,
    gap: &mut Gap,
    n: u32,
) -> Option<GraphSite>
    requires points { length kept.now ≡ length graph.now.parts.points.items }
    requires inside { n < length graph.now.parts.points.items }
    requires clear { AreApart sites.now → IsClear sites.now gap.old }
    ensures kept { IfSome result (λ site. IsSome (at kept.now n)) }
    ensures some { IfSome result (λ site. 0 < site.len) }
    ensures site { (p : Program) → Tells p graph.now.parts → IfSome result (λ site. Contains sites.now site × (in_own_site site (p.address n) ≡ true)) }
    ensures none { (p : Program) → Tells p graph.now.parts → AreApart sites.now → IfNone result (IsSome (at kept.now n) → RunsIn p sites.now n → ⊥) }
    ensures clear { AreApart sites.now → IsClear sites.now gap.new }
{
    let site = site_at(sites, near, gap, graph.address(n))?;
    if kept.is_kept(n) { Some(site) } else { None }
}

/// Whether a point that runs in a site is a plain one at its start.
#[inline(always)]
fn is_start(graph: &Graph, site: &GraphSite, n: u32) -> bool
    requires { n < length graph.now.parts.points.items }
    ensures yes { IsTrue result → (p : Program) → Tells p graph.now.parts → in_own_site site.now (p.address n) ≡ true → IsStartOf p site.now n }
    ensures no { (p : Program) → Tells p graph.now.parts → IsStartOf p site.now n → IsTrue result }
{
    graph.variant(n) == 0 && site.start == graph.address(n)
}

/// Adds the site in which a point runs, if the point is a plain one at its start.
#[inline(always)]
fn push_start(
    graph: &Graph,
    starts: &mut Vec<GraphSite>,
    site: GraphSite,
    n: u32,
) -> Result<(), NoMemory>
    requires { n < length graph.now.parts.points.items }
    ensures stay { OnOk result ((other : GraphSite) → Contains starts.old.items other → Contains starts.new.items other) }
    ensures some { 0 < site.len → All (λ other. 0 < other.len) starts.old.items → OnOk result (All (λ other. 0 < other.len) starts.new.items) }
    ensures each { OnOk result ((p : Program) → Tells p graph.now.parts → in_own_site site (p.address n) ≡ true → (other : GraphSite) → Contains starts.new.items other → Contains starts.old.items other ⊎ (site ≡ other × IsStartOf p site n)) }
    ensures start { OnOk result ((p : Program) → Tells p graph.now.parts → IsStartOf p site n → Contains starts.new.items site) }
{
    if is_start(graph, &site, n) {
        starts.push(site)?;
    }
    Ok(())
}

/// Whether a point runs in a gap. Most points run where they stand.
#[inline(always)]
fn is_inside(graph: &Graph, gap: Gap, n: u32) -> bool
    requires { n < length graph.now.parts.points.items }
    ensures { (p : Program) → Tells p graph.now.parts → result ≡ is_in_gap gap (p.address n) }
{
    if graph.is_usual(n) {
        gap.has(graph.place(n))
    } else {
        gap.has(graph.address(n))
    }
}

/// The first point from one on that doesn't run in a gap. Where there is none, how many points there are.
#[inline(never)]
fn skip_gap(graph: &Graph, gap: Gap, from: u32) -> u32
    requires { from ≤ length graph.now.parts.points.items }
    ensures from { from ≤ result }
    ensures within { result ≤ length graph.now.parts.points.items }
    ensures inside { (p : Program) → Tells p graph.now.parts → (k : ℕ) → from ≤ k → k < result → is_in_gap gap (p.address k) ≡ true }
{
    for n in from..graph.points() {
        if !is_inside(graph, gap, n) {
            return n;
        }
    }
    graph.points()
}

/// The first point from one on that doesn't run in a gap, if there is one.
fn next_outside(graph: &Graph, gap: Gap, from: u32) -> Option<u32>
    requires { from ≤ length graph.now.parts.points.items }
    ensures within { IfSome result (λ n. (from ≤ n) × (n < length graph.now.parts.points.items)) }
    ensures inside { (p : Program) → Tells p graph.now.parts → (k : ℕ) → from ≤ k → MatchOption result (k < length graph.now.parts.points.items) (λ n. k < n) → is_in_gap gap (p.address k) ≡ true }
{
    let n = skip_gap(graph, gap, from);
    if n < graph.points() { Some(n) } else { None }
}

/// The kept points that run in these sites, by their numbers. Adds the sites at whose starts plain ones of them run.
fn points_in(
    alloc: Global,
    graph: &Graph,
    kept: &Kept,
    sites: &SiteIndex,
    starts: &mut Vec<GraphSite>,
) -> Result<Vec<u32>, NoMemory>
    requires points { length kept.now ≡ length graph.now.parts.points.items }
    requires none { starts.old.items ≡ [] }
    ensures ascending { IfOk result (λ points. AllPairs (λ q r. q < r) points.items) }
    ensures kept { IfOk result (λ points. All (λ q. IsSome (at kept.now q)) points.items) }
    ensures each { IfOk result (λ points. (p : Program) → Tells p graph.now.parts → All (RunsIn p sites.now) points.items) }
    ensures told { IfOk result (λ points. (p : Program) → Tells p graph.now.parts → AreApart sites.now → ArePointsIn p (at kept.now) sites.now points.items) }
    ensures some { OnOk result (All (λ site. 0 < site.len) starts.new.items) }
    ensures starts { IfOk result (λ points. (p : Program) → Tells p graph.now.parts → AreApart sites.now → AreKeptIn p points.items sites.now starts.new.items) }
{
    let mut points = Vec::new(alloc);
    let mut near = 0usize;
    let mut gap = NO_GAP;
    let mut from = 0u32;
    while let Some(n) = next_outside(graph, gap, from) {
        if let Some(site) = site_of_kept(graph, kept, sites, &mut near, &mut gap, n) {
            points.push(n)?;
            push_start(graph, starts, site, n)?;
        }
        from = n + 1;
    }
    Ok(points)
}

/// Those of some points that run in these sites.
fn points_among(
    alloc: Global,
    graph: &Graph,
    sites: &SiteIndex,
    points: &[u32],
) -> Result<Vec<u32>, NoMemory>
    requires { All (λ q. q < length graph.now.parts.points.items) points.now }
    ensures listed { IfOk result (λ among. (q : ℕ) → Contains among.items q → Contains points.now q) }
    ensures ascending { IfOk result (λ among. AllPairs (λ q r. q < r) points.now → AllPairs (λ q r. q < r) among.items) }
    ensures told { IfOk result (λ among. (p : Program) → Tells p graph.now.parts → AreApart sites.now → AreAmong p points.now sites.now among.items) }
{
    let mut among = Vec::new(alloc);
    let mut near = 0usize;
    for n in points {
        if runs_in(graph, sites, &mut near, *n) {
            among.push(*n)?;
        }
    }
    Ok(among)
}

/// Those of some points of sites that run in the started ones. Where all sites are started they are not looked at again.
fn points_started(
    alloc: Global,
    graph: &Graph,
    sites: &SiteIndex,
    starts: &SiteIndex,
    points: Vec<u32>,
) -> Result<Vec<u32>, NoMemory>
    requires points { All (λ q. q < length graph.now.parts.points.items) points.items }
    requires each { (p : Program) → Tells p graph.now.parts → All (RunsIn p sites.now) points.items }
    ensures listed { IfOk result (λ among. (q : ℕ) → Contains among.items q → Contains points.items q) }
    ensures ascending { IfOk result (λ among. AllPairs (λ q r. q < r) points.items → AllPairs (λ q r. q < r) among.items) }
    ensures told { IfOk result (λ among. (p : Program) → Tells p graph.now.parts → AreApart starts.now → AreAmong p points.items starts.now among.items) }
{
    if starts.is_same(sites) {
        Ok(points)
    } else {
        points_among(alloc, graph, starts, &points)
    }
}

/// A point of a replacement, by its site.
#[derive(Clone, Copy, PartialEq, Eq, PartialOrd, Ord)]
struct SitedPoint {
    /// How many sites begin where it runs or before, as far as 32 bits tell it.
    site: u32,
    /// Its number.
    point: u32,
}

/// A point with its site.
fn with_site(graph: &Graph, sites: &SiteIndex, near: &mut usize, n: u32) -> SitedPoint
    requires { n < length graph.now.parts.points.items }
    ensures { result.point ≡ n }
{
    let _ = sites.find(graph.address(n), near);
    SitedPoint {
        site: u32::try_from(*near).unwrap_or(u32::MAX),
        point: n,
    }
}

/// Adds the numbers of points behind others.
fn push_numbers(points: &mut Vec<u32>, more: &[SitedPoint]) -> Result<(), NoMemory>
    ensures { OnOk result (points.new.items ≡ points.old.items ++ map (λ x. x.point) more.now) }
{
    for sited in more {
        points.push(sited.point)?;
    }
    Ok(())
}

/// The same points in another order: those of the object's code first, then those of replacements, site by site. Replacements that
/// share their bytes have the points at one byte numbered one after another, so that in the order of the numbers their addresses
/// rise and fall; in this one they mostly rise.
fn by_site(
    alloc: Global,
    graph: &Graph,
    sites: &SiteIndex,
    points: &[u32],
) -> Result<Vec<u32>, NoMemory>
    requires { All (λ q. q < length graph.now.parts.points.items) points.now }
    ensures { IfOk result (λ new. IsPermutation points.now new.items) }
{
    let mut new = Vec::new(alloc);
    let mut replaced = Vec::new(alloc);
    let mut near = 0usize;
    for n in points {
        if graph.variant(*n) == 0 {
            new.push(*n)?;
        } else {
            replaced.push(with_site(graph, sites, &mut near, *n))?;
        }
    }
    replaced.sort_unstable();
    push_numbers(&mut new, &replaced)?;
    Ok(new)
}

/// Puts points in the order of their addresses, and at one address in that of their variants.
fn sort(graph: &Graph, points: &mut Vec<u32>) -> Result<(), NoMemory>
    requires { All (λ q. q < length graph.now.parts.points.items) points.old.items }
    ensures ordered { OnOk result ((p : Program) → Tells p graph.now.parts → AreInOrder p points.new.items) }
    ensures same { IsPermutation points.old.items points.new.items }
{
    points.sort_by_key(|n| key(graph, *n))?;
    Ok(())
}

/// The kept points that run in sites whose original code is kept at its start, by address and then by variant.
///
/// Each point is looked at once, with a look-up among the sites that mostly goes on where the last one ended; then those that run
/// in sites are, and where the original code of a site isn't kept they are once more. A point in a site takes 8 bytes meanwhile, one
/// of a replacement 16, and 4 in the list.
///
/// # Errors
///
/// [`NoMemory`] may come at any graph.
pub fn list_site_points(alloc: Global, graph: &Graph, kept: &Kept) -> Result<Vec<u32>, NoMemory>
    requires { length kept.now ≡ length graph.now.parts.points.items }
    ensures kept { IfOk result (λ points. All (λ q. IsSome (at kept.now q)) points.items) }
    ensures listed { IfOk result (λ points. AreSitePointsOf graph.now.parts kept.now points.items) }
{
    let sites = SiteIndex::build(alloc, graph)?;
    let mut started = Vec::new(alloc);
    let all = points_in(alloc, graph, kept, &sites, &mut started)?;
    let starts = SiteIndex::sorted(started);
    let among = points_started(alloc, graph, &sites, &starts, all)?;
    let mut points = by_site(alloc, graph, &starts, &among)?;
    drop(among);
    sort(graph, &mut points)?;
    Ok(points)
}
