//! The rows that differ from the one before.

ghost use Rattle.std.specs.Prelude.{◌≡◌, ◌+◌, ◌≤◌, ◌<◌, [], All, IfOk, IfSome, IsSome, IsSomeAnd, IsTrue, List, MatchOption, None, OnOk, Some, length, slice_index_or, slice_range, true, false, ℕ};
ghost use Rattle.ot_base.specs.declared.place.Place.{Place};
ghost use Rattle.ot_base.specs.declared.row.PlacedRow.{PlacedRow};
ghost use Rattle.ot_base.specs.Places.{is_before as is_lower};
ghost use Rattle.machine_defs.specs.Program.{Program};
ghost use Rattle.machine_defs.specs.IsProgram.{IsLaidOut};
ghost use Rattle.machine_defs.specs.Rows.{placed, row_of_point};
ghost use Rattle.table_defs.specs.Order.{PlainPointsAscend};
ghost use Rattle.program_graph.specs.Tells.{Tells};
ghost use Rattle.kept_states.specs.LevelStates.{at};
ghost use Rattle.stack_rules.specs.Sites.{IsIndexOf};
ghost use Rattle.program_check.specs.Changes.{AreMerged, AreRowsInSites, BeginsRow, add_all, after_row, is_held as is_row_held, rows_in_sites};
ghost use Rattle.program_check.specs.Checked.{IsCheckedBy};
ghost use Rattle.program_check.specs.Fit.{Fit};

use crate::row::{ZERO_ROW, row_at};
use kept_states::Kept;
use ot_base::{NoMemory, Place, PlacedRow, Row, is_before};
use program_graph::Graph;
use stack_rules::SiteIndex;
use std::alloc::Global;

/// Adds a row behind others, unless it is equal to the one before. Before the first of a section nothing is known.
#[inline(always)]
fn push_change(rows: &mut Vec<PlacedRow>, place: Place, row: Row) -> Result<(), NoMemory>
    ensures { OnOk result (rows.new.items ≡ after_row rows.old.items (placed place row)) }
{
    let before = match rows.last() {
        Some(last) if last.place.sec == place.sec => last.row,
        Some(_) | None => ZERO_ROW,
    };
    if before != row {
        rows.push(PlacedRow { place, row })?;
    }
    Ok(())
}

/// Adds the row of a point that begins at a place, unless it is equal to the one before in its section.
#[inline(always)]
fn put_row(kept: &Kept, rows: &mut Vec<PlacedRow>, point: u32, place: Place) -> Result<(), NoMemory>
    requires point { point < length kept.now }
    requires fit { Fit (at kept.now) }
    ensures { OnOk result (rows.new.items ≡ after_row rows.old.items (placed place (row_of_point (at kept.now) point))) }
{
    let row = row_at(kept, point);
    push_change(rows, place, row)
}

/// The same, for the few points that run in sites.
#[inline(never)]
fn put_row_in_site(
    kept: &Kept,
    rows: &mut Vec<PlacedRow>,
    point: u32,
    place: Place,
) -> Result<(), NoMemory>
    requires point { point < length kept.now }
    requires fit { Fit (at kept.now) }
    ensures { OnOk result (rows.new.items ≡ after_row rows.old.items (placed place (row_of_point (at kept.now) point))) }
{
    put_row(kept, rows, point, place)
}

/// Adds the rows of kept points of sites that run before a place, from one on, and says where those end.
#[inline(never)]
fn push_before(
    graph: &Graph,
    kept: &Kept,
    rows: &mut Vec<PlacedRow>,
    more: &[u32],
    from: usize,
    place: Place,
) -> Result<usize, NoMemory>
    requires points { length kept.now ≡ length graph.now.parts.points.items }
    requires fit { Fit (at kept.now) }
    requires more { All (λ q. q < length graph.now.parts.points.items) more.now }
    requires from { from ≤ length more.now }
    ensures behind { IfOk result (λ end. from ≤ end) }
    ensures within { IfOk result (λ end. end ≤ length more.now) }
    ensures before { IfOk result (λ end. (p : Program) → Tells p graph.now.parts → (k d : ℕ) → from ≤ k → k < end → is_lower (p.address (slice_index_or more.now k d)) place ≡ true) }
    ensures other { IfOk result (λ end. (p : Program) → Tells p graph.now.parts → (d : ℕ) → end < length more.now → is_lower (p.address (slice_index_or more.now end d)) place ≡ false) }
    ensures pushed { IfOk result (λ end. (p : Program) → Tells p graph.now.parts → rows.new.items ≡ add_all rows.old.items (rows_in_sites p (at kept.now) (slice_range more.now from end))) }
{
    for end in from..more.len() {
        let n = more[end];
        let address = graph.address(n);
        if !is_before(address, place) {
            return Ok(end);
        }
        put_row_in_site(kept, rows, n, address)?;
    }
    Ok(more.len())
}

/// A place behind all others.
const BEHIND_ALL: Place = Place {
    sec: u32::MAX,
    off: u64::MAX,
};

/// Where the point runs that stands at a place in a list; where none does, behind all places.
#[inline(never)]
fn address_at(graph: &Graph, points: &[u32], i: usize) -> Place
    requires { All (λ q. q < length graph.now.parts.points.items) points.now }
    ensures { (p : Program) → Tells p graph.now.parts → (d : ℕ) → i < length points.now → result ≡ p.address (slice_index_or points.now i d) }
{
    if i < points.len() {
        graph.address(points[i])
    } else {
        BEHIND_ALL
    }
}

/// Adds the rows of kept points of sites that run before a place, where it is known where the first of those that wait runs.
#[inline(always)]
fn push_waiting(
    graph: &Graph,
    kept: &Kept,
    rows: &mut Vec<PlacedRow>,
    more: &[u32],
    from: usize,
    waiting: &mut Place,
    place: Place,
) -> Result<usize, NoMemory>
    requires points { length kept.now ≡ length graph.now.parts.points.items }
    requires fit { Fit (at kept.now) }
    requires more { All (λ q. q < length graph.now.parts.points.items) more.now }
    requires from { from ≤ length more.now }
    requires waiting { (p : Program) → Tells p graph.now.parts → (d : ℕ) → from < length more.now → waiting.old ≡ p.address (slice_index_or more.now from d) }
    ensures behind { IfOk result (λ end. from ≤ end) }
    ensures within { IfOk result (λ end. end ≤ length more.now) }
    ensures before { IfOk result (λ end. (p : Program) → Tells p graph.now.parts → (k d : ℕ) → from ≤ k → k < end → is_lower (p.address (slice_index_or more.now k d)) place ≡ true) }
    ensures other { IfOk result (λ end. (p : Program) → Tells p graph.now.parts → (d : ℕ) → end < length more.now → is_lower (p.address (slice_index_or more.now end d)) place ≡ false) }
    ensures pushed { IfOk result (λ end. (p : Program) → Tells p graph.now.parts → rows.new.items ≡ add_all rows.old.items (rows_in_sites p (at kept.now) (slice_range more.now from end))) }
    ensures waiting { IfOk result (λ end. (p : Program) → Tells p graph.now.parts → (d : ℕ) → end < length more.now → waiting.new ≡ p.address (slice_index_or more.now end d)) }
{
    if !is_before(*waiting, place) {
        return Ok(from);
    }
    let end = push_before(graph, kept, rows, more, from, place)?;
    *waiting = address_at(graph, more, end);
    Ok(end)
}

/// Adds the rows of kept points of sites.
fn push_all(
    graph: &Graph,
    kept: &Kept,
    rows: &mut Vec<PlacedRow>,
    more: &[u32],
) -> Result<(), NoMemory>
    requires points { length kept.now ≡ length graph.now.parts.points.items }
    requires fit { Fit (at kept.now) }
    requires more { All (λ q. q < length graph.now.parts.points.items) more.now }
    ensures { OnOk result ((p : Program) → Tells p graph.now.parts → rows.new.items ≡ add_all rows.old.items (rows_in_sites p (at kept.now) more.now)) }
{
    for n in more {
        put_row_in_site(kept, rows, *n, graph.address(*n))?;
    }
    Ok(())
}

/// Where a point of the object's code begins a row, if it does: outside sites each does, and the first of a site does where it
/// isn't kept.
fn plain_place(
    graph: &Graph,
    kept: &Kept,
    sites: &SiteIndex,
    near: &mut usize,
    n: u32,
) -> Option<Place>
    requires points { length kept.now ≡ length graph.now.parts.points.items }
    requires inside { n < length graph.now.parts.points.items }
    ensures place { IfSome result (λ place. (p : Program) → Tells p graph.now.parts → place ≡ p.place n) }
    ensures plain { IsSome result → (p : Program) → Tells p graph.now.parts → p.variant n ≡ 0 }
    ensures begins { (p : Program) → Tells p graph.now.parts → IsIndexOf p sites.now → IsLaidOut p → MatchOption result (BeginsRow p (at kept.now) n → ⊥) (λ place. BeginsRow p (at kept.now) n × (place ≡ p.place n)) }
{
    if graph.variant(n) != 0 {
        return None;
    }
    let place = graph.place(n);
    if let Some(site) = sites.find(place, near) {
        if kept.is_kept(n) || site.start != place {
            return None;
        }
    }
    Some(place)
}

/// Whether the point so many behind another one is an instruction of the object's code in a section, and doesn't stand behind a place
/// where a row waits.
fn is_clear(graph: &Graph, waiting: Place, sec: u32, from: u32, step: u32) -> bool
    requires { from < length graph.now.parts.points.items }
    ensures within { IsTrue result → from + step < length graph.now.parts.points.items }
    ensures plain { IsTrue result → (p : Program) → Tells p graph.now.parts → p.variant (from + step) ≡ 0 }
    ensures sec { IsTrue result → (p : Program) → Tells p graph.now.parts → (p.place (from + step)).sec ≡ sec }
    ensures clear { IsTrue result → (p : Program) → Tells p graph.now.parts → is_lower waiting (p.place (from + step)) ≡ false }
{
    if step >= graph.points() - from {
        return false;
    }
    let place = graph.place(from + step);
    graph.variant(from + step) == 0 && place.sec == sec && !is_before(waiting, place)
}

/// A point from one on, as far as steps lead that are doubled and then halved. Where that one is an instruction of the object's code
/// in a section, and doesn't stand behind a place where a row waits, this holds for the result too.
#[inline(never)]
fn last_clear(graph: &Graph, waiting: Place, sec: u32, from: u32) -> u32
    requires { from < length graph.now.parts.points.items }
    ensures from { from ≤ result }
    ensures within { result < length graph.now.parts.points.items }
    ensures plain { (p : Program) → Tells p graph.now.parts → p.variant from ≡ 0 → p.variant result ≡ 0 }
    ensures sec { (p : Program) → Tells p graph.now.parts → (p.place from).sec ≡ sec → (p.place result).sec ≡ sec }
    ensures clear { (p : Program) → Tells p graph.now.parts → is_lower waiting (p.place from) ≡ false → is_lower waiting (p.place result) ≡ false }
{
    let mut low = from;
    let mut step = 1u32;
    while is_clear(graph, waiting, sec, low, step) {
        low += step;
        step = step.saturating_mul(2);
    }
    while step > 1 {
        step /= 2;
        if is_clear(graph, waiting, sec, low, step) {
            low += step;
        }
    }
    low
}

/// The first point from one on and before another that keeps another state than a kept point, as far as that is quickly seen. Where
/// there is none, the other.
#[inline(always)]
fn next_unlike(kept: &Kept, held: u32, from: u32, to: u32) -> u32
    requires held { held < length kept.now }
    requires order { from ≤ to }
    requires to { to ≤ length kept.now }
    ensures from { from ≤ result }
    ensures to { result ≤ to }
    ensures state { (k : ℕ) → from ≤ k → k < result → at kept.now held ≡ at kept.now k }
{
    for n in from..to {
        if !kept.are_alike(held, n) {
            return n;
        }
    }
    to
}

/// The first point from one on and before another that keeps a state. Where there is none, the other.
#[inline(never)]
fn next_kept(kept: &Kept, from: u32, to: u32) -> u32
    requires order { from ≤ to }
    requires to { to ≤ length kept.now }
    ensures from { from ≤ result }
    ensures to { result ≤ to }
    ensures state { (k : ℕ) → from ≤ k → k < result → at kept.now k ≡ None }
{
    for n in from..to {
        if kept.is_kept(n) {
            return n;
        }
    }
    to
}

/// The first point from one on and before another that may have another state than a held one, if one is. Where there is none, the
/// other.
#[inline(never)]
fn next_change(kept: &Kept, held: Option<u32>, from: u32, to: u32) -> u32
    requires held { IfSome held (λ h. h < length kept.now) }
    requires from { from ≤ length kept.now }
    requires to { to ≤ length kept.now }
    ensures from { from ≤ result }
    ensures within { result ≤ length kept.now }
    ensures to { (k : ℕ) → from ≤ k → k < result → k < to }
    ensures state { (k : ℕ) → from ≤ k → k < result → IsSomeAnd held (λ h. at kept.now h ≡ at kept.now k) }
{
    let Some(before) = held else {
        return from;
    };
    if from >= to {
        return from;
    }
    // It is seen to be like itself if it can be seen to be like others.
    if kept.are_alike(before, before) {
        next_unlike(kept, before, from, to)
    } else if kept.is_kept(before) {
        from
    } else {
        next_kept(kept, from, to)
    }
}

/// Adds the rows of kept points of sites that run before a point that begins a row, and says where those end. Below the number
/// `clear_to` there are none; from it on they are looked for, and it moves on to where there may be some again, or another section.
#[inline(always)]
fn push_up_to(
    graph: &Graph,
    kept: &Kept,
    rows: &mut Vec<PlacedRow>,
    more: &[u32],
    from: usize,
    waiting: &mut Place,
    clear_to: &mut u32,
    n: u32,
    place: Place,
) -> Result<usize, NoMemory>
    requires points { length kept.now ≡ length graph.now.parts.points.items }
    requires fit { Fit (at kept.now) }
    requires more { All (λ q. q < length graph.now.parts.points.items) more.now }
    requires from { from ≤ length more.now }
    requires waiting { (p : Program) → Tells p graph.now.parts → (d : ℕ) → from < length more.now → waiting.old ≡ p.address (slice_index_or more.now from d) }
    requires point { n < length graph.now.parts.points.items }
    requires place { (p : Program) → Tells p graph.now.parts → place ≡ p.place n }
    requires plain { (p : Program) → Tells p graph.now.parts → p.variant n ≡ 0 }
    requires reach { clear_to.old ≤ length graph.now.parts.points.items }
    requires section { (p : Program) → Tells p graph.now.parts → PlainPointsAscend p → n < clear_to.old → (k : ℕ) → n ≤ k → k < clear_to.old → p.variant k ≡ 0 → (p.place k).sec ≡ (p.place n).sec }
    requires clear { (p : Program) → Tells p graph.now.parts → PlainPointsAscend p → from < length more.now → (k : ℕ) → n ≤ k → k < clear_to.old → p.variant k ≡ 0 → is_lower waiting.old (p.place k) ≡ false }
    ensures behind { IfOk result (λ end. from ≤ end) }
    ensures within { IfOk result (λ end. end ≤ length more.now) }
    ensures before { IfOk result (λ end. (p : Program) → Tells p graph.now.parts → (k d : ℕ) → from ≤ k → k < end → is_lower (p.address (slice_index_or more.now k d)) place ≡ true) }
    ensures pushed { IfOk result (λ end. (p : Program) → Tells p graph.now.parts → rows.new.items ≡ add_all rows.old.items (rows_in_sites p (at kept.now) (slice_range more.now from end))) }
    ensures waiting { IfOk result (λ end. (p : Program) → Tells p graph.now.parts → (d : ℕ) → end < length more.now → waiting.new ≡ p.address (slice_index_or more.now end d)) }
    ensures reach { OnOk result (clear_to.new ≤ length graph.now.parts.points.items) }
    ensures beyond { OnOk result (n < clear_to.new) }
    ensures section { OnOk result ((p : Program) → Tells p graph.now.parts → PlainPointsAscend p → (k : ℕ) → n ≤ k → k < clear_to.new → p.variant k ≡ 0 → (p.place k).sec ≡ (p.place n).sec) }
    ensures clear { IfOk result (λ end. (p : Program) → Tells p graph.now.parts → PlainPointsAscend p → end < length more.now → (k : ℕ) → n ≤ k → k < clear_to.new → p.variant k ≡ 0 → is_lower waiting.new (p.place k) ≡ false) }
{
    if n < *clear_to {
        return Ok(from);
    }
    let end = push_waiting(graph, kept, rows, more, from, waiting, place)?;
    *clear_to = last_clear(graph, *waiting, place.sec, n) + 1;
    Ok(end)
}

/// Of so many points one has another row than the one before, as most objects go.
const POINTS_PER_ROW: usize = 7;

/// The rows of points of the object's code and those of kept points of sites, in the order of their places and without those that
/// are equal to the one before in their section.
#[inline(never)]
pub(crate) fn list_changes(
    alloc: Global,
    graph: &Graph,
    kept: &Kept,
    sites: &SiteIndex,
    in_sites: &[u32],
) -> Result<Vec<PlacedRow>, NoMemory>
    requires points { length kept.now ≡ length graph.now.parts.points.items }
    requires fit { Fit (at kept.now) }
    requires in_sites { All (λ q. q < length graph.now.parts.points.items) in_sites.now }
    ensures { IfOk result (λ rows. (p : Program) → IsCheckedBy p graph.now.parts (at kept.now) → IsIndexOf p sites.now → AreRowsInSites p (at kept.now) (rows_in_sites p (at kept.now) in_sites.now) → (all : List PlacedRow) × AreMerged p (at kept.now) (rows_in_sites p (at kept.now) in_sites.now) all × (rows.items ≡ add_all [] all)) }
{
    let mut rows = Vec::with_capacity(alloc, graph.points() as usize / POINTS_PER_ROW)?;
    let mut next = 0usize;
    let mut waiting = address_at(graph, in_sites, next);
    let mut near = 0usize;
    let mut held: Option<u32> = None;
    let mut from = 0u32;
    let mut clear_to = 0u32;
    'points: loop {
        let n = next_change(kept, held, from, clear_to);
        if n >= graph.points() {
            push_all(graph, kept, &mut rows, &in_sites[next..])?;
            return Ok(rows);
        }
        if let Some(place) = plain_place(graph, kept, sites, &mut near, n) {
            next = push_up_to(
                graph,
                kept,
                &mut rows,
                in_sites,
                next,
                &mut waiting,
                &mut clear_to,
                n,
                place,
            )?;
            put_row(kept, &mut rows, n, place)?;
            held = Some(n);
        }
        from = n + 1;
    }
}
