//! Over which edges a return is carried back, as far as a search knows.

ghost use Rattle.std.specs.Prelude.{◌≡◌, ◌+◌, ◌<◌, ◌≤◌, ◌&&◌, ℕ, true, false, IsTrue, length, slice_index, slice_index_or, slice_set};
ghost use Rattle.machine_defs.specs.declared.flow.EdgeKind.TheVariants.{Next};
ghost use Rattle.return_search.specs.declared.searched_flow.Exit.TheVariants.{Passes};
ghost use Rattle.return_search.specs.Told.{dead_end_at, exit_at};
ghost use Rattle.return_search.specs.Shape.{HasShape, points_of};
ghost use Rattle.return_search.specs.Backward.{IsEdgeOf, IsPlain, PassesOn, StepsOn, edge_at};
ghost use Rattle.return_search.specs.Search.{AreListed, CallBelow, carries as carries_back, is_set, target_returns as does_target_return, is_calling};

use crate::return_search::Search;
use crate::searched_flow::{Exit, Flow};
use crate::stored::StoredExit;
use machine_defs::{Edge, EdgeKind};

/// Whether the target of a point's call returns, as far as it is known. What isn't a call passes.
pub(crate) fn target_returns(exits: &[StoredExit], known: &[bool], q: usize) -> bool
    requires known { CallBelow exits.now (length known.now) }
    requires point { q < length exits.now }
    ensures { result ≡ does_target_return known.now (slice_index_or exits.now q Passes) }
{
    match exits[q].exit() {
        Exit::Calls { entry } => known[entry as usize],
        Exit::CallsNever => false,
        Exit::Leaves | Exit::CallsOut | Exit::Passes => true,
    }
}

/// Whether a point is a call that execution never passes.
fn is_dead_call(flow: &Flow, q: u32) -> bool
    requires shape { HasShape flow.now }
    requires point { q < points_of flow.now }
    ensures { result ≡ (is_calling (exit_at flow.now q) && dead_end_at flow.now q) }
{
    match flow.exits[q as usize].exit() {
        Exit::Calls { .. } | Exit::CallsOut | Exit::CallsNever => flow.dead_ends[q as usize],
        Exit::Leaves | Exit::Passes => false,
    }
}

/// Whether a return that may come from the end of a Next may come from its point too. Most points pass.
fn carries_next(flow: &Flow, known: &[bool], q: u32) -> bool
    requires shape { HasShape flow.now }
    requires known { length known.now ≡ points_of flow.now }
    requires point { q < points_of flow.now }
    ensures { result ≡ carries_back flow.now known.now q Next }
{
    if flow.exits[q as usize].passes() {
        return true;
    }
    target_returns(&flow.exits, known, q as usize) && !is_dead_call(flow, q)
}

/// Whether a return that may come from the end of an edge of this kind may come from its point too.
pub(crate) fn carries(flow: &Flow, known: &[bool], q: u32, kind: EdgeKind) -> bool
    requires shape { HasShape flow.now }
    requires known { length known.now ≡ points_of flow.now }
    requires point { q < points_of flow.now }
    ensures { result ≡ carries_back flow.now known.now q kind }
{
    match kind {
        EdgeKind::Next => carries_next(flow, known, q),
        EdgeKind::Taken | EdgeKind::Fixup | EdgeKind::Table | EdgeKind::Sibling => true,
    }
}

/// Whether a return is carried to a point from one that is found.
pub(crate) fn is_carried_to(flow: &Flow, search: &Search, q: u32) -> bool
    requires shape { HasShape flow.now }
    requires listed { AreListed flow.now search.now }
    requires point { q < points_of flow.now }
    ensures carried { IsTrue result → (i : ℕ) × IsEdgeOf flow.now q i × (is_set search.now.found.items (edge_at flow.now i).to ≡ true) × (carries_back flow.now search.now.known.items q (edge_at flow.now i).kind ≡ true) }
    ensures not_carried { result ≡ false → (i : ℕ) → IsEdgeOf flow.now q i → is_set search.now.found.items (edge_at flow.now i).to ≡ true → carries_back flow.now search.now.known.items q (edge_at flow.now i).kind ≡ true → ⊥ }
{
    for i in flow.start(q as usize)..flow.start(q as usize + 1) {
        let edge = flow.edges[i];
        if search.found[edge.to as usize] && carries(flow, &search.known, q, edge.kind) {
            return true;
        }
    }
    false
}

/// Whether a point passes, or is a call of code outside that execution passes.
fn passes_on(flow: &Flow, q: u32) -> bool
    requires shape { HasShape flow.now }
    requires point { q < points_of flow.now }
    ensures { IsTrue result → PassesOn flow.now q }
{
    let exit = flow.exits[q as usize].exit();
    matches!(exit, Exit::Passes) || (matches!(exit, Exit::CallsOut) && !flow.dead_ends[q as usize])
}

/// Whether a point's first edge leads to the point right behind it, and any return is carried over it.
pub(crate) fn steps_on(flow: &Flow, q: u32) -> bool
    requires shape { HasShape flow.now }
    requires point { q < points_of flow.now }
    ensures { IsTrue result → StepsOn flow.now q }
{
    let first = flow.start(q as usize);
    if first == flow.start(q as usize + 1) {
        return false;
    }
    let behind = q + 1;
    if flow.edges[first].to != behind {
        return false;
    }
    passes_on(flow, q)
}

/// The first point from one on that isn't plain, or the end of the points. A plain point passes, and has a single edge, which
/// leads to the point right behind it. Most are such.
// The parts of the flow are read once, and the loop keeps them in registers.
#[inline(always)]
pub(crate) fn end_of_plain(flow: &Flow, from: u32) -> u32
    requires shape { HasShape flow.now }
    requires from { from ≤ points_of flow.now }
    ensures from { from ≤ result }
    ensures within { result ≤ points_of flow.now }
    ensures plain { (q : ℕ) → from ≤ q → q < result → IsPlain flow.now q }
{
    let starts: &[u32] = &flow.starts;
    let edges: &[Edge] = &flow.edges;
    let exits: &[StoredExit] = &flow.exits;
    let mut q = from as usize;
    let mut first = starts[q] as usize;
    'plain: while q < exits.len()
        && starts[q + 1] as usize == first + 1
        && edges[first].to == (q + 1) as u32
        && exits[q].passes()
    {
        q += 1;
        first += 1;
    }
    q as u32
}
