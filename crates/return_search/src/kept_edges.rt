//! Calls that can't come back, and the edges of a program without the Next of such calls.

ghost use Rattle.std.specs.Prelude.{◌≡◌, ◌+◌, ◌-◌, ◌<◌, ◌≤◌, ◌++◌, ℕ, false, true, drop, filter, length, replicate, slice_index, slice_index_or, slice_range, take};
ghost use Rattle.return_search.specs.declared.searched_flow.Exit.TheVariants.{Passes};
ghost use Rattle.return_search.specs.Told.{exit_at};
ghost use Rattle.return_search.specs.Shape.{HasShape, points_of};
ghost use Rattle.return_search.specs.Flagged.{AreFlagged};
ghost use Rattle.return_search.specs.Search.{CallBelow, target_returns};
ghost use Rattle.return_search.specs.Stays.{stays, AreKept};

use crate::carrying::target_returns as does_target_return;
use crate::searched_flow::Flow;
use crate::stored::StoredExit;
use machine_defs::{Edge, EdgeKind};

/// Whether control may go along an edge of this kind from a call that doesn't come back.
fn stays_there(kind: EdgeKind) -> bool
    ensures { result ≡ stays false kind }
{
    match kind {
        EdgeKind::Next => false,
        EdgeKind::Taken | EdgeKind::Fixup | EdgeKind::Table | EdgeKind::Sibling => true,
    }
}

/// Moves the edges from one number to another behind the first `kept`, but for each Next, and tells how many are kept then.
fn keep_others(edges: &mut Vec<Edge>, kept: usize, from: usize, to: usize) -> usize
    requires before { kept ≤ from }
    requires ordered { from ≤ to }
    requires inside { to ≤ length edges.old.items }
    ensures kept { take result edges.new.items ≡ take kept edges.old.items ++ filter (λ e. stays false e.kind) (slice_range edges.old.items from to) }
    ensures rest { drop to edges.new.items ≡ drop to edges.old.items }
    ensures long { length edges.new.items ≡ length edges.old.items }
    ensures within { result ≤ to }
{
    let mut end = kept;
    for i in from..to {
        let edge = edges[i];
        if stays_there(edge.kind) {
            edges[end] = edge;
            end += 1;
        }
    }
    end
}

/// Moves the edges from one number to another behind the first `kept`.
#[inline(never)]
fn move_edges(edges: &mut Vec<Edge>, kept: usize, from: usize, to: usize)
    requires before { kept ≤ from }
    requires ordered { from ≤ to }
    requires inside { to ≤ length edges.old.items }
    ensures kept { take (kept + (to - from)) edges.new.items ≡ take kept edges.old.items ++ slice_range edges.old.items from to }
    ensures rest { drop to edges.new.items ≡ drop to edges.old.items }
    ensures long { length edges.new.items ≡ length edges.old.items }
{
    edges.copy_within(from..to, kept);
}

/// Takes `by` off each number from one place to another.
#[inline(never)]
fn lessen_each(numbers: &mut [u32], from: usize, to: usize, by: u32)
    requires ordered { from ≤ to }
    requires inside { to ≤ length numbers.old }
    requires enough { (k : ℕ) → from ≤ k → k < to → by ≤ slice_index numbers.old k }
    ensures less { (k : ℕ) → from ≤ k → k < to → slice_index numbers.new k + by ≡ slice_index numbers.old k }
    ensures before { (k : ℕ) → k < from → slice_index numbers.new k ≡ slice_index numbers.old k }
    ensures behind { (k : ℕ) → to ≤ k → slice_index numbers.new k ≡ slice_index numbers.old k }
    ensures long { length numbers.new ≡ length numbers.old }
{
    for k in from..to {
        numbers[k] -= by;
    }
}

/// Takes `by` off each start from one number to another.
fn lessen_starts(starts: &mut Vec<u32>, from: usize, to: usize, by: u32)
    requires ordered { from ≤ to }
    requires inside { to ≤ length starts.old.items }
    requires enough { (k : ℕ) → from ≤ k → k < to → by ≤ slice_index starts.old.items k }
    ensures less { (k : ℕ) → from ≤ k → k < to → slice_index starts.new.items k + by ≡ slice_index starts.old.items k }
    ensures before { (k : ℕ) → k < from → slice_index starts.new.items k ≡ slice_index starts.old.items k }
    ensures behind { (k : ℕ) → to ≤ k → slice_index starts.new.items k ≡ slice_index starts.old.items k }
    ensures long { length starts.new.items ≡ length starts.old.items }
{
    lessen_each(starts, from, to, by);
}

/// Whether the target of a point's call returns.
// Apart, so that the loop over the points, most of which pass, is none over a jump table.
#[inline(never)]
fn call_returns(exits: &[StoredExit], known: &[bool], q: usize) -> bool
    requires known { CallBelow exits.now (length known.now) }
    requires point { q < length exits.now }
    ensures { result ≡ target_returns known.now (slice_index_or exits.now q Passes) }
{
    does_target_return(exits, known, q)
}

/// The first point from one on the target of whose call doesn't return, or the end of the points.
#[inline(never)]
fn end_of_returning(exits: &[StoredExit], known: &[bool], from: usize) -> usize
    requires known { CallBelow exits.now (length known.now) }
    requires from { from ≤ length exits.now }
    ensures from { from ≤ result }
    ensures within { result ≤ length exits.now }
    ensures returning { (q : ℕ) → from ≤ q → q < result → target_returns known.now (slice_index_or exits.now q Passes) ≡ true }
    ensures end { result < length exits.now → target_returns known.now (slice_index_or exits.now result Passes) ≡ false }
{
    let mut q = from;
    'returning: while q < exits.len() && (exits[q].passes() || call_returns(exits, known, q)) {
        q += 1;
    }
    q
}

/// Keeps of the edges of a flow those that stay, where these entries are known to return, and clears the flags of the points
/// whose calls don't come back. Such points are few, and all edges between two of them are moved at once.
pub(crate) fn drop_edges(flow: &mut Flow, known: &[bool], comes_back: &mut Vec<bool>)
    requires shape { HasShape flow.old }
    requires known { length known.now ≡ points_of flow.old }
    requires comes_back { comes_back.old.items ≡ replicate (points_of flow.old) true }
    ensures kept { AreKept flow.old (λ q. target_returns known.now (exit_at flow.old q)) flow.new.starts.items flow.new.edges.items (points_of flow.old) }
    ensures comes_back { AreFlagged (λ q. target_returns known.now (exit_at flow.old q)) true comes_back.new.items (points_of flow.old) (points_of flow.old) }
    ensures dead_ends { flow.new.dead_ends ≡ flow.old.dead_ends }
    ensures entered { flow.new.entered ≡ flow.old.entered }
{
    let points = flow.exits.len();
    let mut at = end_of_returning(&flow.exits, known, 0);
    let mut from = flow.starts[at] as usize;
    let mut kept = from;
    'points: while at < points {
        comes_back[at] = false;
        let next = end_of_returning(&flow.exits, known, at + 1);
        let to = flow.starts[at + 1] as usize;
        let end = flow.starts[next] as usize;
        let own = keep_others(&mut flow.edges, kept, from, to);
        move_edges(&mut flow.edges, own, to, end);
        lessen_starts(&mut flow.starts, at + 1, next + 1, (to - own) as u32);
        kept = own + (end - to);
        from = end;
        at = next;
    }
    flow.edges.truncate(kept);
}
