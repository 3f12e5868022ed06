//! States spread from one batch of points of level 0 after another.
//!
//! A batch is small, so that what it looks at stays at hand; a level of a whole program isn't. Which points are a batch
//! tells only how soon all is done. The first batch has those that are likely to reach points that others reach; any
//! other has neighbouring points with one owner.

ghost use Rattle.std.specs.Prelude.{◌≡◌, ◌≢◌, ◌<◌, ◌≤◌, ℕ, [], None, IsSome, length};
ghost use Rattle.machine_defs.specs.Program.{IsPoint, Program};
ghost use Rattle.machine_defs.specs.IsProgram.{IsProgram};
ghost use Rattle.machine_defs.specs.Kept.{state_at};
ghost use Rattle.program_graph.specs.Tells.{Tells};
ghost use Rattle.kept_states.specs.Batches.{AreFirst};
ghost use Rattle.kept_states.specs.LevelStates.{at};
ghost use Rattle.kept_states.specs.Passages.{AreLinked, ArePassages};
ghost use Rattle.kept_states.specs.Ranks.{AreSpread};

use crate::levels::Levels;
use crate::passages::{Passage, passage_at};
use crate::runs::{no_run, tell_run};
use crate::spreading::{keep_first, offer_first, spread_levels};
use program_graph::Graph;

/// Offers a point its state of level 0, where it may have one.
#[inline(always)]
fn offer_special_first(graph: &Graph, passages: &[Passage], levels: &mut Levels, n: u32)
    requires points { length levels.old.kept ≡ length graph.now.parts.points.items }
    requires passages { length passages.now ≡ length graph.now.parts.points.items }
    requires next { length levels.old.next.states ≡ length levels.old.kept }
    requires point { n < length levels.old.kept }
    requires not_kept { at levels.old.kept n ≡ None }
    requires not_offered { at levels.old.next.states n ≡ None }
    ensures kept { levels.new.kept ≡ levels.old.kept }
    ensures next { length levels.new.next.states ≡ length levels.old.kept }
    ensures offered { (p : Program) → Tells p graph.now.parts → IsSome (at levels.new.next.states n) → at levels.new.next.states n ≡ state_at p 0 n }
    ensures others { (q : ℕ) → q ≢ n → at levels.new.next.states q ≡ at levels.old.next.states q }
{
    if passage_at(passages, n).is_special() {
        offer_first(graph, levels, n);
    }
}

/// Offers the points of a run their states of level 0.
fn offer_run_first(graph: &Graph, passages: &[Passage], levels: &mut Levels, from: u32, to: u32)
    requires points { length levels.old.kept ≡ length graph.now.parts.points.items }
    requires passages { length passages.now ≡ length graph.now.parts.points.items }
    requires order { from ≤ to }
    requires inside { to ≤ length graph.now.parts.points.items }
    requires next { length levels.old.next.states ≡ length levels.old.kept }
    requires not_kept { (q : ℕ) → at levels.old.kept q ≡ None }
    requires not_offered { (q : ℕ) → from ≤ q → at levels.old.next.states q ≡ None }
    requires offered { (p : Program) → Tells p graph.now.parts → (q : ℕ) → IsPoint p q → IsSome (at levels.old.next.states q) → at levels.old.next.states q ≡ state_at p 0 q }
    ensures kept { levels.new.kept ≡ levels.old.kept }
    ensures next { length levels.new.next.states ≡ length levels.old.kept }
    ensures offered { (p : Program) → Tells p graph.now.parts → (q : ℕ) → IsPoint p q → IsSome (at levels.new.next.states q) → at levels.new.next.states q ≡ state_at p 0 q }
    ensures others { (q : ℕ) → to ≤ q → at levels.new.next.states q ≡ None }
{
    for n in from..to {
        offer_special_first(graph, passages, levels, n);
    }
}

/// Tells how states pass the points, and offers those of mixed runs their states of level 0. Tells how many got one.
pub(crate) fn tell_points(graph: &Graph, passages: &mut Vec<Passage>, levels: &mut Levels) -> usize
    requires points { length levels.old.kept ≡ length graph.now.parts.points.items }
    requires passages { length passages.old.items ≡ length graph.now.parts.points.items }
    requires next { length levels.old.next.states ≡ length levels.old.kept }
    requires not_kept { (q : ℕ) → at levels.old.kept q ≡ None }
    requires not_offered { (q : ℕ) → at levels.old.next.states q ≡ None }
    ensures passages { length passages.new.items ≡ length passages.old.items }
    ensures told { (p : Program) → Tells p graph.now.parts → ArePassages p passages.new.items }
    ensures linked { AreLinked passages.new.items (length passages.new.items) }
    ensures kept { levels.new.kept ≡ levels.old.kept }
    ensures next { length levels.new.next.states ≡ length levels.old.kept }
    ensures offered { (p : Program) → Tells p graph.now.parts → (q : ℕ) → IsPoint p q → IsSome (at levels.new.next.states q) → at levels.new.next.states q ≡ state_at p 0 q }
{
    let mut run = no_run();
    'runs: loop {
        let from = run.end;
        if from == graph.points() {
            return levels.reached();
        }
        run = tell_run(graph, passages, from, run);
        if run.is_mixed {
            offer_run_first(graph, passages, levels, from, run.end);
        }
    }
}

/// Where the batch ends that begins at a place among the points of level 0, of which so many are mixed.
fn batch_end(graph: &Graph, levels: &Levels, from: usize, mixed: usize) -> usize
    requires points { length levels.now.kept ≡ length graph.now.parts.points.items }
    requires inside { from < length levels.now.firsts }
    ensures more { from < result }
    ensures inside { result ≤ length levels.now.firsts }
{
    let firsts = levels.firsts();
    if from < mixed {
        return mixed.min(firsts);
    }
    let owner = graph.owner(levels.first(from));
    for i in from + 1..firsts {
        if graph.owner(levels.first(i)) != owner {
            return i;
        }
    }
    firsts
}

/// Spreads states from all points of level 0 at once, from the beginning.
pub(crate) fn spread_at_once(graph: &Graph, passages: &[Passage], levels: &mut Levels)
    requires points { length levels.old.kept ≡ length graph.now.parts.points.items }
    requires passages { length passages.now ≡ length graph.now.parts.points.items }
    requires told { (p : Program) → Tells p graph.now.parts → ArePassages p passages.now }
    requires linked { AreLinked passages.now (length passages.now) }
    ensures points { length levels.new.kept ≡ length graph.now.parts.points.items }
    ensures spread { (p : Program) → Tells p graph.now.parts → IsProgram p → AreSpread p (at levels.new.kept) [] [] }
{
    levels.clear();
    keep_first(graph, passages, levels);
    let end = levels.firsts();
    levels.begin_batch(0, end);
    spread_levels(graph, passages, levels);
}

/// Spreads states from one batch after another. Where one meets a settled point, all is done at once instead.
pub(crate) fn spread_batches(graph: &Graph, passages: &[Passage], levels: &mut Levels, mixed: usize)
    requires points { length levels.old.kept ≡ length graph.now.parts.points.items }
    requires passages { length passages.now ≡ length graph.now.parts.points.items }
    requires told { (p : Program) → Tells p graph.now.parts → ArePassages p passages.now }
    requires linked { AreLinked passages.now (length passages.now) }
    requires next { length levels.old.next.states ≡ length levels.old.kept }
    requires none { (q : ℕ) → at levels.old.next.states q ≡ None }
    requires first { (p : Program) → Tells p graph.now.parts → AreFirst p levels.old.firsts }
    requires spread { (p : Program) → Tells p graph.now.parts → AreSpread p (at levels.old.kept) [] levels.old.firsts }
    ensures points { length levels.new.kept ≡ length graph.now.parts.points.items }
    ensures spread { (p : Program) → Tells p graph.now.parts → IsProgram p → AreSpread p (at levels.new.kept) [] [] }
{
    let mut from = 0;
    'batches: loop {
        if from == levels.firsts() {
            return;
        }
        let to = batch_end(graph, levels, from, mixed);
        levels.begin_batch(from, to);
        spread_levels(graph, passages, levels);
        if levels.is_met() {
            spread_at_once(graph, passages, levels);
            return;
        }
        from = to;
    }
}
