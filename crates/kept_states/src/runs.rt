//! Runs of neighbouring points with one owner, and how states pass their points.

ghost use Rattle.std.specs.Prelude.{◌≡◌, ◌+◌, ◌<◌, ◌≤◌, All, length, not};
ghost use Rattle.machine_defs.specs.Program.{Program};
ghost use Rattle.program_graph.specs.Tells.{Tells};
ghost use Rattle.kept_states.specs.Passages.{AreLinked, AreToldBelow};

use crate::alike::FEW_EDGES;
use crate::passages::{
    Passage, lead_straight, passage_at, rare_passage, straight_passage, tell_linked, tell_passage,
    usual_passage,
};
use machine_defs::{Edge, EdgeKind};
use ot_base::Place;
use program_graph::Graph;

/// A run of neighbouring points with one owner.
#[derive(Clone, Copy)]
pub(crate) struct Run {
    /// The point behind it.
    pub(crate) end: u32,
    /// Whether its points are likely to reach points that those of other runs reach: they are code of no function, or
    /// lead to code of another owner, or alternatives stand where they begin.
    pub(crate) is_mixed: bool,
    /// How many alternatives sites start below it.
    sites: usize,
}

/// The run of no points, before the first.
pub(crate) fn no_run() -> Run
    ensures { result.end ≡ 0 }
{
    Run {
        end: 0,
        is_mixed: false,
        sites: 0,
    }
}

/// Whether a place stands below another.
fn is_below(one: Place, other: Place) -> bool {
    one.sec < other.sec || one.sec == other.sec && one.off < other.off
}

/// How many alternatives sites start below a place, where at least so many do.
fn sites_below(graph: &Graph, least: usize, place: Place) -> usize {
    let sites = graph.sites();
    for i in least..sites.len() {
        if !is_below(sites[i].start, place) {
            return i;
        }
    }
    sites.len()
}

/// Whether states go along one of these edges from a point to code of another owner.
fn goes_away(graph: &Graph, n: u32, edges: &[Edge]) -> bool
    requires point { n < length graph.now.parts.points.items }
    requires within { All (λ e. e.to < length graph.now.parts.points.items) edges.now }
{
    for edge in edges {
        if edge.kind != EdgeKind::Sibling && !graph.have_one_owner(edge.to, n) {
            return true;
        }
    }
    false
}

/// Whether states go along one of the many edges of a point of a run, which begins at `from`, to code of another owner. A
/// point that has the edges of an earlier one of the run isn't asked, as that one is.
#[inline(never)]
fn many_lead_away(graph: &Graph, n: u32, from: u32, edges: &[Edge]) -> bool
    requires point { n < length graph.now.parts.points.items }
    requires within { All (λ e. e.to < length graph.now.parts.points.items) edges.now }
{
    match graph.alike(n) {
        Some(first) => first < from || n <= first,
        None => goes_away(graph, n, edges),
    }
}

/// Whether states go along one of the edges of a point of a run, which begins at `from`, to code of another owner.
#[inline(always)]
fn leads_away(graph: &Graph, n: u32, from: u32, edges: &[Edge]) -> bool
    requires point { n < length graph.now.parts.points.items }
    requires within { All (λ e. e.to < length graph.now.parts.points.items) edges.now }
{
    if edges.len() > FEW_EDGES {
        return many_lead_away(graph, n, from, edges);
    }
    goes_away(graph, n, edges)
}

/// Whether the owner of a point is checked, where it is known of another point.
#[inline(always)]
fn is_checked_as(graph: &Graph, n: u32, other: u32, is_checked: bool) -> bool
    requires point { n < length graph.now.parts.points.items }
    requires other { other < length graph.now.parts.points.items }
    requires known { (p : Program) → Tells p graph.now.parts → is_checked ≡ not (p.unchecked other) }
    ensures { (p : Program) → Tells p graph.now.parts → result ≡ not (p.unchecked n) }
{
    if graph.are_together(n, other) {
        is_checked
    } else {
        !graph.unchecked(n)
    }
}

/// Tells how states pass a point, whatever it is, whose owner is checked or not, and whether they go from it to code of another
/// owner.
#[inline(never)]
fn tell_rare(
    graph: &Graph,
    passages: &mut Vec<Passage>,
    n: u32,
    from: u32,
    is_checked: bool,
) -> bool
    requires point { n < length graph.now.parts.points.items }
    requires checked { (p : Program) → Tells p graph.now.parts → is_checked ≡ not (p.unchecked n) }
    requires passages { length passages.old.items ≡ length graph.now.parts.points.items }
    ensures passages { length passages.new.items ≡ length passages.old.items }
    ensures told { (p : Program) → Tells p graph.now.parts → AreToldBelow p passages.old.items n → AreToldBelow p passages.new.items (n + 1) }
    ensures linked { AreLinked passages.old.items n → AreLinked passages.new.items (n + 1) }
{
    tell_passage(passages, n, rare_passage(graph, n, is_checked));
    leads_away(graph, n, from, graph.successors(n))
}

/// Tells how states pass a point of a run, which begins at `from`, and whether they go from it to code of another owner. A
/// point that gives to the next one alone isn't asked: that one is of the run too, unless the run ends there.
#[inline(always)]
fn tell_point(
    graph: &Graph,
    passages: &mut Vec<Passage>,
    n: u32,
    from: u32,
    is_checked: bool,
) -> bool
    requires point { n < length graph.now.parts.points.items }
    requires checked { (p : Program) → Tells p graph.now.parts → is_checked ≡ not (p.unchecked n) }
    requires passages { length passages.old.items ≡ length graph.now.parts.points.items }
    ensures passages { length passages.new.items ≡ length passages.old.items }
    ensures told { (p : Program) → Tells p graph.now.parts → AreToldBelow p passages.old.items n → AreToldBelow p passages.new.items (n + 1) }
    ensures linked { AreLinked passages.old.items n → AreLinked passages.new.items (n + 1) }
{
    if !is_checked {
        return tell_rare(graph, passages, n, from, is_checked);
    }
    let Some(op) = graph.usual_op(n) else {
        return tell_rare(graph, passages, n, from, is_checked);
    };
    let edges = graph.successors(n);
    if lead_straight(edges, n) {
        tell_linked(passages, n, straight_passage(op));
        return false;
    }
    tell_linked(passages, n, usual_passage(op));
    leads_away(graph, n, from, edges)
}

/// Whether alternatives stand at a point: it is of a replacement, or the first of a site.
fn has_alternatives(graph: &Graph, n: u32, sites_below: usize) -> bool
    requires { n < length graph.now.parts.points.items }
{
    let sites = graph.sites();
    graph.variant(n) != 0 || sites_below < sites.len() && sites[sites_below].start == graph.place(n)
}

/// The run that begins at a point, behind another run. Tells how states pass its points.
#[inline(never)]
pub(crate) fn tell_run(graph: &Graph, passages: &mut Vec<Passage>, from: u32, before: Run) -> Run
    requires point { from < length graph.now.parts.points.items }
    requires passages { length passages.old.items ≡ length graph.now.parts.points.items }
    ensures passages { length passages.new.items ≡ length passages.old.items }
    ensures told { (p : Program) → Tells p graph.now.parts → AreToldBelow p passages.old.items from → AreToldBelow p passages.new.items result.end }
    ensures linked { AreLinked passages.old.items from → AreLinked passages.new.items result.end }
    ensures more { from < result.end }
    ensures within { result.end ≤ length graph.now.parts.points.items }
{
    let sites = sites_below(graph, before.sites, graph.place(from));
    let is_checked = !graph.unchecked(from);
    let is_away = tell_point(graph, passages, from, from, is_checked);
    let mut is_mixed = is_away
        || graph.owner(from).is_none()
        || has_alternatives(graph, from, sites);
    for n in from + 1..graph.points() {
        if !graph.have_one_owner(n, from) {
            let is_passed = passage_at(passages, n - 1).is_straight();
            return Run {
                end: n,
                is_mixed: is_mixed || is_passed,
                sites,
            };
        }
        let is_checked_too = is_checked_as(graph, n, from, is_checked);
        if tell_point(graph, passages, n, from, is_checked_too) {
            is_mixed = true;
        }
    }
    Run {
        end: graph.points(),
        is_mixed,
        sites,
    }
}
