//! How returns are carried backwards over the edges of a program.

ghost use Rattle.std.specs.Prelude.{◌≡◌, ◌+◌, ◌<◌, ℕ, None, true, false, IfOk, Contains, IsTrue, length, slice_index, slice_index_or, slice_set};
ghost use Rattle.return_search.specs.declared.searched_flow.Exit.TheVariants.{Calls, Leaves};
ghost use Rattle.return_search.specs.Chained.{IsOpen};
ghost use Rattle.return_search.specs.Told.{exit_at};
ghost use Rattle.return_search.specs.Shape.{HasShape, points_of};
ghost use Rattle.return_search.specs.declared.backward.Lead.TheVariants.{Call, Edge};
ghost use Rattle.return_search.specs.Backward.{IsBackward, IsEdgeOf, IsLead, edge_at};
ghost use Rattle.return_search.specs.Search.{AreClosed, AreListed, AreSound, Extends, FindsAlong, FindsMore, IsCarriedBy, IsSearch, IsTaken, RunsOn, carries as carries_back, is_set};

use crate::backward::{Backward, Lead};
use crate::carrying::{carries, is_carried_to};
use crate::chains::is_open;
use crate::return_search::Search;
use crate::searched_flow::Flow;
use crate::stored::StoredEntry;
use ot_base::NoMemory;
use std::alloc::Global;

/// Finds a point, if it isn't found yet and a return is carried to it from one that is.
fn find_carried(flow: &Flow, search: &mut Search, q: u32)
    requires shape { HasShape flow.now }
    requires listed { AreListed flow.now search.old }
    requires sound { AreSound flow.now search.old.found.items search.old.known.items }
    requires point { q < points_of flow.now }
    ensures more { FindsMore flow.now search.old search.new }
    ensures found { (i : ℕ) → IsCarriedBy flow.now search.old.found.items search.old.known.items q i → is_set search.new.found.items q ≡ true }
{
    if search.found[q as usize] {
        return;
    }
    if is_carried_to(flow, search, q) {
        search.find(flow, q);
    }
}

/// Finds a point, if a return is carried to it along this edge, which leads to a point that is found.
fn find_by_edge(flow: &Flow, search: &mut Search, q: u32, number: u32)
    requires shape { HasShape flow.now }
    requires listed { AreListed flow.now search.old }
    requires sound { AreSound flow.now search.old.found.items search.old.known.items }
    requires edge { IsEdgeOf flow.now q number }
    requires found { is_set search.old.found.items (edge_at flow.now number).to ≡ true }
    ensures more { FindsMore flow.now search.old search.new }
    ensures found { carries_back flow.now search.old.known.items q (edge_at flow.now number).kind ≡ true → is_set search.new.found.items q ≡ true }
{
    if carries(flow, &search.known, q, flow.edges[number as usize].kind) {
        search.find(flow, q);
    }
}

/// Finds the point of an edge that leads to a point that is found. A call is passed over.
fn find_edge(flow: &Flow, search: &mut Search, lead: Lead)
    requires shape { HasShape flow.now }
    requires listed { AreListed flow.now search.old }
    requires sound { AreSound flow.now search.old.found.items search.old.known.items }
    requires own { IsLead flow.now lead }
    requires found { (q i : ℕ) → lead ≡ Edge q i → is_set search.old.found.items (edge_at flow.now i).to ≡ true }
    ensures more { FindsMore flow.now search.old search.new }
    ensures found { (q i : ℕ) → lead ≡ Edge q i → carries_back flow.now search.old.known.items q (edge_at flow.now i).kind ≡ true → is_set search.new.found.items q ≡ true }
{
    match lead {
        Lead::Edge { from, number } => find_by_edge(flow, search, from, number),
        Lead::Call { .. } => {}
    }
}

/// Finds a call of what is known to return. An edge is passed over.
fn find_call(flow: &Flow, search: &mut Search, lead: Lead)
    requires shape { HasShape flow.now }
    requires listed { AreListed flow.now search.old }
    requires sound { AreSound flow.now search.old.found.items search.old.known.items }
    requires own { IsLead flow.now lead }
    ensures more { FindsMore flow.now search.old search.new }
    ensures found { (q i : ℕ) → lead ≡ Call q → IsCarriedBy flow.now search.old.found.items search.old.known.items q i → is_set search.new.found.items q ≡ true }
{
    match lead {
        Lead::Call { from } => find_carried(flow, search, from),
        Lead::Edge { .. } => {}
    }
}

/// Finds the points of the edges that lead to a point that is found, but for those to which it is the one right behind.
fn find_along_listed(flow: &Flow, backward: &Backward, search: &mut Search, x: u32)
    requires shape { HasShape flow.now }
    requires backward { IsBackward flow.now backward.now }
    requires listed { AreListed flow.now search.old }
    requires sound { AreSound flow.now search.old.found.items search.old.known.items }
    requires found { is_set search.old.found.items x ≡ true }
    requires point { x < points_of flow.now }
    ensures more { FindsMore flow.now search.old search.new }
    ensures along { (q i : ℕ) → Contains backward.now.leads.items (Edge q i) → (edge_at flow.now i).to ≡ x → carries_back flow.now search.old.known.items q (edge_at flow.now i).kind ≡ true → is_set search.new.found.items q ≡ true }
{
    let mut next = backward.chains.last(x);
    'leads: while let Some(k) = next {
        find_edge(flow, search, backward.leads[k as usize]);
        next = backward.chains.before(k);
    }
}

/// Finds the point right before a point that is found, if a return is carried to it.
fn find_before(flow: &Flow, search: &mut Search, x: u32)
    requires shape { HasShape flow.now }
    requires listed { AreListed flow.now search.old }
    requires sound { AreSound flow.now search.old.found.items search.old.known.items }
    requires point { x < points_of flow.now }
    ensures more { FindsMore flow.now search.old search.new }
    ensures before { (q i : ℕ) → q + 1 ≡ x → IsCarriedBy flow.now search.old.found.items search.old.known.items q i → is_set search.new.found.items q ≡ true }
{
    if x > 0 {
        find_carried(flow, search, x - 1);
    }
}

/// Finds the points of the edges that lead to a point that is found.
fn find_along(flow: &Flow, backward: &Backward, search: &mut Search, x: u32)
    requires shape { HasShape flow.now }
    requires backward { IsBackward flow.now backward.now }
    requires listed { AreListed flow.now search.old }
    requires sound { AreSound flow.now search.old.found.items search.old.known.items }
    requires found { is_set search.old.found.items x ≡ true }
    requires point { x < points_of flow.now }
    ensures listed { AreListed flow.now search.new }
    ensures extends { Extends search.old search.new }
    ensures known { search.new.known.items ≡ search.old.known.items }
    ensures sound { AreSound flow.now search.new.found.items search.new.known.items }
    ensures along { FindsAlong flow.now search.new.found.items search.old.known.items x }
{
    find_before(flow, search, x);
    find_along_listed(flow, backward, search, x);
}

/// Finds the calls of what is known to return.
fn find_calls(flow: &Flow, backward: &Backward, search: &mut Search, entry: u32)
    requires shape { HasShape flow.now }
    requires backward { IsBackward flow.now backward.now }
    requires listed { AreListed flow.now search.old }
    requires sound { AreSound flow.now search.old.found.items search.old.known.items }
    requires entry { entry < points_of flow.now }
    ensures listed { AreListed flow.now search.new }
    ensures extends { Extends search.old search.new }
    ensures known { search.new.known.items ≡ search.old.known.items }
    ensures sound { AreSound flow.now search.new.found.items search.new.known.items }
    ensures calls { (q i : ℕ) → exit_at flow.now q ≡ Calls entry → IsEdgeOf flow.now q i → is_set search.old.found.items (edge_at flow.now i).to ≡ true → carries_back flow.now search.old.known.items q (edge_at flow.now i).kind ≡ true → is_set search.new.found.items q ≡ true }
{
    let mut next = backward.chains.last(entry);
    'leads: while let Some(k) = next {
        find_call(flow, search, backward.leads[k as usize]);
        next = backward.chains.before(k);
    }
}

/// Passes a return on from a point that was taken.
fn pass_on(flow: &Flow, backward: &Backward, search: &mut Search, x: u32)
    requires shape { HasShape flow.now }
    requires backward { IsBackward flow.now backward.now }
    requires taken { IsTaken flow.now search.old x }
    ensures search { IsSearch flow.now search.new }
    ensures extends { Extends search.old search.new }
{
    find_along(flow, backward, search, x);
    let callee = flow.callee(x);
    if !search.known[callee as usize] {
        search.known[callee as usize] = true;
        find_calls(flow, backward, search, callee);
    }
}

/// Whether nothing leads to a point but the point right before it, which steps on to it, and no call names it: control comes to
/// it at no entry, and it is open.
fn is_stepped_to(entered: &[StoredEntry], heads: &[u32], x: usize) -> bool
    requires entered { x < length entered.now }
    requires heads { x < length heads.now }
    ensures entered { IsTrue result → slice_index_or entered.now x None ≡ None }
    ensures opened { IsTrue result → IsOpen heads.now x }
{
    !entered[x].is_some() && is_open(heads, x)
}

/// Goes back from a point that was taken, as long as nothing leads there but a step from the point before, which isn't found
/// yet, and finds the points. The last of them is taken in its place: most points are found so, and never wait.
// What is only read is read once, and the loop keeps it in registers.
#[inline(never)]
fn run_back(flow: &Flow, backward: &Backward, search: &mut Search, x: u32) -> u32
    requires shape { HasShape flow.now }
    requires backward { IsBackward flow.now backward.now }
    requires taken { IsTaken flow.now search.old x }
    ensures taken { IsTaken flow.now search.new result }
    ensures on { RunsOn search.old search.new }
{
    let entered: &[StoredEntry] = &flow.entered;
    let heads = backward.chains.heads();
    let mut at = x as usize;
    'run: while at > 0 && !search.found[at - 1] && is_stepped_to(entered, heads, at) {
        at -= 1;
        search.mark(at);
    }
    at as u32
}

/// Finds the points from which a return may come. Each point is passed on once, and each edge is looked at a few times.
///
/// The points from which a return comes are found first. All that a point leads to is passed on before the next of them is
/// taken, so that the search stays in one function for long.
// Apart, so that its loop shares registers with nothing else.
#[inline(never)]
pub(crate) fn spread(alloc: Global, flow: &Flow) -> Result<Search, NoMemory>
    requires { HasShape flow.now }
    ensures listed { IfOk result (AreListed flow.now) }
    ensures sound { IfOk result (λ search. AreSound flow.now search.found.items search.known.items) }
    ensures closed { IfOk result (λ search. AreClosed flow.now search.found.items search.known.items) }
{
    let mut search = Search::new(alloc, flow)?;
    let backward = Backward::new(alloc, flow, &mut search)?;
    'waiting: while let Some(x) = search.take(flow) {
        let last = run_back(flow, &backward, &mut search, x);
        pass_on(flow, &backward, &mut search, last);
    }
    Ok(search)
}
