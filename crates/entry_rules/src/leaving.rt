//! Rule 51: calls and jumps out of code that isn't instrumented.

ghost use Rattle.std.specs.Prelude.{◌≡◌, ◌<◌, ℕ, Bool, List, OnOk, length};
ghost use Rattle.machine_defs.specs.Program.{IsPoint, Program};
ghost use Rattle.stack_rules.specs.Gains.{Gains};
ghost use Rattle.entry_rules.specs.EntryWarns.{callee_number, is_noinstr as is_noinstr_point};
ghost use Rattle.entry_rules.specs.Facts.{EntryFacts};
ghost use Rattle.entry_rules.specs.PointWarns.{EdgeLeaves, EdgesLeave, LeavingWarns, PointIsLeftFor, PointLeaves, RoleLeaves};
ghost use Rattle.entry_rules.specs.Table.{Knows};

use crate::listing::push_callee;
use machine_defs::{Edge, EdgeKind, Role};
use ot_base::{NoMemory, Place, Warning};
use program_graph::Graph;

/// The number that tells an indirect target, and the function of code that has none.
const NO_FUNCTION: i64 = -1;

/// Whether a point runs in code that isn't instrumented, by the flags of sections.
fn is_noinstr(graph: &Graph, flags: &[bool], n: u32) -> bool
    requires { n < length graph.now.parts.points.items }
    ensures { (p : Program) (facts : EntryFacts) → Knows p facts graph.now.parts flags.now → result ≡ is_noinstr_point p facts n }
{
    let sec = graph.address(n).sec as usize;
    sec < flags.len() && flags[sec]
}

/// How a warning tells the function of a point.
fn callee_of(graph: &Graph, n: u32) -> i64
    requires { n < length graph.now.parts.points.items }
    ensures { (p : Program) (facts : EntryFacts) (flags : List Bool) → Knows p facts graph.now.parts flags → result ≡ callee_number (p.function n) }
{
    match graph.function(n) {
        Some(function) => i64::from(function),
        None => NO_FUNCTION,
    }
}

/// Rule 51 where control goes to a point from code that isn't instrumented.
fn push_point(
    graph: &Graph,
    flags: &[bool],
    into: &mut Vec<Warning>,
    place: Place,
    n: u32,
) -> Result<(), NoMemory>
    ensures { OnOk result ((p : Program) (facts : EntryFacts) → Knows p facts graph.now.parts flags.now → IsPoint p n → Gains into.old.items into.new.items (PointIsLeftFor p facts place n)) }
{
    if n >= graph.points() || is_noinstr(graph, flags, n) {
        return Ok(());
    }
    push_callee(into, place, callee_of(graph, n))
}

/// Rule 51 where a point of such code has a role, by which it calls, or jumps to another function.
fn push_role(
    graph: &Graph,
    flags: &[bool],
    into: &mut Vec<Warning>,
    place: Place,
    role: Role,
) -> Result<(), NoMemory>
    ensures { OnOk result ((p : Program) (facts : EntryFacts) (q : ℕ) → Knows p facts graph.now.parts flags.now → IsPoint p q → p.role q ≡ role → Gains into.old.items into.new.items (RoleLeaves p facts place role)) }
{
    match role {
        Role::CallIn { entry } => push_point(graph, flags, into, place, entry),
        Role::CallEither { entry, sym } => {
            push_point(graph, flags, into, place, entry)?;
            push_callee(into, place, i64::from(sym))
        }
        Role::CallOut { sym } | Role::JumpOut { sym } => {
            push_callee(into, place, i64::from(sym))
        }
        Role::CallAny | Role::JumpAny => push_callee(into, place, NO_FUNCTION),
        Role::Plain | Role::Return | Role::Switch => Ok(()),
    }
}

/// Rule 51 at an edge of a point of such code.
fn push_edge(
    graph: &Graph,
    flags: &[bool],
    into: &mut Vec<Warning>,
    place: Place,
    edge: Edge,
) -> Result<(), NoMemory>
    requires { edge.to < length graph.now.parts.points.items }
    ensures { OnOk result ((p : Program) (facts : EntryFacts) → Knows p facts graph.now.parts flags.now → Gains into.old.items into.new.items (EdgeLeaves p facts place edge)) }
{
    match edge.kind {
        EdgeKind::Sibling => push_point(graph, flags, into, place, edge.to),
        EdgeKind::Next | EdgeKind::Taken | EdgeKind::Fixup | EdgeKind::Table => Ok(()),
    }
}

/// Rule 51 at the edges of a point of such code.
fn push_edges(
    graph: &Graph,
    flags: &[bool],
    into: &mut Vec<Warning>,
    n: u32,
) -> Result<(), NoMemory>
    requires { n < length graph.now.parts.points.items }
    ensures { OnOk result ((p : Program) (facts : EntryFacts) → Knows p facts graph.now.parts flags.now → Gains into.old.items into.new.items (EdgesLeave p facts n)) }
{
    let place = graph.place(n);
    for edge in graph.successors(n) {
        push_edge(graph, flags, into, place, *edge)?;
    }
    Ok(())
}

/// Rule 51 at a point.
fn push_leaving_point(
    graph: &Graph,
    flags: &[bool],
    into: &mut Vec<Warning>,
    n: u32,
) -> Result<(), NoMemory>
    requires { n < length graph.now.parts.points.items }
    ensures { OnOk result ((p : Program) (facts : EntryFacts) → Knows p facts graph.now.parts flags.now → Gains into.old.items into.new.items (PointLeaves p facts n)) }
{
    if !is_noinstr(graph, flags, n) {
        return Ok(());
    }
    push_role(graph, flags, into, graph.place(n), graph.role(n))?;
    push_edges(graph, flags, into, n)
}

/// Adds a program's warnings of rule 51, where the flags tell of each section whether its code isn't instrumented.
pub(crate) fn push_leaving(
    graph: &Graph,
    flags: &[bool],
    into: &mut Vec<Warning>,
) -> Result<(), NoMemory>
    ensures { OnOk result ((p : Program) (facts : EntryFacts) → Knows p facts graph.now.parts flags.now → Gains into.old.items into.new.items (LeavingWarns p facts)) }
{
    for n in 0..graph.points() {
        push_leaving_point(graph, flags, into, n)?;
    }
    Ok(())
}
