//! Rule 41: calls, and jumps to other functions, with user access on.

ghost use Rattle.std.specs.Prelude.{◌≡◌, ◌<◌, ℕ, OnOk, length};
ghost use Rattle.machine_defs.specs.Program.{IsPoint, Program};
ghost use Rattle.machine_defs.specs.Allowances.{Allowances};
ghost use Rattle.machine_defs.specs.AccessRules.{function_number as function_number_of};
ghost use Rattle.program_check.specs.Allows.{Allows};
ghost use Rattle.stack_rules.specs.Gains.{Gains};
ghost use Rattle.program_check.specs.Tracks.{Tracks};
ghost use Rattle.program_check.specs.PointWarns.{CallWarns, EdgeCalls, EdgesCall, NameIsCalled, PointIsCalled, RoleCalls, callee_warning as callee_warning_of};

use crate::AllowanceTable;
use crate::access_listing::push;
use crate::safety::is_safe;
use machine_defs::{Edge, EdgeKind, Role};
use ot_base::{NoMemory, Place, Warning};
use program_graph::Graph;

/// The number that tells an indirect target, or code of no function.
const NO_FUNCTION: i64 = -1;

/// The number that tells a function, or that there is none.
fn function_number(function: Option<u32>) -> i64
    ensures { result ≡ function_number_of function }
{
    match function {
        Some(function) => i64::from(function),
        None => NO_FUNCTION,
    }
}

/// A warning that tells a callee.
fn callee_warning(place: Place, callee: i64) -> Warning
    ensures { result ≡ callee_warning_of place callee }
{
    Warning::call_with_access(place, callee)
}

/// Rule 41 where a point is called.
fn push_point(
    graph: &Graph,
    table: &AllowanceTable,
    into: &mut Vec<Warning>,
    place: Place,
    n: u32,
) -> Result<(), NoMemory>
    ensures { OnOk result ((p : Program) (allowed : Allowances) → Tracks p allowed graph.now.parts table.now → IsPoint p n → Gains into.old.items into.new.items (PointIsCalled p allowed place n)) }
{
    if n >= graph.points() || is_safe(graph, table, n) {
        return Ok(());
    }
    let callee = function_number(graph.function(n));
    push(into, callee_warning(place, callee))
}

/// Rule 41 where a symbol is called.
fn push_name(
    table: &AllowanceTable,
    into: &mut Vec<Warning>,
    place: Place,
    sym: u32,
) -> Result<(), NoMemory>
    ensures { OnOk result ((allowed : Allowances) (points : ℕ) → Allows allowed table.now points → Gains into.old.items into.new.items (NameIsCalled allowed place sym)) }
{
    if table.is_safe_name(sym) {
        return Ok(());
    }
    push(into, callee_warning(place, i64::from(sym)))
}

/// Rule 41 where a point has a role, by which it calls, or jumps to another function.
fn push_role(
    graph: &Graph,
    table: &AllowanceTable,
    into: &mut Vec<Warning>,
    place: Place,
    role: Role,
) -> Result<(), NoMemory>
    ensures { OnOk result ((p : Program) (allowed : Allowances) (q : ℕ) → Tracks p allowed graph.now.parts table.now → IsPoint p q → p.role q ≡ role → Gains into.old.items into.new.items (RoleCalls p allowed place role)) }
{
    match role {
        Role::CallIn { entry } => push_point(graph, table, into, place, entry),
        Role::CallEither { entry, sym } => {
            push_point(graph, table, into, place, entry)?;
            push_name(table, into, place, sym)
        }
        Role::CallOut { sym } | Role::JumpOut { sym } => push_name(table, into, place, sym),
        Role::CallAny | Role::JumpAny => push(into, callee_warning(place, NO_FUNCTION)),
        Role::Plain | Role::Return | Role::Switch => Ok(()),
    }
}

/// Rule 41 at an edge.
fn push_edge(
    graph: &Graph,
    table: &AllowanceTable,
    into: &mut Vec<Warning>,
    place: Place,
    edge: Edge,
) -> Result<(), NoMemory>
    requires { edge.to < length graph.now.parts.points.items }
    ensures { OnOk result ((p : Program) (allowed : Allowances) → Tracks p allowed graph.now.parts table.now → Gains into.old.items into.new.items (EdgeCalls p allowed place edge)) }
{
    match edge.kind {
        EdgeKind::Sibling => push_point(graph, table, into, place, edge.to),
        EdgeKind::Next | EdgeKind::Taken | EdgeKind::Fixup | EdgeKind::Table => Ok(()),
    }
}

/// Rule 41 at the edges of a point.
fn push_edges(
    graph: &Graph,
    table: &AllowanceTable,
    into: &mut Vec<Warning>,
    n: u32,
) -> Result<(), NoMemory>
    requires { n < length graph.now.parts.points.items }
    ensures { OnOk result ((p : Program) (allowed : Allowances) → Tracks p allowed graph.now.parts table.now → Gains into.old.items into.new.items (EdgesCall p allowed n)) }
{
    let place = graph.place(n);
    for edge in graph.successors(n) {
        push_edge(graph, table, into, place, *edge)?;
    }
    Ok(())
}

/// Rule 41 at a point to which control comes with user access on.
pub(crate) fn push_calls(
    graph: &Graph,
    table: &AllowanceTable,
    into: &mut Vec<Warning>,
    n: u32,
) -> Result<(), NoMemory>
    requires { n < length graph.now.parts.points.items }
    ensures { OnOk result ((p : Program) (allowed : Allowances) → Tracks p allowed graph.now.parts table.now → Gains into.old.items into.new.items (CallWarns p allowed n)) }
{
    push_role(graph, table, into, graph.place(n), graph.role(n))?;
    push_edges(graph, table, into, n)
}
