//! The rules 42 and 43: ways out of a function.

ghost use Rattle.std.specs.Prelude.{◌≡◌, ◌<◌, ◌↔◌, true, IsTrue, OnOk, length};
ghost use Rattle.std.specs.List.{list_any};
ghost use Rattle.machine_defs.specs.Program.{Program};
ghost use Rattle.machine_defs.specs.AccessRules.{Leaves};
ghost use Rattle.program_graph.specs.Tells.{Tells};
ghost use Rattle.stack_rules.specs.Gains.{Gains};
ghost use Rattle.program_check.specs.declared.access_ways.Ways.{Ways as WaysValue};
ghost use Rattle.program_check.specs.Exits.{is_sibling as is_sibling_kind, is_way_out as is_way_out_role};
ghost use Rattle.program_check.specs.PointWarns.{ExitWarns};

use crate::access_listing::push_if;
use crate::access_ways::Ways;
use machine_defs::{Edge, EdgeKind, Role};
use ot_base::rules::{RETURN_WITH_ACCESS, RETURN_WITHOUT_ACCESS};
use ot_base::{NoMemory, Warning};
use program_graph::Graph;

/// Whether a point of this role leaves its function.
fn is_way_out(role: Role) -> bool
    ensures { result ≡ is_way_out_role role }
{
    matches!(role, Role::Return | Role::JumpOut { .. } | Role::JumpAny)
}

/// Whether one of these edges leads to another function.
fn has_sibling(edges: &[Edge]) -> bool
    ensures { result ≡ list_any (λ e. is_sibling_kind e.kind) edges.now }
{
    edges
        .iter()
        .any(|edge| matches!(edge.kind, EdgeKind::Sibling))
}

/// Whether a point leaves its function.
fn leaves_function(graph: &Graph, n: u32) -> bool
    requires { n < length graph.now.parts.points.items }
    ensures { (p : Program) → Tells p graph.now.parts → IsTrue result ↔ Leaves p n }
{
    is_way_out(graph.role(n)) || has_sibling(graph.successors(n))
}

/// Whether control leaves a function that isn't safe with user access on.
fn is_left_on(graph: &Graph, ways: Ways, n: u32) -> bool
    requires { n < length graph.now.parts.points.items }
    ensures { (p : Program) → Tells p graph.now.parts → IsTrue result ↔ (ways.other_on ≡ true × Leaves p n) }
{
    ways.other_on && leaves_function(graph, n)
}

/// Whether control leaves a safe function with user access off.
fn is_left_off(graph: &Graph, ways: Ways, n: u32) -> bool
    requires { n < length graph.now.parts.points.items }
    ensures { (p : Program) → Tells p graph.now.parts → IsTrue result ↔ (ways.safe_off ≡ true × Leaves p n) }
{
    ways.safe_off && leaves_function(graph, n)
}

/// The rules 42 and 43 at a point.
pub(crate) fn push_exits(
    graph: &Graph,
    into: &mut Vec<Warning>,
    ways: Ways,
    n: u32,
) -> Result<(), NoMemory>
    requires { n < length graph.now.parts.points.items }
    ensures { OnOk result ((p : Program) → Tells p graph.now.parts → Gains into.old.items into.new.items (ExitWarns p ways n)) }
{
    let place = graph.place(n);
    push_if(into, is_left_on(graph, ways, n), place, RETURN_WITH_ACCESS)?;
    push_if(
        into,
        is_left_off(graph, ways, n),
        place,
        RETURN_WITHOUT_ACCESS,
    )
}
