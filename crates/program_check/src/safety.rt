//! Which functions are safe.

ghost use Rattle.std.specs.Prelude.{◌≡◌, ◌<◌, length};
ghost use Rattle.machine_defs.specs.Program.{Program};
ghost use Rattle.machine_defs.specs.Allowances.{Allowances, is_safe as is_safe_point};
ghost use Rattle.program_check.specs.Tracks.{Tracks};

use crate::AllowanceTable;
use program_graph::Graph;

/// Whether a point is in a function that may be called with user access on.
pub(crate) fn is_safe(graph: &Graph, table: &AllowanceTable, n: u32) -> bool
    requires { n < length graph.now.parts.points.items }
    ensures { (p : Program) (allowed : Allowances) → Tracks p allowed graph.now.parts table.now → result ≡ is_safe_point p allowed n }
{
    match graph.owner(n) {
        Some(function) => table.is_safe_name(function),
        None => false,
    }
}
