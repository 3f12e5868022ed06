//! The rows of a program.

ghost use Rattle.std.specs.Prelude.{◌≡◌, IfOk, length};
ghost use Rattle.machine_defs.specs.Program.{Program};
ghost use Rattle.machine_defs.specs.Rows.{rows_of};
ghost use Rattle.kept_states.specs.LevelStates.{at};
ghost use Rattle.stack_rules.specs.Points.{AreSitePointsOf};
ghost use Rattle.program_check.specs.Checked.{IsCheckedBy};
ghost use Rattle.program_check.specs.Fit.{Fit};

use crate::changes::list_changes;
use crate::ends::with_ends;
use crate::in_sites::first_points;
use kept_states::Kept;
use ot_base::{NoMemory, PlacedRow};
use program_graph::Graph;
use stack_rules::SiteIndex;
use std::alloc::Global;

/// The rows of a program in which no rule is broken, from its kept states: section by section in ascending order, and in
/// each by offset, without those that are equal to the one before. A section that has a row ends with one that says that
/// nothing is known behind it.
///
/// The kept points that run in sites are listed already, and the offsets of each kept state's row have to fit the format. Each
/// point is looked at once, with a look-up among the sites.
///
/// # Errors
///
/// [`NoMemory`] may come at any graph.
pub(crate) fn rows(
    alloc: Global,
    graph: &Graph,
    kept: &Kept,
    points: &[u32],
) -> Result<Vec<PlacedRow>, NoMemory>
    requires points { length kept.now ≡ length graph.now.parts.points.items }
    requires listed { ∥ AreSitePointsOf graph.now.parts kept.now points.now ∥₁ }
    requires fit { Fit (at kept.now) }
    ensures { IfOk result (λ rows. (p : Program) → IsCheckedBy p graph.now.parts (at kept.now) → rows.items ≡ rows_of p (at kept.now)) }
{
    let sites = SiteIndex::build(alloc, graph)?;
    let in_sites = first_points(alloc, graph, points)?;
    let changes = list_changes(alloc, graph, kept, &sites, &in_sites)?;
    with_ends(alloc, graph.texts(), changes)
}
