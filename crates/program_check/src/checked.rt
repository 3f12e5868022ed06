//! Programs in which no rule is broken.

ghost use Rattle.std.specs.Prelude.{◌≡◌, ◌<◌, IfOk, length};
ghost use Rattle.machine_defs.specs.Program.{Program};
ghost use Rattle.machine_defs.specs.Broken.{IsAccepted};
ghost use Rattle.machine_defs.specs.Rows.{rows_of};
ghost use Rattle.kept_states.specs.LevelStates.{at};
ghost use Rattle.stack_rules.specs.Points.{AreSitePointsOf};
ghost use Rattle.program_check.specs.Checkable.{AreOfSomeAccepted, IsPrepared};

use crate::table::rows;
use kept_states::Kept;
use ot_base::{NoMemory, PlacedRow};
use program_graph::Graph;
use state_defs::State;
use std::alloc::Global;

/// The graph and the kept states of a program in which no rule is broken, and which of its points run in sites.
/// [`check`](crate::check) alone makes one, so whoever has one has a program that was checked.
///
/// Contracts see it as its graph and its states.
#[derive(Drop)]
pub struct Checked {
    graph: Graph,
    kept: Kept,
    site_points: Vec<u32>,
    pub ghost accepted: { AreOfSomeAccepted graph.parts kept },
    ghost listed: { ∥ AreSitePointsOf graph.parts kept site_points.items ∥₁ },
}

impl Checked {
    /// What was checked and accepted, with the kept points that run in sites.
    pub(crate) fn new(graph: Graph, kept: Kept, site_points: Vec<u32>) -> Checked
        requires accepted { AreOfSomeAccepted graph.parts kept }
        requires listed { ∥ AreSitePointsOf graph.parts kept site_points.items ∥₁ }
        ensures graph { result.graph.parts ≡ graph.parts }
        ensures kept { result.kept ≡ kept }
    {
        Checked {
            graph,
            kept,
            site_points,
        }
    }

    /// The graph of the program.
    pub fn graph(&self) -> &Graph
        ensures { result.now.parts ≡ self.now.graph.parts }
    {
        &self.graph
    }

    /// The state that is kept at a point, if one is.
    pub fn state(&self, n: u32) -> Option<State>
        requires { n < length self.now.graph.parts.points.items }
        ensures { result ≡ at self.now.kept n }
    {
        self.kept.state(n)
    }

    /// The rows of the program's ORC table: section by section in ascending order, and in each by offset, without those
    /// that are equal to the one before. A section that has a row ends with one that says that nothing is known behind it.
    ///
    /// # Errors
    ///
    /// [`NoMemory`] may come at any program.
    pub fn rows(&self, alloc: Global) -> Result<Vec<PlacedRow>, NoMemory>
        ensures each { IfOk result (λ rows. (p : Program) → IsPrepared p self.now.graph.parts self.now.kept → IsAccepted p → rows.items ≡ rows_of p (at self.now.kept)) }
        ensures some { IfOk result (λ rows. ∥ ((p : Program) × IsPrepared p self.now.graph.parts self.now.kept × IsAccepted p × (rows.items ≡ rows_of p (at self.now.kept))) ∥₁) }
    {
        rows(alloc, &self.graph, &self.kept, &self.site_points)
    }
}
