//! Holes, and the parts of functions to which their jumps lead.

ghost use Rattle.std.specs.Prelude.{◌≡◌, ◌<◌, ◌↔◌, ◌⊎◌, All, Contains, IfOk, IsTrue, OnOk, Option, ℕ, length};
ghost use Rattle.machine_defs.specs.declared.flow.Edge.{Edge as EdgeValue};
ghost use Rattle.machine_defs.specs.Program.{Program};
ghost use Rattle.machine_defs.specs.Broken.{is_hole as is_hole_at};
ghost use Rattle.program_graph.specs.Tells.{Tells};
ghost use Rattle.stack_rules.specs.Holes.{AreHoleParts, EntersPart, IsAmong, LeadsFrom};

use machine_defs::{Edge, EdgeKind};
use ot_base::{NoMemory, Options};
use program_graph::Graph;
use std::alloc::Global;
use std::collections::BTreeSet;

/// Some parts of functions.
#[derive(Drop)]
pub(crate) struct HoleParts {
    /// The functions that they are, by the numbers of their symbols.
    pub(crate) functions: BTreeSet<u32>,
    /// Whether one is no function. No object has such a part.
    pub(crate) has_nameless: bool,
}

impl HoleParts {
    /// No part.
    fn none(alloc: Global) -> HoleParts
        ensures { (part : Option ℕ) → IsAmong result part → ⊥ }
    {
        HoleParts {
            functions: BTreeSet::new(alloc),
            has_nameless: false,
        }
    }

    /// Whether a part is among these.
    pub(crate) fn has(&self, part: Option<u32>) -> bool
        ensures { IsTrue result ↔ IsAmong self.now part }
    {
        match part {
            Some(function) => self.functions.contains(&function),
            None => self.has_nameless,
        }
    }

    /// Adds a part.
    fn insert(&mut self, part: Option<u32>) -> Result<(), NoMemory>
        ensures { OnOk result ((other : Option ℕ) → IsAmong self.new other ↔ (IsAmong self.old other ⊎ (other ≡ part))) }
    {
        match part {
            Some(function) => {
                self.functions.insert(function)?;
            }
            None => self.has_nameless = true,
        }
        Ok(())
    }
}

/// Whether a point is code that no symbol covers, in an object that is linked.
pub(crate) fn is_hole(graph: &Graph, options: Options, n: u32) -> bool
    requires { n < length graph.now.parts.points.items }
    ensures { (p : Program) → Tells p graph.now.parts → result ≡ is_hole_at p options n }
{
    graph.uncovered(n) && (graph.is_linked() || options.link)
}

/// Whether an edge is a jump to a part of a function.
fn enters_part(graph: &Graph, edge: Edge) -> bool
    requires { edge.to < length graph.now.parts.points.items }
    ensures { (p : Program) → Tells p graph.now.parts → IsTrue result ↔ EntersPart p edge (p.function edge.to) }
{
    matches!(edge.kind, EdgeKind::Taken) && graph.owner(edge.to) != graph.function(edge.to)
}

/// Adds the part to which an edge of a hole leads, if it leads to one.
fn note_edge(graph: &Graph, parts: &mut HoleParts, edge: Edge) -> Result<(), NoMemory>
    requires { edge.to < length graph.now.parts.points.items }
    ensures { OnOk result ((p : Program) (part : Option ℕ) → Tells p graph.now.parts → IsAmong parts.new part ↔ (IsAmong parts.old part ⊎ EntersPart p edge part)) }
{
    if enters_part(graph, edge) {
        parts.insert(graph.function(edge.to))?;
    }
    Ok(())
}

/// Adds the parts to which these edges of a hole lead.
fn note_edges(graph: &Graph, parts: &mut HoleParts, edges: &[Edge]) -> Result<(), NoMemory>
    requires { All (λ e. e.to < length graph.now.parts.points.items) edges.now }
    ensures { OnOk result ((p : Program) (part : Option ℕ) → Tells p graph.now.parts → IsAmong parts.new part ↔ (IsAmong parts.old part ⊎ ((e : EdgeValue) × Contains edges.now e × EntersPart p e part))) }
{
    for edge in edges {
        note_edge(graph, parts, *edge)?;
    }
    Ok(())
}

/// Adds the parts to which a point leads, if it is a hole of the object's code.
fn note_point(
    graph: &Graph,
    options: Options,
    parts: &mut HoleParts,
    n: u32,
) -> Result<(), NoMemory>
    requires { n < length graph.now.parts.points.items }
    ensures { OnOk result ((p : Program) (part : Option ℕ) → Tells p graph.now.parts → IsAmong parts.new part ↔ (IsAmong parts.old part ⊎ LeadsFrom p options n part)) }
{
    if !is_hole(graph, options, n) {
        return Ok(());
    }
    if graph.variant(n) != 0 {
        return Ok(());
    }
    note_edges(graph, parts, graph.successors(n))
}

/// The parts of functions to which jumps of holes lead.
///
/// Each point is looked at once, and the edges of holes.
pub(crate) fn find_hole_parts(
    alloc: Global,
    graph: &Graph,
    options: Options,
) -> Result<HoleParts, NoMemory>
    ensures { IfOk result (λ parts. (p : Program) → Tells p graph.now.parts → AreHoleParts p options p.count parts) }
{
    let mut parts = HoleParts::none(alloc);
    for n in 0..graph.points() {
        note_point(graph, options, &mut parts, n)?;
    }
    Ok(parts)
}
