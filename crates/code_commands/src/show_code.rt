//! The code of an object that is shown: its control-flow graph, and the states that are kept at its points.

ghost use Rattle.std.specs.Prelude.{◌≡◌, ◌≤◌, ℕ, List, Some, IfErr, IfOk, MatchOption, OnOk, false, length, option_map, true};
ghost use Rattle.elf_objects.specs.Object.{IsObject};
ghost use Rattle.elf_objects.specs.declared.TheConstants.{MAX_FILE_BYTES};
ghost use Rattle.flow_defs.specs.Coded.{coded_by};
ghost use Rattle.flow_defs.specs.Program.{program_of};
ghost use Rattle.machine_defs.specs.Program.{Program};
ghost use Rattle.machine_defs.specs.IsProgram.{HintsStandAtPoints, IsProgram};
ghost use Rattle.machine_defs.specs.Kept.{AreKeptStates};
ghost use Rattle.kept_states.specs.LevelStates.{at};
ghost use Rattle.object_points.specs.Linked.{IsLinked};
ghost use Rattle.program_graph.specs.Tells.{Tells};
ghost use Rattle.code_listing.specs.Listing.{HasNoFunction};
ghost use Rattle.command_base.specs.Code.{IsInOrder};
ghost use Rattle.code_commands.specs.Entry.{IsUncheckable};
ghost use Rattle.code_commands.specs.Show.{HasCode, HasFunction, IsShownCode};

use crate::entry_finding::{graph_of, link};
use code_listing::is_listed;
use command_base::CommandStop;
use control_flow::object_is_in_order;
use elf_objects::Object;
use kept_states::{Kept, Scratch, spread};
use object_law::entry_laws::program_has_functions;
use object_law::flow_laws::{program_is_laid_out, program_is_one};
use object_points::Linked;
use ot_base::{Lists, NoMemory};
use program_graph::Graph;
use std::alloc::Global;
use x86_map::Map;

/// What is shown of an object's code.
#[derive(Drop)]
pub(crate) struct ShownCode {
    /// The control-flow graph of its program.
    pub(crate) graph: Graph,
    /// The states that are kept at the points.
    pub(crate) kept: Kept,
}

/// The states that are kept at the points of a graph.
fn states_of(alloc: Global, graph: &Graph) -> Result<Kept, NoMemory>
    ensures points { IfOk result (λ kept. length kept ≡ length graph.now.parts.points.items) }
    ensures kept { (p : Program) → Tells p graph.now.parts → IsProgram p → HintsStandAtPoints p → IfOk result (λ kept. AreKeptStates p (at kept)) }
{
    let scratch = Scratch::reserve(alloc, graph.points())?;
    Ok(spread(graph, scratch))
}

/// What is shown of the code of an object that is read, under lists of function names; or why a command stops that can't check it.
fn code_of_linked<'a>(
    alloc: Global,
    linked: &Linked<'_, '_>,
    lists: &Lists,
) -> Result<ShownCode, CommandStop<'a>>
    requires { IsLinked linked.now lists.now }
    ensures shown { IfOk result (IsShownCode (program_of linked.now lists.now)) }
    ensures right { OnOk result (IsInOrder linked.now lists.now) }
    ensures stopped { (bytes : List ℕ) → IsObject bytes linked.now.elf → IfErr result (IsUncheckable linked.now.map bytes lists.now) }
{
    program_is_one();
    program_is_laid_out();
    program_has_functions();
    object_is_in_order(linked);
    let graph = graph_of(alloc, linked, lists)?;
    match states_of(alloc, &graph) {
        Ok(kept) => Ok(ShownCode { graph, kept }),
        Err(NoMemory) => Err(CommandStop::NoMemory),
    }
}

/// What is shown of the code of an object, read by an opcode map, under lists of function names; or why a command stops that can't
/// read it.
pub(crate) fn code_of<'a>(
    alloc: Global,
    map: Map,
    object: &Object<'a>,
    lists: &Lists,
) -> Result<ShownCode, CommandStop<'a>>
    requires { length object.now.bytes ≤ MAX_FILE_BYTES }
    ensures shown { IfOk result (IsShownCode (program_of (coded_by map object.now) lists.now)) }
    ensures right { OnOk result (IsInOrder (coded_by map object.now) lists.now) }
    ensures stopped { (bytes : List ℕ) → IsObject bytes object.now → IfErr result (IsUncheckable map bytes lists.now) }
{
    let linked = link(alloc, map, object, lists)?;
    code_of_linked(alloc, &linked, lists)
}

/// Whether a point is of a function of this name.
fn has_function(object: &Object<'_>, graph: &Graph, name: &str) -> bool
    ensures found { result ≡ true → (p : Program) → Tells p graph.now.parts → HasFunction object.now p name.now }
    ensures missing { result ≡ false → (p : Program) → Tells p graph.now.parts → HasNoFunction object.now p name.now }
{
    for n in 0..graph.points() {
        if is_listed(object, Some(name), graph.function(n)) {
            return true;
        }
    }
    false
}

/// The name of the function that is asked for, where no point is of a function of this name.
pub(crate) fn missing_function<'a>(
    object: &Object<'_>,
    graph: &Graph,
    function: Option<&'a str>,
) -> Option<&'a str>
    ensures { (p : Program) → Tells p graph.now.parts → MatchOption result
        (HasCode object.now p (option_map (λ name. name.now) function.entry))
        (λ name. (option_map (λ told. told.now) function.entry ≡ Some name.now) × HasNoFunction object.now p name.now) }
{
    match function {
        Some(name) if !has_function(object, graph, name) => Some(name),
        _ => None,
    }
}
