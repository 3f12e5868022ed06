//! The code of an object: its control-flow graph, what is allowed at its points, and how much there is.

ghost use Rattle.std.specs.Prelude.{◌≡◌, ◌≤◌, IfErr, IfOk, length};
ghost use Rattle.ot_base.specs.NameLists.{NameLists};
ghost use Rattle.ot_base.specs.declared.options.Options.{Options as OptionsValue};
ghost use Rattle.flow_defs.specs.Coded.{Coded, coded_by};
ghost use Rattle.flow_defs.specs.Program.{program_of};
ghost use Rattle.program_check.specs.AskedRules.{IsEnough, needs_allowances as need_allowances};
ghost use Rattle.object_check.specs.Allowances.{allowances_of};
ghost use Rattle.elf_objects.specs.declared.TheConstants.{MAX_FILE_BYTES as most_bytes};
ghost use Rattle.machine_defs.specs.Kept.{AreKeptStates};
ghost use Rattle.kept_states.specs.LevelStates.{at};
ghost use Rattle.object_check.specs.Code.{IsCodeFault, IsCodeOf};
ghost use Rattle.object_check.specs.Ready.{IsTableOf};
ghost use Rattle.object_points.specs.Linked.{IsLinked};

use crate::counts::{CodeCounts, count_code};
use crate::fault::CodeFault;
use crate::table_of;
use control_flow::{flow, object_is_in_order};
use elf_objects::Object;
use kept_states::{Kept, Scratch, spread};
use object_law::flow_laws::{program_is_laid_out, program_is_one};
use object_points::{Linked, Map};
use ot_base::{Lists, NoMemory, Options};
use program_check::AllowanceTable;
use program_graph::Graph;
use std::alloc::Global;

/// What is kept of an object's code.
#[derive(Drop)]
pub struct ReadCode {
    /// The control-flow graph.
    pub(crate) graph: Graph,
    /// What is allowed at its points and symbols, where the options ask for rules that look at it.
    pub(crate) table: Option<AllowanceTable>,
    /// How much code there is.
    pub(crate) counts: CodeCounts,
}

impl ReadCode {
    /// The control-flow graph of the object's program.
    pub fn graph(&self) -> &Graph
        ensures { result.now.parts ≡ self.now.graph.parts }
    {
        &self.graph
    }
}

/// Whether the options ask for a rule that looks at what is allowed.
fn needs_allowances(options: Options) -> bool
    ensures { result ≡ need_allowances options }
{
    options.retpoline || options.rethunk || options.uaccess
}

/// What is allowed at the points and symbols of an object whose code is read, where it is needed.
fn table_if_needed(
    alloc: Global,
    linked: &Linked<'_, '_>,
    lists: &Lists,
    options: Options,
) -> Result<Option<AllowanceTable>, NoMemory>
    ensures enough { IfOk result (IsEnough options) }
    ensures allows { IfOk result (IsTableOf (program_of linked.now lists.now) (allowances_of linked.now lists.now options)) }
{
    if needs_allowances(options) {
        Ok(Some(table_of(alloc, linked, lists, options)?))
    } else {
        Ok(None)
    }
}

/// What is kept of the code of an object that is read.
fn code_of(
    alloc: Global,
    linked: &Linked<'_, '_>,
    lists: &Lists,
    options: Options,
) -> Result<ReadCode, CodeFault>
    requires short { length linked.now.elf.bytes ≤ most_bytes }
    requires linked { IsLinked linked.now lists.now }
    ensures ok { IfOk result (IsCodeOf linked.now lists.now options) }
    ensures err { IfErr result (IsCodeFault linked.now lists.now) }
{
    object_is_in_order(linked);
    let graph = flow(alloc, linked, lists)?;
    let table = table_if_needed(alloc, linked, lists, options)?;
    let counts = count_code(linked);
    Ok(ReadCode {
        graph,
        table,
        counts,
    })
}

/// Reads the code of an object of at most 67,108,864 bytes (64 MiB) by an opcode map and follows its control flow, under lists of
/// function names. Of what it reads it keeps the graph, the counts, and what the rules that the options ask for look at.
///
/// # Errors
///
/// The first fault of texts, special sections, functions and alternatives; then the first of the starts of functions, lists
/// of places, static branches, calls within functions and unchecked functions. [`CodeFault::NoMemory`] may come at any object.
pub fn read_code(
    alloc: Global,
    map: Map,
    object: &Object<'_>,
    lists: &Lists,
    options: Options,
) -> Result<ReadCode, CodeFault>
    requires { length object.now.bytes ≤ most_bytes }
    ensures ok { IfOk result (IsCodeOf (coded_by map object.now) lists.now options) }
    ensures err { IfErr result (IsCodeFault (coded_by map object.now) lists.now) }
{
    let linked = Linked::link(alloc, map, object, lists)?;
    code_of(alloc, &linked, lists, options)
}

/// The states that a checker keeps for the points of an object's program.
///
/// # Errors
///
/// [`NoMemory`] may come at any object.
pub fn states_of(alloc: Global, code: &ReadCode) -> Result<Kept, NoMemory>
    ensures points { IfOk result (λ kept. length kept ≡ length code.now.graph.parts.points.items) }
    ensures kept { (o : Coded) (lists : NameLists) (options : OptionsValue) → IsCodeOf o lists options code.now → IfOk result (λ kept. AreKeptStates (program_of o lists) (at kept)) }
{
    program_is_one();
    program_is_laid_out();
    let scratch = Scratch::reserve(alloc, code.graph.points())?;
    Ok(spread(&code.graph, scratch))
}
