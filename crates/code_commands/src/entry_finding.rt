//! What the entry rules find in an object.

ghost use Rattle.std.specs.Prelude.{◌≡◌, ◌≤◌, ℕ, List, [], IfErr, IfOk, OnOk, length};
ghost use Rattle.elf_objects.specs.Object.{IsObject};
ghost use Rattle.elf_objects.specs.declared.TheConstants.{MAX_FILE_BYTES};
ghost use Rattle.flow_defs.specs.Coded.{coded_by};
ghost use Rattle.flow_defs.specs.Program.{program_of};
ghost use Rattle.object_points.specs.Linked.{IsLinked};
ghost use Rattle.program_graph.specs.Tells.{Tells};
ghost use Rattle.command_base.specs.Code.{IsInOrder};
ghost use Rattle.code_commands.specs.Entry.{AreEntryWarnings, IsUncheckable, KeepsEntryRules};

use command_base::{CommandStop, flow_stop, link_stop};
use control_flow::flow;
use elf_objects::Object;
use entry_rules::{EntryOptions, check};
use object_points::Linked;
use ot_base::{Lists, NoMemory, Warning};
use program_graph::Graph;
use std::alloc::Global;
use x86_map::Map;

/// Reads the code of an object by an opcode map, under lists of function names, or tells why a command stops that can't.
pub(crate) fn link<'o, 'a>(
    alloc: Global,
    map: Map,
    object: &'o Object<'a>,
    lists: &Lists,
) -> Result<Linked<'o, 'a>, CommandStop<'a>>
    requires { length object.now.bytes ≤ MAX_FILE_BYTES }
    ensures ok { IfOk result (λ linked. linked ≡ coded_by map object.now) }
    ensures right { OnOk result (IsLinked (coded_by map object.now) lists.now) }
    ensures stopped { (bytes : List ℕ) → IsObject bytes object.now → IfErr result (IsUncheckable map bytes lists.now) }
{
    match Linked::link(alloc, map, object, lists) {
        Ok(linked) => Ok(linked),
        Err(fault) => Err(link_stop(object, fault)),
    }
}

/// The control-flow graph of an object whose code is read, or why a command stops that can't make it.
pub(crate) fn graph_of<'a>(
    alloc: Global,
    linked: &Linked<'_, '_>,
    lists: &Lists,
) -> Result<Graph, CommandStop<'a>>
    requires { IsLinked linked.now lists.now }
    ensures tells { IfOk result (λ graph. Tells (program_of linked.now lists.now) graph.parts) }
    ensures right { OnOk result (IsInOrder linked.now lists.now) }
    ensures stopped { (bytes : List ℕ) → IsObject bytes linked.now.elf → IfErr result (IsUncheckable linked.now.map bytes lists.now) }
{
    match flow(alloc, linked, lists) {
        Ok(graph) => Ok(graph),
        Err(fault) => Err(flow_stop(fault)),
    }
}

/// The warnings of the entry rules that the options ask for, of an object whose code is read, under lists of function names; or why a
/// command stops that can't look for them.
fn warnings_of_linked<'a>(
    alloc: Global,
    linked: &Linked<'_, '_>,
    lists: &Lists,
    options: EntryOptions,
) -> Result<Vec<Warning>, CommandStop<'a>>
    requires { IsLinked linked.now lists.now }
    ensures are { IfOk result (λ warnings. AreEntryWarnings linked.now lists.now options warnings.items) }
    ensures keeps { IfOk result (λ warnings. warnings.items ≡ [] → KeepsEntryRules linked.now lists.now options) }
    ensures right { OnOk result (IsInOrder linked.now lists.now) }
    ensures stopped { (bytes : List ℕ) → IsObject bytes linked.now.elf → IfErr result (IsUncheckable linked.now.map bytes lists.now) }
{
    let graph = graph_of(alloc, linked, lists)?;
    match check(alloc, linked, &graph, options) {
        Ok(warnings) => Ok(warnings),
        Err(NoMemory) => Err(CommandStop::NoMemory),
    }
}

/// The warnings of the entry rules that the options ask for, of an object whose code is read by an opcode map, under
/// lists of function names; or why a command stops that can't look for them.
pub(crate) fn warnings_of<'a>(
    alloc: Global,
    map: Map,
    object: &Object<'a>,
    lists: &Lists,
    options: EntryOptions,
) -> Result<Vec<Warning>, CommandStop<'a>>
    requires { length object.now.bytes ≤ MAX_FILE_BYTES }
    ensures are { IfOk result (λ warnings. AreEntryWarnings (coded_by map object.now) lists.now options warnings.items) }
    ensures keeps { IfOk result (λ warnings. warnings.items ≡ [] → KeepsEntryRules (coded_by map object.now) lists.now options) }
    ensures right { OnOk result (IsInOrder (coded_by map object.now) lists.now) }
    ensures stopped { (bytes : List ℕ) → IsObject bytes object.now → IfErr result (IsUncheckable map bytes lists.now) }
{
    let linked = link(alloc, map, object, lists)?;
    warnings_of_linked(alloc, &linked, lists, options)
}
