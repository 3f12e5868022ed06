//! Backtraces of warnings are printed.

ghost use Rattle.std.specs.Prelude.{◌≡◌, ◌++◌, ◌<◌, ◌≤◌, All, AllPairs, IfErr, IfOk, IfSome, IsErrOf, None, OnOk, codes, length, option_and_then};
ghost use Rattle.ot_files.specs.Output.{appending};
ghost use Rattle.symbols_relocs.specs.Functions.{first_bad};
ghost use Rattle.machine_defs.specs.Program.{Program};
ghost use Rattle.program_graph.specs.Tells.{Tells};
ghost use Rattle.kept_states.specs.LevelStates.{at};
ghost use Rattle.stack_rules.specs.Before.{ComesBefore};
ghost use Rattle.state_ways.specs.Ways.{along};
ghost use Rattle.command_base.specs.declared.status.Status.TheVariants as status;
ghost use Rattle.command_base.specs.Printing.{FailsToPrint, IsOutputFault, Prints};
ghost use Rattle.command_base.specs.Backtrace.{address_by};
ghost use Rattle.command_base.specs.BacktraceCases.{IsWarnedOf, case_text, cases_text, step_along, told_by, turns_along as turns_along_clash, turns_to as turns_to_point};
ghost use Rattle.command_base.specs.BacktracePrinting.{PrintsBacktraces};
ghost use Rattle.command_base.specs.BacktraceText.{backtrace_text, steps_line};
ghost use Rattle.command_base.specs.BacktraceWithin.{AreStepsWithin, IsCaseWithin};

use crate::backtrace_cases::{Case, find_cases};
use crate::backtrace_holder::holder_of;
use crate::backtrace_text::{push_holder, push_kept, push_see, push_steps};
use crate::{Status, print_part};
use elf_objects::Object;
use kept_states::Kept;
use machine_defs::{Edge, EdgeKind};
use ot_base::{NoMemory, Place, Warning, warning_text};
use ot_files::Sink;
use program_graph::Graph;
use state_defs::State;
use state_ways::{Clash, WayKind, WayStep, Ways, find_ways};
use std::alloc::Global;
use symbols_relocs::{Index, IndexFault};

/// What backtraces are made of.
#[derive(Drop)]
struct Sources<'a, 'o> {
    /// The object.
    object: &'a Object<'o>,
    /// The name of the file that it was read from.
    input: &'a str,
    /// The graph of its program.
    graph: &'a Graph,
    /// The states that are kept.
    kept: &'a Kept,
    /// Its functions.
    index: Index<'a, 'o>,
    /// The ways to points.
    ways: Ways,
}

/// The functions of an object none of whose functions leaves its section.
fn index_of<'a, 'o>(alloc: Global, object: &'a Object<'o>) -> Result<Index<'a, 'o>, NoMemory>
    requires { first_bad object.now ≡ None }
    ensures { IfOk result (λ index. index.elf ≡ object.now) }
{
    match Index::build(alloc, object) {
        Ok(index) => Ok(index),
        Err(IndexFault::NoMemory) => Err(NoMemory),
        Err(IndexFault::Func { .. }) => unreachable!(),
    }
}

/// Where a point runs; the place itself where there is none.
fn address_of(graph: &Graph, place: Place, n: Option<u32>) -> Place
    requires { IfSome n (λ n. n < length graph.now.parts.points.items) }
    ensures { (p : Program) → Tells p graph.now.parts → result ≡ address_by p place n }
{
    match n {
        Some(n) => graph.address(n),
        None => place,
    }
}

/// The state that is kept at a point, if there is one.
fn state_of(kept: &Kept, n: Option<u32>) -> Option<State>
    requires { IfSome n (λ n. n < length kept.now) }
    ensures { result ≡ option_and_then (at kept.now) n }
{
    kept.state(n?)
}

/// Puts into a list the turns of a way to a point, if there is one.
fn turns_to(ways: &Ways, n: Option<u32>, steps: &mut Vec<WayStep>) -> Result<(), NoMemory>
    requires { IfSome n (λ n. n < length ways.now) }
    ensures { OnOk result (steps.new.items ≡ turns_to_point ways.now n) }
{
    steps.clear();
    match n {
        Some(n) => ways.turns_of(n, steps),
        None => Ok(()),
    }
}

/// How control comes along an edge of this kind. To another function no state is brought.
fn way_kind(kind: EdgeKind) -> Option<WayKind>
    ensures { result ≡ along kind }
{
    match kind {
        EdgeKind::Next => Some(WayKind::Next),
        EdgeKind::Taken => Some(WayKind::Taken),
        EdgeKind::Fixup => Some(WayKind::Fixup),
        EdgeKind::Table => Some(WayKind::Table),
        EdgeKind::Sibling => None,
    }
}

/// Adds the step along an edge.
fn push_along(edge: Edge, steps: &mut Vec<WayStep>) -> Result<(), NoMemory>
    ensures { OnOk result (steps.new.items ≡ steps.old.items ++ step_along edge.to (along edge.kind)) }
{
    match way_kind(edge.kind) {
        Some(kind) => {
            steps.push(WayStep {
                point: edge.to,
                kind,
            })?;
            Ok(())
        }
        None => Ok(()),
    }
}

/// Puts into a list the turns of a way to where an edge begins, and the edge, if there is one.
fn turns_along(ways: &Ways, clash: Option<Clash>, steps: &mut Vec<WayStep>) -> Result<(), NoMemory>
    requires { IfSome clash (λ clash. clash.from < length ways.now) }
    ensures { OnOk result (steps.new.items ≡ turns_along_clash ways.now clash) }
{
    steps.clear();
    match clash {
        Some(Clash { from, edge }) => {
            ways.turns_of(from, steps)?;
            push_along(edge, steps)
        }
        None => Ok(()),
    }
}

/// Appends the line of the way to the point of a warning.
fn push_way(
    sources: &Sources<'_, '_>,
    case: &Case,
    steps: &mut Vec<WayStep>,
    into: &mut Vec<u8>,
) -> Result<(), NoMemory>
    requires points { length sources.now.ways ≡ length sources.now.graph.now.parts.points.items }
    requires case { IsCaseWithin (length sources.now.graph.now.parts.points.items) case.now }
    requires steps { AreStepsWithin (length sources.now.graph.now.parts.points.items) sources.now.ways }
    ensures { (p : Program) → Tells p sources.now.graph.now.parts → OnOk result (into.new.items ≡ into.old.items ++ steps_line sources.now.object.now p (codes "way") (turns_to_point sources.now.ways case.now.kept)) }
{
    turns_to(&sources.ways, case.kept, steps)?;
    push_steps(sources.object, sources.graph, "way", steps, into)
}

/// Appends the line of the other way to the point of a warning of rule 4.
fn push_other_way(
    sources: &Sources<'_, '_>,
    case: &Case,
    steps: &mut Vec<WayStep>,
    into: &mut Vec<u8>,
) -> Result<(), NoMemory>
    requires points { length sources.now.ways ≡ length sources.now.graph.now.parts.points.items }
    requires case { IsCaseWithin (length sources.now.graph.now.parts.points.items) case.now }
    requires steps { AreStepsWithin (length sources.now.graph.now.parts.points.items) sources.now.ways }
    ensures { (p : Program) → Tells p sources.now.graph.now.parts → OnOk result (into.new.items ≡ into.old.items ++ steps_line sources.now.object.now p (codes "other way") (turns_along_clash sources.now.ways case.now.clash)) }
{
    turns_along(&sources.ways, case.clash, steps)?;
    push_steps(sources.object, sources.graph, "other way", steps, into)
}

/// Appends the backtrace of a warning.
#[tactic(auto, unfolding(crate::specs::BacktraceText::backtrace_text))]
fn push_backtrace(
    sources: &Sources<'_, '_>,
    case: &Case,
    steps: &mut Vec<WayStep>,
    into: &mut Vec<u8>,
) -> Result<(), NoMemory>
    requires index { sources.now.index.elf ≡ sources.now.object.now }
    requires kept { length sources.now.kept.now ≡ length sources.now.graph.now.parts.points.items }
    requires points { length sources.now.ways ≡ length sources.now.graph.now.parts.points.items }
    requires case { IsCaseWithin (length sources.now.graph.now.parts.points.items) case.now }
    requires steps { AreStepsWithin (length sources.now.graph.now.parts.points.items) sources.now.ways }
    ensures { (p : Program) → Tells p sources.now.graph.now.parts → OnOk result (into.new.items ≡ into.old.items
        ++ backtrace_text sources.now.object.now sources.now.input.now p case.now.warning.rule (told_by sources.now.object.now p (at sources.now.kept.now) sources.now.ways case.now)) }
{
    let address = address_of(sources.graph, case.warning.place, case.kept.or(case.first));
    let holder = holder_of(&sources.index, address);
    push_holder(sources.object, sources.input, holder, into)?;
    push_kept(state_of(sources.kept, case.kept), into)?;
    push_way(sources, case, steps, into)?;
    push_other_way(sources, case, steps, into)?;
    push_see(case.warning.rule, into)
}

/// Appends the line of a warning, and its backtrace.
fn push_case(
    sources: &Sources<'_, '_>,
    case: &Case,
    steps: &mut Vec<WayStep>,
    into: &mut Vec<u8>,
) -> Result<(), NoMemory>
    requires index { sources.now.index.elf ≡ sources.now.object.now }
    requires kept { length sources.now.kept.now ≡ length sources.now.graph.now.parts.points.items }
    requires points { length sources.now.ways ≡ length sources.now.graph.now.parts.points.items }
    requires case { IsCaseWithin (length sources.now.graph.now.parts.points.items) case.now }
    requires steps { AreStepsWithin (length sources.now.graph.now.parts.points.items) sources.now.ways }
    ensures { (p : Program) → Tells p sources.now.graph.now.parts → OnOk result (into.new.items ≡ into.old.items
        ++ case_text sources.now.object.now sources.now.input.now p (at sources.now.kept.now) sources.now.ways case.now) }
{
    warning_text(sources.object, &case.warning, into)?;
    push_backtrace(sources, case, steps, into)
}

/// Prints the line of a warning, and its backtrace, which are made in `line`.
fn print_case<S: Sink>(
    sources: &Sources<'_, '_>,
    case: &Case,
    steps: &mut Vec<WayStep>,
    line: &mut Vec<u8>,
    out: &mut S,
) -> Result<(), Status>
    requires index { sources.now.index.elf ≡ sources.now.object.now }
    requires kept { length sources.now.kept.now ≡ length sources.now.graph.now.parts.points.items }
    requires points { length sources.now.ways ≡ length sources.now.graph.now.parts.points.items }
    requires case { IsCaseWithin (length sources.now.graph.now.parts.points.items) case.now }
    requires steps { AreStepsWithin (length sources.now.graph.now.parts.points.items) sources.now.ways }
    ensures ok { (p : Program) → Tells p sources.now.graph.now.parts → OnOk result (S.written out.new ≡ appending (S.written out.old)
        (case_text sources.now.object.now sources.now.input.now p (at sources.now.kept.now) sources.now.ways case.now)) }
    ensures err { (p : Program) → Tells p sources.now.graph.now.parts → IfErr result (FailsToPrint
        (case_text sources.now.object.now sources.now.input.now p (at sources.now.kept.now) sources.now.ways case.now)
        (record { written = S.written out.old; faults = S.faults out.old })
        (record { written = S.written out.new; faults = S.faults out.new })) }
    ensures later { S.faults out.old ≤ S.faults out.new }
    ensures output_failed { S.faults out.old < S.faults out.new → IsErrOf result Status.SinkFault }
{
    line.clear();
    match push_case(sources, case, steps, line) {
        Ok(()) => print_part(line.as_slice(), out),
        Err(NoMemory) => Err(Status::NoMemory),
    }
}

/// Prints the line and the backtrace of each warning, and gives the status that the command ends with.
fn print_cases<S: Sink>(
    alloc: Global,
    sources: &Sources<'_, '_>,
    cases: &[Case],
    out: &mut S,
) -> Status
    requires index { sources.now.index.elf ≡ sources.now.object.now }
    requires kept { length sources.now.kept.now ≡ length sources.now.graph.now.parts.points.items }
    requires points { length sources.now.ways ≡ length sources.now.graph.now.parts.points.items }
    requires cases { All (IsCaseWithin (length sources.now.graph.now.parts.points.items)) cases.now }
    requires steps { AreStepsWithin (length sources.now.graph.now.parts.points.items) sources.now.ways }
    ensures printed { (p : Program) → Tells p sources.now.graph.now.parts → Prints status.Warnings
        (cases_text sources.now.object.now sources.now.input.now p (at sources.now.kept.now) sources.now.ways cases.now)
        (record { written = S.written out.old; faults = S.faults out.old })
        (record { written = S.written out.new; faults = S.faults out.new }) result }
    ensures later { S.faults out.old ≤ S.faults out.new }
    ensures output_failed { S.faults out.old < S.faults out.new → IsOutputFault result }
{
    let mut steps = Vec::new(alloc);
    let mut line = Vec::new(alloc);
    for case in cases {
        match print_case(sources, case, &mut steps, &mut line, out) {
            Ok(()) => {}
            Err(status) => return status,
        }
    }
    Status::Warnings
}

/// Prints the line of each warning of an object's program, and behind it its backtrace, and gives the status that the command ends
/// with. The object was read from the file `input`; its graph and the kept states are those of its program, under which the
/// warnings were found.
///
/// Of each warning it prints the function that holds its place; the state that is kept there and the turns of one way by which
/// that came about; for rule 4 the turns of another way, to an edge that brings another state there; and where the rule is
/// explained. Where memory is wanting before anything is printed, nothing is.
pub fn print_backtraces<S: Sink>(
    alloc: Global,
    object: &Object<'_>,
    input: &str,
    graph: &Graph,
    kept: &Kept,
    warnings: &[Warning],
    out: &mut S,
) -> Status
    requires points { length kept.now ≡ length graph.now.parts.points.items }
    requires functions { first_bad object.now ≡ None }
    requires ascend { AllPairs ComesBefore warnings.now }
    requires warned { (p : Program) × IsWarnedOf p graph.now.parts (at kept.now) warnings.now }
    ensures printed { (p : Program) → IsWarnedOf p graph.now.parts (at kept.now) warnings.now → PrintsBacktraces object.now input.now p (at kept.now) warnings.now
        (record { written = S.written out.old; faults = S.faults out.old })
        (record { written = S.written out.new; faults = S.faults out.new }) result }
    ensures later { S.faults out.old ≤ S.faults out.new }
    ensures output_failed { S.faults out.old < S.faults out.new → IsOutputFault result }
{
    let index = match index_of(alloc, object) {
        Ok(index) => index,
        Err(NoMemory) => return Status::NoMemory,
    };
    let ways = match find_ways(alloc, graph, kept) {
        Ok(ways) => ways,
        Err(NoMemory) => return Status::NoMemory,
    };
    let sources = Sources {
        object,
        input,
        graph,
        kept,
        index,
        ways,
    };
    match find_cases(alloc, graph, kept, warnings) {
        Ok(cases) => print_cases(alloc, &sources, &cases, out),
        Err(NoMemory) => Status::NoMemory,
    }
}
