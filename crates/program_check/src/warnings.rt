//! The warnings of all rules.

ghost use Rattle.std.specs.Prelude.{◌≡◌, ◌^◌, ◌<◌, IfOk, OnOk, All, AllPairs, length};
ghost use Rattle.machine_defs.specs.Program.{Program};
ghost use Rattle.stack_rules.specs.Before.{ComesBefore};
ghost use Rattle.stack_rules.specs.Checks.{Checks};
ghost use Rattle.stack_rules.specs.Gains.{Gains};
ghost use Rattle.stack_rules.specs.Points.{AreSitePointsOf};
ghost use Rattle.program_check.specs.Asked.{AreBroken, AreUnasked, UnframedWarns, UnreachedWarns};
ghost use Rattle.program_check.specs.Checkable.{IsPrepared};

use kept_states::Kept;
use ot_base::{NoMemory, Options, Warning};
use program_graph::Graph;
use stack_rules::{
    push_site_warnings, push_unreachable, push_warnings, push_without_frame, sort_warnings,
};
use std::alloc::Global;

/// The warnings of the rules that no option has to ask for, in no certain order. One may be there more than once.
fn list_unasked(
    alloc: Global,
    graph: &Graph,
    kept: &Kept,
    points: &[u32],
) -> Result<Vec<Warning>, NoMemory>
    requires points { length kept.now ≡ length graph.now.parts.points.items }
    requires listed { AreSitePointsOf graph.now.parts kept.now points.now }
    requires sites { All (λ site. site.len < 2 ^ 63) graph.now.parts.sites.items }
    ensures { IfOk result (λ warnings. (p : Program) → IsPrepared p graph.now.parts kept.now → AreUnasked p warnings.items) }
{
    let mut warnings = Vec::new(alloc);
    push_warnings(graph, kept, &mut warnings)?;
    push_site_warnings(alloc, graph, kept, points, &mut warnings)?;
    Ok(warnings)
}

/// Rule 14, where it is asked for and there is no warning of a rule that no option asks for.
fn push_unreached(
    graph: &Graph,
    kept: &Kept,
    options: Options,
    warnings: &mut Vec<Warning>,
) -> Result<(), NoMemory>
    requires { length kept.now ≡ length graph.now.parts.points.items }
    ensures { OnOk result ((p : Program) → Checks p graph.now.parts kept.now → AreUnasked p warnings.old.items → Gains warnings.old.items warnings.new.items (UnreachedWarns p options)) }
{
    if !options.unreachable {
        return Ok(());
    }
    if !warnings.is_empty() {
        return Ok(());
    }
    push_unreachable(graph, kept, options, warnings)
}

/// Rule 21, where it is asked for.
fn push_unframed(
    graph: &Graph,
    kept: &Kept,
    options: Options,
    warnings: &mut Vec<Warning>,
) -> Result<(), NoMemory>
    requires { length kept.now ≡ length graph.now.parts.points.items }
    ensures { OnOk result ((p : Program) → Checks p graph.now.parts kept.now → Gains warnings.old.items warnings.new.items (UnframedWarns p options)) }
{
    if !options.fp {
        return Ok(());
    }
    push_without_frame(graph, kept, warnings)
}

/// All warnings of a program, each once, in the order in which they are told. The kept points that run in sites are listed
/// already.
pub(crate) fn list_warnings(
    alloc: Global,
    graph: &Graph,
    kept: &Kept,
    points: &[u32],
    options: Options,
) -> Result<Vec<Warning>, NoMemory>
    requires points { length kept.now ≡ length graph.now.parts.points.items }
    requires listed { AreSitePointsOf graph.now.parts kept.now points.now }
    requires sites { All (λ site. site.len < 2 ^ 63) graph.now.parts.sites.items }
    ensures broken { IfOk result (λ warnings. (p : Program) → IsPrepared p graph.now.parts kept.now → AreBroken p options warnings.items) }
    ensures ascending { IfOk result (λ warnings. AllPairs ComesBefore warnings.items) }
{
    let mut warnings = list_unasked(alloc, graph, kept, points)?;
    push_unreached(graph, kept, options, &mut warnings)?;
    push_unframed(graph, kept, options, &mut warnings)?;
    sort_warnings(&mut warnings);
    Ok(warnings)
}
