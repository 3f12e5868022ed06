//! What is found of each warning before its backtrace is told.

ghost use Rattle.std.specs.Prelude.{◌≡◌, ◌<◌, All, AllPairs, IfOk, None, length, map, slice_index_or};
ghost use Rattle.ot_base.specs.declared.warning.Warning.{Warning as WarningValue};
ghost use Rattle.machine_defs.specs.Program.{Program};
ghost use Rattle.program_graph.specs.Tells.{Tells};
ghost use Rattle.kept_states.specs.LevelStates.{at};
ghost use Rattle.stack_rules.specs.Before.{ComesBefore};
ghost use Rattle.command_base.specs.declared.backtrace_spots.Spot.{Spot as SpotValue};
ghost use Rattle.command_base.specs.BacktraceCases.{IsCase, IsMade, IsWarnedOf};

use crate::backtrace_spots::{Spot, first_points};
use kept_states::Kept;
use ot_base::{NoMemory, Warning};
use program_graph::Graph;
use state_ways::{Clash, find_clashes};
use std::alloc::Global;

/// A warning, and what is found of it.
#[derive(Clone, Copy)]
pub(crate) struct Case {
    /// The warning.
    pub(crate) warning: Warning,
    /// The first point at its place.
    pub(crate) first: Option<u32>,
    /// The first of them that keeps a state.
    pub(crate) kept: Option<u32>,
    /// Of rule 4, an edge that brings another state there.
    pub(crate) clash: Option<Clash>,
}

/// What is found of the warning with this number.
fn case_of(warnings: &[Warning], firsts: &[Spot], clashes: &[Option<Clash>], i: usize) -> Case
    requires warning { i < length warnings.now }
    requires first { i < length firsts.now }
    requires clash { i < length clashes.now }
    ensures { (w : WarningValue) (s : SpotValue) → IsMade (slice_index_or warnings.now i w) (slice_index_or firsts.now i s) (slice_index_or clashes.now i None) result }
{
    let first = firsts[i];
    Case {
        warning: warnings[i],
        first: first.first,
        kept: first.kept,
        clash: clashes[i],
    }
}

/// What is found of each of some warnings.
pub(crate) fn find_cases(
    alloc: Global,
    graph: &Graph,
    kept: &Kept,
    warnings: &[Warning],
) -> Result<Vec<Case>, NoMemory>
    requires points { length kept.now ≡ length graph.now.parts.points.items }
    requires ascend { AllPairs ComesBefore warnings.now }
    ensures warnings { IfOk result (λ cases. map (λ c. c.warning) cases.items ≡ warnings.now) }
    ensures cases { IfOk result (λ cases. (p : Program) → IsWarnedOf p graph.now.parts (at kept.now) warnings.now → All (IsCase p (at kept.now)) cases.items) }
{
    let firsts = first_points(alloc, graph, kept, warnings)?;
    let clashes = find_clashes(alloc, graph, kept, warnings)?;
    let mut cases = Vec::with_capacity(alloc, warnings.len())?;
    for i in 0..warnings.len() {
        cases.push(case_of(warnings, &firsts, &clashes, i))?;
    }
    Ok(cases)
}
