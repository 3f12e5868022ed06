//! The verdict of a check.

ghost use Rattle.std.specs.Prelude.{◌≡◌, ◌^◌, ◌<◌, All, IfOk, length};
ghost use Rattle.machine_defs.specs.Program.{Program};
ghost use Rattle.program_check.specs.Checkable.{IsPrepared};
ghost use Rattle.program_check.specs.Verdict.{IsStackVerdict};

use crate::checked::Checked;
use crate::warnings::list_warnings;
use kept_states::Kept;
use ot_base::{NoMemory, Options, Warning};
use program_graph::Graph;
use stack_rules::list_site_points;
use std::alloc::Global;

/// What a check finds.
#[derive(Drop)]
pub enum StackVerdict {
    /// No rule is broken.
    Accepted(Checked),
    /// Some rules are: the graph that was checked, and each warning once, by section, offset, rule and what it tells.
    Broken(Graph, Vec<Warning>),
}

/// Checks a program, by its graph and its kept states, against the rules 1 to 13 and 15 to 19 (`docs/RULES.md`), and
/// against 14 and 21 where `unreachable` and `fp` ask for these. Rule 14 is broken only where none of the first is.
///
/// The options `retpoline`, `rethunk` and `uaccess` ask for rules 31, 32 and 41 to 47, which aren't looked at here.
/// Every site has fewer than 2^63 bytes.
///
/// Each point and each edge is looked at a few times, with a look-up among the sites for each point.
///
/// # Errors
///
/// [`NoMemory`] may come at any program.
pub fn check_stack(
    alloc: Global,
    graph: Graph,
    kept: Kept,
    options: Options,
) -> Result<StackVerdict, NoMemory>
    requires program { (p : Program) × IsPrepared p graph.parts kept }
    requires sites { All (λ site. site.len < 2 ^ 63) graph.parts.sites.items }
    ensures { IfOk result (λ verdict. (p : Program) → IsPrepared p graph.parts kept → IsStackVerdict p options graph.parts kept verdict) }
{
    let points = list_site_points(alloc, &graph, &kept)?;
    let warnings = list_warnings(alloc, &graph, &kept, &points, options)?;
    if warnings.is_empty() {
        Ok(StackVerdict::Accepted(Checked::new(graph, kept, points)))
    } else {
        Ok(StackVerdict::Broken(graph, warnings))
    }
}
