//! The warnings of the rules that options ask for besides those of the stack.

ghost use Rattle.std.specs.Prelude.{◌≡◌, AllPairs, IfOk, IfSome, OnOk, length, option_copied};
ghost use Rattle.machine_defs.specs.Program.{Program};
ghost use Rattle.machine_defs.specs.Allowances.{Allowances};
ghost use Rattle.stack_rules.specs.Before.{ComesBefore};
ghost use Rattle.stack_rules.specs.Gains.{Gains};
ghost use Rattle.program_check.specs.Tracks.{Tracks};
ghost use Rattle.program_check.specs.AskedRules.{AskedWarns, HasLengths, IsEnough, IsTracked};

use crate::{AllowanceTable, push_access, push_branches};
use ot_base::{NoMemory, Options, Warning};
use program_graph::Graph;
use stack_rules::sort_warnings;
use std::alloc::Global;

/// Adds the warnings of the rules 31, 32 and 41 to 47, as far as they are asked for.
fn push_by_table(
    alloc: Global,
    graph: &Graph,
    table: &AllowanceTable,
    options: Options,
    warnings: &mut Vec<Warning>,
) -> Result<(), NoMemory>
    requires { HasLengths table.now (length graph.now.parts.points.items) }
    ensures { OnOk result ((p : Program) (allowed : Allowances) → Tracks p allowed graph.now.parts table.now → Gains warnings.old.items warnings.new.items (AskedWarns p allowed options)) }
{
    push_branches(graph, table, options, warnings)?;
    push_access(alloc, graph, table, options, warnings)
}

/// The same where there is a table. Where there is none, no option asks for such a rule.
fn push_asked(
    alloc: Global,
    graph: &Graph,
    table: Option<&AllowanceTable>,
    options: Options,
    warnings: &mut Vec<Warning>,
) -> Result<(), NoMemory>
    requires lengths { IfSome (option_copied table) (λ t. HasLengths t (length graph.now.parts.points.items)) }
    requires enough { IsEnough options (option_copied table) }
    ensures { OnOk result ((p : Program) (allowed : Allowances) → IsTracked p allowed graph.now.parts (option_copied table.entry) → Gains warnings.old.items warnings.new.items (AskedWarns p allowed options)) }
{
    match table {
        Some(table) => push_by_table(alloc, graph, table, options, warnings),
        None => Ok(()),
    }
}

/// These warnings with those of the rules 31, 32 and 41 to 47, as far as they are asked for, in the order in which warnings are
/// told.
pub(crate) fn with_asked(
    alloc: Global,
    graph: &Graph,
    table: Option<&AllowanceTable>,
    options: Options,
    warnings: Vec<Warning>,
) -> Result<Vec<Warning>, NoMemory>
    requires lengths { IfSome (option_copied table) (λ t. HasLengths t (length graph.now.parts.points.items)) }
    requires enough { IsEnough options (option_copied table) }
    ensures gains { IfOk result (λ all. (p : Program) (allowed : Allowances) → IsTracked p allowed graph.now.parts (option_copied table.entry) → Gains warnings.items all.items (AskedWarns p allowed options)) }
    ensures ascending { IfOk result (λ all. AllPairs ComesBefore all.items) }
{
    let mut all = warnings;
    push_asked(alloc, graph, table, options, &mut all)?;
    sort_warnings(&mut all);
    Ok(all)
}
