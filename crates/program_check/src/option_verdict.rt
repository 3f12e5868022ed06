//! The verdict of a check under its options.

ghost use Rattle.std.specs.Prelude.{◌^◌, ◌<◌, All, IfOk, option_copied};
ghost use Rattle.machine_defs.specs.Program.{Program};
ghost use Rattle.machine_defs.specs.Allowances.{Allowances};
ghost use Rattle.program_check.specs.AskedRules.{IsEnough};
ghost use Rattle.program_check.specs.OptionVerdict.{IsAskable, IsUnbroken, IsVerdict};

use crate::AllowanceTable;
use crate::asked::with_asked;
use crate::checked::Checked;
use crate::verdict::{StackVerdict, check_stack};
use kept_states::Kept;
use ot_base::{NoMemory, Options, Warning};
use program_graph::Graph;
use std::alloc::Global;

/// What a check under its options finds.
#[derive(Drop)]
pub enum OptionVerdict {
    /// No rule is broken that is asked for.
    Clean(Checked),
    /// Some are: each warning once, by section, offset, rule and what it tells.
    Warned(Vec<Warning>),
}

/// A program in which no rule of the stack is broken, if none that an option asks for is.
fn if_clean(
    alloc: Global,
    checked: Checked,
    table: Option<&AllowanceTable>,
    options: Options,
) -> Result<OptionVerdict, NoMemory>
    requires program { (p : Program) × (allowed : Allowances) × IsAskable p allowed checked.graph.parts checked.kept (option_copied table) }
    requires enough { IsEnough options (option_copied table) }
    ensures { IfOk result (λ verdict. (p : Program) (allowed : Allowances) → IsAskable p allowed checked.graph.parts checked.kept (option_copied table.entry) → IsUnbroken p options → IsVerdict p allowed options checked.graph.parts checked.kept verdict) }
{
    let warnings = with_asked(alloc, checked.graph(), table, options, Vec::new(alloc))?;
    if warnings.is_empty() {
        Ok(OptionVerdict::Clean(checked))
    } else {
        Ok(OptionVerdict::Warned(warnings))
    }
}

/// Checks a program, by its graph and its kept states, against the rules of the stack (`check_stack`), and against
/// the rules 31, 32 and 41 to 47 where `retpoline`, `rethunk` and `uaccess` ask for these (`docs/RULES.md`). For these there
/// has to be a table of what is allowed at its points and symbols. Every site has fewer than 2^63 bytes.
///
/// # Errors
///
/// [`NoMemory`] may come at any program.
pub fn check(
    alloc: Global,
    graph: Graph,
    kept: Kept,
    table: Option<&AllowanceTable>,
    options: Options,
) -> Result<OptionVerdict, NoMemory>
    requires program { (p : Program) × (allowed : Allowances) × IsAskable p allowed graph.parts kept (option_copied table) }
    requires sites { All (λ site. site.len < 2 ^ 63) graph.parts.sites.items }
    requires enough { IsEnough options (option_copied table) }
    ensures { IfOk result (λ verdict. (p : Program) (allowed : Allowances) → IsAskable p allowed graph.parts kept (option_copied table.entry) → IsVerdict p allowed options graph.parts kept verdict) }
{
    match check_stack(alloc, graph, kept, options)? {
        StackVerdict::Accepted(checked) => if_clean(alloc, checked, table, options),
        StackVerdict::Broken(graph, warnings) => Ok(OptionVerdict::Warned(with_asked(
            alloc, &graph, table, options, warnings,
        )?)),
    }
}
