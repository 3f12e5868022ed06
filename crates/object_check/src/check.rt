//! The public calls.

ghost use Rattle.std.specs.Prelude.{◌≤◌, IfOk, IfErr, length, option_copied};
ghost use Rattle.ot_base.specs.NameLists.{NameLists};
ghost use Rattle.elf_objects.specs.declared.TheConstants.{MAX_FILE_BYTES as most_bytes};
ghost use Rattle.flow_defs.specs.Coded.{Coded, coded_by};
ghost use Rattle.machine_defs.specs.Program.{Program};
ghost use Rattle.machine_defs.specs.Allowances.{Allowances};
ghost use Rattle.program_check.specs.AskedRules.{IsEnough};
ghost use Rattle.object_check.specs.Code.{CanHaveRows, IsCodeOf, IsFound};
ghost use Rattle.object_check.specs.Order.{IsCheckFault};
ghost use Rattle.object_check.specs.Outcome.{IsOutcome, OnAccepted};
ghost use Rattle.object_check.specs.Promises.{KeepsPromises};
ghost use Rattle.object_check.specs.Ready.{HasSmallSites, IsOutcomeOf, IsReady, IsTableOf};
ghost use Rattle.object_check.specs.Unwinding.{RowsUnwind};
ghost use Rattle.orc_output.specs.Tables.{CanHaveTables};

use crate::code::{ReadCode, read_code};
use crate::counts::CodeCounts;
use crate::fault::CheckFault;
use crate::laws::rows_tell_frames;
use crate::outcome::ObjectVerdict;
use crate::room::check_room;
use elf_objects::Object;
use kept_states::{Scratch, spread};
use object_law::entry_laws::program_has_functions;
use object_law::flow_laws::{program_is_laid_out, program_is_one};
use object_law::object_laws::{object_unwinds, plain_points_ascend, rows_are_rows_of};
use object_law::symbol_laws::rows_are_named;
use object_points::Map;
use option_law::laws::{access_is_kept, branches_are_safe, calls_have_frames};
use ot_base::{Lists, NoMemory, Options};
use program_check::{AllowanceTable, OptionVerdict, check};
use program_graph::Graph;
use std::alloc::Global;

/// Checks a program by its graph, and by what is allowed at its points and symbols. Its object has so much code.
fn outcome_of(
    alloc: Global,
    graph: Graph,
    table: Option<&AllowanceTable>,
    counts: CodeCounts,
    options: Options,
) -> Result<ObjectVerdict, NoMemory>
    requires program { (p : Program) × (allowed : Allowances) × IsReady p graph.parts × IsTableOf p allowed (option_copied table) }
    requires enough { IsEnough options (option_copied table) }
    requires sites { HasSmallSites graph.parts }
    ensures { IfOk result (λ outcome. (p : Program) (allowed : Allowances) → IsReady p graph.parts → IsTableOf p allowed (option_copied table.entry) → IsOutcomeOf p allowed options counts outcome) }
{
    let scratch = Scratch::reserve(alloc, graph.points())?;
    let kept = spread(&graph, scratch);
    match check(alloc, graph, kept, table, options)? {
        OptionVerdict::Clean(checked) => Ok(ObjectVerdict::Accepted {
            rows: checked.rows(alloc)?,
            counts,
        }),
        OptionVerdict::Warned(warnings) => Ok(ObjectVerdict::Broken(warnings)),
    }
}

/// Checks the code of an object that was read with these options: the rules 1 to 13 and 15 to 19, and 14 (`unreachable`), 21 (`fp`),
/// 31 (`retpoline`), 32 (`rethunk`) and 41 to 47 (`uaccess`) where they ask for them.
///
/// # Errors
///
/// [`NoMemory`] where memory was wanted and not there.
pub fn check_code(
    alloc: Global,
    code: ReadCode,
    options: Options,
) -> Result<ObjectVerdict, NoMemory>
    requires { (o : Coded) × (lists : NameLists) × IsCodeOf o lists options code }
    ensures ok { (o : Coded) (lists : NameLists) → IsCodeOf o lists options code → IfOk result (IsFound o lists options) }
    // The rows can be added to the object, and unwind its program.
    ensures rows { (o : Coded) (lists : NameLists) → IsCodeOf o lists options code → IfOk result (λ outcome. OnAccepted outcome (CanHaveRows o.elf)) }
    // What the options promise of every run of its program.
    ensures promises { (o : Coded) (lists : NameLists) → IsCodeOf o lists options code → IfOk result (λ outcome. OnAccepted outcome (λ rows. KeepsPromises o lists options)) }
    ensures unwinds { (o : Coded) (lists : NameLists) → IsCodeOf o lists options code → IfOk result (λ outcome. OnAccepted outcome (RowsUnwind o lists)) }
{
    program_is_one();
    program_is_laid_out();
    plain_points_ascend();
    rows_are_rows_of();
    rows_are_named();
    rows_tell_frames();
    object_unwinds();
    program_has_functions();
    calls_have_frames();
    branches_are_safe();
    access_is_kept();
    let ReadCode {
        graph,
        table,
        counts,
    } = code;
    outcome_of(alloc, graph, table.as_ref(), counts, options)
}

/// Checks an object of at most 67,108,864 bytes (64 MiB), whose code is read by an opcode map, under lists of function names: the rules 1 to 13 and 15 to 19, and 14
/// (`unreachable`), 21 (`fp`), 31 (`retpoline`), 32 (`rethunk`) and 41 to 47 (`uaccess`) where the options ask for them.
///
/// # Errors
///
/// The first that keeps it from being checked, in this order: its texts, special sections, functions and alternatives; the
/// starts of functions, lists of places, static branches, calls within functions and unchecked functions; an ORC section that is
/// there already; more sections than leave room for three more. [`CheckFault::NoMemory`] may come at any object.
pub fn check_object(
    alloc: Global,
    map: Map,
    object: &Object<'_>,
    lists: &Lists,
    options: Options,
) -> Result<ObjectVerdict, CheckFault>
    requires { length object.now.bytes ≤ most_bytes }
    ensures ok { IfOk result (IsOutcome (coded_by map object.now) lists.now options) }
    // The rows can be added to the object, and unwind its program.
    ensures tables { IfOk result (λ outcome. OnAccepted outcome (CanHaveTables object.now)) }
    // What the options promise of every run of its program.
    ensures promises { IfOk result (λ outcome. OnAccepted outcome (λ rows. KeepsPromises (coded_by map object.now) lists.now options)) }
    ensures unwinds { IfOk result (λ outcome. OnAccepted outcome (RowsUnwind (coded_by map object.now) lists.now)) }
    ensures err { IfErr result (IsCheckFault (coded_by map object.now) lists.now) }
{
    let code = read_code(alloc, map, object, lists, options)?;
    check_room(object)?;
    let outcome = check_code(alloc, code, options)?;
    Ok(outcome)
}
