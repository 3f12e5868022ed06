//! How the warnings of an object are told: by their lines, and behind each line how the checker came to it, where that is asked for.

ghost use Rattle.std.specs.Prelude.{◌≡◌, ◌<◌, ◌≤◌, IfErr, IfOk, length, true};
ghost use Rattle.command_base.specs.Printing.{IsOutputFault};
ghost use Rattle.object_check.specs.Code.{IsCodeOf};
ghost use Rattle.object_check.specs.Order.{IsCheckFault, IsCheckable};
ghost use Rattle.object_check.specs.Outcome.{AreWarnings};
ghost use Rattle.flow_defs.specs.Coded.{coded_by};
ghost use Rattle.objtool_cli.specs.Checked.{allowances_under, program_under};
ghost use Rattle.objtool_cli.specs.Telling.{TellsWarnings};

use crate::check::check_stop;
use crate::words::Check;
use cli_words::CheckOptions;
use command_base::{Status, conclude, print_backtraces, print_warnings};
use elf_objects::{MAX_FILE_BYTES, Object};
use object_check::{CheckFault, ReadCode, read_code, states_of};
use object_law::flow_laws::{program_is_laid_out, program_is_one};
use ot_base::{Lists, NoMemory, Warning};
use ot_files::Sink;
use std::alloc::Global;

/// Reads the code of an object again.
fn read_again(
    alloc: Global,
    options: CheckOptions,
    object: &Object<'_>,
    lists: &Lists,
) -> Result<ReadCode, CheckFault>
    requires { length object.now.bytes ≤ MAX_FILE_BYTES }
    ensures ok { IfOk result (IsCodeOf (coded_by options.map object.now) lists.now options.rules) }
    ensures err { IfErr result (IsCheckFault (coded_by options.map object.now) lists.now) }
{
    let code = read_code(alloc, options.map, object, lists, options.rules)?;
    Ok(code)
}

/// Prints the line of each warning of an object, and behind it its backtrace. The object's code is read again for them.
fn tell_backtraces<S: Sink>(
    alloc: Global,
    asked: Check<'_>,
    object: &Object<'_>,
    lists: &Lists,
    warnings: &[Warning],
    out: &mut S,
) -> Status
    requires few { length object.now.bytes ≤ MAX_FILE_BYTES }
    requires backtrace { asked.options.backtrace ≡ true }
    requires checkable { IsCheckable (coded_by asked.options.map object.now) lists.now }
    requires warned { AreWarnings (program_under asked.options lists.now object.now) (allowances_under asked.options lists.now object.now) asked.options.rules warnings.now }
    ensures told { TellsWarnings asked.entry.input.now asked.entry.options lists.now object.now warnings.now
        (record { written = S.written out.old; faults = S.faults out.old })
        (record { written = S.written out.new; faults = S.faults out.new }) result }
    ensures later { S.faults out.old ≤ S.faults out.new }
    ensures output_failed { S.faults out.old < S.faults out.new → IsOutputFault result }
{
    program_is_one();
    program_is_laid_out();
    let code = match read_again(alloc, asked.options, object, lists) {
        Ok(code) => code,
        Err(fault) => return conclude(alloc, check_stop(object, fault), out),
    };
    match states_of(alloc, &code) {
        Ok(kept) => print_backtraces(
            alloc,
            object,
            asked.input,
            code.graph(),
            &kept,
            warnings,
            out,
        ),
        Err(NoMemory) => Status::NoMemory,
    }
}

/// Prints the line of each warning of an object, and behind it its backtrace, where that is asked for, and gives the status that
/// the command ends with.
pub(crate) fn tell_warnings<S: Sink>(
    alloc: Global,
    asked: Check<'_>,
    object: &Object<'_>,
    lists: &Lists,
    warnings: &[Warning],
    out: &mut S,
) -> Status
    requires few { length object.now.bytes ≤ MAX_FILE_BYTES }
    requires checkable { IsCheckable (coded_by asked.options.map object.now) lists.now }
    requires warned { AreWarnings (program_under asked.options lists.now object.now) (allowances_under asked.options lists.now object.now) asked.options.rules warnings.now }
    ensures told { TellsWarnings asked.entry.input.now asked.entry.options lists.now object.now warnings.now
        (record { written = S.written out.old; faults = S.faults out.old })
        (record { written = S.written out.new; faults = S.faults out.new }) result }
    ensures later { S.faults out.old ≤ S.faults out.new }
    ensures output_failed { S.faults out.old < S.faults out.new → IsOutputFault result }
{
    if asked.options.backtrace {
        tell_backtraces(alloc, asked, object, lists, warnings, out)
    } else {
        print_warnings(alloc, object, warnings, out)
    }
}
