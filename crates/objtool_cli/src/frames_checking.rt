//! The check of an object that is to get call frame information.

ghost use Rattle.std.specs.Prelude.{◌≡◌, ◌≤◌, IfErr, IfOk, length};
ghost use Rattle.ot_base.specs.NameLists.{NameLists};
ghost use Rattle.elf_objects.specs.declared.TheConstants.{MAX_FILE_BYTES};
ghost use Rattle.flow_defs.specs.Coded.{coded_by};
ghost use Rattle.x86_map.specs.declared.map.Map.{Map as MapValue};
ghost use Rattle.eh_frame.specs.Framed.{CanBeFramed};
ghost use Rattle.object_check.specs.Code.{IsCodeFault};
ghost use Rattle.object_check.specs.Outcome.{OnAccepted};
ghost use Rattle.object_check.specs.Unwinding.{RowsUnwind};
ghost use Rattle.objtool_cli.specs.Cfi.{IsUnchecked};
ghost use Rattle.objtool_cli.specs.FramesChecked.{IsChecked};

use crate::frames_room::check_room;
use command_base::{CommandStop, flow_stop, link_stop};
use elf_objects::Object;
use object_check::{CodeFault, ObjectVerdict, check_code, read_code};
use ot_base::{Lists, NoMemory, Options};
use std::alloc::Global;
use x86_map::Map;

/// The rules that are asked for: those that always are, and 14.
const DEFAULT_RULES: Options = Options {
    fp: false,
    retpoline: false,
    rethunk: false,
    uaccess: false,
    unreachable: true,
    link: false,
    module: false,
};

/// Why a command stops whose object's code isn't read.
fn code_stop<'a>(object: &Object<'a>, fault: CodeFault) -> CommandStop<'a>
    requires { (map : MapValue) × (lists : NameLists) × IsCodeFault (coded_by map object.now) lists fault }
    ensures { (map : MapValue) (lists : NameLists) → IsCodeFault (coded_by map object.now) lists fault → IsUnchecked map lists object.now result }
{
    match fault {
        CodeFault::Link(fault) => link_stop(object, fault),
        CodeFault::Flow(fault) => flow_stop(fault),
        CodeFault::NoMemory => CommandStop::NoMemory,
    }
}

/// Checks an object whose code is read by an opcode map, under lists of names, with the rules that `check` tests without options; or
/// tells why a command stops whose object can't get call frame information, or isn't checked.
pub(crate) fn check_object<'a>(
    alloc: Global,
    map: Map,
    object: &Object<'a>,
    lists: &Lists,
) -> Result<ObjectVerdict, CommandStop<'a>>
    requires { length object.now.bytes ≤ MAX_FILE_BYTES }
    ensures checked { IfOk result (IsChecked map object.now lists.now) }
    // The rows can be told by call frame information, and unwind the program.
    ensures rows { IfOk result (λ verdict. OnAccepted verdict (CanBeFramed object.now)) }
    ensures unwinds { IfOk result (λ verdict. OnAccepted verdict (RowsUnwind (coded_by map object.now) lists.now)) }
    ensures stopped { IfErr result (IsUnchecked map lists.now object.now) }
{
    let code = match read_code(alloc, map, object, lists, DEFAULT_RULES) {
        Ok(code) => code,
        Err(fault) => return Err(code_stop(object, fault)),
    };
    check_room(object)?;
    match check_code(alloc, code, DEFAULT_RULES) {
        Ok(verdict) => Ok(verdict),
        Err(NoMemory) => Err(CommandStop::NoMemory),
    }
}
