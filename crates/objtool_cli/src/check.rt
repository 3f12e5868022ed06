//! The check of the bytes of an input.

ghost use Rattle.std.specs.Prelude.{◌≡◌, ◌<◌, ◌≤◌, Ok, length, option_map};
ghost use Rattle.ot_base.specs.NameLists.{NameLists};
ghost use Rattle.elf_objects.specs.Object.{IsObject};
ghost use Rattle.command_base.specs.Printing.{IsOutputFault};
ghost use Rattle.flow_defs.specs.Coded.{coded_by};
ghost use Rattle.x86_map.specs.declared.map.Map.{Map};
ghost use Rattle.object_check.specs.Order.{IsCheckFault};
ghost use Rattle.objtool_cli.specs.Checked.{IsUnchecked};
ghost use Rattle.objtool_cli.specs.Command.{EndsCheck};
ghost use Rattle.command_base.specs.Inputs.{IsRead};

use crate::telling::tell_warnings;
use crate::words::Check;
use crate::writing::write_table;
use command_base::{CommandStop, Refusal, Status, conclude, flow_stop, link_stop, parse_stop};
use elf_objects::{Counted, MAX_FILE_BYTES, Object};
use object_check::{CheckFault, ObjectVerdict, check_object};
use ot_base::Lists;
use ot_files::{Files, Sink};
use std::alloc::Global;

/// Why a command stops whose object isn't checked.
pub(crate) fn check_stop<'a>(object: &Object<'a>, fault: CheckFault) -> CommandStop<'a>
    requires { (map : Map) × (lists : NameLists) × IsCheckFault (coded_by map object.now) lists fault }
    ensures { (map : Map) (lists : NameLists) → IsCheckFault (coded_by map object.now) lists fault → IsUnchecked (coded_by map object.now) lists result }
{
    match fault {
        CheckFault::Link(fault) => link_stop(object, fault),
        CheckFault::Flow(fault) => flow_stop(fault),
        CheckFault::HasOrc { sec } => CommandStop::Refused(Refusal::HasOrc { sec }),
        CheckFault::TooManySections { count } => CommandStop::Refused(Refusal::TooMany {
            what: Counted::Sections,
            count,
        }),
        CheckFault::NoMemory => CommandStop::NoMemory,
    }
}

/// Checks the object that the bytes are that were read of the input, under lists of names. Writes it with its tables to the output file;
/// or prints the warnings, where it breaks rules, each with its backtrace where that is asked for; or tells why it is refused.
fn check_and_write<F: Files, S: Sink>(
    alloc: Global,
    asked: Check<'_>,
    bytes: &[u8],
    object: &Object<'_>,
    lists: &Lists,
    files: &mut F,
    out: &mut S,
) -> Status
    requires few { length object.now.bytes ≤ MAX_FILE_BYTES }
    requires read { IsRead (F.content files.old) asked.input.now (option_map (λ file. file.now) asked.names) bytes.now lists.now }
    requires object { IsObject bytes.now object.now }
    ensures ends { EndsCheck asked.entry.input.now asked.entry.output.now asked.entry.options (option_map (λ file. file.now) asked.entry.names)
        (record { content = F.content files.old; faults = F.faults files.old })
        (record { content = F.content files.new; faults = F.faults files.new })
        (record { written = S.written out.old; faults = S.faults out.old })
        (record { written = S.written out.new; faults = S.faults out.new }) result }
    ensures files_later { F.faults files.old ≤ F.faults files.new }
    ensures out_later { S.faults out.old ≤ S.faults out.new }
    ensures output_failed { S.faults out.old < S.faults out.new → IsOutputFault result }
{
    let rows = match check_object(alloc, asked.options.map, object, lists, asked.options.rules) {
        Ok(ObjectVerdict::Accepted { rows, .. }) => rows,
        Ok(ObjectVerdict::Broken(warnings)) => return tell_warnings(
            alloc, asked, object, lists, &warnings, out,
        ),
        Err(fault) => return conclude(alloc, check_stop(object, fault), out),
    };
    match write_table(alloc, object, &rows, asked.output, files) {
        Ok(()) => Status::Done,
        Err(stop) => conclude(alloc, stop, out),
    }
}

/// Checks the bytes that were read of the input under lists of names. Writes them with their tables to the
/// output file; or prints the warnings, where they break rules, each with its backtrace where that is asked for; or tells why they
/// are refused.
pub fn check<F: Files, S: Sink>(
    alloc: Global,
    asked: Check<'_>,
    bytes: &[u8],
    lists: &Lists,
    files: &mut F,
    out: &mut S,
) -> Status
    requires few { length bytes.now ≤ MAX_FILE_BYTES }
    requires read { IsRead (F.content files.old) asked.input.now (option_map (λ file. file.now) asked.names) bytes.now lists.now }
    ensures ends { EndsCheck asked.entry.input.now asked.entry.output.now asked.entry.options (option_map (λ file. file.now) asked.entry.names)
        (record { content = F.content files.old; faults = F.faults files.old })
        (record { content = F.content files.new; faults = F.faults files.new })
        (record { written = S.written out.old; faults = S.faults out.old })
        (record { written = S.written out.new; faults = S.faults out.new }) result }
    ensures files_later { F.faults files.old ≤ F.faults files.new }
    ensures out_later { S.faults out.old ≤ S.faults out.new }
    ensures output_failed { S.faults out.old < S.faults out.new → IsOutputFault result }
{
    match Object::parse(alloc, bytes) {
        Ok(object) => check_and_write(alloc, asked, bytes, &object, lists, files, out),
        Err(fault) => conclude(alloc, parse_stop(fault), out),
    }
}
