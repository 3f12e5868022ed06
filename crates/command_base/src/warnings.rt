//! The lines of an object's warnings.

ghost use Rattle.std.specs.Prelude.{◌≡◌, ◌<◌, ◌≤◌, IfErr, IsErrOf, OnOk};
ghost use Rattle.ot_files.specs.Output.{appending};
ghost use Rattle.command_base.specs.declared.status.Status.TheVariants as status;
ghost use Rattle.command_base.specs.Printing.{FailsToPrint, IsOutputFault, Prints};
ghost use Rattle.command_base.specs.Warnings.{line_of, warnings_text};

use crate::{Status, print_part};
use elf_objects::Object;
use ot_base::{NoMemory, Warning, warning_text};
use ot_files::Sink;
use std::alloc::Global;

/// Prints the line of a warning, which is made in `line`.
fn print_warning<S: Sink>(
    object: &Object<'_>,
    warning: &Warning,
    line: &mut Vec<u8>,
    out: &mut S,
) -> Result<(), Status>
    ensures ok { OnOk result (S.written out.new ≡ appending (S.written out.old) (line_of object.now warning.now)) }
    ensures err { IfErr result (FailsToPrint (line_of object.now warning.now)
        (record { written = S.written out.old; faults = S.faults out.old })
        (record { written = S.written out.new; faults = S.faults out.new })) }
    ensures later { S.faults out.old ≤ S.faults out.new }
    ensures output_failed { S.faults out.old < S.faults out.new → IsErrOf result Status.SinkFault }
{
    line.clear();
    match warning_text(object, warning, line) {
        Ok(()) => print_part(line.as_slice(), out),
        Err(NoMemory) => Err(Status::NoMemory),
    }
}

/// Prints the line of each warning, and gives the status that the command ends with.
pub fn print_warnings<S: Sink>(
    alloc: Global,
    object: &Object<'_>,
    warnings: &[Warning],
    out: &mut S,
) -> Status
    ensures printed { Prints status.Warnings (warnings_text object.now warnings.now)
        (record { written = S.written out.old; faults = S.faults out.old })
        (record { written = S.written out.new; faults = S.faults out.new }) result }
    ensures later { S.faults out.old ≤ S.faults out.new }
    ensures output_failed { S.faults out.old < S.faults out.new → IsOutputFault result }
{
    let mut line = Vec::new(alloc);
    for warning in warnings {
        match print_warning(object, warning, &mut line, out) {
            Ok(()) => {}
            Err(status) => return status,
        }
    }
    Status::Warnings
}
