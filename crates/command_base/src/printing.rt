ghost use Rattle.std.specs.Prelude.{◌≡◌, ◌<◌, ◌≤◌, Some, OnOk, OnErr, IsErrOf, IfErr};
ghost use Rattle.ot_files.specs.Causes.{Rose};
ghost use Rattle.ot_files.specs.Output.{appending};
ghost use Rattle.command_base.specs.Stop.{line_of, status_of};
ghost use Rattle.command_base.specs.Printing.{Concludes, FailsToPrint, IsOutputFault, Prints, ended};

use crate::status::Status;
use crate::stop::CommandStop;
use ot_files::{Sink, SinkError, write_line};
use std::alloc::Global;

/// The status of a command whose text was written so. A file's fault stays one.
fn ended(status: Status, written: Result<(), SinkError>) -> Status
    ensures { result ≡ ended status written }
{
    match (written, status) {
        (Ok(()), _) => status,
        (Err(SinkError::NoMemory), _) => Status::NoMemory,
        (Err(SinkError::Failed), Status::FileFault) => Status::FileFault,
        (Err(SinkError::Failed), _) => Status::SinkFault,
    }
}

/// Prints a whole line, and gives the status that a command ends with whose last line it is and whose
/// status is this one where nothing fails.
pub fn print_line<S: Sink>(status: Status, line: &[u8], out: &mut S) -> Status
    ensures printed { Prints status line.now
        (record { written = S.written out.old; faults = S.faults out.old })
        (record { written = S.written out.new; faults = S.faults out.new }) result }
    ensures later { S.faults out.old ≤ S.faults out.new }
    ensures output_failed { S.faults out.old < S.faults out.new → IsOutputFault result }
{
    ended(status, write_line(out, line))
}

/// Prints a whole line of a longer text. Where that fails, answers the status that the command then
/// ends with, which is no file's fault where nothing fails.
pub fn print_part<S: Sink>(line: &[u8], out: &mut S) -> Result<(), Status>
    ensures ok { OnOk result (S.written out.new ≡ appending (S.written out.old) line.now) }
    ensures err { IfErr result (FailsToPrint line.now
        (record { written = S.written out.old; faults = S.faults out.old })
        (record { written = S.written out.new; faults = S.faults out.new })) }
    ensures later { S.faults out.old ≤ S.faults out.new }
    ensures output_failed { S.faults out.old < S.faults out.new → IsErrOf result Status.SinkFault }
{
    match write_line(out, line) {
        Ok(()) => Ok(()),
        Err(SinkError::Failed) => Err(Status::SinkFault),
        Err(SinkError::NoMemory) => Err(Status::NoMemory),
    }
}

/// Tells why a command stopped, unless memory ran out, and gives the status that it ends with.
pub fn conclude<S: Sink>(alloc: Global, stop: CommandStop<'_>, out: &mut S) -> Status
    ensures concluded { Concludes stop.entry
        (record { written = S.written out.old; faults = S.faults out.old })
        (record { written = S.written out.new; faults = S.faults out.new }) result }
    ensures later { S.faults out.old ≤ S.faults out.new }
    ensures output_failed { S.faults out.old < S.faults out.new → IsOutputFault result }
{
    if let CommandStop::NoMemory = stop {
        return Status::NoMemory;
    }
    match format!(in alloc; "{stop}") {
        Ok(line) => print_line(stop.status(), line.as_bytes(), out),
        Err(_) => Status::NoMemory,
    }
}
