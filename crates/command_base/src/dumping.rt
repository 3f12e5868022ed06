//! The command `dump FILE`.

ghost use Rattle.std.specs.Prelude.{◌≡◌, ◌<◌, ◌≤◌, ℕ, List, length, Ok, Some, IfErr, IsErrOf, OnOk};
ghost use Rattle.ot_base.specs.declared.row.PlacedRow.{PlacedRow};
ghost use Rattle.ot_files.specs.Content.{Content, reading};
ghost use Rattle.elf_objects.specs.Elf.{Elf};
ghost use Rattle.ot_base.specs.RowText.{row_line};
ghost use Rattle.ot_files.specs.Output.{appending};
ghost use Rattle.elf_objects.specs.Contents.{section_at};
ghost use Rattle.command_base.specs.declared.status.Status.TheVariants as status;
ghost use Rattle.command_base.specs.Printing.{FailsToPrint, IsOutputFault, Prints};
ghost use Rattle.command_base.specs.Dump.{Dumps, EndsDump, HoldsRows, IsAnswered, IsDumped, rows_text};

use crate::{Status, conclude, orc_stop, parse_stop, print_part, read_file};
use elf_objects::{MAX_FILE_BYTES, Object};
use orc_bytes::decode;
use ot_base::{NoMemory, PlacedRow, row_text};
use ot_files::{Files, Sink};
use std::alloc::Global;

/// Prints the line of a row, which is made in `line`.
fn print_row<S: Sink>(
    object: &Object<'_>,
    placed: &PlacedRow,
    line: &mut Vec<u8>,
    out: &mut S,
) -> Result<(), Status>
    ensures ok { OnOk result (S.written out.new
        ≡ appending (S.written out.old) (row_line (section_at object.now placed.now.place.sec).name placed.now)) }
    ensures err { IfErr result (FailsToPrint (row_line (section_at object.now placed.now.place.sec).name placed.now)
        (record { written = S.written out.old; faults = S.faults out.old })
        (record { written = S.written out.new; faults = S.faults out.new })) }
    ensures later { S.faults out.old ≤ S.faults out.new }
    ensures output_failed { S.faults out.old < S.faults out.new → IsErrOf result Status.SinkFault }
{
    line.clear();
    match row_text(object, placed, line) {
        Ok(()) => print_part(line.as_slice(), out),
        Err(NoMemory) => Err(Status::NoMemory),
    }
}

/// Prints the line of each row.
fn print_rows<S: Sink>(
    alloc: Global,
    object: &Object<'_>,
    rows: &[PlacedRow],
    out: &mut S,
) -> Status
    ensures printed { Prints status.Done (rows_text object.now rows.now)
        (record { written = S.written out.old; faults = S.faults out.old })
        (record { written = S.written out.new; faults = S.faults out.new }) result }
    ensures later { S.faults out.old ≤ S.faults out.new }
    ensures output_failed { S.faults out.old < S.faults out.new → IsOutputFault result }
{
    let mut line = Vec::new(alloc);
    for placed in rows {
        match print_row(object, placed, &mut line, out) {
            Ok(()) => {}
            Err(status) => return status,
        }
    }
    Status::Done
}

/// Prints the rows that the ORC sections of an object hold, or why they hold none.
fn dump_bytes<S: Sink>(alloc: Global, bytes: &[u8], out: &mut S) -> Status
    requires { length bytes.now ≤ MAX_FILE_BYTES }
    ensures ends { Dumps bytes.now
        (record { written = S.written out.old; faults = S.faults out.old })
        (record { written = S.written out.new; faults = S.faults out.new }) result }
    ensures later { S.faults out.old ≤ S.faults out.new }
    ensures output_failed { S.faults out.old < S.faults out.new → IsOutputFault result }
{
    let object = match Object::parse(alloc, bytes) {
        Ok(object) => object,
        Err(fault) => return conclude(alloc, parse_stop(fault), out),
    };
    match decode(alloc, &object) {
        Ok(rows) => print_rows(alloc, &object, &rows, out),
        Err(fault) => conclude(alloc, orc_stop(fault), out),
    }
}

/// Prints the rows of the ORC sections of the object FILE, one line each, or why there are none, and
/// gives the status that the command ends with. No file is changed.
pub fn dump<F: Files, S: Sink>(alloc: Global, file: &str, files: &mut F, out: &mut S) -> Status
    // What was told to the output, and why.
    ensures ends { EndsDump file.now
        (record { content = F.content files.old; faults = F.faults files.old })
        (record { content = F.content files.new; faults = F.faults files.new })
        (record { written = S.written out.old; faults = S.faults out.old })
        (record { written = S.written out.new; faults = S.faults out.new }) result }
    // It is done only where FILE is read as an object that holds rows, and then their lines were printed.
    ensures dumped { result ≡ Status.Done → IsDumped file.now (F.content files.old) (S.written out.old) (S.written out.new) }
    // Such a FILE isn't refused.
    ensures accepts { (bytes : List ℕ) (object : Elf) (rows : List PlacedRow) (held : Content)
        → F.content files.old ≡ Some held → reading held file.now MAX_FILE_BYTES ≡ Ok bytes → HoldsRows bytes object rows
        → IsAnswered result }
    ensures unchanged { F.content files.new ≡ F.content files.old }
    ensures files_later { F.faults files.old ≤ F.faults files.new }
    ensures out_later { S.faults out.old ≤ S.faults out.new }
    ensures output_failed { S.faults out.old < S.faults out.new → IsOutputFault result }
{
    match read_file(alloc, file, MAX_FILE_BYTES, files) {
        Ok(bytes) => dump_bytes(alloc, bytes.as_slice(), out),
        Err(stop) => conclude(alloc, stop, out),
    }
}
