//! The command `find TABLE ADDR`.

ghost use Rattle.std.specs.Prelude.{◌≡◌, ◌<◌, ◌≤◌, ℕ, List, Ok, Some};
ghost use Rattle.ot_files.specs.Causes.{Rose};
ghost use Rattle.ot_files.specs.Content.{Content, reading};
ghost use Rattle.table_defs.specs.Lookup.{AddressedRow};
ghost use Rattle.orc_merge.specs.Merged.{IsMergedTable};
ghost use Rattle.orc_merge.specs.TableBytes.{table_bytes};
ghost use Rattle.command_base.specs.Dump.{IsAnswered};
ghost use Rattle.command_base.specs.Printing.{IsOutputFault, Prints};
ghost use Rattle.command_base.specs.declared.status.Status.TheVariants as status;
ghost use Rattle.command_base.specs.declared.stop.CommandStop.{CommandStop as StopValue};
ghost use Rattle.command_base.specs.Find.{EndsFind, Finds, IsFound, found_line};
ghost use Rattle.command_base.specs.Refusing.{IsRefusedOrFails, Tells};
ghost use Rattle.command_base.specs.MergeRefused.{RefusesFind};

use crate::{Status, conclude, print_line, read_file, table_stop};
use elf_objects::MAX_FILE_BYTES;
use orc_merge::Merged;
use ot_base::{Row, RowWords};
use ot_files::{Files, Sink};
use std::alloc::Global;
use std::fmt;

/// The line of what holds at an address.
#[derive(Clone, Copy)]
struct FoundLine {
    address: u64,
    row: Option<Row>,
}

impl fmt::Display for FoundLine {
    ghost output = { λ l. Some (found_line l.address l.row) };

    #[tactic(auto, unfolding(crate::specs::Find::found_line))]
    fn fmt<W: fmt::Write>(&self, f: &mut fmt::Formatter<W>) -> fmt::Result {
        let address = self.address;
        match self.row {
            Some(row) => writeln!(f, "0x{address:x}: {}", RowWords(row)),
            None => writeln!(f, "no row"),
        }
    }
}

/// Prints the line of what holds at an address.
fn print_found<S: Sink>(alloc: Global, address: u64, row: Option<Row>, out: &mut S) -> Status
    ensures printed { Prints status.Done (found_line address row)
        (record { written = S.written out.old; faults = S.faults out.old })
        (record { written = S.written out.new; faults = S.faults out.new }) result }
    ensures later { S.faults out.old ≤ S.faults out.new }
    ensures output_failed { S.faults out.old < S.faults out.new → IsOutputFault result }
{
    let line = FoundLine { address, row };
    match format!(in alloc; "{line}") {
        Ok(text) => print_line(Status::Done, text.as_bytes(), out),
        Err(_) => Status::NoMemory,
    }
}

/// Prints what holds at an address in the table of these bytes, or why they are none.
fn find_bytes<S: Sink>(alloc: Global, bytes: &[u8], address: u64, out: &mut S) -> Status
    ensures ends { Finds bytes.now address
        (record { written = S.written out.old; faults = S.faults out.old })
        (record { written = S.written out.new; faults = S.faults out.new }) result }
    ensures later { S.faults out.old ≤ S.faults out.new }
    ensures output_failed { S.faults out.old < S.faults out.new → IsOutputFault result }
{
    match Merged::parse(alloc, bytes) {
        Ok(mut table) => {
            let row = table.find(address);
            print_found(alloc, address, row, out)
        }
        Err(fault) => conclude(alloc, table_stop(fault), out),
    }
}

/// Prints the row of the table TABLE that holds at an address, or that there is none; or why TABLE is no table. Gives
/// the status that the command ends with. No file is changed.
pub fn find<F: Files, S: Sink>(
    alloc: Global,
    table: &str,
    address: u64,
    files: &mut F,
    out: &mut S,
) -> Status
    // What was told to the output, and why.
    ensures ends { EndsFind table.now address
        (record { content = F.content files.old; faults = F.faults files.old })
        (record { content = F.content files.new; faults = F.faults files.new })
        (record { written = S.written out.old; faults = S.faults out.old })
        (record { written = S.written out.new; faults = S.faults out.new }) result }

    // It is done only where TABLE is read as a table, and then exactly the line of what holds at the address was
    // printed.
    ensures found { result ≡ Status.Done → IsFound table.now address (F.content files.old) (S.written out.old) (S.written out.new) }

    // Such a TABLE isn't refused.
    ensures accepts { (bytes : List ℕ) (rows : List AddressedRow) (held : Content)
        → F.content files.old ≡ Some held → reading held table.now MAX_FILE_BYTES ≡ Ok bytes
        → IsMergedTable rows → bytes ≡ table_bytes rows → IsAnswered result }

    // Where the files tell their content: status 2 comes only where a step finds a refusal, the first that fails, and
    // exactly its line was printed. And where one does, status 2 comes, unless a fault or want of memory is answered.
    ensures refused { (held : Content) → result ≡ Status.Refused → F.content files.old ≡ Some held
        → Tells (RefusesFind table.now held) (S.written out.old) (S.written out.new) }
    ensures refuses { (held : Content) (stop : StopValue) → F.content files.old ≡ Some held
        → RefusesFind table.now held stop → IsRefusedOrFails result }
    ensures unchanged { F.content files.new ≡ F.content files.old }

    // A fault is answered only where its count rose in this call, and no count falls.
    ensures file_fault { result ≡ Status.FileFault → Rose (F.faults files.old) (F.faults files.new) }
    ensures sink_fault { result ≡ Status.SinkFault → Rose (S.faults out.old) (S.faults out.new) }
    ensures files_later { F.faults files.old ≤ F.faults files.new }
    ensures out_later { S.faults out.old ≤ S.faults out.new }
    ensures output_failed { S.faults out.old < S.faults out.new → IsOutputFault result }
{
    match read_file(alloc, table, MAX_FILE_BYTES, files) {
        Ok(bytes) => find_bytes(alloc, bytes.as_slice(), address, out),
        Err(stop) => conclude(alloc, stop, out),
    }
}
