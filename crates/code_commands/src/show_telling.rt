//! The command `show IN`.

ghost use Rattle.std.specs.Prelude.{◌≡◌, ◌<◌, ◌≤◌, ℕ, List, Ok, Some, option_map};
ghost use Rattle.ot_base.specs.NameLists.{NameLists};
ghost use Rattle.ot_files.specs.Causes.{Rose};
ghost use Rattle.ot_files.specs.Content.{Content, reading};
ghost use Rattle.elf_objects.specs.Elf.{Elf};
ghost use Rattle.elf_objects.specs.Object.{IsObject};
ghost use Rattle.flow_defs.specs.Coded.{coded_by};
ghost use Rattle.flow_defs.specs.Program.{program_of};
ghost use Rattle.command_base.specs.Code.{IsInOrder};
ghost use Rattle.command_base.specs.Dump.{IsAnswered};
ghost use Rattle.command_base.specs.Names.{HasNames};
ghost use Rattle.command_base.specs.Printing.{IsOutputFault};
ghost use Rattle.command_base.specs.Refusing.{IsRefusedOrFails, Tells};
ghost use Rattle.command_base.specs.declared.stop.CommandStop.{CommandStop as StopValue};
ghost use Rattle.code_commands.specs.Show.{EndsShow, HasCode, PrintsListing};
ghost use Rattle.code_commands.specs.ShowRefused.{RefusesShow};

use crate::show_answering::show_bytes;
use crate::show_words::ShowAsked;
use command_base::{Status, conclude, read_file, read_names};
use elf_objects::MAX_FILE_BYTES;
use ot_files::{Files, Sink};
use std::alloc::Global;
use x86_decode::one_outcome;

/// Reads the input and the names file, shows the input, and tells why where it stops.
fn read_and_show<F: Files, S: Sink>(
    alloc: Global,
    asked: ShowAsked<'_>,
    files: &mut F,
    out: &mut S,
) -> Status
    ensures ends { EndsShow asked.entry.map asked.entry.input.now (option_map (λ file. file.now) asked.entry.names) (option_map (λ name. name.now) asked.entry.function)
        (record { content = F.content files.old; faults = F.faults files.old })
        (record { content = F.content files.new; faults = F.faults files.new })
        (record { written = S.written out.old; faults = S.faults out.old })
        (record { written = S.written out.new; faults = S.faults out.new }) result }
    ensures unchanged { F.content files.new ≡ F.content files.old }
    ensures files_later { F.faults files.old ≤ F.faults files.new }
    ensures out_later { S.faults out.old ≤ S.faults out.new }
    ensures output_failed { S.faults out.old < S.faults out.new → IsOutputFault result }
{
    let bytes = match read_file(alloc, asked.input, MAX_FILE_BYTES, files) {
        Ok(bytes) => bytes,
        Err(stop) => return conclude(alloc, stop, out),
    };
    match read_names(alloc, asked.names, files) {
        Ok(lists) => show_bytes(alloc, asked, bytes.as_slice(), &lists, out),
        Err(stop) => conclude(alloc, stop, out),
    }
}

/// Reads the object IN and the names file, where one is given, and prints the program of IN as the checker sees it: a heading for each
/// run of points of one function, and a line for each point, with the state that is kept there; where a function's name is given, only
/// the code of the functions of this name. Or it tells why there is nothing to show. Gives the status that the command ends with.
///
/// It reads the code, how control goes through it and which states come to its points, and tests no rule of stack validation.
pub fn show<F: Files, S: Sink>(
    alloc: Global,
    asked: ShowAsked<'_>,
    files: &mut F,
    out: &mut S,
) -> Status
    // What was told to the output, and why.
    ensures ends { EndsShow asked.entry.map asked.entry.input.now (option_map (λ file. file.now) asked.entry.names) (option_map (λ name. name.now) asked.entry.function)
        (record { content = F.content files.old; faults = F.faults files.old })
        (record { content = F.content files.new; faults = F.faults files.new })
        (record { written = S.written out.old; faults = S.faults out.old })
        (record { written = S.written out.new; faults = S.faults out.new }) result }

    // It is done only where IN is read as an object in order with code of what is asked for, and then exactly the listing of its
    // program, under the states that are kept there, was printed.
    ensures shows { result ≡ Status.Done
        → PrintsListing asked.entry.map asked.entry.input.now (option_map (λ file. file.now) asked.entry.names) (option_map (λ name. name.now) asked.entry.function) (F.content files.old) (S.written out.old) (S.written out.new) }

    // Such an IN isn't refused.
    ensures accepts { (read : List ℕ) (object : Elf) (lists : NameLists) (held : Content)
        → F.content files.old ≡ Some held → reading held asked.entry.input.now MAX_FILE_BYTES ≡ Ok read
        → HasNames (Some held) (option_map (λ file. file.now) asked.entry.names) lists
        → IsObject read object → IsInOrder (coded_by asked.entry.map object) lists
        → HasCode object (program_of (coded_by asked.entry.map object) lists) (option_map (λ name. name.now) asked.entry.function)
        → IsAnswered result }

    // Where the files tell their content: it is refused only where a step finds a refusal, the first that fails, and
    // exactly its line was printed. And where one does, it is refused, unless a fault or want of memory is answered.
    ensures refused { (held : Content) → result ≡ Status.Refused → F.content files.old ≡ Some held
        → Tells (RefusesShow asked.entry.map asked.entry.input.now (option_map (λ file. file.now) asked.entry.names) (option_map (λ name. name.now) asked.entry.function) held) (S.written out.old) (S.written out.new) }
    ensures refuses { (held : Content) (stop : StopValue) → F.content files.old ≡ Some held
        → RefusesShow asked.entry.map asked.entry.input.now (option_map (λ file. file.now) asked.entry.names) (option_map (λ name. name.now) asked.entry.function) held stop → IsRefusedOrFails result }

    // No file is changed.
    ensures unchanged { F.content files.new ≡ F.content files.old }

    // A fault is answered only where its count rose in this call, and no count falls. And where writing to the
    // output failed, that is answered, or the fault of the file whose line was being written.
    ensures file_fault { result ≡ Status.FileFault → Rose (F.faults files.old) (F.faults files.new) }
    ensures sink_fault { result ≡ Status.SinkFault → Rose (S.faults out.old) (S.faults out.new) }
    ensures files_later { F.faults files.old ≤ F.faults files.new }
    ensures out_later { S.faults out.old ≤ S.faults out.new }
    ensures output_failed { S.faults out.old < S.faults out.new → IsOutputFault result }
{
    one_outcome();
    read_and_show(alloc, asked, files, out)
}
