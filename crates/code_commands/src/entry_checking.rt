//! The command `entry IN`.

ghost use Rattle.std.specs.Prelude.{◌≡◌, ◌⊎◌, ◌<◌, ◌≤◌, ℕ, List, Ok, Some, option_map};
ghost use Rattle.ot_base.specs.NameLists.{NameLists};
ghost use Rattle.ot_files.specs.Causes.{Rose};
ghost use Rattle.ot_files.specs.Content.{Content, reading};
ghost use Rattle.elf_objects.specs.Elf.{Elf};
ghost use Rattle.elf_objects.specs.Object.{IsObject};
ghost use Rattle.flow_defs.specs.Coded.{coded_by};
ghost use Rattle.command_base.specs.Dump.{IsAnswered};
ghost use Rattle.command_base.specs.Names.{HasNames};
ghost use Rattle.command_base.specs.Printing.{IsOutputFault};
ghost use Rattle.command_base.specs.declared.stop.CommandStop.{CommandStop as StopValue};
ghost use Rattle.command_base.specs.Code.{IsInOrder};
ghost use Rattle.code_commands.specs.Entry.{BreaksEntryRule, EndsEntry, InKeepsEntryRules, IsUnbroken, PrintsEntryWarnings};
ghost use Rattle.command_base.specs.Refusing.{IsRefusedOrFails, IsWarnedOrFails, Tells};
ghost use Rattle.code_commands.specs.EntryRefused.{RefusesEntry};

use crate::entry_answering::answer;
use crate::entry_words::EntryAsked;
use command_base::{Status, conclude, read_file, read_names};
use elf_objects::MAX_FILE_BYTES;
use ot_files::{Files, Sink};
use std::alloc::Global;
use x86_decode::one_outcome;

/// Reads the input and the names file, checks the input, and tells why where it stops.
fn read_and_answer<F: Files, S: Sink>(
    alloc: Global,
    asked: EntryAsked<'_>,
    files: &mut F,
    out: &mut S,
) -> Status
    ensures ends { EndsEntry asked.entry.map asked.entry.options asked.entry.input.now (option_map (λ file. file.now) asked.entry.names)
        (record { content = F.content files.old; faults = F.faults files.old })
        (record { content = F.content files.new; faults = F.faults files.new })
        (record { written = S.written out.old; faults = S.faults out.old })
        (record { written = S.written out.new; faults = S.faults out.new }) result }
    ensures unchanged { F.content files.new ≡ F.content files.old }
    ensures files_later { F.faults files.old ≤ F.faults files.new }
    ensures out_later { S.faults out.old ≤ S.faults out.new }
    ensures output_failed { S.faults out.old < S.faults out.new → IsOutputFault result }
{
    let bytes = match read_file(alloc, asked.input, MAX_FILE_BYTES, files) {
        Ok(bytes) => bytes,
        Err(stop) => return conclude(alloc, stop, out),
    };
    match read_names(alloc, asked.names, files) {
        Ok(lists) => answer(alloc, asked, bytes.as_slice(), &lists, out),
        Err(stop) => conclude(alloc, stop, out),
    }
}

/// Reads the object IN and the names file, where one is given, and checks the code of IN against the entry rules
/// that the options ask for. Prints the line of each warning where there are some, and nothing where there are none;
/// or tells why IN isn't checked. Gives the status that the command ends with.
///
/// It reads the code and how control goes through it, and tests no rule of stack validation.
pub fn entry<F: Files, S: Sink>(
    alloc: Global,
    asked: EntryAsked<'_>,
    files: &mut F,
    out: &mut S,
) -> Status
    // What was told to the output, and why.
    ensures ends { EndsEntry asked.entry.map asked.entry.options asked.entry.input.now (option_map (λ file. file.now) asked.entry.names)
        (record { content = F.content files.old; faults = F.faults files.old })
        (record { content = F.content files.new; faults = F.faults files.new })
        (record { written = S.written out.old; faults = S.faults out.old })
        (record { written = S.written out.new; faults = S.faults out.new }) result }

    // Where it is done and the files tell their content: in every run on IN, wherever it is placed, what the options
    // ask for is kept. With `noinstr` calls and tail calls from code that isn't instrumented go to such code,
    // nothing outside is called from there, and it is left by its own returns alone; with `sls` an INT3 stands right
    // behind each return and each indirect jump that is come to; with `ibt` an indirect call or jump to an entry
    // whose address is taken comes to an ENDBR.
    ensures keeps { result ≡ Status.Done
        → InKeepsEntryRules asked.entry.map asked.entry.options asked.entry.input.now (option_map (λ file. file.now) asked.entry.names) (F.content files.old) }

    // Where warnings are answered, IN is read as an object whose program breaks exactly the rules that they tell,
    // and exactly their lines were printed.
    ensures warned { result ≡ Status.Warnings
        → PrintsEntryWarnings asked.entry.map asked.entry.options asked.entry.input.now (option_map (λ file. file.now) asked.entry.names) (F.content files.old) (S.written out.old) (S.written out.new) }

    // An input that breaks a rule that is asked for is neither refused nor done: its warnings are answered, unless a
    // fault or want of memory is. One that breaks none is done, unless one of these is answered.
    ensures warns { (read : List ℕ) (object : Elf) (lists : NameLists) (held : Content)
        → F.content files.old ≡ Some held → reading held asked.entry.input.now MAX_FILE_BYTES ≡ Ok read
        → HasNames (Some held) (option_map (λ file. file.now) asked.entry.names) lists
        → IsObject read object → IsInOrder (coded_by asked.entry.map object) lists
        → BreaksEntryRule (coded_by asked.entry.map object) lists asked.entry.options
        → IsWarnedOrFails result }
    ensures accepts { (read : List ℕ) (object : Elf) (lists : NameLists) (held : Content)
        → F.content files.old ≡ Some held → reading held asked.entry.input.now MAX_FILE_BYTES ≡ Ok read
        → HasNames (Some held) (option_map (λ file. file.now) asked.entry.names) lists
        → IsObject read object → IsInOrder (coded_by asked.entry.map object) lists
        → IsUnbroken (coded_by asked.entry.map object) lists asked.entry.options
        → IsAnswered result }

    // Where the files tell their content: it is refused only where a step finds a refusal, the first that fails, and
    // exactly its line was printed. And where one does, it is refused, unless a fault or want of memory is answered.
    ensures refused { (held : Content) → result ≡ Status.Refused → F.content files.old ≡ Some held
        → Tells (RefusesEntry asked.entry.map asked.entry.input.now (option_map (λ file. file.now) asked.entry.names) held) (S.written out.old) (S.written out.new) }
    ensures refuses { (held : Content) (stop : StopValue) → F.content files.old ≡ Some held
        → RefusesEntry asked.entry.map asked.entry.input.now (option_map (λ file. file.now) asked.entry.names) held stop → IsRefusedOrFails result }

    // No file is changed, and nothing is told where it is done.
    ensures unchanged { F.content files.new ≡ F.content files.old }
    ensures silent { result ≡ Status.Done → S.written out.new ≡ S.written out.old }

    // A fault is answered only where its count rose in this call, and no count falls. And where writing to the
    // output failed, that is answered, or the fault of the file whose line was being written.
    ensures file_fault { result ≡ Status.FileFault → Rose (F.faults files.old) (F.faults files.new) }
    ensures sink_fault { result ≡ Status.SinkFault → Rose (S.faults out.old) (S.faults out.new) }
    ensures files_later { F.faults files.old ≤ F.faults files.new }
    ensures out_later { S.faults out.old ≤ S.faults out.new }
    ensures output_failed { S.faults out.old < S.faults out.new → IsOutputFault result }
{
    one_outcome();
    read_and_answer(alloc, asked, files, out)
}
