//! The command `sites IN OUT`.

ghost use Rattle.std.specs.Prelude.{◌≡◌, ◌≢◌, ◌⊎◌, ◌<◌, ◌≤◌, ℕ, List, Ok, Some, length, option_map};
ghost use Rattle.ot_base.specs.NameLists.{NameLists};
ghost use Rattle.ot_files.specs.Content.{Content, reading};
ghost use Rattle.elf_objects.specs.Elf.{Elf};
ghost use Rattle.elf_objects.specs.Object.{IsObject};
ghost use Rattle.flow_defs.specs.Coded.{coded_by};
ghost use Rattle.command_base.specs.Dump.{IsAnswered};
ghost use Rattle.command_base.specs.Names.{HasNames};
ghost use Rattle.command_base.specs.Printing.{IsOutputFault};
ghost use Rattle.command_base.specs.declared.stop.CommandStop.{CommandStop as StopValue};
ghost use Rattle.code_commands.specs.SitesOrder.{GetsSites};
ghost use Rattle.command_base.specs.Refusing.{IsRefusedOrFails, Tells};
ghost use Rattle.code_commands.specs.SitesRefused.{RefusesSites};
ghost use Rattle.code_commands.specs.Sites.{EndsSites, OutListsSites, SitesMayChange};
ghost use Rattle.command_base.specs.Inputs.{IsRead};

use crate::sites_words::SitesAsked;
use crate::sites_writing::with_its_sites;
use command_base::{Status, conclude, parse_stop, read_file, read_names, write_file};
use elf_objects::{MAX_FILE_BYTES, Object};
use ot_base::Lists;
use ot_files::{Files, Sink};
use std::alloc::Global;
use x86_decode::one_outcome;

/// Writes the input, of which these bytes were read, with the lists of its sites to the output file, under lists of function names,
/// or tells why it gets none.
fn add_sites<F: Files, S: Sink>(
    alloc: Global,
    asked: SitesAsked<'_>,
    bytes: &[u8],
    lists: &Lists,
    files: &mut F,
    out: &mut S,
) -> Status
    requires few { length bytes.now ≤ MAX_FILE_BYTES }
    requires read { IsRead (F.content files.old) asked.input.now (option_map (λ file. file.now) asked.names) bytes.now lists.now }
    ensures ends { EndsSites asked.entry.options asked.entry.map asked.entry.input.now asked.entry.output.now (option_map (λ file. file.now) asked.entry.names)
        (record { content = F.content files.old; faults = F.faults files.old })
        (record { content = F.content files.new; faults = F.faults files.new })
        (record { written = S.written out.old; faults = S.faults out.old })
        (record { written = S.written out.new; faults = S.faults out.new }) result }
    ensures files_later { F.faults files.old ≤ F.faults files.new }
    ensures out_later { S.faults out.old ≤ S.faults out.new }
    ensures output_failed { S.faults out.old < S.faults out.new → IsOutputFault result }
{
    let object = match Object::parse(alloc, bytes) {
        Ok(object) => object,
        Err(fault) => return conclude(alloc, parse_stop(fault), out),
    };
    let file = match with_its_sites(alloc, asked.map, asked.options, &object, lists) {
        Ok(file) => file,
        Err(stop) => return conclude(alloc, stop, out),
    };
    match write_file(asked.output, file.as_slice(), files) {
        Ok(()) => Status::Done,
        Err(stop) => conclude(alloc, stop, out),
    }
}

/// Reads the input and the names file, and writes the input with the lists of its sites to the output file, or tells
/// why it doesn't.
fn read_and_add<F: Files, S: Sink>(
    alloc: Global,
    asked: SitesAsked<'_>,
    files: &mut F,
    out: &mut S,
) -> Status
    ensures ends { EndsSites asked.entry.options asked.entry.map asked.entry.input.now asked.entry.output.now (option_map (λ file. file.now) asked.entry.names)
        (record { content = F.content files.old; faults = F.faults files.old })
        (record { content = F.content files.new; faults = F.faults files.new })
        (record { written = S.written out.old; faults = S.faults out.old })
        (record { written = S.written out.new; faults = S.faults out.new }) result }
    ensures files_later { F.faults files.old ≤ F.faults files.new }
    ensures out_later { S.faults out.old ≤ S.faults out.new }
    ensures output_failed { S.faults out.old < S.faults out.new → IsOutputFault result }
{
    let bytes = match read_file(alloc, asked.input, MAX_FILE_BYTES, files) {
        Ok(bytes) => bytes,
        Err(stop) => return conclude(alloc, stop, out),
    };
    match read_names(alloc, asked.names, files) {
        Ok(lists) => add_sites(alloc, asked, bytes.as_slice(), &lists, files, out),
        Err(stop) => conclude(alloc, stop, out),
    }
}

/// Reads the object IN, and writes it to OUT with its three site lists, which hold the sites of its code, and with
/// the section symbols that these need; or tells why there are none. Of the names of a names file, where one is given, those of
/// loose code count alone: there hints may be written that are refused elsewhere. Gives the status that the command ends with.
///
/// It reads the code, and doesn't follow its control flow: no rule of stack validation is tested.
pub fn sites<F: Files, S: Sink>(
    alloc: Global,
    asked: SitesAsked<'_>,
    files: &mut F,
    out: &mut S,
) -> Status
    // What was done to the files and told to the output, and why.
    ensures ends { EndsSites asked.entry.options asked.entry.map asked.entry.input.now asked.entry.output.now (option_map (λ file. file.now) asked.entry.names)
        (record { content = F.content files.old; faults = F.faults files.old })
        (record { content = F.content files.new; faults = F.faults files.new })
        (record { written = S.written out.old; faults = S.faults out.old })
        (record { written = S.written out.new; faults = S.faults out.new }) result }
    // Where it is done and the files tell their content, OUT holds IN with its site lists and the section symbols
    // that these need, and nothing else is changed; its site lists are exactly the sites of IN's code.
    ensures lists { result ≡ Status.Done
        → OutListsSites asked.entry.options asked.entry.map asked.entry.input.now asked.entry.output.now (F.content files.old) (F.content files.new) }
    // An input that gets site lists is refused nowhere, with a names file in order where one is given: it is done,
    // unless a fault or want of memory is answered.
    ensures accepts { (read : List ℕ) (object : Elf) (lists : NameLists) (held : Content)
        → F.content files.old ≡ Some held → reading held asked.entry.input.now MAX_FILE_BYTES ≡ Ok read
        → HasNames (Some held) (option_map (λ file. file.now) asked.entry.names) lists
        → IsObject read object → GetsSites asked.entry.options (coded_by asked.entry.map object) lists
        → IsAnswered result }
    // Where the files tell their content: it is refused only where a step finds a refusal, the first that fails, and
    // exactly its line was printed. And where one does, it is refused, unless a fault or want of memory is answered.
    ensures refused { (held : Content) → result ≡ Status.Refused → F.content files.old ≡ Some held
        → Tells (RefusesSites asked.entry.options asked.entry.map asked.entry.input.now (option_map (λ file. file.now) asked.entry.names) held) (S.written out.old) (S.written out.new) }
    ensures refuses { (held : Content) (stop : StopValue) → F.content files.old ≡ Some held
        → RefusesSites asked.entry.options asked.entry.map asked.entry.input.now (option_map (λ file. file.now) asked.entry.names) held stop → IsRefusedOrFails result }
    // A file is changed only at these answers, only where IN gets site lists, and only OUT.
    ensures unchanged { result ≢ Status.Done → result ≢ Status.FileFault → result ≢ Status.NoMemory → F.content files.new ≡ F.content files.old }
    ensures changes { (F.content files.new ≡ F.content files.old)
        ⊎ SitesMayChange asked.entry.options asked.entry.map asked.entry.input.now asked.entry.output.now (option_map (λ file. file.now) asked.entry.names) (F.content files.old) (F.content files.new) }
    // Nothing is told where it is done.
    ensures silent { result ≡ Status.Done → S.written out.new ≡ S.written out.old }
    ensures files_later { F.faults files.old ≤ F.faults files.new }
    ensures out_later { S.faults out.old ≤ S.faults out.new }
    ensures output_failed { S.faults out.old < S.faults out.new → IsOutputFault result }
{
    one_outcome();
    read_and_add(alloc, asked, files, out)
}
