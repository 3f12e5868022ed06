//! The command `list FILE`.

ghost use Rattle.std.specs.Prelude.{◌≡◌, ◌<◌, ◌≤◌, ℕ, List, Ok, Some, IfErr, IsErrOf, OnOk, length};
ghost use Rattle.ot_files.specs.Content.{Content, reading};
ghost use Rattle.ot_files.specs.Output.{appending};
ghost use Rattle.elf_objects.specs.Elf.{Elf};
ghost use Rattle.site_lists.specs.Listed.{Listed, listed};
ghost use Rattle.command_base.specs.Dump.{IsAnswered};
ghost use Rattle.command_base.specs.Printing.{FailsToPrint, IsOutputFault, Prints};
ghost use Rattle.command_base.specs.declared.status.Status.TheVariants as status;
ghost use Rattle.command_base.specs.declared.stop.CommandStop.{CommandStop as StopValue};
ghost use Rattle.command_base.specs.List.{EndsList, HoldsLists, IsListed, ListsBytes, list_text, lists_text, site_line};
ghost use Rattle.command_base.specs.Refusing.{IsRefusedOrFails, Tells};
ghost use Rattle.command_base.specs.ListRefused.{RefusesList};

use crate::sites_text::push_line;
use crate::{Status, conclude, parse_stop, print_part, read_file, sites_stop};
use elf_objects::{MAX_FILE_BYTES, Object};
use ot_base::{NoMemory, Place};
use ot_files::{Files, Sink};
use site_lists::{SiteLists, decode};
use std::alloc::Global;

/// Prints the line of a site, which is made in `line`.
fn print_site<S: Sink>(
    object: &Object<'_>,
    word: &'static str,
    place: Place,
    line: &mut Vec<u8>,
    out: &mut S,
) -> Result<(), Status>
    ensures ok { OnOk result (S.written out.new ≡ appending (S.written out.old) (site_line object.now word.now place)) }
    ensures err { IfErr result (FailsToPrint (site_line object.now word.now place)
        (record { written = S.written out.old; faults = S.faults out.old })
        (record { written = S.written out.new; faults = S.faults out.new })) }
    ensures later { S.faults out.old ≤ S.faults out.new }
    ensures output_failed { S.faults out.old < S.faults out.new → IsErrOf result Status.SinkFault }
{
    line.clear();
    match push_line(object, word, place, line) {
        Ok(()) => print_part(line.as_slice(), out),
        Err(NoMemory) => Err(Status::NoMemory),
    }
}

/// Prints the line of each place of the list with this word.
fn print_places<S: Sink>(
    alloc: Global,
    object: &Object<'_>,
    word: &'static str,
    places: &[Place],
    out: &mut S,
) -> Result<(), Status>
    ensures ok { OnOk result (S.written out.new ≡ appending (S.written out.old) (list_text object.now word.now places.now)) }
    ensures err { IfErr result (FailsToPrint (list_text object.now word.now places.now)
        (record { written = S.written out.old; faults = S.faults out.old })
        (record { written = S.written out.new; faults = S.faults out.new })) }
    ensures later { S.faults out.old ≤ S.faults out.new }
    ensures output_failed { S.faults out.old < S.faults out.new → IsErrOf result Status.SinkFault }
{
    let mut line = Vec::new(alloc);
    for place in places {
        print_site(object, word, *place, &mut line, out)?;
    }
    Ok(())
}

/// Prints the lines of three site lists.
fn print_parts<S: Sink>(
    alloc: Global,
    object: &Object<'_>,
    lists: &SiteLists,
    out: &mut S,
) -> Result<(), Status>
    ensures ok { OnOk result (S.written out.new ≡ appending (S.written out.old) (lists_text object.now (listed lists.now))) }
    ensures err { IfErr result (FailsToPrint (lists_text object.now (listed lists.now))
        (record { written = S.written out.old; faults = S.faults out.old })
        (record { written = S.written out.new; faults = S.faults out.new })) }
    ensures later { S.faults out.old ≤ S.faults out.new }
    ensures output_failed { S.faults out.old < S.faults out.new → IsErrOf result Status.SinkFault }
{
    print_places(alloc, object, "retpoline", &lists.retpoline, out)?;
    print_places(alloc, object, "return", &lists.returns, out)?;
    print_places(alloc, object, "call", &lists.calls, out)?;
    Ok(())
}

/// Prints three site lists, and gives the status that the command ends with.
fn print_lists<S: Sink>(
    alloc: Global,
    object: &Object<'_>,
    lists: &SiteLists,
    out: &mut S,
) -> Status
    ensures printed { Prints status.Done (lists_text object.now (listed lists.now))
        (record { written = S.written out.old; faults = S.faults out.old })
        (record { written = S.written out.new; faults = S.faults out.new }) result }
    ensures later { S.faults out.old ≤ S.faults out.new }
    ensures output_failed { S.faults out.old < S.faults out.new → IsOutputFault result }
{
    match print_parts(alloc, object, lists, out) {
        Ok(()) => Status::Done,
        Err(status) => status,
    }
}

/// Prints the site lists of an object, or why there are none.
fn list_bytes<S: Sink>(alloc: Global, bytes: &[u8], out: &mut S) -> Status
    requires { length bytes.now ≤ MAX_FILE_BYTES }
    ensures ends { ListsBytes bytes.now
        (record { written = S.written out.old; faults = S.faults out.old })
        (record { written = S.written out.new; faults = S.faults out.new }) result }
    ensures later { S.faults out.old ≤ S.faults out.new }
    ensures output_failed { S.faults out.old < S.faults out.new → IsOutputFault result }
{
    let object = match Object::parse(alloc, bytes) {
        Ok(object) => object,
        Err(fault) => return conclude(alloc, parse_stop(fault), out),
    };
    match decode(alloc, &object) {
        Ok(lists) => print_lists(alloc, &object, &lists, out),
        Err(fault) => conclude(alloc, sites_stop(fault), out),
    }
}

/// Reads FILE, and prints its site lists, or why there are none.
fn read_and_list<F: Files, S: Sink>(alloc: Global, file: &str, files: &mut F, out: &mut S) -> Status
    ensures ends { EndsList file.now
        (record { content = F.content files.old; faults = F.faults files.old })
        (record { content = F.content files.new; faults = F.faults files.new })
        (record { written = S.written out.old; faults = S.faults out.old })
        (record { written = S.written out.new; faults = S.faults out.new }) result }
    ensures unchanged { F.content files.new ≡ F.content files.old }
    ensures files_later { F.faults files.old ≤ F.faults files.new }
    ensures out_later { S.faults out.old ≤ S.faults out.new }
    ensures output_failed { S.faults out.old < S.faults out.new → IsOutputFault result }
{
    match read_file(alloc, file, MAX_FILE_BYTES, files) {
        Ok(bytes) => list_bytes(alloc, bytes.as_slice(), out),
        Err(stop) => conclude(alloc, stop, out),
    }
}

/// Prints the site lists of the object FILE, one line for each place, or why there are none, and gives the status
/// that the command ends with. No file is changed.
pub fn list<F: Files, S: Sink>(alloc: Global, file: &str, files: &mut F, out: &mut S) -> Status
    // What was told to the output, and why.
    ensures ends { EndsList file.now
        (record { content = F.content files.old; faults = F.faults files.old })
        (record { content = F.content files.new; faults = F.faults files.new })
        (record { written = S.written out.old; faults = S.faults out.old })
        (record { written = S.written out.new; faults = S.faults out.new }) result }
    // It is done only where FILE is read as an object that holds site lists, and then their lines were printed.
    ensures lists { result ≡ Status.Done → IsListed file.now (F.content files.old) (S.written out.old) (S.written out.new) }
    // Such a FILE isn't refused.
    ensures accepts { (bytes : List ℕ) (object : Elf) (lists : Listed) (held : Content)
        → F.content files.old ≡ Some held → reading held file.now MAX_FILE_BYTES ≡ Ok bytes → HoldsLists bytes object lists
        → IsAnswered result }
    // Where the files tell their content: it is refused only where a step finds a refusal, the first that fails, and
    // exactly its line was printed. And where one does, it is refused, unless a fault or want of memory is answered.
    ensures refused { (held : Content) → result ≡ Status.Refused → F.content files.old ≡ Some held
        → Tells (RefusesList file.now held) (S.written out.old) (S.written out.new) }
    ensures refuses { (held : Content) (stop : StopValue) → F.content files.old ≡ Some held
        → RefusesList file.now held stop → IsRefusedOrFails result }
    ensures unchanged { F.content files.new ≡ F.content files.old }
    ensures files_later { F.faults files.old ≤ F.faults files.new }
    ensures out_later { S.faults out.old ≤ S.faults out.new }
    ensures output_failed { S.faults out.old < S.faults out.new → IsOutputFault result }
{
    read_and_list(alloc, file, files, out)
}
