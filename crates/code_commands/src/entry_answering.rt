//! What is answered of the bytes of an input.

ghost use Rattle.std.specs.Prelude.{◌<◌, ◌≤◌, length, option_map};
ghost use Rattle.elf_objects.specs.Object.{IsObject};
ghost use Rattle.command_base.specs.Outside.{Outside};
ghost use Rattle.command_base.specs.Printing.{IsOutputFault};
ghost use Rattle.code_commands.specs.Entry.{EndsEntry};
ghost use Rattle.command_base.specs.Inputs.{IsRead};

use crate::entry_finding::warnings_of;
use crate::entry_words::EntryAsked;
use command_base::{Status, conclude, parse_stop, print_warnings};
use elf_objects::{MAX_FILE_BYTES, Object};
use ot_base::Lists;
use ot_files::Sink;
use std::alloc::Global;

/// Checks the object that the bytes are that were read of the input, under lists of names. Prints the warnings, where it breaks rules,
/// and nothing where it breaks none; or tells why it isn't checked.
fn answer_object<S: Sink>(
    alloc: Global,
    asked: EntryAsked<'_>,
    bytes: &[u8],
    object: &Object<'_>,
    lists: &Lists,
    out: &mut S,
) -> Status
    requires few { length object.now.bytes ≤ MAX_FILE_BYTES }
    requires object { IsObject bytes.now object.now }
    ensures ends { (before after : Outside)
        → IsRead before.content asked.entry.input.now (option_map (λ file. file.now) asked.entry.names) bytes.now lists.now
        → EndsEntry asked.entry.map asked.entry.options asked.entry.input.now (option_map (λ file. file.now) asked.entry.names) before after
        (record { written = S.written out.old; faults = S.faults out.old })
        (record { written = S.written out.new; faults = S.faults out.new }) result }
    ensures later { S.faults out.old ≤ S.faults out.new }
    ensures output_failed { S.faults out.old < S.faults out.new → IsOutputFault result }
{
    let warnings = match warnings_of(alloc, asked.map, object, lists, asked.options) {
        Ok(warnings) => warnings,
        Err(stop) => return conclude(alloc, stop, out),
    };
    if warnings.is_empty() {
        return Status::Done;
    }
    print_warnings(alloc, object, &warnings, out)
}

/// Checks the bytes that were read of the input under lists of names. Prints the warnings, where they break rules,
/// and nothing where they break none; or tells why they aren't checked.
pub(crate) fn answer<S: Sink>(
    alloc: Global,
    asked: EntryAsked<'_>,
    bytes: &[u8],
    lists: &Lists,
    out: &mut S,
) -> Status
    requires { length bytes.now ≤ MAX_FILE_BYTES }
    ensures ends { (before after : Outside)
        → IsRead before.content asked.entry.input.now (option_map (λ file. file.now) asked.entry.names) bytes.now lists.now
        → EndsEntry asked.entry.map asked.entry.options asked.entry.input.now (option_map (λ file. file.now) asked.entry.names) before after
        (record { written = S.written out.old; faults = S.faults out.old })
        (record { written = S.written out.new; faults = S.faults out.new }) result }
    ensures later { S.faults out.old ≤ S.faults out.new }
    ensures output_failed { S.faults out.old < S.faults out.new → IsOutputFault result }
{
    match Object::parse(alloc, bytes) {
        Ok(object) => answer_object(alloc, asked, bytes, &object, lists, out),
        Err(fault) => conclude(alloc, parse_stop(fault), out),
    }
}
