//! What is shown of the bytes of an input.

ghost use Rattle.std.specs.Prelude.{◌<◌, ◌≤◌, length, option_map};
ghost use Rattle.elf_objects.specs.Object.{IsObject};
ghost use Rattle.command_base.specs.Outside.{Outside};
ghost use Rattle.command_base.specs.Printing.{IsOutputFault};
ghost use Rattle.command_base.specs.Inputs.{IsRead};
ghost use Rattle.code_commands.specs.Show.{EndsShow};

use crate::show_code::{code_of, missing_function};
use crate::show_printing::print_listing;
use crate::show_words::ShowAsked;
use command_base::{CommandStop, Refusal, Status, conclude, parse_stop};
use elf_objects::{MAX_FILE_BYTES, Object};
use ot_base::Lists;
use ot_files::Sink;
use std::alloc::Global;

/// Prints the listing of the program of the object that the bytes are that were read of the input, under lists of names; or tells why
/// there is none.
fn show_object<S: Sink>(
    alloc: Global,
    asked: ShowAsked<'_>,
    bytes: &[u8],
    object: &Object<'_>,
    lists: &Lists,
    out: &mut S,
) -> Status
    requires few { length object.now.bytes ≤ MAX_FILE_BYTES }
    requires object { IsObject bytes.now object.now }
    ensures ends { (before after : Outside)
        → IsRead before.content asked.entry.input.now (option_map (λ file. file.now) asked.entry.names) bytes.now lists.now
        → EndsShow asked.entry.map asked.entry.input.now (option_map (λ file. file.now) asked.entry.names) (option_map (λ name. name.now) asked.entry.function) before after
        (record { written = S.written out.old; faults = S.faults out.old })
        (record { written = S.written out.new; faults = S.faults out.new }) result }
    ensures later { S.faults out.old ≤ S.faults out.new }
    ensures output_failed { S.faults out.old < S.faults out.new → IsOutputFault result }
{
    let code = match code_of(alloc, asked.map, object, lists) {
        Ok(code) => code,
        Err(stop) => return conclude(alloc, stop, out),
    };
    match missing_function(object, &code.graph, asked.function) {
        Some(name) => conclude(
            alloc,
            CommandStop::Refused(Refusal::NoFunction { name }),
            out,
        ),
        None => print_listing(alloc, object, &code.graph, &code.kept, asked.function, out),
    }
}

/// Prints the listing of the program of the bytes that were read of the input, under lists of names; or tells why there is none.
pub(crate) fn show_bytes<S: Sink>(
    alloc: Global,
    asked: ShowAsked<'_>,
    bytes: &[u8],
    lists: &Lists,
    out: &mut S,
) -> Status
    requires { length bytes.now ≤ MAX_FILE_BYTES }
    ensures ends { (before after : Outside)
        → IsRead before.content asked.entry.input.now (option_map (λ file. file.now) asked.entry.names) bytes.now lists.now
        → EndsShow asked.entry.map asked.entry.input.now (option_map (λ file. file.now) asked.entry.names) (option_map (λ name. name.now) asked.entry.function) before after
        (record { written = S.written out.old; faults = S.faults out.old })
        (record { written = S.written out.new; faults = S.faults out.new }) result }
    ensures later { S.faults out.old ≤ S.faults out.new }
    ensures output_failed { S.faults out.old < S.faults out.new → IsOutputFault result }
{
    match Object::parse(alloc, bytes) {
        Ok(object) => show_object(alloc, asked, bytes, &object, lists, out),
        Err(fault) => conclude(alloc, parse_stop(fault), out),
    }
}
