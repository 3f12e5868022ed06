//! The command `unwind FILE IMAGE`.

ghost use Rattle.std.specs.Prelude.{◌≡◌, ◌<◌, ◌≤◌, ℕ, List, Ok, Some, None, length, IfErr, IfOk, IsErrOf, OnOk};
ghost use Rattle.ot_base.specs.declared.row.PlacedRow.{PlacedRow};
ghost use Rattle.ot_files.specs.Content.{Content, reading};
ghost use Rattle.ot_files.specs.Output.{appending};
ghost use Rattle.elf_objects.specs.Elf.{Elf};
ghost use Rattle.orc_walk.specs.ImageFile.{StackImage};
ghost use Rattle.command_base.specs.Dump.{IsAnswered};
ghost use Rattle.command_base.specs.declared.status.Status.TheVariants as status;
ghost use Rattle.command_base.specs.Printing.{FailsToPrint, IsOutputFault, Prints};
ghost use Rattle.command_base.specs.Unwind.{EndsUnwind, HasNoWalk, IsForeign, IsPlaced, IsUnwound, IsWalk, Unwinds, first_foreign, is_text_section, ranges_of};
ghost use Rattle.command_base.specs.WalkText.{frame_line, stop_line, walk_text};

use crate::walk_text::{FrameLine, StopLine};
use crate::{
    CommandStop, MAX_IMAGE_BYTES, Refusal, Status, conclude, image_stop, orc_stop, parse_stop,
    place_stop, print_part, read_file,
};
use elf_objects::{MAX_FILE_BYTES, Object};
use orc_bytes::decode;
use orc_walk::{Image, Range, Table, walk};
use ot_files::{Files, Sink};
use std::alloc::Global;
use table_defs::{Frame, Stop as WalkStop};

/// The frames of a walk, innermost first, and why it stopped.
#[derive(Drop)]
struct StackWalk {
    frames: Vec<Frame>,
    stop: WalkStop,
}

/// Whether a number is that of a text section.
pub fn is_text_section(object: &Object<'_>, sec: u32) -> bool
    ensures { result ≡ is_text_section object.now sec }
{
    sec < object.sections() && object.is_text(sec)
}

/// The sections at the bases that places tell, or the first place that names no text section.
pub fn ranges_of<'a>(
    alloc: Global,
    object: &Object<'_>,
    places: &[(u32, u64)],
) -> Result<Vec<Range>, CommandStop<'a>>
    ensures ranges { IfOk result (λ ranges. ranges.items ≡ ranges_of object.now places.now) }
    ensures texts { OnOk result (first_foreign object.now places.now ≡ None) }
    ensures foreign { IfErr result (IsForeign object.now places.now) }
{
    let mut ranges = Vec::new(alloc);
    for place in places {
        let (sec, base) = *place;
        if !is_text_section(object, sec) {
            return Err(CommandStop::Refused(Refusal::NoText { sec }));
        }
        let size = object.section(sec).size;
        if ranges.push(Range { sec, base, size }).is_err() {
            return Err(CommandStop::NoMemory);
        }
    }
    Ok(ranges)
}

/// The walk from the registers of an image over its memory, by the rows that an object holds.
fn walk_of<'a>(alloc: Global, bytes: &'a [u8], text: &[u8]) -> Result<StackWalk, CommandStop<'a>>
    requires { length bytes.now ≤ MAX_FILE_BYTES }
    ensures walks { IfOk result (λ w. IsWalk bytes.now text.now w.frames.items w.stop) }
    ensures none { IfErr result (HasNoWalk bytes.now text.now) }
{
    let image = match Image::parse(alloc, text) {
        Ok(image) => image,
        Err(fault) => return Err(image_stop(fault)),
    };
    let object = match Object::parse(alloc, bytes) {
        Ok(object) => object,
        Err(fault) => return Err(parse_stop(fault)),
    };
    let rows = match decode(alloc, &object) {
        Ok(rows) => rows,
        Err(fault) => return Err(orc_stop(fault)),
    };
    let ranges = match ranges_of(alloc, &object, image.places()) {
        Ok(ranges) => ranges,
        Err(stop) => return Err(stop),
    };
    let mut table = match Table::place(alloc, &rows, &ranges) {
        Ok(table) => table,
        Err(fault) => return Err(place_stop(fault)),
    };
    let regs = image.regs();
    let memory = image.into_memory();
    let mut frames = Vec::new(alloc);
    match walk(&mut table, regs, &memory, &mut frames) {
        WalkStop::NoMemory => Err(CommandStop::NoMemory),
        stop => Ok(StackWalk { frames, stop }),
    }
}

/// Prints the line of a frame with this number.
fn print_frame<S: Sink>(alloc: Global, number: u64, frame: Frame, out: &mut S) -> Result<(), Status>
    ensures ok { OnOk result (S.written out.new ≡ appending (S.written out.old) (frame_line number frame)) }
    ensures err { IfErr result (FailsToPrint (frame_line number frame)
        (record { written = S.written out.old; faults = S.faults out.old })
        (record { written = S.written out.new; faults = S.faults out.new })) }
    ensures later { S.faults out.old ≤ S.faults out.new }
    ensures output_failed { S.faults out.old < S.faults out.new → IsErrOf result Status.SinkFault }
{
    let line = FrameLine { number, frame };
    match format!(in alloc; "{line}") {
        Ok(text) => print_part(text.as_bytes(), out),
        Err(_) => Err(Status::NoMemory),
    }
}

/// Prints the line of a walk's stop.
fn print_stop<S: Sink>(alloc: Global, stop: WalkStop, out: &mut S) -> Result<(), Status>
    ensures ok { OnOk result (S.written out.new ≡ appending (S.written out.old) (stop_line stop)) }
    ensures err { IfErr result (FailsToPrint (stop_line stop)
        (record { written = S.written out.old; faults = S.faults out.old })
        (record { written = S.written out.new; faults = S.faults out.new })) }
    ensures later { S.faults out.old ≤ S.faults out.new }
    ensures output_failed { S.faults out.old < S.faults out.new → IsErrOf result Status.SinkFault }
{
    let line = StopLine(stop);
    match format!(in alloc; "{line}") {
        Ok(text) => print_part(text.as_bytes(), out),
        Err(_) => Err(Status::NoMemory),
    }
}

/// Prints the lines of a walk.
fn print_walk<S: Sink>(alloc: Global, walk: &StackWalk, out: &mut S) -> Status
    ensures printed { Prints status.Done (walk_text walk.now.frames.items walk.now.stop)
        (record { written = S.written out.old; faults = S.faults out.old })
        (record { written = S.written out.new; faults = S.faults out.new }) result }
    ensures later { S.faults out.old ≤ S.faults out.new }
    ensures output_failed { S.faults out.old < S.faults out.new → IsOutputFault result }
{
    for (number, frame) in walk.frames.iter().enumerate() {
        match print_frame(alloc, number as u64, *frame, out) {
            Ok(()) => {}
            Err(status) => return status,
        }
    }
    match print_stop(alloc, walk.stop, out) {
        Ok(()) => Status::Done,
        Err(status) => status,
    }
}

/// Prints the walk of an image over the rows of an object, or why there is none.
fn unwind_bytes<S: Sink>(alloc: Global, bytes: &[u8], text: &[u8], out: &mut S) -> Status
    requires { length bytes.now ≤ MAX_FILE_BYTES }
    ensures ends { Unwinds bytes.now text.now
        (record { written = S.written out.old; faults = S.faults out.old })
        (record { written = S.written out.new; faults = S.faults out.new }) result }
    ensures later { S.faults out.old ≤ S.faults out.new }
    ensures output_failed { S.faults out.old < S.faults out.new → IsOutputFault result }
{
    match walk_of(alloc, bytes, text) {
        Ok(walk) => print_walk(alloc, &walk, out),
        Err(stop) => conclude(alloc, stop, out),
    }
}

/// Prints the frames of the walk from the registers of the image IMAGE over its memory, by the rows that
/// the object FILE holds, one line each, and why the walk stopped; or why there is no walk. Gives the
/// status that the command ends with. No file is changed.
pub fn unwind<F: Files, S: Sink>(
    alloc: Global,
    file: &str,
    image: &str,
    files: &mut F,
    out: &mut S,
) -> Status
    // What was told to the output, and why.
    ensures ends { EndsUnwind file.now image.now
        (record { content = F.content files.old; faults = F.faults files.old })
        (record { content = F.content files.new; faults = F.faults files.new })
        (record { written = S.written out.old; faults = S.faults out.old })
        (record { written = S.written out.new; faults = S.faults out.new }) result }
    // It is done only where the files give a walk, and then the lines of its frames and of its stop were printed.
    ensures unwound { result ≡ Status.Done → IsUnwound file.now image.now (F.content files.old) (S.written out.old) (S.written out.new) }
    // Such files aren't refused.
    ensures accepts { (bytes text : List ℕ) (stack : StackImage) (object : Elf) (rows : List PlacedRow) (held : Content)
        → F.content files.old ≡ Some held → reading held file.now MAX_FILE_BYTES ≡ Ok bytes
        → reading held image.now MAX_IMAGE_BYTES ≡ Ok text → IsPlaced bytes text stack object rows → IsAnswered result }
    ensures unchanged { F.content files.new ≡ F.content files.old }
    ensures files_later { F.faults files.old ≤ F.faults files.new }
    ensures out_later { S.faults out.old ≤ S.faults out.new }
    ensures output_failed { S.faults out.old < S.faults out.new → IsOutputFault result }
{
    let bytes = match read_file(alloc, file, MAX_FILE_BYTES, files) {
        Ok(bytes) => bytes,
        Err(stop) => return conclude(alloc, stop, out),
    };
    match read_file(alloc, image, MAX_IMAGE_BYTES, files) {
        Ok(text) => unwind_bytes(alloc, bytes.as_slice(), text.as_slice(), out),
        Err(stop) => conclude(alloc, stop, out),
    }
}
