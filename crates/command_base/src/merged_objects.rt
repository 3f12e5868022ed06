//! Reading the files of a layout.

ghost use Rattle.std.specs.Prelude.{◌≡◌, ◌≤◌, ◌<◌, ◌^◌, IfErr, IfOk, length};
ghost use Rattle.orc_merge.specs.LayoutReading.{file_of};
ghost use Rattle.command_base.specs.Layouts.{number_of_places};
ghost use Rattle.command_base.specs.MergedObjects.{ArePartsOf, CanBeMerged, HasNoPart, IsMergeable, IsNoPart, IsPart, IsPartOf, StopsAtParts};

use crate::{CommandStop, of_part, orc_stop, parse_stop, ranges_of, read_file};
use elf_objects::{MAX_FILE_BYTES, Object};
use orc_bytes::decode;
use orc_merge::{Layout, LayoutFile, Part};
use ot_files::Files;
use std::alloc::Global;

/// The rows of an object, and the ranges of its sections at the bases that places tell; or why there are none.
fn part_of<'a>(alloc: Global, bytes: &[u8], places: &[(u32, u64)]) -> Result<Part, CommandStop<'a>>
    requires { length bytes.now ≤ MAX_FILE_BYTES }
    ensures part { IfOk result (IsPart bytes.now places.now) }
    ensures mergeable { IfOk result (λ part. IsMergeable part (length places.now)) }
    ensures none { IfErr result (IsNoPart bytes.now places.now) }
{
    let object = match Object::parse(alloc, bytes) {
        Ok(object) => object,
        Err(fault) => return Err(parse_stop(fault)),
    };
    let rows = match decode(alloc, &object) {
        Ok(rows) => rows,
        Err(fault) => return Err(orc_stop(fault)),
    };
    let ranges = match ranges_of(alloc, &object, places) {
        Ok(ranges) => ranges,
        Err(stop) => return Err(stop),
    };
    Ok(Part { rows, ranges })
}

/// Reads a file of a layout, and gives its rows and ranges, or why there are none. Of its bytes none are kept.
fn read_part<'a, F: Files>(
    alloc: Global,
    file: &'a LayoutFile,
    files: &mut F,
) -> Result<Part, CommandStop<'a>>
    ensures part { IfOk result (λ part. IsPartOf (F.content files.old) (file_of file.now) part) }
    ensures mergeable { IfOk result (λ part. IsMergeable part (length file.now.places.items)) }
    ensures none { IfErr result (HasNoPart (file_of file.now)
        (record { content = F.content files.old; faults = F.faults files.old })
        (record { content = F.content files.new; faults = F.faults files.new })) }
    ensures unchanged { F.content files.new ≡ F.content files.old }
    ensures later { F.faults files.old ≤ F.faults files.new }
{
    match read_file(alloc, file.name.as_str(), MAX_FILE_BYTES, files) {
        Ok(bytes) => part_of(alloc, bytes.as_slice(), file.places.as_slice()),
        Err(stop) => Err(stop),
    }
}

/// Reads the files of a layout in their order, one after the other, and gives the rows and ranges of each; or why a
/// command stops at the first that has none.
pub(crate) fn parts_of<'a, F: Files>(
    alloc: Global,
    layout: &'a Layout,
    files: &mut F,
) -> Result<Vec<Part>, CommandStop<'a>>
    requires files { length layout.now < 2 ^ 32 }
    requires places { number_of_places layout.now < 2 ^ 32 }
    ensures parts { IfOk result (λ parts. ArePartsOf (F.content files.old) layout.now parts.items) }
    ensures mergeable { IfOk result (λ parts. CanBeMerged parts.items) }
    ensures stopped { IfErr result (StopsAtParts layout.now
        (record { content = F.content files.old; faults = F.faults files.old })
        (record { content = F.content files.new; faults = F.faults files.new })) }
    ensures unchanged { F.content files.new ≡ F.content files.old }
    ensures later { F.faults files.old ≤ F.faults files.new }
{
    let mut parts = Vec::new(alloc);
    for (number, file) in layout.files().iter().enumerate() {
        let part = match read_part(alloc, file, files) {
            Ok(part) => part,
            Err(stop) => return Err(of_part(number as u32, stop)),
        };
        if parts.push(part).is_err() {
            return Err(CommandStop::NoMemory);
        }
    }
    Ok(parts)
}
