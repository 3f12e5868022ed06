//! The section symbols that an object needs, and the object with them.

ghost use Rattle.std.specs.Prelude.{◌≡◌, ◌<◌, ◌&&◌, ◌^◌, All, Bool, IfOk, ℕ, false, is_none, length, slice_index_or, vec_len};
ghost use Rattle.elf_objects.specs.Contents.{section_symbol_of};
ghost use Rattle.elf_objects.specs.Object.{IsObject, IsWellFormed};
ghost use Rattle.elf_write.specs.Room.{AreBytes};
ghost use Rattle.elf_write.specs.SymbolObject.{CanInsert, object_with_symbols};
ghost use Rattle.elf_write.specs.Taken.{AreFree};
ghost use Rattle.orc_output.specs.Needed.{has_row, needed_symbols as needed_by, unnamed};

use elf_objects::{ElfFault, Object};
use elf_write::{SymFault, with_section_symbols};
use ot_base::{NoMemory, PlacedRow};
use std::alloc::Global;

/// For each of so many sections, whether it has a row.
fn mark_sections(alloc: Global, count: u32, rows: &[PlacedRow]) -> Result<Vec<bool>, NoMemory>
    requires { All (λ placed. placed.place.sec < count) rows.now }
    ensures long { IfOk result (λ marks. length marks.items ≡ count) }
    ensures marks { IfOk result (λ marks. (sec : ℕ) (d : Bool) → sec < count → slice_index_or marks.items sec d ≡ has_row rows.now sec) }
{
    let mut marks = vec![in alloc; false; count as usize]?;
    for placed in rows {
        marks[placed.place.sec as usize] = true;
    }
    Ok(marks)
}

/// Whether a section is marked and has no section symbol.
fn needs_symbol(object: &Object<'_>, marks: &[bool], sec: u32) -> bool
    requires known { sec < length object.now.sections }
    requires inside { sec < length marks.now }
    ensures { result ≡ (slice_index_or marks.now sec false && is_none (section_symbol_of object.now sec)) }
{
    marks[sec as usize] && object.section_symbol(sec).is_none()
}

/// The marked sections that have no section symbol, ascending. There is a mark for each section of the object.
pub fn unnamed_sections(
    alloc: Global,
    object: &Object<'_>,
    marks: &[bool],
) -> Result<Vec<u32>, NoMemory>
    requires { length marks.now ≡ length object.now.sections }
    ensures { IfOk result (λ secs. secs.items ≡ unnamed object.now marks.now) }
{
    let mut secs = Vec::new(alloc);
    for sec in 0..object.sections() {
        if needs_symbol(object, marks, sec) {
            secs.push(sec)?;
        }
    }
    Ok(secs)
}

/// The sections that have rows and no section symbol, ascending.
pub fn needed_symbols(
    alloc: Global,
    object: &Object<'_>,
    rows: &[PlacedRow],
) -> Result<Vec<u32>, NoMemory>
    requires { All (λ placed. placed.place.sec < length object.now.sections) rows.now }
    ensures { IfOk result (λ secs. secs.items ≡ needed_by object.now rows.now) }
{
    let marks = mark_sections(alloc, object.sections(), rows)?;
    unnamed_sections(alloc, object, &marks)
}

/// The file of an object in which section symbols stand for these sections, none of which had one.
pub fn insert_symbols(alloc: Global, object: &Object<'_>, secs: &[u32]) -> Result<Vec<u8>, NoMemory>
    requires can { CanInsert object.now secs.now }
    requires free { AreFree object.now secs.now }
    ensures object { IfOk result (λ file. IsObject file.items (object_with_symbols object.now secs.now)) }
    ensures short { IfOk result (λ file. vec_len file < 2 ^ 32) }
{
    match with_section_symbols(alloc, object, secs) {
        Ok(file) => Ok(file),
        Err(SymFault::NoMemory) => Err(NoMemory),
        Err(SymFault::HasOne { .. }) => unreachable!(),
    }
}

/// Reads the file of an object.
pub fn read_object<'a>(alloc: Global, file: &'a [u8]) -> Result<Object<'a>, NoMemory>
    requires short { length file.now < 2 ^ 32 }
    requires well_formed { IsWellFormed file.now }
    ensures { IfOk result (IsObject file.now) }
{
    match Object::parse(alloc, file) {
        Ok(object) => Ok(object),
        Err(ElfFault::NoMemory) => Err(NoMemory),
        Err(_) => unreachable!(),
    }
}

/// The items of a slice of bytes are numbers of 8 bits.
pub fn are_bytes(bytes: &[u8])
    ensures { AreBytes bytes.now }
{}
