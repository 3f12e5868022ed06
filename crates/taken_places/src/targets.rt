//! The places whose addresses are taken.

ghost use Rattle.std.specs.Prelude.{◌≡◌, ◌<◌, ◌≤◌, ◌+◌, ◌+ℤ◌, ◌++◌, IfSome, codes, find, length, pos, IfOk, OnOk};
ghost use Rattle.symbols_relocs.specs.NamedPlaces.{offset_of};
ghost use Rattle.symbols_relocs.specs.Targets.{is_branch_kind};
ghost use Rattle.x86_text.specs.Code.{code_of};
ghost use Rattle.object_points.specs.Places.{HaveSamePlaces};
ghost use Rattle.taken_places.specs.Listed.{addresses_in_section, addresses_in_text, is_data as is_data_section, taken_by_code, taken_by_data};
ghost use Rattle.taken_places.specs.Marks.{AreMarks};
ghost use Rattle.taken_places.specs.Taken.{address_by as address_by_of, address_in_code as address_in_code_of, address_in_data as address_in_data_of, has_byte, is_table_kind as is_table_type, is_trampoline as is_trampoline_of, place_from as place_from_of, taken_places};

use crate::instructions::{insn_over, takes_none};
use crate::marked::list_marked;
use crate::named::{PATCHABLE, may_take};
use alternatives::SectionText;
use elf_objects::{Home, Object, R_X86_64_PC32, R_X86_64_PLT32, Reloc, STB_GLOBAL};
use object_points::Linked;
use ot_base::{NoMemory, Place};
use std::alloc::Global;
use symbols_relocs::named_place;
use x86_text::{PlacedInsn, Text};

/// Whether a relocation of this type takes its symbol's address from the global offset table: `R_X86_64_GOTPCREL`,
/// `R_X86_64_GOTPCRELX` or `R_X86_64_REX_GOTPCRELX`.
fn is_table_kind(kind: u32) -> bool
    ensures { result ≡ is_table_type kind }
{
    kind == 9 || kind == 41 || kind == 42
}

/// The sum of a symbol's value, an addend and a distance in bytes, where 64 bits hold it.
fn sum_of(value: u64, addend: i64, distance: u64) -> Option<u64>
    ensures { result ≡ offset_of (pos value +ℤ (addend +ℤ pos distance)) }
{
    let sum = i128::from(value) + (i128::from(addend) + i128::from(distance));
    u64::try_from(sum).ok()
}

/// The place so far from the one that a symbol stands at.
fn place_from(object: &Object<'_>, sym: u32, addend: i64, distance: u64) -> Option<Place>
    ensures { result ≡ place_from_of object.now sym (addend +ℤ pos distance) }
{
    if sym >= object.symbols() {
        return None;
    }
    let symbol = object.symbol(sym);
    let Home::Section(sec) = symbol.home else {
        return None;
    };
    let off = sum_of(symbol.value, addend, distance)?;
    Some(Place { sec, off })
}

/// The place whose address a relocation of data takes.
fn address_in_data(object: &Object<'_>, reloc: Reloc) -> Option<Place>
    ensures { result ≡ address_in_data_of object.now reloc }
{
    if reloc.kind == 0 {
        None
    } else if is_table_kind(reloc.kind) {
        place_from(object, reloc.sym, 0, 0)
    } else {
        named_place(object, reloc)
    }
}

/// Whether a relocation of this type counts from the end of its instruction.
fn is_relative(kind: u32) -> bool
    ensures { result ≡ is_branch_kind kind }
{
    kind == R_X86_64_PC32 || kind == R_X86_64_PLT32
}

/// The place whose address a relocation takes that begins in an instruction, or in none.
fn address_by(object: &Object<'_>, reloc: Reloc, over: Option<PlacedInsn>) -> Option<Place>
    requires begins { IfSome over (λ p. p.off ≤ reloc.offset) }
    requires ends { IfSome over (λ p. reloc.offset < p.off + p.insn.len) }
    requires inside { IfSome over (λ p. p.off < 16777216) }
    ensures { result ≡ address_by_of object.now reloc over }
{
    let Some(placed) = over else {
        return if is_relative(reloc.kind) {
            None
        } else {
            address_in_data(object, reloc)
        };
    };
    if takes_none(placed.insn.op) {
        return None;
    }
    if is_relative(reloc.kind) {
        let end = placed.off + u64::from(placed.insn.len);
        place_from(object, reloc.sym, reloc.addend, end - reloc.offset)
    } else {
        address_in_data(object, reloc)
    }
}

/// Whether a symbol is the trampoline of a static call.
fn is_trampoline(object: &Object<'_>, sym: u32) -> bool
    ensures { result ≡ is_trampoline_of object.now sym }
{
    sym < object.symbols()
        && object.symbol(sym).bind == STB_GLOBAL
        && object.symbol_name_begins(sym, b"__SCT__")
}

/// The place whose address a relocation of code takes.
fn address_in_code(object: &Object<'_>, text: &Text<'_>, reloc: Reloc) -> Option<Place>
    requires { length text.now.bytes ≤ 16777216 }
    ensures { result ≡ address_in_code_of object.now (code_of text.now) reloc }
{
    if is_trampoline(object, reloc.sym) {
        return None;
    }
    let over = insn_over(text, reloc.offset);
    address_by(object, reloc, over)
}

/// Adds the places that the relocations of a text section name.
fn push_text(
    object: &Object<'_>,
    text: &SectionText<'_>,
    places: &mut Vec<Place>,
) -> Result<(), NoMemory>
    requires known { text.now.sec < length object.now.sections }
    requires short { length text.now.text.bytes ≤ 16777216 }
    ensures { OnOk result (places.new.items ≡ places.old.items ++ addresses_in_text object.now text.now) }
{
    for i in 0..object.relocs(text.sec) {
        let reloc = object.reloc(text.sec, i);
        if let Some(place) = address_in_code(object, &text.text, reloc) {
            places.push(place)?;
        }
    }
    Ok(())
}

/// Adds the places that the relocations of a section of data name.
fn push_section(object: &Object<'_>, sec: u32, places: &mut Vec<Place>) -> Result<(), NoMemory>
    requires { sec < length object.now.sections }
    ensures { OnOk result (places.new.items ≡ places.old.items ++ addresses_in_section object.now sec) }
{
    for i in 0..object.relocs(sec) {
        let reloc = object.reloc(sec, i);
        if let Some(place) = address_in_data(object, reloc) {
            places.push(place)?;
        }
    }
    Ok(())
}

/// Whether a section has data whose relocations may take addresses.
fn is_data(object: &Object<'_>, marks: &[bool], sec: u32) -> bool
    requires known { sec < length object.now.sections }
    requires marks { AreMarks (codes "__patchable_function_entries") object.now marks.now }
    ensures { result ≡ is_data_section object.now sec }
{
    may_take(object, marks, sec) && !object.is_text(sec)
}

/// Adds the places whose addresses data takes.
fn push_data(object: &Object<'_>, marks: &[bool], places: &mut Vec<Place>) -> Result<(), NoMemory>
    requires { AreMarks (codes "__patchable_function_entries") object.now marks.now }
    ensures { OnOk result (places.new.items ≡ places.old.items ++ taken_by_data object.now) }
{
    for sec in 0..object.sections() {
        if is_data(object, marks, sec) {
            push_section(object, sec, places)?;
        }
    }
    Ok(())
}

/// The places whose addresses code takes.
fn list_code(alloc: Global, linked: &Linked<'_, '_>) -> Result<Vec<Place>, NoMemory>
    ensures { IfOk result (λ places. places.items ≡ taken_by_code linked.now) }
{
    let object = linked.object();
    let mut places = Vec::new(alloc);
    for text in linked.texts() {
        push_text(object, text, &mut places)?;
    }
    Ok(places)
}

/// The places whose addresses are taken, in any order, some of them more than once.
///
/// # Errors
///
/// [`NoMemory`] where memory was wanted and not there.
pub fn list_taken(alloc: Global, linked: &Linked<'_, '_>) -> Result<Vec<Place>, NoMemory>
    ensures { IfOk result (λ places. HaveSamePlaces (taken_places linked.now) places.items) }
{
    let object = linked.object();
    let marks = list_marked(alloc, object, PATCHABLE)?;
    let mut places = list_code(alloc, linked)?;
    push_data(object, &marks, &mut places)?;
    Ok(places)
}
