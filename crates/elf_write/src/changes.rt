//! What is written over the joined pieces.

ghost use Rattle.std.specs.Prelude.{ℕ, ◌≡◌, ◌<◌, ◌≤◌, ◌+◌, ◌*◌, ◌/◌, length, map};
ghost use Rattle.std.specs.List.{flat_map, range_with_len};
ghost use Rattle.elf_objects.specs.Contents.{section_at};
ghost use Rattle.elf_objects.specs.Number.{xword};
ghost use Rattle.elf_objects.specs.Table.{reloc_at};
ghost use Rattle.elf_write.specs.Layout.{encoded, written};
ghost use Rattle.elf_write.specs.SymbolLayout.{changed, changes, changes_of, moved, reloc_changes};
ghost use Rattle.elf_write.specs.Room.{HasRoom, HasRoomIn};

use crate::plan::Plan;
use byteorder::{ByteOrder, LittleEndian};
use elf_objects::{Object, SHT_GROUP, SHT_RELA, SHT_SYMTAB, SHT_SYMTAB_SHNDX};

/// Writes an `Elf64_Word` over what stands at a place.
fn put_u32(out: &mut [u8], at: usize, n: u32)
    requires { at + 4 ≤ length out.old }
    ensures bytes { out.new ≡ written at (encoded 4 n) out.old }
    ensures size { length out.new ≡ length out.old }
{
    LittleEndian::write_u32(&mut out[at..at + 4], n);
}

/// Writes an `Elf64_Xword` over what stands at a place.
fn put_u64(out: &mut [u8], at: usize, n: u64)
    requires { at + 8 ≤ length out.old }
    ensures bytes { out.new ≡ written at (encoded 8 n) out.old }
    ensures size { length out.new ≡ length out.old }
{
    LittleEndian::write_u64(&mut out[at..at + 8], n);
}

/// The `Elf64_Xword` at a place.
#[tactic(auto, unfolding(elf_objects::specs::Number::xword))]
fn xword_at(bytes: &[u8], at: usize) -> u64
    requires { at + 8 ≤ length bytes.now }
    ensures { result ≡ xword bytes.now at }
{
    LittleEndian::read_u64(&bytes[at..])
}

/// The number of the symbol of the relocation that begins at a place: the high half of `r_info`.
#[tactic(auto, unfolding(elf_objects::specs::Table::reloc_at))]
fn symbol_at(body: &[u8], at: usize) -> u32
    requires { at + 24 ≤ length body.now }
    ensures { result ≡ (reloc_at body.now at).sym }
{
    (xword_at(body, at + 8) >> 32) as u32
}

/// Writes the new symbol numbers of the relocations in a body, which stands at a place.
fn change_relocs(out: &mut [u8], plan: &Plan, from: usize, body: &[u8])
    requires room { from + length body.now ≤ length out.old }
    requires fits { HasRoom plan.now body.now }
    ensures bytes { out.new ≡ changed (map (moved from) (reloc_changes plan.now body.now)) out.old }
    ensures size { length out.new ≡ length out.old }
{
    for k in 0..body.len() / 24 {
        let number = plan.renumbered(symbol_at(body, 24 * k));
        put_u32(out, from + (24 * k + 12), number);
    }
}

/// Makes the changes for the section with a number.
fn change_section(out: &mut [u8], object: &Object<'_>, plan: &Plan, i: u32)
    requires known { i < length object.now.sections }
    requires room { HasRoomIn object.now plan.now (length out.old) i }
    ensures bytes { out.new ≡ changed (changes_of object.now plan.now i) out.old }
    ensures size { length out.new ≡ length out.old }
{
    let section = object.section(i);
    let at = plan.headers_at as usize + 64 * i as usize;
    match section.kind {
        SHT_RELA => change_relocs(out, plan, section.offset as usize, section.body),
        SHT_SYMTAB => {
            put_u64(out, at + 24, plan.symbols_at);
            put_u64(out, at + 32, section.size + 24 * plan.count as u64);
            put_u32(out, at + 44, section.info + plan.count);
        }
        SHT_SYMTAB_SHNDX => {
            put_u64(out, at + 24, plan.numbers_at);
            put_u64(out, at + 32, section.size + 4 * plan.count as u64);
        }
        SHT_GROUP => put_u32(out, at + 44, plan.renumbered(section.info)),
        _ => {}
    }
}

/// Makes the changes for all sections.
fn change_sections(out: &mut [u8], object: &Object<'_>, plan: &Plan)
    requires { (i : ℕ) → i < length object.now.sections → HasRoomIn object.now plan.now (length out.old) i }
    ensures { let sections = range_with_len 0 (length object.now.sections) in
        out.new ≡ changed (flat_map (changes_of object.now plan.now) sections) out.old }
{
    for i in 0..object.sections() {
        change_section(out, object, plan, i);
    }
}

/// Makes all changes: the headers' place, and those for the sections.
pub(crate) fn make_changes(out: &mut [u8], object: &Object<'_>, plan: &Plan)
    requires file { 48 ≤ length out.old }
    requires room { (i : ℕ) → i < length object.now.sections → HasRoomIn object.now plan.now (length out.old) i }
    ensures { out.new ≡ changed (changes object.now plan.now) out.old }
{
    put_u64(out, 40, plan.headers_at);
    change_sections(out, object, plan);
}
