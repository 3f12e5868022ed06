//! The relocations of `.eh_frame`.

ghost use Rattle.std.specs.Prelude.{◌≡◌, ◌<◌, ◌+◌, ℕ, false, length, IfOk, IfSome, IfNone, IsTrue, IsPermutation};
ghost use Rattle.std.specs.List.Sorted.{IsNonDecreasingBy};
ghost use Rattle.elf_objects.specs.Contents.{relocs_at, section_at};
ghost use Rattle.elf_objects.specs.Elf.{SectionEntry};
ghost use Rattle.orc_bytes.specs.Faults.{StandsForText};
ghost use Rattle.eh_frame.specs.Cursor.{begins_below, only_below};
ghost use Rattle.eh_frame.specs.Records.{PutsAddress};

use elf_objects::{Home, Object, R_X86_64_PC32, Reloc};
use ot_base::NoMemory;
use std::alloc::Global;

/// The relocations of a section, ascending by their offsets.
pub(crate) fn sorted_relocs(
    alloc: Global,
    object: &Object<'_>,
    section: u32,
) -> Result<Vec<Reloc>, NoMemory>
    requires { section < length object.now.sections }
    ensures permutation { IfOk result (λ relocs. IsPermutation (relocs_at object.now section) relocs.items) }
    ensures ascending { IfOk result (λ relocs. IsNonDecreasingBy (λ r. r.offset) relocs.items) }
{
    let mut relocs = list_relocs(alloc, object, section)?;
    relocs.sort_unstable_by_key(|reloc| reloc.offset);
    Ok(relocs)
}

/// The relocations of a section, as they stand in the file.
fn list_relocs(alloc: Global, object: &Object<'_>, section: u32) -> Result<Vec<Reloc>, NoMemory>
    requires { section < length object.now.sections }
    ensures { IfOk result (λ relocs. relocs.items ≡ relocs_at object.now section) }
{
    let mut relocs = Vec::new(alloc);
    for i in 0..object.relocs(section) {
        relocs.push(object.reloc(section, i))?;
    }
    Ok(relocs)
}

/// Whether the first of some relocations lies below an offset.
pub(crate) fn begins_below(relocs: &[Reloc], end: u64) -> bool
    ensures { result ≡ begins_below relocs.now end }
{
    match relocs {
        [] => false,
        [reloc, ..] => reloc.offset < end,
    }
}

/// Of relocations in the order of their offsets, the one below an offset.
pub(crate) fn only_below(relocs: &[Reloc], end: u64) -> Option<Reloc>
    ensures { result ≡ only_below relocs.now end }
{
    match relocs {
        [] => None,
        [reloc, further @ ..] => {
            if reloc.offset < end && !begins_below(further, end) {
                Some(*reloc)
            } else {
                None
            }
        }
    }
}

/// Whether a symbol is the section symbol of this section, which is one of text.
fn stands_for_text(object: &Object<'_>, sym: u32, sec: u32) -> bool
    ensures some { IsTrue result
        → StandsForText object.now sym sec (section_at object.now sec) }
    ensures known { IsTrue result → sec < length object.now.sections }
    ensures none { result ≡ false
        → (section : SectionEntry) → StandsForText object.now sym sec section → ⊥ }
{
    if sec >= object.sections() {
        return false;
    }
    if !object.is_text(sec) {
        return false;
    }
    match object.section_symbol(sec) {
        Some(symbol) => symbol == sym,
        None => false,
    }
}

/// The text section that a symbol is the section symbol of.
fn text_of(object: &Object<'_>, sym: u32) -> Option<u32>
    ensures some { IfSome result (λ sec. StandsForText object.now sym sec (section_at object.now sec)) }
    ensures known { IfSome result (λ sec. sec < length object.now.sections) }
    ensures none { IfNone result
        ((sec : ℕ) (section : SectionEntry) → StandsForText object.now sym sec section → ⊥) }
{
    if sym >= object.symbols() {
        return None;
    }
    let Home::Section(sec) = object.symbol(sym).home else {
        return None;
    };
    if stands_for_text(object, sym, sec) {
        Some(sec)
    } else {
        None
    }
}

/// The text section whose address a relocation puts into the entry at an offset.
pub(crate) fn addressed_text(object: &Object<'_>, reloc: &Reloc, at: u64) -> Option<u32>
    requires { at + 8 < 18446744073709551616 }
    ensures some { IfSome result (λ sec. PutsAddress object.now reloc.now at sec (section_at object.now sec)) }
    ensures known { IfSome result (λ sec. sec < length object.now.sections) }
    ensures none { IfNone result
        ((sec : ℕ) (section : SectionEntry) → PutsAddress object.now reloc.now at sec section → ⊥) }
{
    if reloc.offset != at + 8 || reloc.kind != R_X86_64_PC32 || reloc.addend != 0 {
        return None;
    }
    text_of(object, reloc.sym)
}
