//! What must hold of each relocation.

ghost use Rattle.std.specs.Prelude.{◌≡◌, ◌<◌, ◌≤◌, ◌+◌, ◌/◌, ◌↔◌, IsTrue, IfErr, OnOk, length};
ghost use Rattle.elf_objects.specs.Steps.{EachSection, FirstSection, symbols_file, file};
ghost use Rattle.elf_objects.specs.Below.{AllBelow, FirstBelow};
ghost use Rattle.elf_objects.specs.File.{section_count, section_header};
ghost use Rattle.elf_objects.specs.Found.{AreRelas};
ghost use Rattle.elf_objects.specs.Sections.{HasBody, HasLinks};
ghost use Rattle.elf_objects.specs.Symbols.{HasRelocs, RelocsFault, IsReloc, RelocFault, IsRelocIn, field_size, is_read};
ghost use Rattle.elf_objects.specs.Table.{reloc_of, header_of, rela_of};

use crate::entry::read_reloc;
use crate::fault::ElfFault;
use crate::forms::is_plain;
use crate::header::SectionHeader;
use crate::headers::Headers;
use crate::symbol::Reloc;
use crate::symbols::{Symbols, header_or_null};
use crate::{R_X86_64_32, R_X86_64_32S, R_X86_64_64, R_X86_64_PC32, R_X86_64_PLT32, SHT_RELA};

/// A relocation of a section of relocations.
#[tactic(auto, unfolding(crate::specs::Table::reloc_of))]
pub(crate) fn nth_reloc(bytes: &[u8], h: &SectionHeader, k: u32) -> Reloc
    requires inside { h.now.offset + h.now.size ≤ length bytes.now }
    requires known { k < h.now.size / 24 }
    ensures { result ≡ reloc_of bytes.now h.now k }
{
    read_reloc(bytes, h.offset as usize + 24 * k as usize)
}

/// The header of the section with the relocations of a section, or zeros.
#[inline(always)]
#[tactic(auto, unfolding(crate::specs::Table::rela_of))]
pub(crate) fn rela_header(headers: &Headers, relas: &[Option<u32>], sec: u32) -> SectionHeader
    requires known { sec < section_count (file headers.now) }
    requires found { AreRelas (file headers.now) (section_count (file headers.now)) relas.now }
    requires bodies { EachSection HasBody (file headers.now) }
    ensures value { result ≡ header_of (file headers.now) (rela_of (file headers.now) sec) }
    ensures inside { result.offset + result.size ≤ length (file headers.now) }
{
    header_or_null(headers, relas[sec as usize])
}

/// Whether so many bytes from an offset on lie in a section of this size.
#[inline(always)]
fn is_inside(offset: u64, width: u64, size: u64) -> bool
    ensures { IsTrue result ↔ offset + width ≤ size }
{
    width <= size && offset <= size - width
}

/// Whether the field of a relocation lies in a section of this size, where its type is one that is read.
#[inline(always)]
fn has_field(reloc: Reloc, size: u64) -> bool
    ensures { IsTrue result ↔ (IsTrue (is_read reloc.kind) → reloc.offset + field_size reloc.kind ≤ size) }
{
    match reloc.kind {
        R_X86_64_64 => is_inside(reloc.offset, 8, size),
        R_X86_64_PC32 | R_X86_64_PLT32 | R_X86_64_32 | R_X86_64_32S => {
            is_inside(reloc.offset, 4, size)
        }
        _ => true,
    }
}

/// Whether a relocation names a symbol, and its field lies in the section that it changes, if that isn't compressed.
#[inline(always)]
fn is_reloc(reloc: Reloc, symbols: u64, target: &SectionHeader) -> bool
    ensures { IsTrue result ↔ IsRelocIn reloc symbols target.now }
{
    u64::from(reloc.sym) < symbols && (!is_plain(target) || has_field(reloc, target.size))
}

/// Whether each relocation of a section is one, in ascending order.
#[inline(never)]
fn check_relocs_of(symbols: &Symbols, i: u32, h: &SectionHeader) -> Result<(), ElfFault>
    requires header { h.now ≡ section_header (symbols_file symbols.now) i }
    requires inside { h.now.offset + h.now.size ≤ length (symbols_file symbols.now) }
    requires target { h.now.info < section_count (symbols_file symbols.now) }
    ensures ok { OnOk result (AllBelow (IsReloc (symbols_file symbols.now) i) (h.now.size / 24)) }
    ensures err { IfErr result (FirstBelow (IsReloc (symbols_file symbols.now) i)
        (RelocFault (symbols_file symbols.now) i) (h.now.size / 24)) }
{
    let target = symbols.headers.get(h.info);
    let count = (h.size / 24) as u32;
    for k in 0..count {
        let reloc = nth_reloc(symbols.headers.bytes, h, k);
        if !is_reloc(reloc, symbols.count, &target) {
            return Err(ElfFault::BadReloc { sec: i, index: k });
        }
    }
    Ok(())
}

/// The same of each section that has relocations.
fn check_section(symbols: &Symbols, i: u32) -> Result<(), ElfFault>
    requires known { i < section_count (symbols_file symbols.now) }
    requires body { HasBody (symbols_file symbols.now) i }
    requires links { HasLinks (symbols_file symbols.now) i }
    ensures ok { OnOk result (HasRelocs (symbols_file symbols.now) i) }
    ensures err { IfErr result (RelocsFault (symbols_file symbols.now) i) }
{
    let h = symbols.headers.get(i);
    if h.kind == SHT_RELA {
        check_relocs_of(symbols, i, &h)?;
    }
    Ok(())
}

/// The same of all sections, in ascending order.
pub(crate) fn check_relocs(symbols: &Symbols) -> Result<(), ElfFault>
    requires bodies { EachSection HasBody (symbols_file symbols.now) }
    requires links { EachSection HasLinks (symbols_file symbols.now) }
    ensures ok { OnOk result (EachSection HasRelocs (symbols_file symbols.now)) }
    ensures err { IfErr result (FirstSection HasRelocs RelocsFault (symbols_file symbols.now)) }
{
    for i in 0..symbols.headers.count {
        check_section(symbols, i)?;
    }
    Ok(())
}
