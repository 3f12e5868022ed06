//! The header of each section is as its type asks for.

ghost use Rattle.std.specs.Prelude.{◌<◌, ◌≤◌, ◌+◌, ◌↔◌, IsTrue, IfErr, IfOk, OnOk, length};
ghost use Rattle.elf_objects.specs.Steps.{EachSection, FirstSection, file};
ghost use Rattle.elf_objects.specs.File.{section_count};
ghost use Rattle.elf_objects.specs.declared.TheConstants.{SHT_SYMTAB, SHT_SYMTAB_SHNDX};
ghost use Rattle.elf_objects.specs.Sections.{HasBody, HasForm, HasKindForm, FormFault, HasEntries, IsPlain, IsRelocTable, IsStringTable, IsFirstOfKind};
ghost use Rattle.elf_objects.specs.Found.{AreTables};

use crate::earliest::earliest;
use crate::fault::ElfFault;
use crate::header::SectionHeader;
use crate::headers::Headers;
use crate::{SHF_COMPRESSED, SHT_REL, SHT_RELA, SHT_STRTAB, SHT_SYMTAB, SHT_SYMTAB_SHNDX};

/// The symbol table and the table of section numbers, as far as they are found.
#[derive(Clone, Copy)]
pub(crate) struct Tables {
    pub(crate) symbols: Option<u32>,
    pub(crate) indices: Option<u32>,
}

fn has_entries(h: &SectionHeader, size: u64) -> bool
    requires { 0 < size }
    ensures { IsTrue result ↔ HasEntries h.now size }
{
    h.entsize == size && h.size % size == 0
}

pub(crate) fn is_plain(h: &SectionHeader) -> bool
    ensures { IsTrue result ↔ IsPlain h.now }
{
    h.flags & SHF_COMPRESSED == 0
}

fn is_string_table(bytes: &[u8], h: &SectionHeader) -> bool
    requires { h.now.offset + h.now.size ≤ length bytes.now }
    ensures { IsTrue result ↔ IsStringTable bytes.now h.now }
{
    h.size != 0 && bytes[(h.offset + h.size - 1) as usize] == 0 && is_plain(h)
}

fn is_reloc_table(h: &SectionHeader) -> bool
    ensures { IsTrue result ↔ IsRelocTable h.now }
{
    has_entries(h, 24) && is_plain(h)
}

/// Whether no section before this one has the type of a symbol table.
fn is_first_symbol_table(headers: &Headers, tables: Tables, i: u32) -> bool
    requires { AreTables (file headers.now) i tables }
    ensures { IsTrue result ↔ IsFirstOfKind (file headers.now) SHT_SYMTAB i }
{
    tables.symbols.is_none()
}

/// The same for tables of section numbers.
fn is_first_index_table(headers: &Headers, tables: Tables, i: u32) -> bool
    requires { AreTables (file headers.now) i tables }
    ensures { IsTrue result ↔ IsFirstOfKind (file headers.now) SHT_SYMTAB_SHNDX i }
{
    tables.indices.is_none()
}

/// Whether a section is as its type asks for, the names of sections aside.
fn has_kind_form(headers: &Headers, tables: Tables, i: u32) -> bool
    requires known { i < section_count (file headers.now) }
    requires seen { AreTables (file headers.now) i tables }
    requires bodies { HasBody (file headers.now) i }
    ensures { IsTrue result ↔ HasKindForm (file headers.now) i }
{
    let h = headers.get(i);
    match h.kind {
        SHT_SYMTAB => {
            is_first_symbol_table(headers, tables, i) && has_entries(&h, 24) && is_plain(&h)
        }
        SHT_SYMTAB_SHNDX => {
            is_first_index_table(headers, tables, i) && has_entries(&h, 4) && is_plain(&h)
        }
        SHT_RELA => is_reloc_table(&h),
        SHT_STRTAB => is_string_table(headers.bytes, &h),
        SHT_REL => false,
        _ => !h.is_text() || is_plain(&h),
    }
}

/// Whether a section is as its type asks for.
fn has_form(headers: &Headers, tables: Tables, i: u32) -> bool
    requires known { i < section_count (file headers.now) }
    requires seen { AreTables (file headers.now) i tables }
    requires bodies { HasBody (file headers.now) i }
    ensures { IsTrue result ↔ HasForm (file headers.now) i }
{
    has_kind_form(headers, tables, i) && (i != headers.names || headers.get(i).kind == SHT_STRTAB)
}

/// The tables with a section more, where it is the first of its type.
fn with_section(headers: &Headers, tables: Tables, i: u32) -> Tables
    requires known { i < section_count (file headers.now) }
    requires seen { AreTables (file headers.now) i tables }
    ensures { AreTables (file headers.now) (i + 1) result }
{
    let kind = headers.get(i).kind;
    Tables {
        symbols: earliest(tables.symbols, kind == SHT_SYMTAB, i),
        indices: earliest(tables.indices, kind == SHT_SYMTAB_SHNDX, i),
    }
}

/// The special tables, or the first section that is not as its type asks for.
pub(crate) fn check_forms(headers: &Headers) -> Result<Tables, ElfFault>
    requires { EachSection HasBody (file headers.now) }
    ensures ok { OnOk result (EachSection HasForm (file headers.now)) }
    ensures found { IfOk result (AreTables (file headers.now) (section_count (file headers.now))) }
    ensures err { IfErr result (FirstSection HasForm FormFault (file headers.now)) }
{
    let mut tables = Tables {
        symbols: None,
        indices: None,
    };
    for i in 0..headers.count {
        if !has_form(headers, tables, i) {
            return Err(ElfFault::BadTable { sec: i });
        }
        tables = with_section(headers, tables, i);
    }
    Ok(tables)
}
