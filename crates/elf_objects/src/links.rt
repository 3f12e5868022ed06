//! What `sh_link` and `sh_info` of a section name is there.

ghost use Rattle.std.specs.Prelude.{◌≡◌, ◌<◌, ◌+◌, ◌↔◌, Some, IsTrue, IfErr, IfOk, OnOk};
ghost use Rattle.elf_objects.specs.Steps.{EachSection, FirstSection, symbols_file, file};
ghost use Rattle.elf_objects.specs.File.{section_count};
ghost use Rattle.elf_objects.specs.Found.{AreRelas};
ghost use Rattle.elf_objects.specs.Object.{Refuses};
ghost use Rattle.elf_objects.specs.Sections.{HasLinks, LinkFault, NamesStrings, IsBoundary, IsFirstRelaOf, link_of};
ghost use Rattle.elf_objects.specs.Table.{symbol_table};

use crate::earliest::{earliest, nothing};
use crate::fault::ElfFault;
use crate::headers::Headers;
use crate::symbols::Symbols;
use crate::{SHT_GROUP, SHT_RELA, SHT_STRTAB, SHT_SYMTAB, SHT_SYMTAB_SHNDX};
use std::alloc::Global;

/// Whether an index is that of a string table.
fn names_strings(headers: &Headers, i: u32) -> bool
    ensures { IsTrue result ↔ NamesStrings (file headers.now) i }
{
    i < headers.count && headers.get(i).kind == SHT_STRTAB
}

/// Whether `sh_info` of a symbol table is from 1 to the number of symbols, or 0 where there are none.
fn is_boundary(count: u64, info: u32) -> bool
    ensures { IsTrue result ↔ IsBoundary count info }
{
    u64::from(info) <= count && (info >= 1 || count == 0)
}

/// Whether an index is that of the symbol table.
fn names_symbols(symbols: &Symbols, i: u32) -> bool
    ensures { IsTrue result ↔ (symbol_table (symbols_file symbols.now) ≡ Some i) }
{
    match symbols.table {
        Some(table) => table == i,
        None => false,
    }
}

/// Whether `sh_link` of a section of relocations is the symbol table, or 0 where there is none.
fn links_symbols(symbols: &Symbols, link: u32) -> bool
    ensures { IsTrue result ↔ (link_of (symbol_table (symbols_file symbols.now)) ≡ link) }
{
    match symbols.table {
        Some(table) => table == link,
        None => link == 0,
    }
}

/// Whether no section of relocations before this one is of the section `s`.
fn is_first_rela_of(headers: &Headers, relas: &[Option<u32>], s: u32, i: u32) -> bool
    requires seen { AreRelas (file headers.now) i relas.now }
    requires known { s < section_count (file headers.now) }
    ensures { IsTrue result ↔ IsFirstRelaOf (file headers.now) s i }
{
    relas[s as usize].is_none()
}

/// Whether the links of a section are as its type asks for.
fn has_links(symbols: &Symbols, relas: &[Option<u32>], i: u32) -> bool
    requires seen { AreRelas (symbols_file symbols.now) i relas.now }
    requires known { i < section_count (symbols_file symbols.now) }
    ensures { IsTrue result ↔ HasLinks (symbols_file symbols.now) i }
{
    let h = symbols.headers.get(i);
    match h.kind {
        SHT_SYMTAB => {
            names_strings(&symbols.headers, h.link) && is_boundary(symbols.count, h.info)
        }
        SHT_SYMTAB_SHNDX => names_symbols(symbols, h.link) && h.size / 4 == symbols.count,
        SHT_RELA => {
            links_symbols(symbols, h.link)
                && h.info >= 1
                && h.info < symbols.headers.count
                && is_first_rela_of(&symbols.headers, relas, h.info, i)
        }
        SHT_GROUP => names_symbols(symbols, h.link) && u64::from(h.info) < symbols.count,
        _ => true,
    }
}

/// Notes of which section a section has the relocations, where it has any.
fn note_rela(headers: &Headers, relas: &mut Vec<Option<u32>>, i: u32)
    requires seen { AreRelas (file headers.now) i relas.old.items }
    requires known { i < section_count (file headers.now) }
    requires links { HasLinks (file headers.now) i }
    ensures { AreRelas (file headers.now) (i + 1) relas.new.items }
{
    let h = headers.get(i);
    if h.kind == SHT_RELA {
        let target = h.info as usize;
        relas[target] = earliest(relas[target], true, i);
    }
}

/// For each section the section with its relocations, or the first section whose links are not as its
/// type asks for.
pub(crate) fn check_links(alloc: Global, symbols: &Symbols) -> Result<Vec<Option<u32>>, ElfFault>
    ensures ok { OnOk result (EachSection HasLinks (symbols_file symbols.now)) }
    ensures found { IfOk result (λ relas. AreRelas (symbols_file symbols.now)
        (section_count (symbols_file symbols.now)) relas.items) }
    ensures err { IfErr result
        (Refuses (FirstSection HasLinks LinkFault (symbols_file symbols.now))) }
{
    let mut relas = nothing(alloc, symbols.headers.count)?;
    for i in 0..symbols.headers.count {
        if !has_links(symbols, &relas, i) {
            return Err(ElfFault::BadLink { sec: i });
        }
        note_rela(&symbols.headers, &mut relas, i);
    }
    Ok(relas)
}
