//! The steps by which a file is found well-formed, in their order, some of them together.

ghost use Rattle.std.specs.Prelude.{IfErr, IfOk, OnOk};
ghost use Rattle.elf_objects.specs.File.{section_count};
ghost use Rattle.elf_objects.specs.Found.{AreRelas, AreSectionSymbols, AreTables};
ghost use Rattle.elf_objects.specs.Object.{FirstFault, HasSections, HasSymbols, IsWellFormed, Refuses};
ghost use Rattle.elf_objects.specs.Sections.{HasBody, HasForm};
ghost use Rattle.elf_objects.specs.Steps.{EachSection, file, symbols_file};
ghost use Rattle.elf_objects.specs.Table.{symbol_count};

use crate::bodies::check_bodies;
use crate::check_symbols::{check_symbol_count, check_symbols};
use crate::fault::ElfFault;
use crate::forms::{Tables, check_forms};
use crate::headers::Headers;
use crate::links::check_links;
use crate::names::{check_names, check_text};
use crate::relocs::check_relocs;
use crate::symbols::Symbols;
use std::alloc::Global;

/// The special tables, where each section has its place and is as its type asks for.
pub(crate) fn check_headers(alloc: Global, headers: &Headers) -> Result<Tables, ElfFault>
    ensures bodies { OnOk result (EachSection HasBody (file headers.now)) }
    ensures forms { OnOk result (EachSection HasForm (file headers.now)) }
    ensures found { IfOk result (AreTables (file headers.now) (section_count (file headers.now))) }
    ensures err { IfErr result (Refuses (FirstFault (file headers.now))) }
{
    check_bodies(alloc, headers)?;
    let tables = check_forms(headers)?;
    Ok(tables)
}

/// For each section the section with its relocations, where the links and the names of all sections are
/// right.
pub(crate) fn link_sections(alloc: Global, symbols: &Symbols) -> Result<Vec<Option<u32>>, ElfFault>
    requires bodies { EachSection HasBody (symbols_file symbols.now) }
    requires forms { EachSection HasForm (symbols_file symbols.now) }
    ensures ok { OnOk result (HasSections (symbols_file symbols.now)) }
    ensures found { IfOk result (λ relas. AreRelas (symbols_file symbols.now)
        (section_count (symbols_file symbols.now)) relas.items) }
    ensures err { IfErr result (Refuses (FirstFault (symbols_file symbols.now))) }
{
    let relas = check_links(alloc, symbols)?;
    check_names(&symbols.headers)?;
    Ok(relas)
}

/// For each section the first symbol that stands for it, where all symbols are right.
pub(crate) fn link_symbols(alloc: Global, symbols: &Symbols) -> Result<Vec<Option<u32>>, ElfFault>
    requires { HasSections (symbols_file symbols.now) }
    ensures ok { OnOk result (HasSymbols (symbols_file symbols.now)) }
    ensures found { IfOk result (λ found. AreSectionSymbols (symbols_file symbols.now)
        (symbol_count (symbols_file symbols.now)) found.items) }
    ensures err { IfErr result (Refuses (FirstFault (symbols_file symbols.now))) }
{
    let count = check_symbol_count(symbols)?;
    let found = check_symbols(alloc, symbols, count)?;
    Ok(found)
}

/// Whether all relocations are right, and there is not too much text.
pub(crate) fn check_contents(symbols: &Symbols) -> Result<(), ElfFault>
    requires { HasSymbols (symbols_file symbols.now) }
    ensures ok { OnOk result (IsWellFormed (symbols_file symbols.now)) }
    ensures err { IfErr result (FirstFault (symbols_file symbols.now)) }
{
    check_relocs(symbols)?;
    check_text(&symbols.headers)?;
    Ok(())
}
