//! The sections of an object, with those that hold its tables.

ghost use Rattle.std.specs.Prelude.{◌≡◌, ◌≢◌, ◌+◌, ◌-◌, ◌<◌, ◌≤◌, ◌^◌, ◌++◌, ◌∷◌, [], All, IfOk, OnOk, codes, filter, get_or, length, map};
ghost use Rattle.std.specs.List.{range_with_len};
ghost use Rattle.elf_write.specs.Layout.{new_names};
ghost use Rattle.elf_write.specs.New.{entries, entry_of};
ghost use Rattle.elf_write.specs.Added.{HasFields};
ghost use Rattle.demo_objects.specs.Bodies.{AreRelocBodies};
ghost use Rattle.demo_objects.specs.CanMake.{HasNumbers, HasValues};
ghost use Rattle.demo_objects.specs.Layout.{names_entry, with_names};
ghost use Rattle.demo_objects.specs.Made.{all_sections, has_relocs, indices_entry, no_entry, rela_entry, strings_body, strings_entry, strings_number, symbols_entry, symbol_tables, symbols_number, targets};
ghost use Rattle.demo_objects.specs.Spec.{spec_of, symbols_of};

use crate::relocs::reloc_bodies;
use crate::spec::Spec;
use crate::symbols::{count_locals, indices_body, needs_indices, strings_body, symbols_body};
use elf_objects::{SHF_INFO_LINK, SHT_RELA, SHT_STRTAB, SHT_SYMTAB, SHT_SYMTAB_SHNDX};
use elf_write::{NewSection, push_bytes};
use ot_base::NoMemory;
use std::alloc::Global;

/// A section like another.
fn copy_of(alloc: Global, section: &NewSection) -> Result<NewSection, NoMemory>
    ensures same { IfOk result (λ copy. entry_of copy ≡ entry_of section.now) }
    ensures numbers { IfOk result (λ _. HasFields (entry_of section.now)) }
{
    let &NewSection {
        kind,
        flags,
        link,
        info,
        align,
        entsize,
        ..
    } = section;
    Ok(NewSection {
        name: Vec::from_slice(alloc, &section.name)?,
        kind,
        flags,
        link,
        info,
        align,
        entsize,
        body: Vec::from_slice(alloc, &section.body)?,
    })
}

/// Sections like others.
fn copies_of(alloc: Global, sections: &[NewSection]) -> Result<Vec<NewSection>, NoMemory>
    ensures same { IfOk result (λ copies. entries copies.items ≡ entries sections.now) }
    ensures numbers { IfOk result (λ _. All HasFields (entries sections.now)) }
{
    let mut copies = Vec::new(alloc);
    for section in sections {
        copies.push(copy_of(alloc, section)?)?;
    }
    Ok(copies)
}

/// The sections that have relocations, in ascending order.
fn targets(alloc: Global, spec: &Spec, bodies: &[Vec<u8>]) -> Result<Vec<u32>, NoMemory>
    requires few { length spec.now.sections.items < 2 ^ 32 - 1 }
    requires bodies { AreRelocBodies spec.now.relocs.items (length spec.now.sections.items + 1) (map (λ v. v.items) bodies.now) }
    ensures { IfOk result (λ list. list.items ≡ targets (spec_of spec.now)) }
{
    let mut list = Vec::new(alloc);
    for sec in 1..spec.sections.len() as u32 + 1 {
        if !bodies[sec as usize].is_empty() {
            list.push(sec)?;
        }
    }
    Ok(list)
}

/// `.rela` and the name of a section.
fn rela_name(alloc: Global, section: &NewSection) -> Result<Vec<u8>, NoMemory>
    ensures { IfOk result (λ name. name.items ≡ codes ".rela" ++ section.now.name.items) }
{
    let mut name = Vec::from_slice(alloc, b".rela")?;
    name.extend_from_slice(&section.name)?;
    Ok(name)
}

/// The section with the relocations of a section, where the symbol table has the number `link`.
fn rela_section(
    alloc: Global,
    spec: &Spec,
    bodies: &[Vec<u8>],
    link: u32,
    sec: u32,
) -> Result<NewSection, NoMemory>
    requires some { 1 ≤ sec }
    requires known { sec ≤ length spec.now.sections.items }
    requires link { link ≡ symbols_number (spec_of spec.now) }
    requires bodies { AreRelocBodies spec.now.relocs.items (length spec.now.sections.items + 1) (map (λ v. v.items) bodies.now) }
    ensures { IfOk result (λ section. entry_of section ≡ rela_entry (spec_of spec.now) sec) }
{
    Ok(NewSection {
        name: rela_name(alloc, &spec.sections[sec as usize - 1])?,
        kind: SHT_RELA,
        flags: SHF_INFO_LINK,
        link,
        info: sec,
        align: 8,
        entsize: 24,
        body: Vec::from_slice(alloc, &bodies[sec as usize])?,
    })
}

/// The symbol table, where its string table has this number.
fn symbols_section(alloc: Global, spec: &Spec, strings: u32) -> Result<NewSection, NoMemory>
    requires few { length spec.now.symbols.items < 2 ^ 32 - 1 }
    requires bind { All (λ s. s.bind < 16) (symbols_of spec.now.symbols.items) }
    requires kind { All (λ s. s.kind < 16) (symbols_of spec.now.symbols.items) }
    requires fits { length (strings_body (symbols_of spec.now.symbols.items)) < 2 ^ 32 }
    requires strings { strings ≡ strings_number (spec_of spec.now) }
    ensures entry { IfOk result (λ section. entry_of section ≡ symbols_entry (spec_of spec.now)) }
    ensures numbers { IfOk result (λ _. All HasValues (symbols_of spec.now.symbols.items)) }
{
    Ok(NewSection {
        name: Vec::from_slice(alloc, b".symtab")?,
        kind: SHT_SYMTAB,
        flags: 0,
        link: strings,
        info: count_locals(&spec.symbols) as u32 + 1,
        align: 8,
        entsize: 24,
        body: symbols_body(alloc, &spec.symbols)?,
    })
}

/// The table of section numbers, where the symbol table has this number.
fn indices_section(alloc: Global, spec: &Spec, symbols: u32) -> Result<NewSection, NoMemory>
    requires { symbols ≡ symbols_number (spec_of spec.now) }
    ensures { IfOk result (λ section. entry_of section ≡ indices_entry (spec_of spec.now)) }
{
    Ok(NewSection {
        name: Vec::from_slice(alloc, b".symtab_shndx")?,
        kind: SHT_SYMTAB_SHNDX,
        flags: 0,
        link: symbols,
        info: 0,
        align: 4,
        entsize: 4,
        body: indices_body(alloc, &spec.symbols)?,
    })
}

/// A string table.
fn string_table(alloc: Global, name: &[u8], body: Vec<u8>) -> Result<NewSection, NoMemory>
    ensures { IfOk result (λ section. entry_of section ≡ record {
      name = name.now;
      kind = SHT_STRTAB;
      flags = 0;
      link = 0;
      info = 0;
      align = 1;
      entsize = 0;
      body = body.items;
    }) }
{
    Ok(NewSection {
        name: Vec::from_slice(alloc, name)?,
        kind: SHT_STRTAB,
        flags: 0,
        link: 0,
        info: 0,
        align: 1,
        entsize: 0,
        body,
    })
}

/// A zero byte, and each name with a zero byte.
fn names_of(alloc: Global, sections: &[NewSection]) -> Result<Vec<u8>, NoMemory>
    ensures { IfOk result (λ names. names.items ≡ 0 ∷ new_names (entries sections.now)) }
{
    let mut names = Vec::from_slice(alloc, &[0])?;
    for section in sections {
        push_bytes(&mut names, &section.name)?;
        push_bytes(&mut names, &[0])?;
    }
    Ok(names)
}

/// Adds the table of section names.
fn push_names(alloc: Global, all: &mut Vec<NewSection>) -> Result<(), NoMemory>
    ensures { OnOk result (entries all.new.items ≡ with_names (entries all.old.items)) }
{
    let mut names = names_of(alloc, all)?;
    push_bytes(&mut names, b".shstrtab\0")?;
    all.push(string_table(alloc, b".shstrtab", names)?)?;
    Ok(())
}

/// Adds the sections with the relocations of these sections.
fn push_relas(
    alloc: Global,
    all: &mut Vec<NewSection>,
    spec: &Spec,
    bodies: &[Vec<u8>],
    link: u32,
    targets: &[u32],
) -> Result<(), NoMemory>
    requires targets { All (λ sec. (1 ≤ sec) × (sec ≤ length spec.now.sections.items)) targets.now }
    requires link { link ≡ symbols_number (spec_of spec.now) }
    requires bodies { AreRelocBodies spec.now.relocs.items (length spec.now.sections.items + 1) (map (λ v. v.items) bodies.now) }
    ensures { OnOk result (entries all.new.items ≡ entries all.old.items ++ map (rela_entry (spec_of spec.now)) targets.now) }
{
    for sec in targets {
        all.push(rela_section(alloc, spec, bodies, link, *sec)?)?;
    }
    Ok(())
}

/// Adds the symbol table, and the table of section numbers where it is needed.
fn push_symbols(
    alloc: Global,
    all: &mut Vec<NewSection>,
    spec: &Spec,
    symbols: u32,
) -> Result<(), NoMemory>
    requires few { symbols < 2 ^ 32 - 2 }
    requires few_symbols { length spec.now.symbols.items < 2 ^ 32 - 1 }
    requires bind { All (λ s. s.bind < 16) (symbols_of spec.now.symbols.items) }
    requires kind { All (λ s. s.kind < 16) (symbols_of spec.now.symbols.items) }
    requires fits { length (strings_body (symbols_of spec.now.symbols.items)) < 2 ^ 32 }
    requires number { symbols ≡ symbols_number (spec_of spec.now) }
    ensures tables { OnOk result (entries all.new.items ≡ entries all.old.items ++ symbol_tables (spec_of spec.now)) }
    ensures numbers { OnOk result (All HasValues (symbols_of spec.now.symbols.items)) }
{
    let indices = needs_indices(&spec.symbols);
    let strings = if indices { symbols + 2 } else { symbols + 1 };
    all.push(symbols_section(alloc, spec, strings)?)?;
    if indices {
        all.push(indices_section(alloc, spec, symbols)?)?;
    }
    Ok(())
}

/// Adds the symbols' string table.
fn push_strings(alloc: Global, all: &mut Vec<NewSection>, spec: &Spec) -> Result<(), NoMemory>
    ensures { OnOk result (entries all.new.items ≡ entries all.old.items ++ strings_entry (spec_of spec.now) ∷ []) }
{
    let strings = strings_body(alloc, &spec.symbols)?;
    all.push(string_table(alloc, b".strtab", strings)?)?;
    Ok(())
}

/// All sections of the object but section 0.
pub(crate) fn all_sections(alloc: Global, spec: &Spec) -> Result<Vec<NewSection>, NoMemory>
    requires few { length (all_sections (spec_of spec.now)) < 2 ^ 32 - 1 }
    requires few_symbols { length spec.now.symbols.items < 2 ^ 32 - 1 }
    requires bind { All (λ s. s.bind < 16) (symbols_of spec.now.symbols.items) }
    requires kind { All (λ s. s.kind < 16) (symbols_of spec.now.symbols.items) }
    requires fits { length (strings_body (symbols_of spec.now.symbols.items)) < 2 ^ 32 }
    requires targets { All (λ r. r.sec ≤ length spec.now.sections.items) spec.now.relocs.items }
    ensures all { IfOk result (λ all. entries all.items ≡ all_sections (spec_of spec.now)) }
    ensures numbers { IfOk result (λ _. HasNumbers (spec_of spec.now)) }
{
    let bodies = reloc_bodies(alloc, spec.sections.len() as u32 + 1, &spec.relocs)?;
    let targets = targets(alloc, spec, &bodies)?;
    let symbols = (spec.sections.len() + targets.len()) as u32 + 1;
    let mut all = copies_of(alloc, &spec.sections)?;
    push_relas(alloc, &mut all, spec, &bodies, symbols, &targets)?;
    push_symbols(alloc, &mut all, spec, symbols)?;
    push_strings(alloc, &mut all, spec)?;
    push_names(alloc, &mut all)?;
    Ok(all)
}
