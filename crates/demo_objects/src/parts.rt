//! Whether the parts of an object are right by themselves.

ghost use Rattle.std.specs.Prelude.{◌≡◌, ◌≢◌, ◌+◌, ◌<◌, ◌≤◌, ◌^◌, ◌↔◌, All, IsTrue, length};
ghost use Rattle.elf_write.specs.New.{entries, entry_of};
ghost use Rattle.demo_objects.specs.CanMake.{HasParts, HaveHomes, IsHome, IsNewReloc, IsNewSymbol, IsSection};
ghost use Rattle.demo_objects.specs.Checked.{PartsFit, SectionsFit};
ghost use Rattle.demo_objects.specs.Layout.{file_of, next_multiple};
ghost use Rattle.demo_objects.specs.Made.{strings_body};
ghost use Rattle.demo_objects.specs.Spec.{spec_of, symbol_of, symbols_of};

use crate::spec::{RelSpec, Spec, SymSpec};
use crate::symbols::room_of;
use elf_objects::{Home, MAX_SECTIONS, SHT_NOBITS, SHT_NULL};
use elf_write::NewSection;

/// A file has fewer bytes.
const LIMIT: u128 = 1 << 32;

/// Whether a name has no zero byte.
fn is_name(name: &[u8]) -> bool
    ensures { IsTrue result ↔ All (λ c. c ≢ 0) name.now }
{
    !name.contains(&0)
}

/// Whether a section is right by itself.
fn is_section(section: &NewSection) -> bool
    ensures { IsTrue result ↔ IsSection (entry_of section.now) }
{
    let bodiless = section.kind == SHT_NULL || section.kind == SHT_NOBITS;
    is_name(&section.name) && section.align >= 1 && (!bodiless || section.body.is_empty())
}

/// Whether sections are right by themselves.
fn are_sections(sections: &[NewSection]) -> bool
    ensures { IsTrue result ↔ All IsSection (entries sections.now) }
{
    for section in sections {
        if !is_section(section) {
            return false;
        }
    }
    true
}

/// Whether a symbol is right by itself.
fn is_symbol(symbol: &SymSpec) -> bool
    ensures { IsTrue result ↔ IsNewSymbol (symbol_of symbol.now) }
{
    is_name(&symbol.name) && symbol.bind < 16 && symbol.kind < 16
}

/// Whether symbols are right by themselves.
fn are_symbols(symbols: &[SymSpec]) -> bool
    ensures { IsTrue result ↔ All IsNewSymbol (symbols_of symbols.now) }
{
    for symbol in symbols {
        if !is_symbol(symbol) {
            return false;
        }
    }
    true
}

/// Whether a relocation is right by itself, where there are so many sections from number 1 on.
fn is_reloc(rel: RelSpec, count: u32) -> bool
    ensures { IsTrue result ↔ IsNewReloc count rel }
{
    rel.sec >= 1 && rel.sec <= count
}

/// Whether relocations are right by themselves, where there are so many sections from number 1 on.
fn are_relocs(relocs: &[RelSpec], count: u32) -> bool
    ensures { IsTrue result ↔ All (IsNewReloc count) relocs.now }
{
    for rel in relocs {
        if !is_reloc(*rel, count) {
            return false;
        }
    }
    true
}

/// Whether the parts are right by themselves.
fn has_parts(spec: &Spec) -> bool
    requires { length spec.now.sections.items < 2 ^ 32 }
    ensures { IsTrue result ↔ HasParts (spec_of spec.now) }
{
    are_sections(&spec.sections)
        && are_symbols(&spec.symbols)
        && are_relocs(&spec.relocs, spec.sections.len() as u32)
}

/// Whether a home is one of so many sections, from number 1 on, or none.
fn is_home(home: Home, count: u32) -> bool
    ensures { IsTrue result ↔ IsHome count home }
{
    match home {
        Home::Section(i) => i >= 1 && i < count,
        Home::Undefined | Home::Absolute | Home::Common => true,
    }
}

/// Whether the home of each symbol is one of so many sections, or none.
fn have_homes(symbols: &[SymSpec], count: u32) -> bool
    ensures { IsTrue result ↔ HaveHomes count (symbols_of symbols.now) }
{
    for symbol in symbols {
        if !is_home(symbol.home, count) {
            return false;
        }
    }
    true
}

/// Whether the symbols' string table is not too large.
fn strings_fit(symbols: &[SymSpec]) -> bool
    ensures { IsTrue result ↔ (length (strings_body (symbols_of symbols.now)) < 2 ^ 32) }
{
    let mut size = 1;
    for symbol in symbols {
        size += room_of(&symbol.name) as u128;
        if size >= LIMIT {
            return false;
        }
    }
    true
}

/// The next multiple of an alignment.
fn next_multiple(align: u64, n: u128) -> u128
    requires some { 1 ≤ align }
    requires below { n < 2 ^ 127 }
    ensures { result ≡ next_multiple align n }
{
    let align = u128::from(align);
    let over = n % align;
    if over == 0 { n } else { n + (align - over) }
}

/// Whether the file of sections from number 1 on is not too large.
fn file_fits(sections: &[NewSection]) -> bool
    requires { All (λ e. 1 ≤ e.align) (entries sections.now) }
    ensures { IsTrue result ↔ (length (file_of (entries sections.now)) < 2 ^ 32) }
{
    let mut end = 64;
    for section in sections {
        end = next_multiple(section.align, end) + section.body.len() as u128;
        if end >= LIMIT {
            return false;
        }
    }
    next_multiple(8, end) + 64 * (sections.len() as u128 + 1) < LIMIT
}

/// Whether the parts are right by themselves, and not too many.
pub(crate) fn parts_fit(spec: &Spec) -> bool
    ensures { IsTrue result ↔ PartsFit (spec_of spec.now) }
{
    (spec.sections.len() as u64) < MAX_SECTIONS
        && spec.symbols.len() < u32::MAX as usize
        && has_parts(spec)
        && strings_fit(&spec.symbols)
}

/// Whether sections from number 1 on are not too many or too large, and the homes of the symbols are
/// among them.
pub(crate) fn sections_fit(sections: &[NewSection], symbols: &[SymSpec]) -> bool
    requires { All (λ e. 1 ≤ e.align) (entries sections.now) }
    ensures { IsTrue result ↔ SectionsFit (entries sections.now) (symbols_of symbols.now) }
{
    (sections.len() as u64) < MAX_SECTIONS
        && have_homes(symbols, sections.len() as u32 + 1)
        && file_fits(sections)
}
