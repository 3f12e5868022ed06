//! What must hold of each symbol.

ghost use Rattle.std.specs.Prelude.{◌≡◌, ◌<◌, ◌+◌, ◌↔◌, ℕ, false, ◌==◌, ◌&&◌, IsTrue, IfSome, IfNone, IfErr, IfOk, OnOk, MatchResult};
ghost use Rattle.elf_objects.specs.Steps.{EachSection, EachSymbol, FirstSymbol, symbols_file};
ghost use Rattle.elf_objects.specs.Contents.{is_home};
ghost use Rattle.elf_objects.specs.declared.TheConstants.{STT_SECTION};
ghost use Rattle.elf_objects.specs.Found.{AreSectionSymbols};
ghost use Rattle.elf_objects.specs.Object.{Refuses};
ghost use Rattle.elf_objects.specs.Sections.{HasLinks};
ghost use Rattle.elf_objects.specs.Symbols.{HasFewSymbols, AreManySymbols, IsSymbol, SymbolFault, IsOnItsSide};
ghost use Rattle.elf_objects.specs.Table.{symbol_count, string_header};

use crate::earliest::{earliest, nothing};
use crate::fault::{Counted, ElfFault, NameOf};
use crate::symbol::Home;
use crate::symbols::{Symbols, find_home};
use crate::{MAX_SYMBOLS, STB_LOCAL, STT_SECTION};
use std::alloc::Global;

/// How many symbols there are, where there are not too many.
pub(crate) fn check_symbol_count(symbols: &Symbols) -> Result<u32, ElfFault>
    ensures few { OnOk result (HasFewSymbols (symbols_file symbols.now)) }
    ensures count { IfOk result (λ n. n ≡ symbol_count (symbols_file symbols.now)) }
    ensures err { IfErr result (AreManySymbols (symbols_file symbols.now)) }
{
    if symbols.count > MAX_SYMBOLS {
        return Err(ElfFault::TooMany {
            what: Counted::Symbols,
            count: symbols.count,
        });
    }
    Ok(symbols.count as u32)
}

/// Whether a symbol is local exactly where it is before the boundary.
fn is_on_its_side(symbols: &Symbols, k: u32) -> bool
    requires { k < symbol_count (symbols_file symbols.now) }
    ensures { IsTrue result ↔ IsOnItsSide (symbols_file symbols.now) k }
{
    let is_local = symbols.raw(k).info / 16 == STB_LOCAL;
    is_local == (k < symbols.header.info)
}

/// Whether a symbol has a name, a home, and stands on its side of the boundary.
fn check_symbol(symbols: &Symbols, string_size: u64, k: u32) -> Result<(), ElfFault>
    requires known { k < symbol_count (symbols_file symbols.now) }
    requires links { EachSection HasLinks (symbols_file symbols.now) }
    requires strings { string_size ≡ (string_header (symbols_file symbols.now)).size }
    ensures { MatchResult result
        (λ _. IsSymbol (symbols_file symbols.now) k) (SymbolFault (symbols_file symbols.now) k) }
{
    if u64::from(symbols.raw(k).name) >= string_size {
        return Err(ElfFault::BadName {
            what: NameOf::Symbol,
            index: k,
        });
    }
    if find_home(symbols, k).is_none() || !is_on_its_side(symbols, k) {
        return Err(ElfFault::BadSymbol { sym: k });
    }
    Ok(())
}

/// The section that a symbol of this type, value and home stands for.
fn stood_for(kind: u8, value: u64, home: Home) -> Option<u32>
    ensures some { IfSome result (λ i. home ≡ Home.Section i) }
    ensures only { IfSome result
        (λ i. (s : ℕ) → (i == s) ≡ ((kind == STT_SECTION) && (value == 0) && is_home s home)) }
    ensures none { IfNone result
        ((s : ℕ) → false ≡ ((kind == STT_SECTION) && (value == 0) && is_home s home)) }
{
    if kind != STT_SECTION {
        return None;
    }
    if value != 0 {
        return None;
    }
    match home {
        Home::Section(i) => Some(i),
        Home::Undefined | Home::Absolute | Home::Common => None,
    }
}

/// Notes for which section a symbol stands, where it does for one.
fn note_symbol(symbols: &Symbols, found: &mut Vec<Option<u32>>, k: u32)
    requires known { k < symbol_count (symbols_file symbols.now) }
    requires links { EachSection HasLinks (symbols_file symbols.now) }
    requires symbol { IsSymbol (symbols_file symbols.now) k }
    requires seen { AreSectionSymbols (symbols_file symbols.now) k found.old.items }
    ensures { AreSectionSymbols (symbols_file symbols.now) (k + 1) found.new.items }
{
    let symbol = symbols.raw(k);
    let Some(home) = find_home(symbols, k) else {
        unreachable!()
    };
    if let Some(i) = stood_for(symbol.info % 16, symbol.value, home) {
        let section = i as usize;
        found[section] = earliest(found[section], true, k);
    }
}

/// For each section the first symbol that stands for it, or the first symbol that has not what it
/// must have.
pub(crate) fn check_symbols(
    alloc: Global,
    symbols: &Symbols,
    count: u32,
) -> Result<Vec<Option<u32>>, ElfFault>
    requires count_is { count ≡ symbol_count (symbols_file symbols.now) }
    requires links { EachSection HasLinks (symbols_file symbols.now) }
    ensures ok { OnOk result (EachSymbol IsSymbol (symbols_file symbols.now)) }
    ensures found { IfOk result
        (λ found. AreSectionSymbols (symbols_file symbols.now) count found.items) }
    ensures err { IfErr result
        (Refuses (FirstSymbol IsSymbol SymbolFault (symbols_file symbols.now))) }
{
    let mut found = nothing(alloc, symbols.headers.count)?;
    let string_size = symbols.strings().size;
    for k in 0..count {
        check_symbol(symbols, string_size, k)?;
        note_symbol(symbols, &mut found, k);
    }
    Ok(found)
}
