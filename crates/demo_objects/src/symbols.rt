//! The bodies of the symbol table and of what belongs to it.

ghost use Rattle.std.specs.Prelude.{◌≡◌, ◌+◌, ◌<◌, ◌≤◌, ◌^◌, ◌++◌, All, IfOk, IsTrue, OnOk, filter, length};
ghost use Rattle.demo_objects.specs.CanMake.{HasValues};
ghost use Rattle.demo_objects.specs.Made.{index_of, indices_body, is_local, is_wide, name_place, name_text, needs_indices, shndx_of, strings_body, symbol_bytes, symbols_body};
ghost use Rattle.demo_objects.specs.Spec.{symbol_of, symbols_of};

use crate::spec::SymSpec;
use elf_objects::{Home, SHN_ABS, SHN_COMMON, SHN_LORESERVE, SHN_UNDEF, SHN_XINDEX, STB_LOCAL};
use elf_write::{push_bytes, push_u16, push_u32, push_u64};
use ot_base::NoMemory;
use std::alloc::Global;

/// From this section number on `st_shndx` does not tell it.
const MANY: u32 = SHN_LORESERVE as u32;

/// `st_shndx` of a home.
fn shndx_of(home: Home) -> u16
    ensures { result ≡ shndx_of home }
{
    match home {
        Home::Section(i) if i < MANY => i as u16,
        Home::Section(_) => SHN_XINDEX,
        Home::Undefined => SHN_UNDEF,
        Home::Absolute => SHN_ABS,
        Home::Common => SHN_COMMON,
    }
}

/// Whether the section number of a home does not fit `st_shndx`.
fn is_wide(home: Home) -> bool
    ensures { result ≡ is_wide home }
{
    match home {
        Home::Section(i) => i >= MANY,
        Home::Undefined | Home::Absolute | Home::Common => false,
    }
}

/// The entry of a home in the table of section numbers.
fn index_of(home: Home) -> u32
    ensures { result ≡ index_of home }
{
    match home {
        Home::Section(i) if i >= MANY => i,
        Home::Section(_) | Home::Undefined | Home::Absolute | Home::Common => 0,
    }
}

/// Whether the section number of some home does not fit `st_shndx`.
pub(crate) fn needs_indices(symbols: &[SymSpec]) -> bool
    ensures { result ≡ needs_indices (symbols_of symbols.now) }
{
    for symbol in symbols {
        if is_wide(symbol.home) {
            return true;
        }
    }
    false
}

/// How many symbols are local.
pub(crate) fn count_locals(symbols: &[SymSpec]) -> usize
    ensures value { result ≡ length (filter is_local (symbols_of symbols.now)) }
    ensures few { result ≤ length symbols.now }
{
    let mut count = 0;
    for symbol in symbols {
        if symbol.bind == STB_LOCAL {
            count += 1;
        }
    }
    count
}

/// Adds the 24 bytes of a symbol whose name begins at `name` in the string table.
fn push_symbol(out: &mut Vec<u8>, name: u32, symbol: &SymSpec) -> Result<(), NoMemory>
    requires bind { symbol.now.bind < 16 }
    requires kind { symbol.now.kind < 16 }
    ensures bytes { OnOk result (out.new.items ≡ out.old.items ++ symbol_bytes name (symbol_of symbol.now)) }
    ensures numbers { OnOk result (HasValues (symbol_of symbol.now)) }
{
    push_u32(out, name)?;
    push_bytes(out, &[symbol.bind * 16 + symbol.kind, 0])?;
    push_u16(out, shndx_of(symbol.home))?;
    push_u64(out, symbol.value)?;
    push_u64(out, symbol.size)
}

/// How many bytes a name takes in the string table.
pub(crate) fn room_of(name: &[u8]) -> usize
    requires { length name.now < 2 ^ 63 }
    ensures { result ≡ length (name_text name.now) }
{
    if name.is_empty() { 0 } else { name.len() + 1 }
}

/// Where a name begins for which there is room from `at` on.
fn name_place(at: u32, name: &[u8]) -> u32
    ensures { result ≡ name_place at name.now }
{
    if name.is_empty() { 0 } else { at }
}

/// The symbol table.
pub(crate) fn symbols_body(alloc: Global, symbols: &[SymSpec]) -> Result<Vec<u8>, NoMemory>
    requires bind { All (λ s. s.bind < 16) (symbols_of symbols.now) }
    requires kind { All (λ s. s.kind < 16) (symbols_of symbols.now) }
    requires fits { length (strings_body (symbols_of symbols.now)) < 2 ^ 32 }
    ensures body { IfOk result (λ body. body.items ≡ symbols_body (symbols_of symbols.now)) }
    ensures numbers { IfOk result (λ _. All HasValues (symbols_of symbols.now)) }
{
    let mut body = Vec::from_slice(alloc, &[0; 24])?;
    let mut at = 1;
    for symbol in symbols {
        push_symbol(&mut body, name_place(at as u32, &symbol.name), symbol)?;
        at += room_of(&symbol.name);
    }
    Ok(body)
}

/// The string table of the symbols.
pub(crate) fn strings_body(alloc: Global, symbols: &[SymSpec]) -> Result<Vec<u8>, NoMemory>
    ensures { IfOk result (λ body. body.items ≡ strings_body (symbols_of symbols.now)) }
{
    let mut body = Vec::from_slice(alloc, &[0])?;
    for symbol in symbols {
        push_name(&mut body, &symbol.name)?;
    }
    Ok(body)
}

/// Adds a name with its zero byte, unless it is empty.
fn push_name(out: &mut Vec<u8>, name: &[u8]) -> Result<(), NoMemory>
    ensures { OnOk result (out.new.items ≡ out.old.items ++ name_text name.now) }
{
    if !name.is_empty() {
        push_bytes(out, name)?;
        push_bytes(out, &[0])?;
    }
    Ok(())
}

/// The table of section numbers.
pub(crate) fn indices_body(alloc: Global, symbols: &[SymSpec]) -> Result<Vec<u8>, NoMemory>
    ensures { IfOk result (λ body. body.items ≡ indices_body (symbols_of symbols.now)) }
{
    let mut body = Vec::new(alloc);
    push_u32(&mut body, 0)?;
    for symbol in symbols {
        push_u32(&mut body, index_of(symbol.home))?;
    }
    Ok(body)
}
