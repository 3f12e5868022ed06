//! The symbols of functions.

ghost use Rattle.std.specs.Prelude.{◌≡◌, ◌<◌, ◌≤◌, None, length, IfOk, IfErr, OnOk};
ghost use Rattle.elf_objects.specs.Contents.{section_at, symbol_at};
ghost use Rattle.elf_objects.specs.Lent.{lent_symbol};
ghost use Rattle.symbols_relocs.specs.Functions.{first_bad, is_code as is_code_of, is_function as is_function_of, leaves_section as leaves_section_of, start_of as start_of_symbol};
ghost use Rattle.symbols_relocs.specs.Faults.{Tells};
ghost use Rattle.symbols_relocs.specs.Lists.{function_symbol as function_symbol_of, AreSymbols};
ghost use Rattle.symbols_relocs.specs.Places.{home_section, is_text_home};

use crate::fault::IndexFault;
use crate::function::Function;
use elf_objects::{Home, Object, STT_FUNC, Symbol};
use ot_base::Place;
use std::alloc::Global;

/// Whether a symbol with this home is defined in a text section.
pub(crate) fn is_text_defined(object: &Object<'_>, home: Home) -> bool
    ensures { result ≡ is_text_home object.now home }
{
    match home {
        Home::Section(sec) => sec < object.sections() && object.is_text(sec),
        Home::Undefined | Home::Absolute | Home::Common => false,
    }
}

/// Whether a symbol is of type `STT_FUNC` and defined in a text section.
fn is_code(object: &Object<'_>, k: u32, symbol: &Symbol) -> bool
    requires { lent_symbol (symbol_at object.now k).name symbol.now ≡ symbol_at object.now k }
    ensures { result ≡ is_code_of object.now k }
{
    symbol.kind == STT_FUNC && is_text_defined(object, symbol.home)
}

/// The place of a symbol; in section 0, which is none, where it is defined in no section.
pub(crate) fn place_of(symbol: &Symbol) -> Place
    ensures { result ≡ record { sec = home_section symbol.now.home; off = symbol.now.value } }
{
    let sec = match symbol.home {
        Home::Section(sec) => sec,
        Home::Undefined | Home::Absolute | Home::Common => 0,
    };
    Place {
        sec,
        off: symbol.value,
    }
}

/// The place of the symbol with a number.
pub(crate) fn start_of(object: &Object<'_>, k: u32) -> Place
    requires { k < length object.now.symbols }
    ensures { result ≡ start_of_symbol object.now k }
{
    place_of(&object.symbol(k))
}

/// The size of a section in bytes, 0 where there is none with that index.
pub(crate) fn section_size(object: &Object<'_>, sec: u32) -> u64
    ensures { result ≡ (section_at object.now sec).size }
{
    if sec < object.sections() {
        object.section_size(sec)
    } else {
        0
    }
}

/// Whether a symbol of code starts at its section's size or behind, or ends behind.
fn leaves_section(object: &Object<'_>, k: u32, symbol: &Symbol) -> bool
    requires { lent_symbol (symbol_at object.now k).name symbol.now ≡ symbol_at object.now k }
    ensures { result ≡ leaves_section_of object.now k }
{
    if !is_code(object, k, symbol) {
        return false;
    }
    let size = section_size(object, place_of(symbol).sec);
    symbol.value >= size || u128::from(symbol.value) + u128::from(symbol.size) > u128::from(size)
}

/// Whether a symbol, which is given, is one of a function.
fn stands_for_function(object: &Object<'_>, k: u32, symbol: &Symbol) -> bool
    requires { lent_symbol (symbol_at object.now k).name symbol.now ≡ symbol_at object.now k }
    ensures { result ≡ is_function_of object.now k }
{
    is_code(object, k, symbol) && symbol.size != 0
}

/// Whether the symbol with a number is one of a function.
pub(crate) fn is_function(object: &Object<'_>, k: u32) -> bool
    requires { k < length object.now.symbols }
    ensures { result ≡ is_function_of object.now k }
{
    stands_for_function(object, k, &object.symbol(k))
}

/// What the symbol of a function says of it.
fn function_symbol(object: &Object<'_>, k: u32, symbol: &Symbol) -> Function
    requires { lent_symbol (symbol_at object.now k).name symbol.now ≡ symbol_at object.now k }
    ensures { result ≡ function_symbol_of object.now k }
{
    Function {
        start: place_of(symbol),
        size: symbol.size,
        sym: k,
        parent: None,
    }
}

/// The symbols of functions in the order of their numbers, or the first symbol of code that leaves its
/// section.
pub(crate) fn list_symbols(alloc: Global, object: &Object<'_>) -> Result<Vec<Function>, IndexFault>
    ensures ok { IfOk result (λ list. AreSymbols object.now (length object.now.symbols) list.items) }
    ensures few { IfOk result (λ list. length list.items ≤ 4194304) }
    ensures right { OnOk result (first_bad object.now ≡ None) }
    ensures err { IfErr result (Tells object.now) }
{
    let mut list = Vec::new(alloc);
    for k in 0..object.symbols() {
        let symbol = object.symbol(k);
        if leaves_section(object, k, &symbol) {
            return Err(IndexFault::Func { sym: k });
        }
        if stands_for_function(object, k, &symbol) {
            list.push(function_symbol(object, k, &symbol))?;
        }
    }
    Ok(list)
}
