//! Code that is told by the names of symbols.

ghost use Rattle.std.specs.Prelude.{◌≡◌, ◌&&◌, ◌<◌, nat_le, true, length, IfOk};
ghost use Rattle.std.specs.FinSet as set;
ghost use Rattle.ot_base.specs.declared.place.Place.{Place as PlaceValue};
ghost use Rattle.elf_objects.specs.Contents.{is_text, section_at, symbol_at};
ghost use Rattle.elf_objects.specs.Lent.{lent_symbol};
ghost use Rattle.symbols_relocs.specs.CodeNames.{names_of};
ghost use Rattle.symbols_relocs.specs.Covers.{is_behind_symbol, is_covered, is_linked as is_linked_object, is_symbol_of};
ghost use Rattle.symbols_relocs.specs.Extents.{has_byte_if_any, have_byte, have_start, starts_upto_if_any};
ghost use Rattle.symbols_relocs.specs.NamedCode.{is_byte_of, is_in_named_code, is_named_byte, names_code as names_code_of};

use crate::extents::{Extent, Extents};
use crate::symbols::{is_text_defined, place_of};
use elf_objects::{Object, STT_FILE, STT_FUNC, STT_NOTYPE, STT_SECTION, Symbol};
use ot_base::{Lists, NoMemory};
use std::alloc::Global;

/// A list of names of code.
#[derive(Clone, Copy)]
pub enum CodeNames {
    /// The names of loose code.
    Loose,
    /// Those of code that switches tasks.
    Switching,
}

/// Whether a symbol is of type `STT_FUNC` or `STT_NOTYPE` and defined in a text section.
pub(crate) fn names_code(object: &Object<'_>, k: u32, symbol: &Symbol) -> bool
    requires { lent_symbol (symbol_at object.now k).name symbol.now ≡ symbol_at object.now k }
    ensures { result ≡ names_code_of object.now k }
{
    (symbol.kind == STT_FUNC || symbol.kind == STT_NOTYPE) && is_text_defined(object, symbol.home)
}

/// Whether a name is one of a list.
fn is_listed(lists: &Lists, of: CodeNames, name: &[u8]) -> bool
    ensures { result ≡ set.contains (names_of lists.now of) name.now }
{
    match of {
        CodeNames::Loose => lists.is_loose(name),
        CodeNames::Switching => lists.switches_tasks(name),
    }
}

/// The bytes of a symbol, where it names code by a name of a list.
fn named_extent(object: &Object<'_>, lists: &Lists, of: CodeNames, k: u32) -> Option<Extent>
    requires { k < length object.now.symbols }
    ensures { (place : PlaceValue) → has_byte_if_any place result ≡ is_named_byte object.now (names_of lists.now of) place k }
{
    let symbol = object.symbol(k);
    if names_code(object, k, &symbol) && is_listed(lists, of, object.name_of_symbol(k)) {
        Some(Extent {
            start: place_of(&symbol),
            size: symbol.size,
        })
    } else {
        None
    }
}

/// The code that symbols name by the names of a list.
///
/// # Errors
///
/// [`NoMemory`] may come at any object.
pub fn named_code(
    alloc: Global,
    object: &Object<'_>,
    lists: &Lists,
    of: CodeNames,
) -> Result<Extents, NoMemory>
    ensures { IfOk result (λ code. (place : PlaceValue) → have_byte code place ≡ is_in_named_code object.now (names_of lists.now of) place) }
{
    let mut extents = Vec::new(alloc);
    for k in 0..object.symbols() {
        if let Some(extent) = named_extent(object, lists, of, k) {
            extents.push(extent)?;
        }
    }
    Ok(Extents::build(extents))
}

/// The bytes of a symbol of a text section, where it isn't one for the section itself.
fn symbol_extent(object: &Object<'_>, k: u32) -> Option<Extent>
    requires { k < length object.now.symbols }
    ensures bytes { (place : PlaceValue) → is_text (section_at object.now place.sec) ≡ true → has_byte_if_any place result ≡ (is_symbol_of object.now place.sec k && is_byte_of object.now k place) }
    ensures starts { (place : PlaceValue) → is_text (section_at object.now place.sec) ≡ true → starts_upto_if_any place result ≡ (is_symbol_of object.now place.sec k && nat_le (symbol_at object.now k).value place.off) }
{
    let symbol = object.symbol(k);
    if is_text_defined(object, symbol.home) && symbol.kind != STT_SECTION {
        Some(Extent {
            start: place_of(&symbol),
            size: symbol.size,
        })
    } else {
        None
    }
}

/// What the symbols of text sections cover, but for those for these sections themselves.
///
/// # Errors
///
/// [`NoMemory`] may come at any object.
pub fn covered_code(alloc: Global, object: &Object<'_>) -> Result<Extents, NoMemory>
    ensures bytes { IfOk result (λ code. (place : PlaceValue) → is_text (section_at object.now place.sec) ≡ true → have_byte code place ≡ is_covered object.now place) }
    ensures starts { IfOk result (λ code. (place : PlaceValue) → is_text (section_at object.now place.sec) ≡ true → have_start code place ≡ is_behind_symbol object.now place) }
{
    let mut extents = Vec::new(alloc);
    for k in 0..object.symbols() {
        if let Some(extent) = symbol_extent(object, k) {
            extents.push(extent)?;
        }
    }
    Ok(Extents::build(extents))
}

/// Whether an object is linked from several: it has more than one symbol of type `STT_FILE`.
pub fn is_linked(object: &Object<'_>) -> bool
    ensures { result ≡ is_linked_object object.now }
{
    let mut files: u32 = 0;
    for k in 0..object.symbols() {
        if object.symbol(k).kind == STT_FILE {
            files += 1;
        }
    }
    files > 1
}
