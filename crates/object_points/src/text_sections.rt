//! What an object says of its text sections, and of functions without a size.

ghost use Rattle.std.specs.Prelude.{◌≡◌, ◌<◌, None, Some, map, length, if◌then◌else◌, IfOk};
ghost use Rattle.flow_defs.specs.Program.{is_unsized as is_unsized_of, text_sections_of, unsized_of};
ghost use Rattle.program_graph.specs.Tells.{text_of};
ghost use Rattle.symbols_relocs.specs.Functions.{start_of as start_of_symbol};

use elf_objects::{Home, Object, STT_FUNC};
use ot_base::{NoMemory, Place};
use program_graph::TextSection;
use std::alloc::Global;

/// The text sections with their sizes, ascending.
pub fn list_texts(alloc: Global, object: &Object<'_>) -> Result<Vec<TextSection>, NoMemory>
    ensures { IfOk result (λ texts. map text_of texts.items ≡ text_sections_of object.now) }
{
    let mut texts = Vec::new(alloc);
    for sec in 0..object.sections() {
        if object.is_text(sec) {
            let size = object.section(sec).size;
            texts.push(TextSection { sec, size })?;
        }
    }
    Ok(texts)
}

/// The place of a symbol, where it is that of a function in a text section (`STT_FUNC`) with the size 0.
fn place_without_size(object: &Object<'_>, k: u32) -> Option<Place>
    requires { k < length object.now.symbols }
    ensures { result ≡ (if is_unsized_of object.now k then Some (start_of_symbol object.now k) else None) }
{
    let symbol = object.symbol(k);
    match symbol.home {
        Home::Section(sec)
            if symbol.kind == STT_FUNC
                && symbol.size == 0
                && sec < object.sections()
                && object.is_text(sec) => {
            Some(Place {
                sec,
                off: symbol.value,
            })
        }
        _ => None,
    }
}

/// The places of the symbols of functions in text sections that have the size 0, in the order of the symbols.
pub fn list_without_size(alloc: Global, object: &Object<'_>) -> Result<Vec<Place>, NoMemory>
    ensures { IfOk result (λ places. places.items ≡ unsized_of object.now) }
{
    let mut places = Vec::new(alloc);
    for k in 0..object.symbols() {
        if let Some(place) = place_without_size(object, k) {
            places.push(place)?;
        }
    }
    Ok(places)
}
