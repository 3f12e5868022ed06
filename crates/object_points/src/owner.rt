//! Functions and owners by their symbols.

ghost use Rattle.std.specs.Prelude.{◌≡◌, ◌<◌, length, is_some};
ghost use Rattle.symbols_relocs.specs.Lists.{symbol_of};
ghost use Rattle.symbols_relocs.specs.Parts.{owner_of as owner_of_function, parent_of};
ghost use Rattle.flow_defs.specs.Owners.{owner_of_start as owner_of_function_at};

use ot_base::Place;
use symbols_relocs::Index;

/// The owner of the function with an index, by its symbol.
pub(crate) fn owner_of(index: &Index<'_, '_>, function: u32) -> u32
    requires { function < length index.now.functions }
    ensures { result ≡ owner_of_function index.now.elf (symbol_of index.now.functions function) }
{
    let functions = index.functions();
    match functions[function as usize].parent {
        Some(parent) => functions[parent as usize].sym,
        None => functions[function as usize].sym,
    }
}

/// Whether the function with an index is a part.
pub(crate) fn is_part(index: &Index<'_, '_>, function: u32) -> bool
    requires { function < length index.now.functions }
    ensures { result ≡ is_some (parent_of index.now.elf (symbol_of index.now.functions function)) }
{
    index.functions()[function as usize].parent.is_some()
}

/// The owner of the function that starts at a place, by its symbol.
pub(crate) fn owner_of_start(index: &Index<'_, '_>, place: Place) -> Option<u32>
    ensures { result ≡ owner_of_function_at index.now.elf place }
{
    let function = index.starts_at(place)?;
    Some(owner_of(index, function))
}
