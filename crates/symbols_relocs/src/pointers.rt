//! The place that a relocation names.

ghost use Rattle.std.specs.Prelude.{◌≡◌, ◌+ℤ◌, pos};
ghost use Rattle.symbols_relocs.specs.NamedPlaces.{offset_of, place_named};
ghost use Rattle.symbols_relocs.specs.Relocs.{is_pointer_kind};

use elf_objects::{Home, Object, R_X86_64_32, R_X86_64_32S, R_X86_64_64, R_X86_64_PC32, Reloc};
use ot_base::Place;

/// Whether a relocation of this type stands for a place: `R_X86_64_64`, `R_X86_64_PC32`, `R_X86_64_32`
/// and `R_X86_64_32S`.
pub fn is_pointer(kind: u32) -> bool
    ensures { result ≡ is_pointer_kind kind }
{
    kind == R_X86_64_64 || kind == R_X86_64_PC32 || kind == R_X86_64_32 || kind == R_X86_64_32S
}

/// The sum of a symbol's value and an addend, where 64 bits hold it.
fn sum_of(value: u64, addend: i64) -> Option<u64>
    ensures { result ≡ offset_of (pos value +ℤ addend) }
{
    let sum = i128::from(value) + i128::from(addend);
    u64::try_from(sum).ok()
}

/// The place that a relocation names: in the section of its symbol, at the symbol's value plus the addend.
///
/// None where the symbol is defined in no section, or the sum isn't from 0 to 2^64 - 1.
pub fn named_place(object: &Object<'_>, reloc: Reloc) -> Option<Place>
    ensures { result ≡ place_named object.now reloc }
{
    if reloc.sym >= object.symbols() {
        return None;
    }
    let symbol = object.symbol(reloc.sym);
    let Home::Section(sec) = symbol.home else {
        return None;
    };
    let off = sum_of(symbol.value, reloc.addend)?;
    Some(Place { sec, off })
}
