//! The targets of direct calls and branches.

ghost use Rattle.std.specs.Prelude.{◌≡◌, ◌<◌, ◌+◌, ◌^◌, ◌+ℤ◌, pos, if◌then◌else◌, true, false, length, bytes_eq, option_map};
ghost use Rattle.elf_objects.specs.Contents.{symbol_at};
ghost use Rattle.elf_objects.specs.Lent.{lent_symbol};
ghost use Rattle.symbols_relocs.specs.declared.target.Target.TheVariants as targets;
ghost use Rattle.symbols_relocs.specs.Displacements.{field_target as field_target_of};
ghost use Rattle.symbols_relocs.specs.NamedPlaces.{offset_of};
ghost use Rattle.symbols_relocs.specs.Places.{is_in_text as is_in_text_of};
ghost use Rattle.symbols_relocs.specs.Targets.{either as either_at, inside as inside_at, is_branch_kind as is_branch_type, is_indirect_thunk as is_indirect_thunk_name, relative_target as relative_target_of, reloc_target as reloc_target_of, return_thunk, symbol_target as symbol_target_of};

use crate::displacement::Displacement;
use crate::symbols::section_size;
use elf_objects::{Home, Object, R_X86_64_PC32, R_X86_64_PLT32, Reloc, STB_WEAK, Symbol};
use ot_base::Place;

/// Where a direct call or branch goes.
#[derive(Clone, Copy, PartialEq, Eq)]
pub enum Target {
    /// To this place of a text section.
    Inside(Place),
    /// To this place of a text section, or to another object's definition of the WEAK symbol there, which
    /// has this number.
    Either(Place, u32),
    /// To an undefined symbol, which has this number.
    Outside(u32),
    /// To a thunk `__x86_indirect_thunk_..`: on to where a register points.
    ThunkIndirect,
    /// To `__x86_return_thunk`: it returns.
    ThunkReturn,
    /// To no place of a text section, or by a relocation that isn't one of a branch.
    Bad,
}

/// What the names of the thunks that jump to where a register points begin with.
const INDIRECT_THUNK: &[u8] = b"__x86_indirect_thunk_";

/// What of that tells them from the thunk that returns.
const INDIRECT_START: &[u8] = b"__x86_i";

/// The name of the thunk that returns.
const RETURN_THUNK: &[u8] = b"__x86_return_thunk";

/// What the names of all these thunks begin with, and few other names.
const THUNK_START: &[u8] = b"__x";

/// Whether a relocation of this type is one of a branch.
pub(crate) fn is_branch_kind(kind: u32) -> bool
    ensures { result ≡ is_branch_type kind }
{
    kind == R_X86_64_PC32 || kind == R_X86_64_PLT32
}

/// A number as an offset, where 64 bits hold it.
fn offset(sum: i128) -> Option<u64>
    ensures { result ≡ offset_of sum }
{
    u64::try_from(sum).ok()
}

/// Whether a place is in a text section, below its size.
#[inline(always)]
fn is_in_text(object: &Object<'_>, place: Place) -> bool
    ensures { result ≡ is_in_text_of object.now place }
{
    place.sec < object.sections()
        && object.is_text(place.sec)
        && place.off < section_size(object, place.sec)
}

/// The target at an offset of a section.
#[inline(always)]
fn inside(object: &Object<'_>, sec: u32, off: Option<u64>) -> Target
    ensures { result ≡ inside_at object.now sec off }
{
    match off {
        None => Target::Bad,
        Some(off) => {
            let place = Place { sec, off };
            if is_in_text(object, place) {
                Target::Inside(place)
            } else {
                Target::Bad
            }
        }
    }
}

/// The same of a WEAK symbol.
#[inline(never)]
fn either(object: &Object<'_>, sym: u32, sec: u32, off: Option<u64>) -> Target
    ensures { result ≡ either_at object.now sym sec off }
{
    match inside(object, sec, off) {
        Target::Inside(place) => Target::Either(place, sym),
        _ => Target::Bad,
    }
}

/// The offset in its section of what a relocation names, whose symbol has this value.
fn symbol_offset(value: u64, addend: i64) -> Option<u64>
    ensures { result ≡ offset_of (pos value +ℤ addend +ℤ pos 4) }
{
    offset(i128::from(value) + i128::from(addend) + 4)
}

/// The target at the symbol of a relocation, which is defined in a section.
#[inline(always)]
fn section_target(object: &Object<'_>, reloc: &Reloc, symbol: &Symbol, sec: u32) -> Target
    requires { lent_symbol (symbol_at object.now reloc.now.sym).name symbol.now ≡ symbol_at object.now reloc.now.sym }
    ensures { result ≡ symbol_target_of object.now reloc.now (Home.Section sec) }
{
    let off = symbol_offset(symbol.value, reloc.addend);
    if symbol.bind == STB_WEAK {
        // What a call gives is bound to a name, here and below: so the other results are built in registers.
        let target = either(object, reloc.sym, sec, off);
        target
    } else {
        inside(object, sec, off)
    }
}

/// The target at the symbol of a relocation.
#[inline(always)]
fn symbol_target(object: &Object<'_>, reloc: &Reloc) -> Target
    requires { reloc.now.sym < length object.now.symbols }
    ensures { result ≡ symbol_target_of object.now reloc.now (symbol_at object.now reloc.now.sym).home }
{
    let symbol = object.symbol(reloc.sym);
    match symbol.home {
        Home::Undefined => Target::Outside(reloc.sym),
        Home::Section(sec) => section_target(object, reloc, &symbol, sec),
        Home::Absolute | Home::Common => Target::Bad,
    }
}

/// Whether the name of a symbol may be that of a thunk, told by its first bytes.
fn may_be_thunk(object: &Object<'_>, sym: u32) -> bool
    requires { sym < length object.now.symbols }
    ensures indirect { result ≡ false → is_indirect_thunk_name (symbol_at object.now sym).name ≡ false }
    ensures returning { result ≡ false → bytes_eq (symbol_at object.now sym).name return_thunk ≡ false }
{
    object.symbol_name_begins(sym, THUNK_START)
}

/// Whether the name of a symbol is that of a thunk that jumps to where a register points.
fn is_indirect_thunk(object: &Object<'_>, sym: u32) -> bool
    requires { sym < length object.now.symbols }
    ensures { result ≡ is_indirect_thunk_name (symbol_at object.now sym).name }
{
    object.symbol_name_begins(sym, INDIRECT_START) && object.symbol_name_begins(sym, INDIRECT_THUNK)
}

/// Whether the name of a symbol is that of the thunk that returns.
fn is_return_thunk(object: &Object<'_>, sym: u32) -> bool
    requires { sym < length object.now.symbols }
    ensures { result ≡ bytes_eq (symbol_at object.now sym).name return_thunk }
{
    object.symbol_is_named(sym, RETURN_THUNK)
}

/// The target at the symbol of a relocation, whose name may be that of a thunk.
#[inline(never)]
fn thunk_target(object: &Object<'_>, reloc: &Reloc) -> Target
    requires kind { is_branch_type reloc.now.kind ≡ true }
    requires known { reloc.now.sym < length object.now.symbols }
    ensures { result ≡ reloc_target_of object.now reloc.now }
{
    if is_indirect_thunk(object, reloc.sym) {
        Target::ThunkIndirect
    } else if is_return_thunk(object, reloc.sym) {
        Target::ThunkReturn
    } else {
        symbol_target(object, reloc)
    }
}

/// The target that a relocation on a displacement of 32 bits names.
#[inline(always)]
fn wide_target(object: &Object<'_>, reloc: &Reloc) -> Target
    ensures { result ≡ reloc_target_of object.now reloc.now }
{
    if !is_branch_kind(reloc.kind) {
        Target::Bad
    } else if reloc.sym >= object.symbols() {
        // A symbol that isn't there is undefined.
        Target::Outside(reloc.sym)
    } else if may_be_thunk(object, reloc.sym) {
        let target = thunk_target(object, reloc);
        target
    } else {
        symbol_target(object, reloc)
    }
}

/// The target that a relocation on a displacement names, which has 32 bits where it is wide.
#[inline(never)]
fn reloc_target(object: &Object<'_>, reloc: &Reloc, wide: bool) -> Target
    ensures { result ≡ if wide then reloc_target_of object.now reloc.now else targets.Bad }
{
    if wide {
        wide_target(object, reloc)
    } else {
        Target::Bad
    }
}

/// The offset so far from another, where 64 bits hold it.
#[inline(always)]
fn offset_from(end: u64, rel: i32) -> Option<u64>
    ensures { result ≡ offset_of (pos end +ℤ rel) }
{
    end.checked_add_signed(i64::from(rel))
}

/// The target of a displacement without a relocation.
#[inline(always)]
fn relative_target(object: &Object<'_>, place: Place, len: u8, rel: i32) -> Target
    requires { place.off + len < 2 ^ 64 }
    ensures { result ≡ relative_target_of object.now place len rel }
{
    let off = offset_from(place.off + u64::from(len), rel);
    inside(object, place.sec, off)
}

/// The target of the instruction at a place by its displacement, with the relocation that stands on it.
#[inline(always)]
pub(crate) fn field_target(
    object: &Object<'_>,
    place: Place,
    len: u8,
    displacement: Displacement,
    reloc: Option<&Reloc>,
) -> Target
    requires { place.off + len < 2 ^ 64 }
    ensures { result ≡ field_target_of object.now place len displacement (option_map (λ r. r.now) reloc.entry) }
{
    match reloc {
        None => relative_target(object, place, len, displacement.rel),
        Some(reloc) => {
            let target = reloc_target(object, reloc, displacement.wide);
            target
        }
    }
}
