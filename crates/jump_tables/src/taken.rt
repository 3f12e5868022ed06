//! The tables whose addresses instructions take.

ghost use Rattle.std.specs.Prelude.{◌≡◌, ◌+◌, ◌+ℤ◌, ◌<◌, ◌^◌, pos, slice_get};
ghost use Rattle.std.specs.List.{filter_map};
ghost use Rattle.symbols_relocs.specs.NamedPlaces.{offset_of};
ghost use Rattle.alternatives.specs.Texts.{AscendBySection};
ghost use Rattle.flow_defs.specs.TableRegisters.{address_taken as address_taken_by, begins_table as begins_a_table, is_of_owner as is_of_the_owner, place_moved as place_moved_by, table_taken as table_taken_by, tables_taken};

use crate::code::Code;
use crate::field::{boundary_named, may_hold_tables};
use crate::owner::{is_same_owner, owner_at};
use alternatives::SectionText;
use elf_objects::{Home, Object, R_X86_64_32S, R_X86_64_PC32, Reloc};
use ot_base::Place;
use symbols_relocs::{Index, named_place};
use x86_text::PlacedInsn;

/// The sum of a symbol's value, an addend and so many bytes, where 64 bits hold it.
fn sum_of(value: u64, addend: i64, by: u64) -> Option<u64>
    ensures { result ≡ offset_of (pos value +ℤ addend +ℤ pos by) }
{
    let sum = i128::from(value) + i128::from(addend) + i128::from(by);
    u64::try_from(sum).ok()
}

/// The place that a relocation names, moved on by so many bytes.
fn place_moved(object: &Object<'_>, reloc: Reloc, by: u64) -> Option<Place>
    ensures { result ≡ place_moved_by object.now reloc by }
{
    if reloc.sym >= object.symbols() {
        return None;
    }
    let symbol = object.symbol(reloc.sym);
    let Home::Section(sec) = symbol.home else {
        return None;
    };
    let off = sum_of(symbol.value, reloc.addend, by)?;
    Some(Place { sec, off })
}

/// The address that an instruction which ends at an offset takes by a relocation.
fn address_taken(object: &Object<'_>, end: u64, reloc: Reloc) -> Option<Place>
    ensures { result ≡ address_taken_by object.now end reloc }
{
    if reloc.kind == R_X86_64_32S {
        named_place(object, reloc)
    } else if reloc.kind == R_X86_64_PC32 {
        place_moved(object, reloc, end.saturating_sub(reloc.offset))
    } else {
        None
    }
}

/// Whether a place is there and has an owner.
fn is_of_owner(index: &Index<'_, '_>, owner: Option<u32>, place: Option<Place>) -> bool
    ensures { result ≡ is_of_the_owner index.now.elf owner place }
{
    match place {
        Some(place) => is_same_owner(owner_at(index, place), owner),
        None => false,
    }
}

/// Whether a table of an owner begins at a place.
fn begins_table(
    index: &Index<'_, '_>,
    texts: &[SectionText<'_>],
    owner: Option<u32>,
    place: Place,
) -> bool
    requires { AscendBySection texts.now }
    ensures { result ≡ begins_a_table index.now.elf texts.now owner place }
{
    may_hold_tables(index, place) && is_of_owner(index, owner, boundary_named(index, texts, place))
}

/// The table of an owner whose address is taken by a relocation of an instruction that ends at an offset.
fn table_taken(
    index: &Index<'_, '_>,
    texts: &[SectionText<'_>],
    owner: Option<u32>,
    end: u64,
    reloc: Reloc,
) -> Option<Place>
    requires { AscendBySection texts.now }
    ensures { result ≡ table_taken_by index.now.elf texts.now owner end reloc }
{
    let place = address_taken(index.object(), end, reloc)?;
    if begins_table(index, texts, owner, place) {
        Some(place)
    } else {
        None
    }
}

/// The first table whose address is taken by one of these relocations.
fn first_by(
    index: &Index<'_, '_>,
    texts: &[SectionText<'_>],
    owner: Option<u32>,
    end: u64,
    relocs: &[Reloc],
) -> Option<Place>
    requires { AscendBySection texts.now }
    ensures { result ≡ slice_get (filter_map (table_taken_by index.now.elf texts.now owner end) relocs.now) 0 }
{
    for reloc in relocs {
        if let Some(table) = table_taken(index, texts, owner, end, *reloc) {
            return Some(table);
        }
    }
    None
}

/// The first table of an owner whose address an instruction of a section takes.
pub(crate) fn first_taken(
    code: &Code<'_, '_, '_, '_>,
    owner: Option<u32>,
    sec: u32,
    placed: PlacedInsn,
) -> Option<Place>
    requires { placed.off + placed.insn.len < 2 ^ 64 }
    ensures { result ≡ slice_get (tables_taken code.now.index.now.elf code.now.texts.now owner sec placed) 0 }
{
    let end = placed.off + u64::from(placed.insn.len);
    for off in placed.off..end {
        let relocs = code.index.relocs_at(Place { sec, off });
        if let Some(table) = first_by(code.index, code.texts, owner, end, relocs) {
            return Some(table);
        }
    }
    None
}
