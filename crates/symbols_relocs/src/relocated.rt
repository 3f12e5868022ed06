//! Bytes that a linker changes.

ghost use Rattle.std.specs.Prelude.{◌≡◌, ◌+◌, ◌<◌, ◌^◌};
ghost use Rattle.std.specs.List.{list_any};
ghost use Rattle.elf_objects.specs.Contents.{relocs_at};
ghost use Rattle.symbols_relocs.specs.NamedPlaces.{is_relocated as is_relocated_in};
ghost use Rattle.symbols_relocs.specs.Relocs.{changes_field, is_changed as is_changed_by};

use crate::Index;
use elf_objects::Reloc;
use ot_base::Place;

/// Whether one of these relocations changes its field: one of any type but 0, `R_X86_64_NONE`.
fn change_some(relocs: &[Reloc]) -> bool
    ensures { result ≡ list_any changes_field relocs.now }
{
    relocs.iter().any(|reloc| reloc.kind != 0)
}

/// Whether a relocation changes the field that begins at a place.
fn is_changed(index: &Index<'_, '_>, place: Place) -> bool
    ensures { result ≡ is_changed_by place.off (relocs_at index.now.elf place.sec) }
{
    change_some(index.relocs_at(place))
}

/// Whether a relocation changes a field that begins at one of so many bytes from a place on, by each of them.
#[inline(never)]
fn is_some_changed(index: &Index<'_, '_>, place: Place, len: u8) -> bool
    requires { place.off + len < 2 ^ 64 }
    ensures { result ≡ is_relocated_in index.now.elf place len }
{
    let sec = place.sec;
    for k in 0..len {
        let off = place.off + u64::from(k);
        if is_changed(index, Place { sec, off }) {
            return true;
        }
    }
    false
}

/// Whether a relocation of any type but 0, `R_X86_64_NONE`, begins at one of so many bytes from a place on.
pub fn is_relocated(index: &Index<'_, '_>, place: Place, len: u8) -> bool
    requires { place.off + len < 2 ^ 64 }
    ensures { result ≡ is_relocated_in index.now.elf place len }
{
    if index.lacks_relocs(place, len) {
        return false;
    }
    is_some_changed(index, place, len)
}
