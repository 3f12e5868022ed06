//! The places that go without an ENDBR though their addresses are taken.

ghost use Rattle.std.specs.Prelude.{◌≡◌, ◌<◌, ◌++◌, length, IfOk, OnOk};
ghost use Rattle.taken_places.specs.Taken.{excused_in, excused_places, is_excusing as is_excusing_in, pointed_at as pointed_at_by};

use crate::named::is_named;
use elf_objects::{Object, Reloc};
use ot_base::{NoMemory, Place};
use std::alloc::Global;
use symbols_relocs::{is_pointer, named_place};

/// The place that a relocation names which puts a place into its field.
fn pointed_at(object: &Object<'_>, reloc: Reloc) -> Option<Place>
    ensures { result ≡ pointed_at_by object.now reloc }
{
    if is_pointer(reloc.kind) {
        named_place(object, reloc)
    } else {
        None
    }
}

/// Adds the places that the relocations of a section name so.
fn push_section(object: &Object<'_>, sec: u32, places: &mut Vec<Place>) -> Result<(), NoMemory>
    requires { sec < length object.now.sections }
    ensures { OnOk result (places.new.items ≡ places.old.items ++ excused_in object.now sec) }
{
    for i in 0..object.relocs(sec) {
        let reloc = object.reloc(sec, i);
        if let Some(place) = pointed_at(object, reloc) {
            places.push(place)?;
        }
    }
    Ok(())
}

/// Whether a section marks places so.
fn is_excusing(object: &Object<'_>, sec: u32) -> bool
    requires { sec < length object.now.sections }
    ensures { result ≡ is_excusing_in object.now sec }
{
    is_named(object, sec, b".discard.noendbr")
}

/// The places that an object marks as going without an ENDBR though their addresses are taken.
///
/// # Errors
///
/// [`NoMemory`] where memory was wanted and not there.
pub fn list_excused(alloc: Global, object: &Object<'_>) -> Result<Vec<Place>, NoMemory>
    ensures { IfOk result (λ places. places.items ≡ excused_places object.now) }
{
    let mut places = Vec::new(alloc);
    for sec in 0..object.sections() {
        if is_excusing(object, sec) {
            push_section(object, sec, &mut places)?;
        }
    }
    Ok(places)
}
