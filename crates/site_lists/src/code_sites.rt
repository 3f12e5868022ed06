//! The places of an object's code that site lists name.

ghost use Rattle.std.specs.Prelude.{◌≡◌, ◌==◌, ◌+◌, ◌++◌, ◌<◌, ◌≤◌, ◌^◌, [], ◌∷◌, length, IfOk, OnOk};
ghost use Rattle.std.specs.List.{list_any};
ghost use Rattle.elf_objects.specs.Object.{IsObject};
ghost use Rattle.elf_objects.specs.declared.TheConstants.{SHT_SYMTAB_SHNDX as section_numbers};
ghost use Rattle.object_points.specs.Places.{HaveSamePlaces};
ghost use Rattle.special_sections.specs.Special.{special_of};
ghost use Rattle.site_lists.specs.Listed.{listed};
ghost use Rattle.site_lists.specs.Sites.{AreFew, AreSitesIn, can_have_symbol as can_have_symbol_in, is_direct_call as is_direct_call_op, joined, listed_of, lists_calls as lists_calls_of, placed_code, sites_of};
ghost use Rattle.site_lists.specs.declared.options.ListOptions.{ListOptions as ListOptionsValue};

use crate::ListOptions;
use crate::lists::SiteLists;
use crate::named::{is_in_replacements, is_named, is_static_call};
use alternatives::SectionText;
use elf_objects::{Object, SHN_LORESERVE, SHT_SYMTAB_SHNDX};
use object_points::{Linked, PlaceSet};
use operation_defs::{Insn, Op};
use ot_base::{NoMemory, Place};
use std::alloc::Global;
use symbols_relocs::Target;

/// Whether an object has a table of section numbers, for symbols of sections whose number is 0xFF00 or above.
fn has_section_numbers(object: &Object<'_>) -> bool
    ensures value { result ≡ list_any (λ s. s.kind == section_numbers) object.now.sections }
    ensures object { IsObject object.now.bytes object.now }
{
    for i in 0..object.sections() {
        if object.section(i).kind == SHT_SYMTAB_SHNDX {
            return true;
        }
    }
    false
}

/// Whether a section symbol stands for a section or could be made for it.
fn can_have_symbol(object: &Object<'_>, has_numbers: bool, sec: u32) -> bool
    requires { has_numbers ≡ list_any (λ s. s.kind == section_numbers) object.now.sections }
    ensures { result ≡ can_have_symbol_in object.now sec }
{
    object.symbols() > 0 && (sec < u32::from(SHN_LORESERVE) || has_numbers)
}

/// Whether an operation is a direct call.
fn is_direct_call(op: Op) -> bool
    ensures { result ≡ is_direct_call_op op }
{
    matches!(op, Op::Call { .. })
}

/// Adds a place to a list.
fn push(list: &mut Vec<Place>, place: Place) -> Result<(), NoMemory>
    ensures { OnOk result (list.new.items ≡ list.old.items ++ place ∷ []) }
{
    list.push(place)?;
    Ok(())
}

/// Whether call sites of a section are listed.
fn lists_calls(object: &Object<'_>, options: ListOptions, sec: u32) -> bool
    requires { sec < length object.now.sections }
    ensures { result ≡ lists_calls_of options object.now sec }
{
    !is_in_replacements(object, sec) && (options.module || !is_named(object, sec, b".init.text"))
}

/// Adds the instruction at a place to the list that names it, if one does. Of the section call sites are listed, or not.
fn push_site(
    linked: &Linked<'_, '_>,
    intra_calls: &PlaceSet,
    listed_calls: bool,
    lists: &mut SiteLists,
    place: Place,
    insn: Insn,
) -> Result<(), NoMemory>
    requires known { place.sec < length linked.now.elf.sections }
    requires inside { place.off + insn.len < 2 ^ 64 }
    requires intra { HaveSamePlaces (special_of linked.now.elf).intra_calls intra_calls.now }
    ensures { (options : ListOptionsValue) → listed_calls ≡ lists_calls_of options linked.now.elf place.sec
        → OnOk result (listed lists.new ≡ joined (listed lists.old) (listed_of options linked.now (record { place = place; insn = insn } ∷ []))) }
{
    let target = linked.index().branch_target(place, insn);
    match target {
        Target::ThunkIndirect => push(&mut lists.retpoline, place),
        Target::ThunkReturn => push(&mut lists.returns, place),
        Target::Inside(_) | Target::Either(_, _) | Target::Outside(_) => {
            if is_direct_call(insn.op)
                && listed_calls
                && !intra_calls.contains(place)
                && !is_static_call(linked, place, insn, target)
            {
                push(&mut lists.calls, place)
            } else {
                Ok(())
            }
        }
        Target::Bad => Ok(()),
    }
}

/// Adds the sites of a text section.
fn push_text(
    linked: &Linked<'_, '_>,
    intra_calls: &PlaceSet,
    options: ListOptions,
    lists: &mut SiteLists,
    text: &SectionText<'_>,
) -> Result<(), NoMemory>
    requires known { text.now.sec < length linked.now.elf.sections }
    requires little { length text.now.text.bytes ≤ 16777216 }
    requires intra { HaveSamePlaces (special_of linked.now.elf).intra_calls intra_calls.now }
    ensures { OnOk result (listed lists.new ≡ joined (listed lists.old) (listed_of options linked.now (placed_code text.now))) }
{
    let listed_calls = lists_calls(linked.object(), options, text.sec);
    for i in 0..text.text.count() {
        let (off, insn) = text.text.insn(i);
        let place = Place { sec: text.sec, off };
        push_site(linked, intra_calls, listed_calls, lists, place, insn)?;
    }
    Ok(())
}

/// The sites of an object whose code is read, each list ascending by place: direct calls and branches to a thunk that goes on to
/// where a register points; those to the thunk that returns; and direct calls of code, of this object or another, but for those
/// that are listed as calls within a function, static calls, and those of start-up code that is no part of a module.
///
/// They are of the code as it is assembled, not of replacements. An object without symbols has no sites, and one without a table
/// of section numbers none in a section from 0xFF00 on, since no relocation could name them. Each instruction is looked at once.
///
/// # Errors
///
/// [`NoMemory`] where memory was wanted and not there.
pub fn sites(
    alloc: Global,
    linked: &Linked<'_, '_>,
    options: ListOptions,
) -> Result<SiteLists, NoMemory>
    ensures value { IfOk result (λ lists. listed lists ≡ sites_of options linked.now) }
    // So they can be added to the object.
    ensures placed { IfOk result (λ lists. AreSitesIn linked.now.elf (listed lists)) }
    ensures few { IfOk result (λ lists. AreFew (listed lists)) }
{
    let object = linked.object();
    let has_numbers = has_section_numbers(object);
    let intra_calls = PlaceSet::build(alloc, linked.special().intra_calls())?;
    let mut lists = SiteLists {
        retpoline: Vec::new(alloc),
        returns: Vec::new(alloc),
        calls: Vec::new(alloc),
    };
    for text in linked.texts() {
        if can_have_symbol(object, has_numbers, text.sec) {
            push_text(linked, &intra_calls, options, &mut lists, text)?;
        }
    }
    Ok(lists)
}
