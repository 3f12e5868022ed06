//! The symbols that instructions name, and static calls.

ghost use Rattle.std.specs.Prelude.{◌≡◌, ◌<◌, ◌+◌, ◌^◌, bytes_eq, codes, length};
ghost use Rattle.elf_objects.specs.Contents.{section_at};
ghost use Rattle.symbols_relocs.specs.NamedPlaces as places;
ghost use Rattle.site_lists.specs.Sites.{global_symbol as global_symbol_of, goes_to, has_wide_field as has_wide_field_op, is_in_replacements as is_in_replacements_of, is_settled as is_settled_target, is_static_call as is_static_call_of, is_trampoline as is_trampoline_of, symbol_named as symbol_named_of};

use elf_objects::{Object, Reloc, STB_GLOBAL};
use object_points::Linked;
use operation_defs::{Insn, Op};
use ot_base::Place;
use symbols_relocs::Target;

/// Whether the name of a section is this one.
pub(crate) fn is_named(object: &Object<'_>, sec: u32, name: &[u8]) -> bool
    requires { sec < length object.now.sections }
    ensures { result ≡ bytes_eq (section_at object.now sec).name name.now }
{
    object.section_is_named(sec, name)
}

/// Whether a section holds replacements.
pub(crate) fn is_in_replacements(object: &Object<'_>, sec: u32) -> bool
    requires { sec < length object.now.sections }
    ensures { result ≡ is_in_replacements_of object.now sec }
{
    is_named(object, sec, b".altinstr_replacement")
}

/// Whether an instruction ends with the four bytes by which it goes on.
fn has_wide_field(op: Op) -> bool
    ensures { result ≡ has_wide_field_op op }
{
    match op {
        Op::Call { .. } => true,
        Op::Jmp { wide, .. } | Op::Jcc { wide, .. } => wide,
        _ => false,
    }
}

/// Whether a target is one place of this object, or outside.
fn is_settled(target: Target) -> bool
    ensures { result ≡ is_settled_target target }
{
    matches!(target, Target::Inside(_) | Target::Outside(_))
}

/// The symbol of a relocation, where that is `GLOBAL`.
fn global_symbol(object: &Object<'_>, reloc: Option<Reloc>) -> Option<u32>
    ensures { result ≡ global_symbol_of object.now reloc }
{
    let sym = reloc?.sym;
    if sym < object.symbols() && object.symbol(sym).bind == STB_GLOBAL {
        Some(sym)
    } else {
        None
    }
}

/// The symbol that an instruction of the object's own code names, where it goes to this target.
fn symbol_named(linked: &Linked<'_, '_>, place: Place, insn: Insn, target: Target) -> Option<u32>
    requires known { place.sec < length linked.now.elf.sections }
    requires inside { place.off + insn.len < 2 ^ 64 }
    requires target { target ≡ goes_to linked.now (record { place = place; insn = insn }) }
    ensures { result ≡ symbol_named_of linked.now (record { place = place; insn = insn }) }
{
    let object = linked.object();
    if !has_wide_field(insn.op) || is_in_replacements(object, place.sec) || !is_settled(target) {
        return None;
    }
    let field = Place {
        off: (place.off + u64::from(insn.len)).saturating_sub(4),
        ..place
    };
    global_symbol(object, linked.index().reloc_at(field))
}

/// Whether a symbol is the trampoline of a static call.
fn is_trampoline(object: &Object<'_>, sym: Option<u32>) -> bool
    ensures { result ≡ is_trampoline_of object.now sym }
{
    match sym {
        Some(sym) => sym < object.symbols() && object.symbol_name_begins(sym, b"__SCT__"),
        None => false,
    }
}

/// Whether an instruction is a static call, which goes to this target.
pub(crate) fn is_static_call(
    linked: &Linked<'_, '_>,
    place: Place,
    insn: Insn,
    target: Target,
) -> bool
    requires known { place.sec < length linked.now.elf.sections }
    requires inside { place.off + insn.len < 2 ^ 64 }
    requires target { target ≡ goes_to linked.now (record { place = place; insn = insn }) }
    ensures { result ≡ is_static_call_of linked.now (record { place = place; insn = insn }) }
{
    if !is_trampoline(linked.object(), symbol_named(linked, place, insn, target)) {
        return false;
    }
    matches!(insn.op, Op::Call { .. }) || linked.index().function_at(place).is_some()
}
