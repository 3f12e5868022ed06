//! Whether an object has room for ORC sections.

ghost use Rattle.std.specs.Prelude.{◌≡◌, ◌≤◌, ◌<◌, None, IfErr, OnOk, length};
ghost use Rattle.ot_base.specs.NameLists.{NameLists};
ghost use Rattle.elf_objects.specs.Contents.{section_at};
ghost use Rattle.flow_defs.specs.Coded.{coded_by};
ghost use Rattle.x86_map.specs.declared.map.Map.{Map};
ghost use Rattle.object_check.specs.Order.{IsCheckFault, IsInOrder, is_orc_name, most_sections, orc_section};

use crate::fault::CheckFault;
use elf_objects::{MAX_SECTIONS, Object};

/// Whether a section is an ORC section.
fn is_orc_section(object: &Object<'_>, sec: u32) -> bool
    requires { sec < length object.now.sections }
    ensures { result ≡ is_orc_name (section_at object.now sec).name }
{
    object.section_is_named(sec, b".orc_unwind")
        || object.section_is_named(sec, b".orc_unwind_ip")
        || object.section_is_named(sec, b".rela.orc_unwind_ip")
}

/// The first ORC section.
fn first_orc_section(object: &Object<'_>) -> Option<u32>
    ensures { result ≡ orc_section object.now }
{
    for sec in 0..object.sections() {
        if is_orc_section(object, sec) {
            return Some(sec);
        }
    }
    None
}

/// Checks that an object has no ORC section yet, and room for those of its tables.
pub(crate) fn check_room(object: &Object<'_>) -> Result<(), CheckFault>
    ensures new { OnOk result (orc_section object.now ≡ None) }
    ensures few { OnOk result (length object.now.sections ≤ most_sections) }
    ensures err { (map : Map) (lists : NameLists) → IsInOrder (coded_by map object.now) lists → IfErr result (IsCheckFault (coded_by map object.now) lists) }
{
    if let Some(sec) = first_orc_section(object) {
        return Err(CheckFault::HasOrc { sec });
    }
    let count = u64::from(object.sections());
    if count > MAX_SECTIONS - 3 {
        return Err(CheckFault::TooManySections { count });
    }
    Ok(())
}
