//! Whether an object has room for call frame information.

ghost use Rattle.std.specs.Prelude.{◌≡◌, ◌≤◌, All, IfErr, None, OnOk, length};
ghost use Rattle.ot_base.specs.NameLists.{NameLists};
ghost use Rattle.flow_defs.specs.Coded.{coded_by};
ghost use Rattle.x86_map.specs.declared.map.Map.{Map};
ghost use Rattle.eh_frame.specs.FrameOutput.{IsOther, first_frame};
ghost use Rattle.object_check.specs.Order.{IsInOrder};
ghost use Rattle.objtool_cli.specs.Cfi.{IsUnchecked};
ghost use Rattle.objtool_cli.specs.FramesOrder.{most_sections};

use command_base::{CommandStop, Refusal};
use eh_frame::first_frame_section;
use elf_objects::{Counted, MAX_SECTIONS, Object};

/// Checks that an object whose code is in order has no frame section yet, and room for two, or tells why a command stops whose object
/// hasn't.
pub(crate) fn check_room<'a>(object: &Object<'_>) -> Result<(), CommandStop<'a>>
    ensures new { OnOk result (first_frame object.now ≡ None) }
    ensures others { OnOk result (All IsOther object.now.sections) }
    ensures few { OnOk result (length object.now.sections ≤ most_sections) }
    ensures stopped { (map : Map) (lists : NameLists) → IsInOrder (coded_by map object.now) lists → IfErr result (IsUnchecked map lists object.now) }
{
    if let Some(sec) = first_frame_section(object) {
        return Err(CommandStop::Refused(Refusal::HasFrames { sec }));
    }
    let count = u64::from(object.sections());
    if count > MAX_SECTIONS - 2 {
        return Err(CommandStop::Refused(Refusal::TooMany {
            what: Counted::Sections,
            count,
        }));
    }
    Ok(())
}
