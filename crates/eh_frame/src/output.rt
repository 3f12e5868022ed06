// The call for rows whose sections have section symbols.

ghost use Rattle.std.specs.Prelude.{◌≡◌, IfOk};
ghost use Rattle.elf_objects.specs.Object.{IsObject};
ghost use Rattle.elf_write.specs.Object.{appended_to};
ghost use Rattle.eh_frame.specs.Laws.{HoldsFrames};
ghost use Rattle.eh_frame.specs.FrameOutput.{CanHaveSections, frame_sections, with_frames_object};

use crate::sections::{frame_section, rela_section};
use crate::{EhSections, encode};
use elf_objects::Object;
use elf_write::append;
use ot_base::{NoMemory, PlacedRow};
use std::alloc::Global;

/// The file of an object with the call frame information of these rows behind its own sections: `.eh_frame` and `.rela.eh_frame`
/// (System V psABI; DWARF 4, section 6.4), laid out as [`append`] does.
///
/// The result is a well-formed object, and its `.eh_frame` is that of the rows. Each row lies in a text section that a section
/// symbol stands for. `CanHaveSections` says this, what else call frame information asks of rows, that the object has none of the
/// two sections yet, and how large it may be: at most 256 MiB and 262,142 sections, with at most 67,108,865 rows.
///
/// # Errors
///
/// [`NoMemory`] where memory was wanted and not there.
pub fn with_frame_sections(
    alloc: Global,
    object: &Object<'_>,
    rows: &[PlacedRow],
) -> Result<Vec<u8>, NoMemory>
    requires { CanHaveSections object.now rows.now }
    ensures layout { IfOk result (λ file. file.items ≡ appended_to object.now (frame_sections object.now rows.now)) }
    ensures object { IfOk result (λ file. IsObject file.items (with_frames_object object.now rows.now)) }
    ensures holds { IfOk result (λ _. HoldsFrames (with_frames_object object.now rows.now) rows.now) }
{
    let frame_number = object.sections();
    let EhSections { body, rela } = encode(alloc, object, rows)?;
    let sections = [
        frame_section(alloc, body)?,
        rela_section(alloc, object, frame_number, rela)?,
    ];
    append(alloc, object, &sections)
}
