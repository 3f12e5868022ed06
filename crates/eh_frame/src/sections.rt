// The two frame sections, as sections to add.

ghost use Rattle.std.specs.Prelude.{◌≡◌, IfOk, length};
ghost use Rattle.elf_write.specs.New.{entry_of};
ghost use Rattle.eh_frame.specs.FrameOutput.{frame_entry, rela_entry};

use elf_objects::{Object, SHF_ALLOC, SHF_INFO_LINK, SHT_PROGBITS, SHT_RELA};
use elf_write::NewSection;
use ot_base::NoMemory;
use std::alloc::Global;

/// `.eh_frame`: the call frame information.
pub(crate) fn frame_section(alloc: Global, body: Vec<u8>) -> Result<NewSection, NoMemory>
    ensures { IfOk result (λ section. entry_of section ≡ frame_entry body.items) }
{
    Ok(NewSection {
        name: Vec::from_slice(alloc, b".eh_frame")?,
        kind: SHT_PROGBITS,
        flags: SHF_ALLOC,
        link: 0,
        info: 0,
        align: 8,
        entsize: 0,
        body,
    })
}

/// `.rela.eh_frame`: a relocation for each entry of `.eh_frame`, the section with this number, which is the first behind those of
/// the object.
pub(crate) fn rela_section(
    alloc: Global,
    object: &Object<'_>,
    frame_number: u32,
    body: Vec<u8>,
) -> Result<NewSection, NoMemory>
    requires { frame_number ≡ length object.now.sections }
    ensures { IfOk result (λ section. entry_of section ≡ rela_entry object.now body.items) }
{
    Ok(NewSection {
        name: Vec::from_slice(alloc, b".rela.eh_frame")?,
        kind: SHT_RELA,
        flags: SHF_INFO_LINK,
        link: object.symbol_table().unwrap_or(0),
        info: frame_number,
        align: 8,
        entsize: 24,
        body,
    })
}
