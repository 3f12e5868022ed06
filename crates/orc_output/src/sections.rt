// The three ORC sections, as sections to add.

ghost use Rattle.std.specs.Prelude.{◌≡◌, ◌+◌, ◌≤◌, IfOk, length};
ghost use Rattle.elf_write.specs.New.{entry_of};
ghost use Rattle.orc_output.specs.OrcOutput.{ip_entry, orc_entry, rela_entry};

use elf_objects::{Object, SHF_ALLOC, SHF_INFO_LINK, SHT_PROGBITS, SHT_RELA};
use elf_write::NewSection;
use ot_base::NoMemory;
use std::alloc::Global;

/// `.orc_unwind`: six bytes for each row.
pub(crate) fn orc_section(alloc: Global, body: Vec<u8>) -> Result<NewSection, NoMemory>
    ensures { IfOk result (λ section. entry_of section ≡ orc_entry body.items) }
{
    Ok(NewSection {
        name: Vec::from_slice(alloc, b".orc_unwind")?,
        kind: SHT_PROGBITS,
        flags: SHF_ALLOC,
        link: 0,
        info: 0,
        align: 1,
        entsize: 6,
        body,
    })
}

/// `.orc_unwind_ip`: four bytes for each row.
pub(crate) fn ip_section(alloc: Global, body: Vec<u8>) -> Result<NewSection, NoMemory>
    ensures { IfOk result (λ section. entry_of section ≡ ip_entry body.items) }
{
    Ok(NewSection {
        name: Vec::from_slice(alloc, b".orc_unwind_ip")?,
        kind: SHT_PROGBITS,
        flags: SHF_ALLOC,
        link: 0,
        info: 0,
        align: 4,
        entsize: 4,
        body,
    })
}

/// `.rela.orc_unwind_ip`: a relocation for each four bytes of `.orc_unwind_ip`, the section with this number, which is
/// the second behind those of the object.
pub(crate) fn rela_section(
    alloc: Global,
    object: &Object<'_>,
    ip_number: u32,
    body: Vec<u8>,
) -> Result<NewSection, NoMemory>
    requires { ip_number ≡ length object.now.sections + 1 }
    ensures { IfOk result (λ section. entry_of section ≡ rela_entry object.now body.items) }
{
    Ok(NewSection {
        name: Vec::from_slice(alloc, b".rela.orc_unwind_ip")?,
        kind: SHT_RELA,
        flags: SHF_INFO_LINK,
        link: object.symbol_table().unwrap_or(0),
        info: ip_number,
        align: 8,
        entsize: 24,
        body,
    })
}
