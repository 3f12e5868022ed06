// The six sections of site lists, as sections to add.

ghost use Rattle.std.specs.Prelude.{◌≡◌, ◌<◌, IfOk};
ghost use Rattle.elf_write.specs.New.{entry_of};
ghost use Rattle.site_lists.specs.SiteOutput.{list_entry, list_number, rela_entry};

use elf_objects::{Object, SHF_ALLOC, SHF_INFO_LINK, SHT_PROGBITS, SHT_RELA};
use elf_write::NewSection;
use ot_base::NoMemory;
use std::alloc::Global;

/// The section of the list with this number: four bytes for each place.
pub(crate) fn list_section(alloc: Global, which: u8, body: Vec<u8>) -> Result<NewSection, NoMemory>
    ensures { IfOk result (λ section. entry_of section ≡ list_entry which body.items) }
{
    let name: &[u8] = match which {
        0 => b".retpoline_sites",
        1 => b".return_sites",
        _ => b".call_sites",
    };
    Ok(NewSection {
        name: Vec::from_slice(alloc, name)?,
        kind: SHT_PROGBITS,
        flags: SHF_ALLOC,
        link: 0,
        info: 0,
        align: 4,
        entsize: 4,
        body,
    })
}

/// The section of its relocations: one for each four bytes of the section with this number.
pub(crate) fn rela_section(
    alloc: Global,
    object: &Object<'_>,
    which: u8,
    list: u32,
    body: Vec<u8>,
) -> Result<NewSection, NoMemory>
    requires { list ≡ list_number object.now which }
    ensures { IfOk result (λ section. entry_of section ≡ rela_entry object.now which body.items) }
{
    let name: &[u8] = match which {
        0 => b".rela.retpoline_sites",
        1 => b".rela.return_sites",
        _ => b".rela.call_sites",
    };
    Ok(NewSection {
        name: Vec::from_slice(alloc, name)?,
        kind: SHT_RELA,
        flags: SHF_INFO_LINK,
        link: object.symbol_table().unwrap_or(0),
        info: list,
        align: 8,
        entsize: 24,
        body,
    })
}
