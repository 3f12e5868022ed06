// The call for lists whose sections have section symbols.

ghost use Rattle.std.specs.Prelude.{◌≡◌, IfOk};
ghost use Rattle.elf_objects.specs.Object.{IsObject};
ghost use Rattle.elf_write.specs.Object.{appended_to};
ghost use Rattle.site_lists.specs.Listed.{listed};
ghost use Rattle.site_lists.specs.Sections.{HoldsSites};
ghost use Rattle.site_lists.specs.SiteOutput.{CanHaveLists, site_sections, with_lists_object};

use crate::sections::{list_section, rela_section};
use crate::{SiteLists, SiteSections, encode};
use elf_objects::Object;
use elf_write::append;
use ot_base::NoMemory;
use std::alloc::Global;

/// The file of an object with these site lists behind its own sections: `.retpoline_sites`, `.return_sites` and `.call_sites`,
/// each followed by the section of its relocations, laid out as [`append`] does.
///
/// The result is a well-formed object, and its site lists are these, each in its order. Each place lies in a text section that a
/// section symbol stands for. `CanHaveLists` says this, that the object has none of the six sections yet, and how large it may
/// be: at most 256 MiB and 262,138 sections, with at most 16,777,216 places in each list.
///
/// # Errors
///
/// [`NoMemory`] where memory was wanted and not there.
pub fn with_lists(
    alloc: Global,
    object: &Object<'_>,
    lists: &SiteLists,
) -> Result<Vec<u8>, NoMemory>
    requires { CanHaveLists object.now (listed lists.now) }
    ensures layout { IfOk result (λ file. file.items ≡ appended_to object.now (site_sections object.now (listed lists.now))) }
    ensures object { IfOk result (λ file. IsObject file.items (with_lists_object object.now (listed lists.now))) }
    ensures holds { IfOk result (λ _. HoldsSites (with_lists_object object.now (listed lists.now)) (listed lists.now)) }
{
    let first = object.sections();
    let SiteSections {
        retpoline,
        returns,
        calls,
    } = encode(alloc, object, lists)?;
    let sections = [
        list_section(alloc, 0, retpoline.body)?,
        rela_section(alloc, object, 0, first, retpoline.rela)?,
        list_section(alloc, 1, returns.body)?,
        rela_section(alloc, object, 1, first + 2, returns.rela)?,
        list_section(alloc, 2, calls.body)?,
        rela_section(alloc, object, 2, first + 4, calls.rela)?,
    ];
    append(alloc, object, &sections)
}
