// The public call.

ghost use Rattle.std.specs.Prelude.{◌≡◌, IfOk};
ghost use Rattle.elf_objects.specs.Object.{IsObject};
ghost use Rattle.elf_write.specs.Object.{appended_to};
ghost use Rattle.orc_bytes.specs.Sections.{HoldsOrc};
ghost use Rattle.orc_output.specs.OrcOutput.{CanHaveOrc, orc_sections, with_orc_object};

use crate::sections::{ip_section, orc_section, rela_section};
use elf_objects::Object;
use elf_write::append;
use orc_bytes::{OrcSections, encode};
use ot_base::{NoMemory, PlacedRow};
use std::alloc::Global;

/// The file of an object with the ORC sections of these rows behind its own sections: `.orc_unwind`, `.orc_unwind_ip` and
/// `.rela.orc_unwind_ip` (Linux 6.6, `orc-unwinder.rst`), laid out as [`append`] does.
///
/// The result is a well-formed object, and its ORC sections are the rows in their order. Each row lies in a text section
/// that a section symbol stands for. `CanHaveOrc` says this, that the object has none of the three sections yet, and how
/// large it may be: at most 256 MiB and 262,141 sections, with at most 67,108,865 rows.
///
/// # Errors
///
/// [`NoMemory`] where memory was wanted and not there.
pub fn with_orc(alloc: Global, object: &Object<'_>, rows: &[PlacedRow]) -> Result<Vec<u8>, NoMemory>
    requires { CanHaveOrc object.now rows.now }
    ensures layout { IfOk result (λ file. file.items ≡ appended_to object.now (orc_sections object.now rows.now)) }
    ensures object { IfOk result (λ file. IsObject file.items (with_orc_object object.now rows.now)) }
    ensures holds { IfOk result (λ _. HoldsOrc (with_orc_object object.now rows.now) rows.now) }
{
    let ip_number = object.sections() + 1;
    let OrcSections { orc, ip, rela } = encode(alloc, object, rows)?;
    let sections = [
        orc_section(alloc, orc)?,
        ip_section(alloc, ip)?,
        rela_section(alloc, object, ip_number, rela)?,
    ];
    append(alloc, object, &sections)
}
