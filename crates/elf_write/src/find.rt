//! What of an object the writer has to find.

ghost use Rattle.std.specs.Prelude.{◌≡◌, ◌<◌, ◌⊎◌, All, OnOk, IfErr, length};
ghost use Rattle.elf_write.specs.SymbolLayout.{index_table};
ghost use Rattle.elf_write.specs.Taken.{AreFree, IsTaken};

use crate::fault::SymFault;
use elf_objects::{Object, SHT_SYMTAB_SHNDX};

/// Tells the first of these sections that has a section symbol.
pub(crate) fn check_free(object: &Object<'_>, secs: &[u32]) -> Result<(), SymFault>
    requires { All (λ s. s < length object.now.sections) secs.now }
    ensures free { OnOk result (AreFree object.now secs.now) }
    ensures taken { IfErr result (IsTaken object.now secs.now) }
{
    for sec in secs {
        if let Some(sym) = object.section_symbol(*sec) {
            return Err(SymFault::HasOne { sec: *sec, sym });
        }
    }
    Ok(())
}

/// The number of the table of section numbers, where there is one.
pub(crate) fn index_table(object: &Object<'_>) -> Option<u32>
    ensures { result ≡ index_table object.now }
{
    for i in 0..object.sections() {
        if object.section(i).kind == SHT_SYMTAB_SHNDX {
            return Some(i);
        }
    }
    None
}
