//! Keeping the first index that passes a test.

ghost use Rattle.std.specs.Prelude.{◌≡◌, Some, None, IfOk, IfErr, replicate, if◌then◌else◌};
ghost use Rattle.elf_objects.specs.Below.{first_of};

use crate::fault::ElfFault;
use std::alloc::Global;

/// The index found before, or else the new one where it passes.
pub(crate) fn earliest(found: Option<u32>, passes: bool, i: u32) -> Option<u32>
    ensures { result ≡ first_of found (if passes then Some i else None) }
{
    match found {
        Some(first) => Some(first),
        None if passes => Some(i),
        None => None,
    }
}

/// A list of that many times nothing.
pub(crate) fn nothing(alloc: Global, count: u32) -> Result<Vec<Option<u32>>, ElfFault>
    ensures ok { IfOk result (λ list. list.items ≡ replicate count None) }
    ensures err { IfErr result (λ e. e ≡ ElfFault.NoMemory) }
{
    Ok(vec![in alloc; None; count as usize]?)
}
