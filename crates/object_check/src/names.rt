//! Functions that may be called with user access on, by their names.

ghost use Rattle.std.specs.Prelude.{◌≡◌, length, IfOk};
ghost use Rattle.object_check.specs.Allowances.{is_safe_name as is_safe_name_of};
ghost use Rattle.object_check.specs.Flags.{AreFlags};

use elf_objects::Object;
use ot_base::{Lists, Names, NoMemory};
use std::alloc::Global;

/// Whether the name of a symbol is listed as that of a function that may be called with user access on.
#[tactic(auto, unfolding(crate::specs::Allowances::is_safe_name))]
fn is_safe_name(object: &Object<'_>, lists: &Lists, sym: u32) -> bool
    ensures { result ≡ is_safe_name_of object.now lists.now sym }
{
    lists.access_safe(object.symbol_name(sym))
}

/// The same of each symbol.
pub(crate) fn list_safe_names(
    alloc: Global,
    object: &Object<'_>,
    lists: &Lists,
) -> Result<Vec<bool>, NoMemory>
    ensures { IfOk result (λ flags. AreFlags (is_safe_name_of object.now lists.now) (length object.now.symbols) flags.items) }
{
    let count = object.symbols();
    let mut flags = Vec::with_capacity(alloc, count as usize)?;
    for sym in 0..count {
        flags.push(is_safe_name(object, lists, sym))?;
    }
    Ok(flags)
}
