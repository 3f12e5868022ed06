//! Which names of symbols are listed as those of functions that never return.

ghost use Rattle.std.specs.Prelude.{◌≡◌, IfOk};
ghost use Rattle.ot_base.specs.NameLists.{NameLists};
ghost use Rattle.elf_objects.specs.Elf.{Elf};
ghost use Rattle.flow_defs.specs.Program.{never_returns_by};
ghost use Rattle.control_flow.specs.Named.{AreLookedUp};

use elf_objects::Object;
use object_points::never_returns;
use ot_base::{Lists, NoMemory};
use std::alloc::Global;

/// For each symbol that nothing is known of its name.
pub(crate) fn no_names(alloc: Global, object: &Object<'_>) -> Result<Vec<Option<bool>>, NoMemory>
    ensures { IfOk result (λ names. (o : Elf) → (lists : NameLists) → AreLookedUp o lists names.items) }
{
    Ok(vec![in alloc; None; object.symbols() as usize]?)
}

/// Whether the name of a symbol is listed as one that never returns, which is known from now on.
pub(crate) fn is_listed_name(
    object: &Object<'_>,
    lists: &Lists,
    names: &mut Vec<Option<bool>>,
    sym: u32,
) -> bool
    requires { AreLookedUp object.now lists.now names.old.items }
    ensures is { result ≡ never_returns_by object.now lists.now sym }
    ensures known { AreLookedUp object.now lists.now names.new.items }
{
    let k = sym as usize;
    if k >= names.len() {
        return never_returns(object, lists, sym);
    }
    if let Some(listed) = names[k] {
        return listed;
    }
    let listed = never_returns(object, lists, sym);
    names[k] = Some(listed);
    listed
}
