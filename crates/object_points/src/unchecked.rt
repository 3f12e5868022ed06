//! The owners that aren't checked.

ghost use Rattle.std.specs.Prelude.{◌≡◌, filter_map, IfOk};
ghost use Rattle.flow_defs.specs.Owners.{owner_of_start as owner_of_function_at};
ghost use Rattle.object_points.specs.Unchecked.{is_among as is_one_of, AreAscending, AreUnchecked};

use crate::linked::Linked;
use crate::owner::owner_of_start;
use ot_base::{NoMemory, Place};
use std::alloc::Global;
use symbols_relocs::Index;

/// The owners of the functions that start at these places.
fn list_owners(alloc: Global, index: &Index<'_, '_>, places: &[Place]) -> Result<Vec<u32>, NoMemory>
    ensures { IfOk result (λ owners. owners.items ≡ filter_map (owner_of_function_at index.now.elf) places.now) }
{
    let mut owners = Vec::new(alloc);
    for place in places {
        if let Some(owner) = owner_of_start(index, *place) {
            owners.push(owner)?;
        }
    }
    Ok(owners)
}

/// The owners that aren't checked, ascending.
pub(crate) fn list_unchecked(alloc: Global, linked: &Linked<'_, '_>) -> Result<Vec<u32>, NoMemory>
    ensures { IfOk result (λ owners. AreUnchecked linked.now.elf owners.items) }
{
    let mut owners = list_owners(alloc, linked.index(), linked.special().unchecked())?;
    owners.sort()?;
    Ok(owners)
}

/// Whether an owner is among these, which ascend.
pub fn is_among(owners: &[u32], owner: u32) -> bool
    requires { AreAscending owners.now }
    ensures { result ≡ is_one_of owners.now owner }
{
    owners.binary_search(&owner).is_ok()
}
