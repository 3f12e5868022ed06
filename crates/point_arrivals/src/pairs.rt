//! Entries of special sections as places, and as pairs of a place and one where it leads.

ghost use Rattle.std.specs.Prelude.{◌≡◌, IfOk};
ghost use Rattle.point_arrivals.specs.Lists.{branch_pairs_of, branch_places_of, fix_pairs_of, fix_places_of, original_places_of};

use ot_base::{NoMemory, Place};
use special_sections::{AltEntry, BranchEntry, FixEntry};
use std::alloc::Global;

/// Where the original of each alternative begins.
pub(crate) fn original_places(alloc: Global, entries: &[AltEntry]) -> Result<Vec<Place>, NoMemory>
    ensures { IfOk result (λ places. places.items ≡ original_places_of entries.now) }
{
    let places = entries.iter().map(|entry| entry.original).collect(alloc)?;
    Ok(places)
}

/// Where the code of each static branch leads.
pub(crate) fn branch_pairs(
    alloc: Global,
    branches: &[BranchEntry],
) -> Result<Vec<(Place, Place)>, NoMemory>
    ensures { IfOk result (λ pairs. pairs.items ≡ branch_pairs_of branches.now) }
{
    let pairs = branches
        .iter()
        .map(|branch| (branch.code, branch.target))
        .collect(alloc)?;
    Ok(pairs)
}

/// Where the instruction of each exception entry leads.
pub(crate) fn fix_pairs(alloc: Global, fixes: &[FixEntry]) -> Result<Vec<(Place, Place)>, NoMemory>
    ensures { IfOk result (λ pairs. pairs.items ≡ fix_pairs_of fixes.now) }
{
    let pairs = fixes
        .iter()
        .map(|fix| (fix.insn, fix.fixup))
        .collect(alloc)?;
    Ok(pairs)
}

/// Where the code of each static branch stands.
pub(crate) fn branch_places(alloc: Global, branches: &[BranchEntry]) -> Result<Vec<Place>, NoMemory>
    ensures { IfOk result (λ places. places.items ≡ branch_places_of branches.now) }
{
    let places = branches.iter().map(|branch| branch.code).collect(alloc)?;
    Ok(places)
}

/// Where the instruction of each exception entry stands.
pub(crate) fn fix_places(alloc: Global, fixes: &[FixEntry]) -> Result<Vec<Place>, NoMemory>
    ensures { IfOk result (λ places. places.items ≡ fix_places_of fixes.now) }
{
    let places = fixes.iter().map(|fix| fix.insn).collect(alloc)?;
    Ok(places)
}
