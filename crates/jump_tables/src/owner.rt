//! Owners by their symbols.

ghost use Rattle.std.specs.Prelude.{◌≡◌};
ghost use Rattle.symbols_relocs.specs.Parts.{owner_at as owner_of_place};
ghost use Rattle.flow_defs.specs.Tables.{same_owner};

use ot_base::Place;
use symbols_relocs::Index;

/// The owner of a place, by its symbol.
pub(crate) fn owner_at(index: &Index<'_, '_>, place: Place) -> Option<u32>
    ensures { result ≡ owner_of_place index.now.elf place }
{
    let owner = index.owner_at(place)?;
    Some(index.functions()[owner as usize].sym)
}

/// Whether two owners are one, or neither is there.
pub(crate) fn is_same_owner(owner: Option<u32>, other: Option<u32>) -> bool
    ensures { result ≡ same_owner owner other }
{
    match (owner, other) {
        (Some(sym), Some(second)) => sym == second,
        (None, None) => true,
        _ => false,
    }
}
