//! The owners of places.

ghost use Rattle.std.specs.Prelude.{◌≡◌};
ghost use Rattle.symbols_relocs.specs.Parts.{owner_at as owner_of_place};

use object_points::PointPlaces;
use ot_base::Place;
use symbols_relocs::Index;

/// The owner of a place of an indexed object, by its symbol.
fn indexed_owner(index: &Index<'_, '_>, place: Place) -> Option<u32>
    ensures { result ≡ owner_of_place index.now.elf place }
{
    let owner = index.owner_at(place)?;
    Some(index.functions()[owner as usize].sym)
}

/// The owner of a place, by its symbol: the function that holds the place, or that function's parent where it is a
/// part. No function may hold it.
pub fn owner_at(places: &PointPlaces<'_, '_, '_>, place: Place) -> Option<u32>
    ensures { result ≡ owner_of_place places.now.elf place }
{
    indexed_owner(places.linked().index(), place)
}
