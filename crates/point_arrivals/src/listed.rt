//! The places that an object's lists name, and where they lead.

ghost use Rattle.std.specs.Prelude.{IfOk};
ghost use Rattle.object_points.specs.Places.{HaveSamePlaces, HaveSameTargets};
ghost use Rattle.point_arrivals.specs.Lists.{branch_pairs_of, fix_pairs_of, original_places_of};

use crate::pairs::{branch_pairs, fix_pairs, original_places};
use object_points::{PlaceMap, PlaceSet};
use ot_base::NoMemory;
use special_sections::{AltEntry, Special};
use std::alloc::Global;

/// The places that lists name alone.
#[derive(Drop)]
pub(crate) struct ListedPlaces {
    /// Where the originals of alternatives begin.
    pub(crate) originals: PlaceSet,
    /// Behind which code is reachable, and isn't.
    pub(crate) reachable: PlaceSet,
    pub(crate) unreachable: PlaceSet,
    /// Those of calls within a function.
    pub(crate) intra_calls: PlaceSet,
}

/// The places that lists name with one where each leads.
#[derive(Drop)]
pub(crate) struct ListedPairs {
    /// Those of static branches, and of exception entries.
    pub(crate) branches: PlaceMap,
    pub(crate) fixes: PlaceMap,
}

/// Where the originals of alternatives begin.
fn list_originals(alloc: Global, entries: &[AltEntry]) -> Result<PlaceSet, NoMemory>
    ensures { IfOk result (HaveSamePlaces (original_places_of entries.now)) }
{
    let places = original_places(alloc, entries)?;
    PlaceSet::build(alloc, places.as_slice())
}

/// The places that lists name alone.
pub(crate) fn list_places(alloc: Global, special: &Special) -> Result<ListedPlaces, NoMemory>
    ensures originals { IfOk result (λ listed. HaveSamePlaces (original_places_of special.now.alternatives) listed.originals) }
    ensures reachable { IfOk result (λ listed. HaveSamePlaces special.now.after_reachable listed.reachable) }
    ensures unreachable { IfOk result (λ listed. HaveSamePlaces special.now.after_unreachable listed.unreachable) }
    ensures intra_calls { IfOk result (λ listed. HaveSamePlaces special.now.intra_calls listed.intra_calls) }
{
    Ok(ListedPlaces {
        originals: list_originals(alloc, special.alternatives())?,
        reachable: PlaceSet::build(alloc, special.after_reachable())?,
        unreachable: PlaceSet::build(alloc, special.after_unreachable())?,
        intra_calls: PlaceSet::build(alloc, special.intra_calls())?,
    })
}

/// The places that lists name with one where each leads.
pub(crate) fn list_pairs(alloc: Global, special: &Special) -> Result<ListedPairs, NoMemory>
    ensures branches { IfOk result (λ listed. HaveSameTargets (branch_pairs_of special.now.branches) listed.branches) }
    ensures fixes { IfOk result (λ listed. HaveSameTargets (fix_pairs_of special.now.fixes) listed.fixes) }
{
    Ok(ListedPairs {
        branches: PlaceMap::build(alloc, branch_pairs(alloc, special.branches())?)?,
        fixes: PlaceMap::build(alloc, fix_pairs(alloc, special.fixes())?)?,
    })
}
