//! Which places each place leads to.

ghost use Rattle.std.specs.Prelude.{◌≡◌, ◌<◌, ◌≤◌, ℕ, true, false, length, map, slice_index_or, IfOk, OnOk};
ghost use Rattle.ot_base.specs.declared.place.Place.{Place};
ghost use Rattle.ot_base.specs.Places.{is_before as is_lower};
ghost use Rattle.object_points.specs.Places.{targets_of, AreByPlace, AreByFirst, HaveSameTargets};

use crate::marks::{is_marked, mark_places};
use ot_base::{NoMemory, Place, is_before};
use std::alloc::Global;
use std::marker::Model;

/// Places with the place that each leads to, in the order of the first. Contracts see it as the list of these pairs.
#[derive(Drop)]
pub struct PlaceMap {
    places: Vec<Place>,
    targets: Vec<Place>,
    /// The marks of these places are set: a place whose mark isn't set leads nowhere.
    marks: Vec<u8>,
}

impl Model for PlaceMap {
    ghost use Rattle.std.specs.Prelude.{◌≡◌, ◌<◌, List, length};
    ghost use Rattle.std.specs.List.{zip};
    ghost use Rattle.ot_base.specs.declared.place.Place.{Place};
    ghost use Rattle.object_points.specs.Places.{AreByPlace};
    ghost use Rattle.object_points.specs.Marks.{AreMarked};

    ghost Value = { List (Place × Place) };

    ghost view = { λ m. zip m.places.items m.targets.items };

    ghost invariant = { λ m. AreByPlace m.places.items × (length m.targets.items ≡ length m.places.items) × AreMarked (length m.marks.items) m.places.items m.marks.items × (0 < length m.marks.items) };
}

impl PlaceMap {
    /// The pairs of a list, in any order: a place, and one where it leads. A place may stand in several.
    ///
    /// # Errors
    ///
    /// [`NoMemory`] may come at any list.
    pub fn build(alloc: Global, mut pairs: Vec<(Place, Place)>) -> Result<PlaceMap, NoMemory>
        ensures { IfOk result (HaveSameTargets pairs.items) }
    {
        sort_by_first(&mut pairs)?;
        let places = first_places(alloc, pairs.as_slice())?;
        let targets = second_places(alloc, pairs.as_slice())?;
        let marks = mark_places(alloc, &places)?;
        Ok(PlaceMap {
            places,
            targets,
            marks,
        })
    }

    /// Where a place leads, in the order of the list.
    #[inline(always)]
    pub fn targets(&self, place: Place) -> &[Place]
        ensures { result.now ≡ targets_of self.now place }
    {
        if !is_marked(&self.marks, place) {
            return &[];
        }
        self.search(place)
    }

    /// Where a place leads, by a search.
    #[inline(never)]
    fn search(&self, place: Place) -> &[Place]
        ensures { result.now ≡ targets_of self.now place }
    {
        let first = count_before(&self.places, place);
        let end = count_to(&self.places, place);
        let (to_end, _) = self.targets.split_at(end);
        let (_, run) = to_end.split_at(first);
        run
    }
}

/// Puts pairs in the order of their first places, and leaves those with one first place in their order.
fn sort_by_first(pairs: &mut Vec<(Place, Place)>) -> Result<(), NoMemory>
    ensures sorted { OnOk result (AreByFirst pairs.new.items) }
    ensures same { OnOk result (HaveSameTargets pairs.old.items pairs.new.items) }
{
    pairs.sort_by_key(|pair| pair.0)?;
    Ok(())
}

/// The first places of pairs.
fn first_places(alloc: Global, pairs: &[(Place, Place)]) -> Result<Vec<Place>, NoMemory>
    ensures { IfOk result (λ places. places.items ≡ map (λ e. e.0) pairs.now) }
{
    let places = pairs.iter().map(|pair| pair.0).collect(alloc)?;
    Ok(places)
}

/// The second places of pairs.
fn second_places(alloc: Global, pairs: &[(Place, Place)]) -> Result<Vec<Place>, NoMemory>
    ensures { IfOk result (λ places. places.items ≡ map (λ e. e.1) pairs.now) }
{
    let places = pairs.iter().map(|pair| pair.1).collect(alloc)?;
    Ok(places)
}

/// How many of these are before a place.
fn count_before(places: &[Place], place: Place) -> usize
    requires { AreByPlace places.now }
    ensures within { result ≤ length places.now }
    ensures before { (k : ℕ) (d : Place) → k < result → is_lower (slice_index_or places.now k d) place ≡ true }
    ensures others { (k : ℕ) (d : Place) → result ≤ k → k < length places.now → is_lower (slice_index_or places.now k d) place ≡ false }
{
    places.partition_point(|other| is_before(*other, place))
}

/// How many of these are a place or before it.
fn count_to(places: &[Place], place: Place) -> usize
    requires { AreByPlace places.now }
    ensures within { result ≤ length places.now }
    ensures upto { (k : ℕ) (d : Place) → k < result → is_lower place (slice_index_or places.now k d) ≡ false }
    ensures behind { (k : ℕ) (d : Place) → result ≤ k → k < length places.now → is_lower place (slice_index_or places.now k d) ≡ true }
{
    places.partition_point(|other| !is_before(place, *other))
}
