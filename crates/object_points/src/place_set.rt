//! Whether a place is one of a list.

ghost use Rattle.std.specs.Prelude.{◌≡◌, false, IfOk};
ghost use Rattle.object_points.specs.Places.{is_among, HaveSamePlaces};

use crate::marks::{is_marked, mark_places};
use ot_base::{NoMemory, Place};
use std::alloc::Global;
use std::marker::Model;

/// A list of places in their order. Contracts see it as this list.
#[derive(Drop)]
pub struct PlaceSet {
    places: Vec<Place>,
    /// The marks of these places are set: a place whose mark isn't set is none of them.
    marks: Vec<u8>,
}

impl Model for PlaceSet {
    ghost use Rattle.std.specs.Prelude.{◌<◌, List, length};
    ghost use Rattle.ot_base.specs.declared.place.Place.{Place};
    ghost use Rattle.object_points.specs.Places.{AreByPlace};
    ghost use Rattle.object_points.specs.Marks.{AreMarked};

    ghost Value = { List Place };

    ghost view = { λ s. s.places.items };

    ghost invariant = { λ s. AreByPlace s.places.items × AreMarked (length s.marks.items) s.places.items s.marks.items × (0 < length s.marks.items) };
}

impl PlaceSet {
    /// The places of a list, in any order, some of them more than once.
    ///
    /// # Errors
    ///
    /// [`NoMemory`] may come at any list.
    pub fn build(alloc: Global, places: &[Place]) -> Result<PlaceSet, NoMemory>
        ensures { IfOk result (HaveSamePlaces places.now) }
    {
        let mut places = Vec::from_slice(alloc, places)?;
        places.sort_unstable();
        let marks = mark_places(alloc, &places)?;
        Ok(PlaceSet { places, marks })
    }

    /// Whether a place may be one of the list, told without a search: where it may not, it isn't.
    #[inline(always)]
    pub fn may_contain(&self, place: Place) -> bool
        ensures { result ≡ false → is_among self.now place ≡ false }
    {
        is_marked(&self.marks, place)
    }

    /// Whether a place is one of the list.
    #[inline(always)]
    pub fn contains(&self, place: Place) -> bool
        ensures { result ≡ is_among self.now place }
    {
        if !self.may_contain(place) {
            return false;
        }
        self.search(place)
    }

    /// Whether a place is one of the list, by a search.
    #[inline(never)]
    fn search(&self, place: Place) -> bool
        ensures { result ≡ is_among self.now place }
    {
        self.places.binary_search(&place).is_ok()
    }
}
