//! The hints of points by their numbers.

ghost use Rattle.std.specs.Prelude.{◌≡◌, ◌<◌, ◌≤◌, ◌↔◌, ℕ, Some, length, slice_range, All, Contains, IfOk};
ghost use Rattle.std.specs.List.Sorted.{IsPermutation};
ghost use Rattle.state_defs.specs.declared.state.HintState.TheVariants.{Restore};
ghost use Rattle.flow_defs.specs.Code.{point_at, points_of_object};
ghost use Rattle.flow_defs.specs.Hints.{hint_of as hint_of_point, save_of as save_of_point};
ghost use Rattle.object_points.specs.Meanings.{restores_with_save};

use crate::PointPlaces;
use crate::hinted::{Hinted, is_restore, list_hinted};
use crate::meanings::{Meaning, find_run, list_meanings, list_restores, sort_meanings};
use crate::saves::{SavePoint, nearest_save, sort_saves};
use ot_base::NoMemory;
use state_defs::HintState;
use std::alloc::Global;
use std::marker::Model;

/// The hints of the points of an object, with the SAVE that each RESTORE means. Points are told by their numbers.
/// Contracts see it as the object with the list of [`HintPoints::restores`].
///
/// It keeps little of an object that has few SAVEs and RESTOREs, and nothing here takes memory once it is built.
#[derive(Drop)]
pub struct HintPoints<'p, 'l, 'o, 'a> {
    places: &'p PointPlaces<'l, 'o, 'a>,
    saves: Vec<SavePoint>,
    meanings: Vec<Meaning>,
    restores: Vec<u32>,
}

impl<'p, 'l, 'o, 'a> Model for HintPoints<'p, 'l, 'o, 'a> {
    ghost use Rattle.object_points.specs.HintedCode.{AreKept, HintedCode};

    ghost Value = { HintedCode };

    ghost view = { λ h. record { object = h.places.now; restores = h.restores.items } };

    ghost invariant = { λ h. AreKept h.places.now h.saves.items h.meanings.items h.restores.items };
}

impl<'p, 'l, 'o, 'a> HintPoints<'p, 'l, 'o, 'a> {
    /// The hints of the points of an object.
    ///
    /// # Errors
    ///
    /// [`NoMemory`] may come at any object.
    pub fn build(
        alloc: Global,
        places: &'p PointPlaces<'l, 'o, 'a>,
    ) -> Result<HintPoints<'p, 'l, 'o, 'a>, NoMemory>
        ensures { IfOk result (λ hints. hints.object ≡ places.now) }
    {
        let Hinted {
            mut saves,
            restores,
        } = list_hinted(alloc, places)?;
        sort_saves(&mut saves)?;
        let mut meanings = list_meanings(alloc, places, &saves, &restores)?;
        sort_meanings(&mut meanings)?;
        let restores = list_restores(alloc, &meanings)?;
        Ok(HintPoints {
            places,
            saves,
            meanings,
            restores,
        })
    }

    /// The unwind hint of a point.
    #[inline(always)]
    pub fn hint(&self, n: u32) -> Option<HintState>
        requires { n < length (points_of_object self.now.object) }
        ensures { result ≡ hint_of_point self.now.object (point_at self.now.object n) }
    {
        self.places.hint(n)
    }

    /// The SAVE that a RESTORE means, by its number. A point without RESTORE means none.
    pub fn save_of(&self, n: u32) -> Option<u32>
        requires { n < length (points_of_object self.now.object) }
        ensures { result ≡ save_of_point self.now.object (point_at self.now.object n) }
    {
        if is_restore(self.hint(n)) {
            nearest_save(self.places, &self.saves, n)
        } else {
            None
        }
    }

    /// Where in the list of [`HintPoints::restores`] those stand that mean a point: the index of the first, and the one
    /// behind the last.
    pub fn restores_of(&self, n: u32) -> (u32, u32)
        requires { n < length (points_of_object self.now.object) }
        ensures order { result.0 ≤ result.1 }
        ensures within { result.1 ≤ length self.now.restores }
        ensures members { (r : ℕ) → Contains (slice_range self.now.restores result.0 result.1) r ↔ ((r < length (points_of_object self.now.object)) × (hint_of_point self.now.object (point_at self.now.object r) ≡ Some Restore) × (save_of_point self.now.object (point_at self.now.object r) ≡ Some n)) }
    {
        find_run(&self.meanings, n)
    }

    /// The RESTOREs that mean a SAVE, by their numbers, each once, those of one SAVE one after another.
    pub fn restores(&self) -> &[u32]
        ensures list { result.now ≡ self.now.restores }
        ensures all { IsPermutation (restores_with_save self.now.object) result.now }
        ensures below { All (λ r. r < length (points_of_object self.now.object)) result.now }
    {
        &self.restores
    }

    /// The same list by itself.
    pub fn into_restores(self) -> Vec<u32>
        ensures { result.items ≡ self.entry.restores }
    {
        self.restores
    }
}
