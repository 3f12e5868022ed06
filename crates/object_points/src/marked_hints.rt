//! Hints by their places, of which most without one are told by marks.

ghost use Rattle.std.specs.Prelude.{◌≡◌, ◌<◌, None, false, length, map, IfOk};
ghost use Rattle.special_sections.specs.declared.entries.HintEntry.{HintEntry as Entry};
ghost use Rattle.special_sections.specs.HintStates.{hint_at as hint_at_place};
ghost use Rattle.special_sections.specs.Places.{HaveSameLast};
ghost use Rattle.object_points.specs.Marks.{AreMarked};

use crate::marks::{is_marked, mark_places};
use ot_base::{NoMemory, Place};
use special_sections::{HintEntry, Hints, Special};
use state_defs::HintState;
use std::alloc::Global;
use std::marker::Model;

/// The hints of an object in the order of their places. Contracts see it as the list of them.
#[derive(Drop)]
pub(crate) struct MarkedHints {
    hints: Hints,
    /// The marks of the places of these hints are set: at a place whose mark isn't set there is none.
    marks: Vec<u8>,
}

impl Model for MarkedHints {
    ghost use Rattle.std.specs.Prelude.{◌<◌, List, length};
    ghost use Rattle.special_sections.specs.declared.entries.HintEntry.{HintEntry};
    ghost use Rattle.object_points.specs.Marks.{HasUnmarkedNone};

    ghost Value = { List HintEntry };

    ghost view = { λ h. h.hints };

    ghost invariant = { λ h. HasUnmarkedNone h.hints h.marks.items × (0 < length h.marks.items) };
}

impl MarkedHints {
    /// The hints of special sections.
    ///
    /// # Errors
    ///
    /// [`NoMemory`] may come at any object.
    pub(crate) fn build(alloc: Global, special: &Special) -> Result<MarkedHints, NoMemory>
        ensures { IfOk result (HaveSameLast special.now.hints) }
    {
        let marks = mark_hints(alloc, special.hints())?;
        let hints = Hints::build(alloc, special)?;
        Ok(MarkedHints { hints, marks })
    }

    /// Whether a hint may be at a place, told without a search: where none may, there is none.
    #[inline(always)]
    pub(crate) fn may_have(&self, place: Place) -> bool
        ensures { result ≡ false → hint_at_place self.now place ≡ None }
    {
        is_marked(&self.marks, place)
    }

    /// What the hint at a place does, or None where there is none.
    #[inline(always)]
    pub(crate) fn hint_at(&self, place: Place) -> Option<HintState>
        ensures { result ≡ hint_at_place self.now place }
    {
        if !self.may_have(place) {
            return None;
        }
        self.search(place)
    }

    /// The same by a search.
    #[inline(never)]
    fn search(&self, place: Place) -> Option<HintState>
        ensures { result ≡ hint_at_place self.now place }
    {
        self.hints.hint_at(place)
    }
}

/// The places of hints.
fn hint_places(alloc: Global, hints: &[HintEntry]) -> Result<Vec<Place>, NoMemory>
    ensures { IfOk result (λ places. places.items ≡ map (λ (h : Entry). h.place) hints.now) }
{
    let places = hints.iter().map(|hint| hint.place).collect(alloc)?;
    Ok(places)
}

/// Marks of which those of the places of hints are set.
fn mark_hints(alloc: Global, hints: &[HintEntry]) -> Result<Vec<u8>, NoMemory>
    ensures some { IfOk result (λ marks. 0 < length marks.items) }
    ensures set { IfOk result (λ marks. AreMarked (length marks.items) (map (λ (h : Entry). h.place) hints.now) marks.items) }
{
    let places = hint_places(alloc, hints)?;
    mark_places(alloc, &places)
}
