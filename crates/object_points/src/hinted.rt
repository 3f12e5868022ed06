//! The points that have a SAVE or a RESTORE.

ghost use Rattle.std.specs.Prelude.{◌≡◌, ◌+◌, ◌<◌, ◌≤◌, ◌^◌, filter_map, length, IfOk, OnOk};
ghost use Rattle.special_sections.specs.Special.{special_of};
ghost use Rattle.flow_defs.specs.Code.{points_of_object};
ghost use Rattle.flow_defs.specs.Hints.{is_restore as is_restore_hint, is_save as is_save_hint};
ghost use Rattle.object_points.specs.Hinted.{is_either as is_either_hint, place_of_either, place_of_restored as place_of_restored_by, restores_of, saves_of, AreListed, ArePlacesOf, HaveNoneBefore, HaveNoneUpTo};
ghost use Rattle.object_points.specs.Places.{AreByPlace};

use crate::PointPlaces;
use crate::saves::{SavePoint, save_point};
use ot_base::{NoMemory, Place};
use special_sections::{AltEntry, HintEntry, state_of_hint};
use state_defs::HintState;
use std::alloc::Global;

/// Whether a hint is a SAVE.
fn is_save(hint: Option<HintState>) -> bool
    ensures { result ≡ is_save_hint hint }
{
    matches!(hint, Some(HintState::Save))
}

/// Whether a hint is a RESTORE.
pub(crate) fn is_restore(hint: Option<HintState>) -> bool
    ensures { result ≡ is_restore_hint hint }
{
    matches!(hint, Some(HintState::Restore))
}

/// Whether a hint is a SAVE or a RESTORE.
fn is_either(hint: Option<HintState>) -> bool
    ensures { result ≡ is_either_hint hint }
{
    is_save(hint) || is_restore(hint)
}

/// The place of a hint that is a SAVE or a RESTORE.
fn place_of(hint: &HintEntry) -> Option<Place>
    ensures { result ≡ place_of_either hint.now }
{
    if is_either(state_of_hint(hint)) {
        Some(hint.place)
    } else {
        None
    }
}

/// The places of those hints that are a SAVE or a RESTORE.
fn places_of(alloc: Global, hints: &[HintEntry]) -> Result<Vec<Place>, NoMemory>
    ensures { IfOk result (λ places. places.items ≡ filter_map place_of_either hints.now) }
{
    let mut places = Vec::new(alloc);
    for hint in hints {
        if let Some(place) = place_of(hint) {
            places.push(place)?;
        }
    }
    Ok(places)
}

/// Where the replacement of an entry begins, if its site starts where a RESTORE is.
fn place_of_restored(places: &PointPlaces<'_, '_, '_>, entry: &AltEntry) -> Option<Place>
    ensures { result ≡ place_of_restored_by (special_of places.now.elf).hints entry.now }
{
    if is_restore(places.hint_at(entry.original)) {
        Some(entry.replacement)
    } else {
        None
    }
}

/// Where those replacements begin whose sites start where a RESTORE is.
fn restored_places(
    alloc: Global,
    places: &PointPlaces<'_, '_, '_>,
    entries: &[AltEntry],
) -> Result<Vec<Place>, NoMemory>
    ensures { IfOk result (λ list. list.items ≡ filter_map (place_of_restored_by (special_of places.now.elf).hints) entries.now) }
{
    let mut list = Vec::new(alloc);
    for entry in entries {
        if let Some(place) = place_of_restored(places, entry) {
            list.push(place)?;
        }
    }
    Ok(list)
}

/// The places at which points may have a SAVE or a RESTORE, in their order.
fn sorted_places(alloc: Global, places: &PointPlaces<'_, '_, '_>) -> Result<Vec<Place>, NoMemory>
    ensures ordered { IfOk result (λ list. AreByPlace list.items) }
    ensures all { IfOk result (λ list. ArePlacesOf places.now list.items) }
{
    let special = places.linked().special();
    let mut list = places_of(alloc, special.hints())?;
    let restored = restored_places(alloc, places, special.alternatives())?;
    list.extend_from_slice(&restored)?;
    list.sort_unstable();
    Ok(list)
}

/// The SAVEs of an object, and the numbers of its RESTOREs, in the order of points.
#[derive(Drop)]
pub(crate) struct Hinted {
    pub(crate) saves: Vec<SavePoint>,
    pub(crate) restores: Vec<u32>,
}

impl Hinted {
    /// Lists one more point, if it has a SAVE or a RESTORE.
    fn list(&mut self, places: &PointPlaces<'_, '_, '_>, n: u32) -> Result<(), NoMemory>
        requires inside { n < length (points_of_object places.now) }
        requires listed { AreListed places.now n self.old.saves.items self.old.restores.items }
        ensures { OnOk result (AreListed places.now (n + 1) self.new.saves.items self.new.restores.items) }
    {
        let hint = places.hint(n);
        if is_save(hint) {
            self.saves.push(save_point(places, n))?;
        }
        if is_restore(hint) {
            self.restores.push(n)?;
        }
        Ok(())
    }

    /// Goes on from a list of the points below a number to one of those up to a place, and tells the number behind them. From
    /// the first number on, none before the place has a SAVE or a RESTORE.
    fn list_to(
        &mut self,
        places: &PointPlaces<'_, '_, '_>,
        from: u32,
        place: Place,
    ) -> Result<u32, NoMemory>
        requires inside { from ≤ length (points_of_object places.now) }
        requires listed { AreListed places.now from self.old.saves.items self.old.restores.items }
        requires none { HaveNoneBefore places.now from place }
        ensures inside { IfOk result (λ next. next ≤ length (points_of_object places.now)) }
        ensures onward { IfOk result (λ next. from ≤ next) }
        ensures listed { IfOk result (λ next. AreListed places.now next self.new.saves.items self.new.restores.items) }
        ensures none { IfOk result (λ next. HaveNoneUpTo places.now next place) }
    {
        let (first, end) = places.linked().sites().numbers_at(place);
        let from = first.max(from);
        let next = end.max(from);
        for n in from..next {
            self.list(places, n)?;
        }
        Ok(next)
    }
}

/// The SAVEs and the RESTOREs of an object.
pub(crate) fn list_hinted(
    alloc: Global,
    places: &PointPlaces<'_, '_, '_>,
) -> Result<Hinted, NoMemory>
    ensures saves { IfOk result (λ hinted. hinted.saves.items ≡ saves_of places.now) }
    ensures restores { IfOk result (λ hinted. hinted.restores.items ≡ restores_of places.now) }
    ensures few { IfOk result (λ hinted. length hinted.restores.items < 2 ^ 32) }
{
    let hinted_places = sorted_places(alloc, places)?;
    let mut hinted = Hinted {
        saves: Vec::new(alloc),
        restores: Vec::new(alloc),
    };
    let mut next = 0;
    for place in &hinted_places {
        next = hinted.list_to(places, next, *place)?;
    }
    Ok(hinted)
}
