//! Hints by their places.

ghost use Rattle.std.specs.Prelude.{◌≡◌, ◌<◌, ◌≤◌, ℕ, true, false, length, slice_index_or, IfOk, OnOk};
ghost use Rattle.ot_base.specs.Places.{is_before as is_lower};
ghost use Rattle.special_sections.specs.declared.entries.HintEntry.{HintEntry};
ghost use Rattle.special_sections.specs.HintStates.{hint_at as hint_at_place, last_hint_at};
ghost use Rattle.special_sections.specs.Places.{AreByPlace, HaveSameLast};

use crate::hint_state::state_of_hint;
use crate::{HintEntry, Special};
use ot_base::{NoMemory, Place, is_before};
use state_defs::HintState;
use std::alloc::Global;
use std::marker::Model;

/// The hints of an object in the order of their places. Contracts see it as the list of them.
#[derive(Drop)]
pub struct Hints {
    hints: Vec<HintEntry>,
}

impl Model for Hints {
    ghost use Rattle.std.specs.Prelude.{List};
    ghost use Rattle.special_sections.specs.declared.entries.HintEntry.{HintEntry};
    ghost use Rattle.special_sections.specs.Places.{AreByPlace};

    ghost Value = { List HintEntry };

    ghost view = { λ h. h.hints.items };

    ghost invariant = { λ h. AreByPlace h.hints.items };
}

impl Hints {
    /// The hints of special sections.
    pub fn build(alloc: Global, special: &Special) -> Result<Hints, NoMemory>
        ensures { IfOk result (HaveSameLast special.now.hints) }
    {
        let mut hints = Vec::from_slice(alloc, special.hints())?;
        sort_by_place(&mut hints)?;
        Ok(Hints { hints })
    }

    /// What the hint at a place does, or None where there is none.
    pub fn hint_at(&self, place: Place) -> Option<HintState>
        ensures { result ≡ hint_at_place self.now place }
    {
        let hints = self.hints.as_slice();
        state_of_hint(&find_hint(hints, place)?)
    }
}

/// Puts hints in the order of their places, and leaves those at one place in their order.
fn sort_by_place(hints: &mut Vec<HintEntry>) -> Result<(), NoMemory>
    ensures sorted { OnOk result (AreByPlace hints.new.items) }
    ensures same { OnOk result (HaveSameLast hints.old.items hints.new.items) }
{
    hints.sort_by_key(|hint| hint.place)?;
    Ok(())
}

/// How many of these are at a place or before it.
fn count_to(hints: &[HintEntry], place: Place) -> usize
    requires { AreByPlace hints.now }
    ensures within { result ≤ length hints.now }
    ensures upto { (k : ℕ) (d : HintEntry) → k < result → is_lower place (slice_index_or hints.now k d).place ≡ false }
    ensures behind { (k : ℕ) (d : HintEntry) → result ≤ k → k < length hints.now → is_lower place (slice_index_or hints.now k d).place ≡ true }
{
    hints.partition_point(|hint| !is_before(place, hint.place))
}

/// The last of these at a place.
fn find_hint(hints: &[HintEntry], place: Place) -> Option<HintEntry>
    requires { AreByPlace hints.now }
    ensures { result ≡ last_hint_at hints.now place }
{
    let count = count_to(hints, place);
    if count > 0 && hints[count - 1].place == place {
        Some(hints[count - 1])
    } else {
        None
    }
}
