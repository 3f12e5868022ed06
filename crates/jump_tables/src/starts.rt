//! Where the tables of jumps begin.

ghost use Rattle.std.specs.Prelude.{◌≡◌, IfOk, OnOk, map};
ghost use Rattle.std.specs.List.{list_any};
ghost use Rattle.ot_base.specs.declared.place.Place.{Place};
ghost use Rattle.ot_base.specs.Places.{same_place};
ghost use Rattle.jump_tables.specs.Kept.{AreRising};

use crate::jump::Jump;
use ot_base::{NoMemory, Place};
use std::alloc::Global;

/// Where the table of each of these jumps begins.
fn tables_of(alloc: Global, jumps: &[Jump]) -> Result<Vec<Place>, NoMemory>
    ensures { IfOk result (λ starts. starts.items ≡ map (λ j. j.table) jumps.now) }
{
    let mut starts = Vec::with_capacity(alloc, jumps.len())?;
    for jump in jumps {
        starts.push(jump.table)?;
    }
    Ok(starts)
}

/// Puts places in their order, each once.
fn sort_places(places: &mut Vec<Place>) -> Result<(), NoMemory>
    ensures rising { OnOk result (AreRising places.new.items) }
    ensures same { OnOk result ((place : Place) → list_any (same_place place) places.new.items ≡ list_any (same_place place) places.old.items) }
{
    places.sort()?;
    places.dedup();
    Ok(())
}

/// The places where tables of these jumps begin, each once, in their order.
pub(crate) fn list_starts(alloc: Global, jumps: &[Jump]) -> Result<Vec<Place>, NoMemory>
    ensures rising { IfOk result (λ starts. AreRising starts.items) }
    ensures all { IfOk result (λ starts. (place : Place) → list_any (same_place place) starts.items ≡ list_any (same_place place) (map (λ j. j.table) jumps.now)) }
{
    let mut starts = tables_of(alloc, jumps)?;
    sort_places(&mut starts)?;
    Ok(starts)
}
