//! By what numbers calls name the points, listed from where functions and alternatives sites start.

ghost use Rattle.std.specs.Prelude.{◌≡◌, ◌+◌, ◌<◌, ◌^◌, ◌⊎◌, ◌||◌, ℕ, List, Option, None, Some, All, Contains, IfOk, OnOk, is_none, length, map, replicate, slice_index_or};
ghost use Rattle.flow_defs.specs.Code.{alternatives_of, point_at};
ghost use Rattle.flow_defs.specs.Owners.{is_entry as is_an_entry, owner_of_point};
ghost use Rattle.symbols_relocs.specs.declared.function.Function.{Function as FunctionValue};
ghost use Rattle.symbols_relocs.specs.Lists.{AreFunctions};
ghost use Rattle.control_flow.specs.Entering.{AreRight, starts_of};
ghost use Rattle.control_flow.specs.Listed.{AreEntered, count_of};
ghost use Rattle.control_flow.specs.NamedAt.{IsNamedAt};

use crate::listed::count_points;
use alternatives::Point;
use object_points::PointPlaces;
use ot_base::{NoMemory, Place};
use point_edges::FlowPoints;
use return_search::StoredEntry;
use special_sections::AltEntry;
use std::alloc::Global;
use symbols_relocs::Function;

/// Calls name none of so many points.
fn none_entered(alloc: Global, count: u32) -> Result<Vec<StoredEntry>, NoMemory>
    ensures { IfOk result (λ entered. entered.items ≡ replicate count None) }
{
    Ok(vec![in alloc; StoredEntry::none(); count as usize]?)
}

/// Lists a number for each of these points.
fn enter(entered: &mut Vec<StoredEntry>, stands: &[u32], entry: u32)
    requires stands { All (λ q. q < length entered.old.items) stands.now }
    requires entry { entry + 1 < 2 ^ 32 }
    ensures long { length entered.new.items ≡ length entered.old.items }
    ensures listed { (q : ℕ) → Contains stands.now q → slice_index_or entered.new.items q None ≡ Some entry }
    ensures kept { (q : ℕ) → (slice_index_or entered.new.items q None ≡ slice_index_or entered.old.items q None) ⊎ (Contains stands.now q × (slice_index_or entered.new.items q None ≡ Some entry)) }
{
    for q in stands {
        entered[*q as usize] = StoredEntry::some(entry);
    }
}

/// Whether calls may name the plain point with a number, at a place, by it: an entry stands there, or it is code of no function.
fn is_called(places: &PointPlaces<'_, '_, '_>, entry: u32, start: Place) -> bool
    requires { entry < count_of places.now }
    ensures { result ≡ (is_an_entry places.now.elf start || is_none (owner_of_point places.now (point_at places.now entry))) }
{
    places.is_entry(start) || places.owner(entry).is_none()
}

/// Lists the plain point at a place, if calls may name it, for each point at which control may stand that comes there.
fn enter_start(
    alloc: Global,
    points: &FlowPoints<'_, '_, '_>,
    entered: &mut Vec<StoredEntry>,
    start: Place,
) -> Result<(), NoMemory>
    requires few { count_of points.now < 2 ^ 32 }
    requires right { AreRight points.now entered.old.items }
    ensures right { OnOk result (AreRight points.now entered.new.items) }
    ensures kept { OnOk result ((q entry : ℕ) → slice_index_or entered.old.items q None ≡ Some entry → slice_index_or entered.new.items q None ≡ Some entry) }
    ensures listed { OnOk result ((q entry : ℕ) → IsNamedAt points.now entry q → (point_at points.now entry).place ≡ start → slice_index_or entered.new.items q None ≡ Some entry) }
{
    let places = points.places();
    let Some(entry) = places.number_of(Point {
        place: start,
        variant: 0,
    }) else {
        return Ok(());
    };
    if !is_called(places, entry, start) {
        return Ok(());
    }
    let stands = points.arrivals().arrive(alloc, start)?;
    enter(entered, stands.as_slice(), entry);
    Ok(())
}

/// Where functions start.
fn function_starts(alloc: Global, functions: &[Function]) -> Result<Vec<Place>, NoMemory>
    ensures { IfOk result (λ starts. starts.items ≡ map (λ f. f.start) functions.now) }
{
    let starts = functions
        .iter()
        .map(|function| function.start)
        .collect(alloc)?;
    Ok(starts)
}

/// Where the originals of alternatives begin.
fn original_places(alloc: Global, entries: &[AltEntry]) -> Result<Vec<Place>, NoMemory>
    ensures { IfOk result (λ places. places.items ≡ map (λ a. a.original) entries.now) }
{
    let places = entries.iter().map(|entry| entry.original).collect(alloc)?;
    Ok(places)
}

/// Where functions start, and the originals of alternatives.
fn list_starts(alloc: Global, places: &PointPlaces<'_, '_, '_>) -> Result<Vec<Place>, NoMemory>
    ensures { IfOk result (λ starts. (functions : List FunctionValue) × AreFunctions places.now.elf functions × (starts.items ≡ starts_of functions (alternatives_of places.now))) }
{
    let linked = places.linked();
    let mut starts = function_starts(alloc, linked.index().functions())?;
    let originals = original_places(alloc, linked.special().alternatives())?;
    starts.extend_from_slice(&originals)?;
    Ok(starts)
}

/// By what numbers calls name the points. Of each function and of each original of alternatives it is looked up where control stands
/// that comes to its start.
pub(crate) fn list_entered(
    alloc: Global,
    points: &FlowPoints<'_, '_, '_>,
) -> Result<Vec<StoredEntry>, NoMemory>
    ensures { IfOk result (λ entered. AreEntered points.now entered.items (count_of points.now)) }
{
    let places = points.places();
    let starts = list_starts(alloc, places)?;
    let mut entered = none_entered(alloc, count_points(places))?;
    for k in 0..starts.len() {
        enter_start(alloc, points, &mut entered, starts[k])?;
    }
    Ok(entered)
}
