//! SAVE points in an order in which the one that a RESTORE means is found by halving.

ghost use Rattle.std.specs.Prelude.{◌≡◌, ◌<◌, ◌≤◌, ℕ, true, false, length, slice_index_or, OnOk};
ghost use Rattle.std.specs.List.Sorted.{IsPermutation};
ghost use Rattle.std.specs.Ordering.{is_lt};
ghost use Rattle.flow_defs.specs.Code.{point_at, points_of_object};
ghost use Rattle.object_points.specs.Hinted.{save_at, AreSaves};
ghost use Rattle.object_points.specs.Meanings.{nearest_save as nearest_save_of};
ghost use Rattle.object_points.specs.declared.saves.SavePoint.{SavePoint};
ghost use Rattle.object_points.specs.SaveOrder.{home_cmp, AreInOrder, IsNearest};

use crate::PointPlaces;
use ot_base::{NoMemory, Place};
use std::cmp::Reverse;

/// A SAVE point: who owns it, where it runs, its variant and its number.
#[derive(Clone, Copy)]
pub(crate) struct SavePoint {
    pub(crate) owner: Option<u32>,
    pub(crate) address: Place,
    pub(crate) variant: u32,
    pub(crate) number: u32,
}

/// The SAVE of a point.
pub(crate) fn save_point(places: &PointPlaces<'_, '_, '_>, n: u32) -> SavePoint
    requires { n < length (points_of_object places.now) }
    ensures { result ≡ save_at places.now n }
{
    SavePoint {
        owner: places.owner(n),
        address: places.address(n),
        variant: places.point(n).variant,
        number: n,
    }
}

/// Puts SAVEs in the order of owners and addresses. Of those at one address the one of the least variant comes last.
pub(crate) fn sort_saves(saves: &mut Vec<SavePoint>) -> Result<(), NoMemory>
    ensures sorted { OnOk result (AreInOrder saves.new.items) }
    ensures same { IsPermutation saves.old.items saves.new.items }
{
    saves.sort_by_key(|save| {
        (
            save.owner,
            save.address,
            Reverse(save.variant),
            Reverse(save.number),
        )
    })?;
    Ok(())
}

/// Whether a SAVE is of an earlier owner, or of the same one at a lower place.
fn is_before(save: &SavePoint, owner: Option<u32>, address: Place) -> bool
    ensures { result ≡ is_lt (home_cmp save.now.owner save.now.address owner address) }
{
    (save.owner, save.address).cmp(&(owner, address)).is_lt()
}

/// How many of these are before an address of an owner.
fn count_before(saves: &[SavePoint], owner: Option<u32>, address: Place) -> usize
    requires { AreInOrder saves.now }
    ensures within { result ≤ length saves.now }
    ensures before { (k : ℕ) (d : SavePoint) → k < result → is_lt (home_cmp (slice_index_or saves.now k d).owner (slice_index_or saves.now k d).address owner address) ≡ true }
    ensures behind { (k : ℕ) (d : SavePoint) → result ≤ k → k < length saves.now → is_lt (home_cmp (slice_index_or saves.now k d).owner (slice_index_or saves.now k d).address owner address) ≡ false }
{
    saves.partition_point(|save| is_before(save, owner, address))
}

/// The number of the SAVE that is the nearest before an address of an owner.
fn find_nearest(saves: &[SavePoint], owner: Option<u32>, address: Place) -> Option<u32>
    requires { AreInOrder saves.now }
    ensures { IsNearest saves.now owner address result }
{
    let count = count_before(saves, owner, address);
    if count == 0 {
        return None;
    }
    let save = &saves[count - 1];
    if save.owner == owner && save.address.sec == address.sec {
        Some(save.number)
    } else {
        None
    }
}

/// The number of the nearest SAVE before a point.
pub(crate) fn nearest_save(
    places: &PointPlaces<'_, '_, '_>,
    saves: &[SavePoint],
    n: u32,
) -> Option<u32>
    requires inside { n < length (points_of_object places.now) }
    requires saves { AreSaves places.now saves.now }
    ensures { result ≡ nearest_save_of places.now (point_at places.now n) }
{
    find_nearest(saves, places.owner(n), places.address(n))
}
