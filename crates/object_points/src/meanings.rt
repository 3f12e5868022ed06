//! Which SAVE each RESTORE means, in the order of the SAVEs.

ghost use Rattle.std.specs.Prelude.{◌≡◌, ◌<◌, ◌^◌, length, map, IfOk, OnOk};
ghost use Rattle.std.specs.List.Sorted.{IsNonDecreasingBy, IsPermutation};
ghost use Rattle.object_points.specs.Hinted.{restores_of, AreSaves};
ghost use Rattle.object_points.specs.Meanings.{meanings_of, IsRunOf};

use crate::PointPlaces;
use crate::saves::{SavePoint, nearest_save};
use ot_base::NoMemory;
use std::alloc::Global;

/// The SAVE that a RESTORE means. Both are numbers of points.
#[derive(Clone, Copy)]
pub(crate) struct Meaning {
    pub(crate) save: u32,
    pub(crate) restore: u32,
}

/// What the RESTOREs of an object mean, in the order of points.
pub(crate) fn list_meanings(
    alloc: Global,
    places: &PointPlaces<'_, '_, '_>,
    saves: &[SavePoint],
    restores: &[u32],
) -> Result<Vec<Meaning>, NoMemory>
    requires saves { AreSaves places.now saves.now }
    requires restores { restores.now ≡ restores_of places.now }
    requires few { length restores.now < 2 ^ 32 }
    ensures all { IfOk result (λ meanings. meanings.items ≡ meanings_of places.now) }
    ensures few { IfOk result (λ meanings. length meanings.items < 2 ^ 32) }
{
    let mut meanings = Vec::new(alloc);
    for restore in restores {
        if let Some(save) = nearest_save(places, saves, *restore) {
            let restore = *restore;
            meanings.push(Meaning { save, restore })?;
        }
    }
    Ok(meanings)
}

/// Puts meanings in the order of their SAVEs.
pub(crate) fn sort_meanings(meanings: &mut Vec<Meaning>) -> Result<(), NoMemory>
    ensures sorted { OnOk result (IsNonDecreasingBy (λ m. m.save) meanings.new.items) }
    ensures same { IsPermutation meanings.old.items meanings.new.items }
{
    meanings.sort_by_key(|meaning| meaning.save)?;
    Ok(())
}

/// The RESTOREs, in the order of the SAVEs that they mean.
pub(crate) fn list_restores(alloc: Global, meanings: &[Meaning]) -> Result<Vec<u32>, NoMemory>
    ensures { IfOk result (λ restores. restores.items ≡ map (λ m. m.restore) meanings.now) }
{
    let restores = meanings
        .iter()
        .map(|meaning| meaning.restore)
        .collect(alloc)?;
    Ok(restores)
}

/// From where on and up to where the meanings stand that are a SAVE.
pub(crate) fn find_run(meanings: &[Meaning], save: u32) -> (u32, u32)
    requires sorted { IsNonDecreasingBy (λ m. m.save) meanings.now }
    requires few { length meanings.now < 2 ^ 32 }
    ensures { IsRunOf meanings.now save result.0 result.1 }
{
    let from = meanings.partition_point(|meaning| meaning.save < save);
    let to = meanings.partition_point(|meaning| meaning.save <= save);
    (from as u32, to as u32)
}
