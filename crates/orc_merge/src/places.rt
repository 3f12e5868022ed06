//! Which object's rows can't be placed.

ghost use Rattle.std.specs.Prelude.{◌≡◌, ◌⊎◌, ◌^◌, ◌<◌, None, Some, All, IfErr, OnOk, length};
ghost use Rattle.orc_walk.specs.Faults.{place_fault};
ghost use Rattle.orc_walk.specs.Table.{IsLaidOut};
ghost use Rattle.orc_merge.specs.Parts.{AreWithin, first_in};
ghost use Rattle.orc_merge.specs.MergeFaults.{unplaced};
ghost use Rattle.orc_merge.specs.declared.faults.MergeFault.TheVariants.{NoMemory as no_memory};

use crate::faults::MergeFault;
use crate::part::Part;
use orc_walk::{PlaceFault, Table};
use std::alloc::Global;

/// Places the rows of an object, which has this number.
fn check_place(alloc: Global, number: u32, part: &Part) -> Result<(), MergeFault>
    requires rows { length part.now.rows.items < 2 ^ 32 }
    requires within { AreWithin part.now }
    ensures fits { OnOk result (unplaced number part.now ≡ None) }
    ensures laid_out { OnOk result (IsLaidOut part.now.ranges.items) }
    ensures fault { IfErr result (λ fault. (fault ≡ no_memory) ⊎ (unplaced number part.now ≡ Some fault)) }
{
    match Table::place(alloc, &part.rows, &part.ranges) {
        Ok(_table) => Ok(()),
        Err(PlaceFault::NoMemory) => Err(MergeFault::NoMemory),
        Err(fault) => Err(MergeFault::Place {
            part: number,
            fault,
        }),
    }
}

/// Places the rows of each object, or tells the first whose rows can't be placed.
pub(crate) fn check_places(alloc: Global, parts: &[Part]) -> Result<(), MergeFault>
    requires number { length parts.now < 2 ^ 32 }
    requires rows { All (λ part. length part.rows.items < 2 ^ 32) parts.now }
    requires within { All AreWithin parts.now }
    ensures fits { OnOk result (first_in unplaced 0 parts.now ≡ None) }
    ensures laid_out { OnOk result (All (λ part. IsLaidOut part.ranges.items) parts.now) }
    ensures fault { IfErr result (λ fault. (fault ≡ no_memory)
        ⊎ (first_in unplaced 0 parts.now ≡ Some fault)) }
{
    for (number, part) in parts.iter().enumerate() {
        check_place(alloc, number as u32, part)?;
    }
    Ok(())
}
