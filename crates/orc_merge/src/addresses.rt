//! Rows of objects at their addresses.

ghost use Rattle.std.specs.Prelude.{◌≡◌, ◌+◌, ◌^◌, ◌<◌, ◌++◌, List, All, IfOk, IfSome, OnOk, IsPermutation};
ghost use Rattle.std.specs.List.Sorted.{IsStableBy};
ghost use Rattle.std.specs.Ordering.{nat_cmp};
ghost use Rattle.std.specs.BTreeMap.{get};
ghost use Rattle.table_defs.specs.Lookup.{addressed, comes_before};
ghost use Rattle.table_defs.specs.declared.range.Range.{Range as PlacedRange};
ghost use Rattle.orc_walk.specs.Bases.{HasBases};
ghost use Rattle.orc_walk.specs.Rows.{IsInOrder, rows_of};
ghost use Rattle.orc_walk.specs.Table.{IsLaidOut};
ghost use Rattle.orc_merge.specs.Parts.{all_rows, rows_of_part, AreWithin};

use crate::part::Part;
use ot_base::codes::KIND_UNDEFINED;
use ot_base::{NoMemory, PlacedRow, Row};
use std::alloc::Global;
use std::collections::BTreeMap;
use table_defs::Range;

/// The base of each section that has a range; of two ranges of one section the first counts.
fn bases_of(alloc: Global, ranges: &[Range]) -> Result<BTreeMap<u32, u64>, NoMemory>
    ensures { IfOk result (λ bases. HasBases ranges.now bases) }
{
    let mut bases = BTreeMap::new(alloc);
    for range in ranges {
        if !bases.contains_key(&range.sec) {
            bases.insert(range.sec, range.base)?;
        }
    }
    Ok(bases)
}

/// Appends rows with their addresses, in their order. A row of a section that has no base is left out.
fn add_rows(
    rows: &[PlacedRow],
    bases: &BTreeMap<u32, u64>,
    items: &mut Vec<(u64, Row)>,
) -> Result<(), NoMemory>
    requires { All (λ placed. IfSome (get nat_cmp bases.now placed.place.sec)
        (λ base. base + placed.place.off < 2 ^ 64)) rows.now }
    ensures { (ranges : List PlacedRange) → HasBases ranges bases.now
        → OnOk result (rows_of items.new.items ≡ rows_of items.old.items ++ addressed ranges rows.now) }
{
    for placed in rows {
        if let Some(base) = bases.get(&placed.place.sec) {
            items.push((*base + placed.place.off, placed.row))?;
        }
    }
    Ok(())
}

/// Appends an object's rows with their addresses, in their order. A row of a section that has no range is left out.
fn add_part(alloc: Global, part: &Part, items: &mut Vec<(u64, Row)>) -> Result<(), NoMemory>
    requires within { AreWithin part.now }
    requires laid_out { IsLaidOut part.now.ranges.items }
    ensures { OnOk result (rows_of items.new.items ≡ rows_of items.old.items ++ rows_of_part part.now) }
{
    let bases = bases_of(alloc, &part.ranges)?;
    add_rows(&part.rows, &bases, items)
}

/// The rows of all objects with their addresses, by object, and of each in its order; `count` is how many there are.
pub(crate) fn items_of(
    alloc: Global,
    parts: &[Part],
    count: usize,
) -> Result<Vec<(u64, Row)>, NoMemory>
    requires within { All AreWithin parts.now }
    requires laid_out { All (λ part. IsLaidOut part.ranges.items) parts.now }
    ensures { IfOk result (λ items. rows_of items.items ≡ all_rows parts.now) }
{
    let mut items = Vec::with_capacity(alloc, count)?;
    for part in parts {
        add_part(alloc, part, &mut items)?;
    }
    Ok(items)
}

/// Puts items into the order of look-up: by address, and at one address the undefined kind first. Those that tie keep their order.
pub(crate) fn sort(items: &mut Vec<(u64, Row)>) -> Result<(), NoMemory>
    ensures moved { IsPermutation (rows_of items.old.items) (rows_of items.new.items) }
    ensures in_order { OnOk result (IsInOrder (rows_of items.new.items)) }
    ensures ties { IsStableBy comes_before (rows_of items.old.items) (rows_of items.new.items) }
{
    items.sort_by_key(|item| (item.0, item.1.kind != KIND_UNDEFINED))?;
    Ok(())
}
