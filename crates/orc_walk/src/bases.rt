//! Where sections begin in memory, and rows at their addresses.

ghost use Rattle.std.specs.Prelude.{◌≡◌, ◌+◌, ◌^◌, ◌<◌, ◌≤◌, List, All, IfOk, IfSome, find, is_some, length, not};
ghost use Rattle.std.specs.Ordering.{nat_cmp};
ghost use Rattle.std.specs.BTreeMap.{get};
ghost use Rattle.table_defs.specs.Lookup.{addressed};
ghost use Rattle.table_defs.specs.declared.range.Range.{Range as PlacedRange};
ghost use Rattle.orc_walk.specs.Bases.{HasBases};
ghost use Rattle.orc_walk.specs.Rows.{rows_of};

use ot_base::{NoMemory, PlacedRow, Row};
use std::alloc::Global;
use std::collections::BTreeMap;
use table_defs::Range;

/// The base of each section that has a range; of two ranges of one section the first counts.
pub(crate) fn bases_of(alloc: Global, ranges: &[Range]) -> Result<BTreeMap<u32, u64>, NoMemory>
    ensures { IfOk result (λ bases. HasBases ranges.now bases) }
{
    let mut bases = BTreeMap::new(alloc);
    for range in ranges {
        if !bases.contains_key(&range.sec) {
            bases.insert(range.sec, range.base)?;
        }
    }
    Ok(bases)
}

/// The first row of a section that has no base.
pub(crate) fn first_unplaced(rows: &[PlacedRow], bases: &BTreeMap<u32, u64>) -> Option<PlacedRow>
    ensures { result ≡ find (λ placed. not (is_some (get nat_cmp bases.now placed.place.sec)))
        rows.now }
{
    rows.iter()
        .copied()
        .find(|placed| !bases.contains_key(&placed.place.sec))
}

/// The rows with their addresses, in the order of the rows. A row of a section that has no base is left
/// out.
pub(crate) fn addressed(
    alloc: Global,
    rows: &[PlacedRow],
    bases: &BTreeMap<u32, u64>,
) -> Result<Vec<(u64, Row)>, NoMemory>
    requires { All (λ placed. IfSome (get nat_cmp bases.now placed.place.sec)
        (λ base. base + placed.place.off < 2 ^ 64)) rows.now }
    ensures all { (ranges : List PlacedRange) → HasBases ranges bases.now
        → IfOk result (λ items. rows_of items.items ≡ addressed ranges rows.now) }
    ensures number { IfOk result (λ items. length items.items ≤ length rows.now) }
{
    let mut items = Vec::with_capacity(alloc, rows.len())?;
    for placed in rows {
        if let Some(base) = bases.get(&placed.place.sec) {
            items.push((*base + placed.place.off, placed.row))?;
        }
    }
    Ok(items)
}
