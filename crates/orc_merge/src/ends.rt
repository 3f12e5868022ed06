//! Which sections end with a row of zeros.

ghost use Rattle.std.specs.Prelude.{◌≡◌, ◌⊎◌, ◌^◌, ◌<◌, ℕ, None, Some, List, IfErr, IfOk, OnOk, length, option_map};
ghost use Rattle.std.specs.Ordering.{nat_cmp};
ghost use Rattle.std.specs.BTreeMap.{get};
ghost use Rattle.ot_base.specs.declared.row.PlacedRow.{PlacedRow};
ghost use Rattle.ot_base.specs.Rows.{zero_row, same_row};
ghost use Rattle.table_defs.specs.Lookup.{comes_before};
ghost use Rattle.orc_walk.specs.Rows.{addressed_row};
ghost use Rattle.orc_merge.specs.Ends.{HasLasts, at_offset, first_unended, goes_last, is_ended};
ghost use Rattle.orc_merge.specs.MergeFaults.{unended};
ghost use Rattle.orc_merge.specs.Parts.{first_in};
ghost use Rattle.orc_merge.specs.declared.faults.MergeFault.TheVariants.{NoMemory as no_memory};

use crate::faults::MergeFault;
use crate::part::Part;
use ot_base::codes::{KIND_UNDEFINED, REG_UNDEFINED};
use ot_base::{NoMemory, PlacedRow, Row};
use std::alloc::Global;
use std::collections::BTreeMap;
use table_defs::Range;

/// Whether an item comes before another in the order of look-up: by its address, or at one address by being of the undefined kind
/// where the other isn't.
pub(crate) fn comes_before(one: (u64, Row), other: (u64, Row)) -> bool
    ensures { result ≡ comes_before (addressed_row one) (addressed_row other) }
{
    one.0 < other.0
        || one.0 == other.0 && one.1.kind == KIND_UNDEFINED && !(other.1.kind == KIND_UNDEFINED)
}

/// Whether a row is the last of its section so far, by the last rows of the sections.
fn goes_last(lasts: &BTreeMap<u32, (u64, Row)>, placed: &PlacedRow) -> bool
    ensures { result ≡ goes_last
        (option_map addressed_row (get nat_cmp lasts.now placed.now.place.sec)) (at_offset placed.now) }
{
    match lasts.get(&placed.place.sec) {
        Some(last) => !comes_before((placed.place.off, placed.row), *last),
        None => true,
    }
}

/// The last row of each section in the order of look-up, at its offset.
fn last_rows(alloc: Global, rows: &[PlacedRow]) -> Result<BTreeMap<u32, (u64, Row)>, NoMemory>
    ensures { IfOk result (λ lasts. HasLasts rows.now lasts) }
{
    let mut lasts = BTreeMap::new(alloc);
    for placed in rows {
        if goes_last(&lasts, placed) {
            lasts.insert(placed.place.sec, (placed.place.off, placed.row))?;
        }
    }
    Ok(lasts)
}

/// Whether this is the row of zeros.
fn is_zero(row: Row) -> bool
    ensures { result ≡ same_row row zero_row }
{
    row.sp_offset == 0
        && row.bp_offset == 0
        && row.sp_reg == REG_UNDEFINED
        && row.bp_reg == REG_UNDEFINED
        && row.kind == KIND_UNDEFINED
        && !row.signal
}

/// Whether a range's section is ended, by the last rows of the sections.
fn is_ended(lasts: &BTreeMap<u32, (u64, Row)>, range: Range) -> bool
    ensures { (rows : List PlacedRow) → HasLasts rows lasts.now → result ≡ is_ended rows range }
{
    match lasts.get(&range.sec) {
        Some((off, row)) => 0 < range.size && *off == range.size && is_zero(*row),
        None => true,
    }
}

/// The first range whose section isn't ended.
fn first_unended(
    alloc: Global,
    rows: &[PlacedRow],
    ranges: &[Range],
) -> Result<Option<Range>, NoMemory>
    ensures { IfOk result (λ range. range ≡ first_unended rows.now ranges.now) }
{
    let lasts = last_rows(alloc, rows)?;
    Ok(
        ranges
            .iter()
            .copied()
            .find(|range| !is_ended(&lasts, *range)),
    )
}

/// Looks for a section that isn't ended in an object, which has this number.
fn check_end(alloc: Global, number: u32, part: &Part) -> Result<(), MergeFault>
    ensures fits { OnOk result (unended number part.now ≡ None) }
    ensures fault { IfErr result (λ fault. (fault ≡ no_memory) ⊎ (unended number part.now ≡ Some fault)) }
{
    match first_unended(alloc, &part.rows, &part.ranges)? {
        Some(range) => Err(MergeFault::NotEnded {
            part: number,
            sec: range.sec,
        }),
        None => Ok(()),
    }
}

/// Looks for a section that isn't ended in each object, or tells the first.
pub(crate) fn check_ends(alloc: Global, parts: &[Part]) -> Result<(), MergeFault>
    requires { length parts.now < 2 ^ 32 }
    ensures fits { OnOk result (first_in unended 0 parts.now ≡ None) }
    ensures fault { IfErr result (λ fault. (fault ≡ no_memory)
        ⊎ (first_in unended 0 parts.now ≡ Some fault)) }
{
    for (number, part) in parts.iter().enumerate() {
        check_end(alloc, number as u32, part)?;
    }
    Ok(())
}
