//! The first entry whose original overlaps that of an earlier one.

ghost use Rattle.std.specs.Prelude.{◌≡◌, ◌≤◌, length, IfOk, IfNone, MatchBool};
ghost use Rattle.std.specs.List.Sorted.{IsPermutation};
ghost use Rattle.alternatives.specs.Sorted.{originals_of, AreByPlace, IsFirstOverlap, IsOverlap, NoneMeet, NoneOverlap, SomeOverlap};

use crate::original::{Original, some_meet, sorted_originals};
use ot_base::NoMemory;
use special_sections::AltEntry;
use std::alloc::Global;

/// Whether two of the first so many entries overlap.
fn some_overlap(alloc: Global, entries: &[AltEntry], n: usize) -> Result<bool, NoMemory>
    requires few { length entries.now ≤ 8388608 }
    requires inside { n ≤ length entries.now }
    ensures { IfOk result (λ r. MatchBool r (SomeOverlap entries.now n) (NoneOverlap entries.now n)) }
{
    let originals = sorted_originals(alloc, &entries[..n])?;
    Ok(some_meet(originals.as_slice()))
}

/// The first entry that overlaps an earlier one, where two of them overlap: by halving, over how many
/// first entries have two that do.
fn first_overlap(alloc: Global, entries: &[AltEntry]) -> Result<u32, NoMemory>
    requires few { length entries.now ≤ 8388608 }
    requires some { SomeOverlap entries.now (length entries.now) }
    ensures { IfOk result (IsFirstOverlap entries.now) }
{
    let mut low = 0usize;
    let mut high = entries.len();
    while high - low > 1 {
        let middle = low + (high - low) / 2;
        if some_overlap(alloc, entries, middle)? {
            high = middle;
        } else {
            low = middle;
        }
    }
    Ok(low as u32)
}

/// The first entry that overlaps an earlier one, or None.
pub(crate) fn find_overlap(
    alloc: Global,
    entries: &[AltEntry],
    originals: &[Original],
) -> Result<Option<u32>, NoMemory>
    requires few { length entries.now ≤ 8388608 }
    requires all { IsPermutation (originals_of entries.now) originals.now }
    requires sorted { AreByPlace originals.now }
    ensures found { IfOk result (IsOverlap entries.now) }
    ensures apart { IfOk result (λ found. IfNone found (NoneMeet originals.now)) }
{
    if !some_meet(originals) {
        return Ok(None);
    }
    Ok(Some(first_overlap(alloc, entries)?))
}
