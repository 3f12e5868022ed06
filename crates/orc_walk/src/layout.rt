//! Ranges in memory, and the first that doesn't fit.

ghost use Rattle.std.specs.Prelude.{◌≡◌, ◌⊎◌, ℕ, [], None, Some, IfErr, IfOk, OnOk, find};
ghost use Rattle.std.specs.Ordering.{nat_cmp};
ghost use Rattle.std.specs.BTreeMap.{IsOrdered, values};
ghost use Rattle.table_defs.specs.Placement.{covers, is_inside};
ghost use Rattle.orc_walk.specs.Blocks.{IsAscending};
ghost use Rattle.orc_walk.specs.Faults.{first_faulty, overlap, range_fault};
ghost use Rattle.orc_walk.specs.Layout.{IsLaid};
ghost use Rattle.orc_walk.specs.Table.{IsLaidOut};
ghost use Rattle.orc_walk.specs.declared.faults.PlaceFault.TheVariants.{NoMemory as no_memory};

use crate::faults::{PlaceFault, PlaceWhy};
use ot_base::NoMemory;
use std::alloc::Global;
use std::collections::BTreeMap;
use table_defs::Range;

/// Whether the address is that of one of the range's bytes.
pub(crate) fn covers(range: &Range, addr: u64) -> bool
    ensures { result ≡ covers range.now addr }
{
    range.base <= addr && addr - range.base < range.size
}

/// Whether two ranges share an address.
fn overlap(one: &Range, other: &Range) -> bool
    ensures { result ≡ overlap one.now other.now }
{
    let base = one.base.max(other.base);
    covers(one, base) && covers(other, base)
}

/// The first of these ranges that shares an address with another.
fn first_overlapped(earlier: &[Range], range: &Range) -> Option<Range>
    ensures { result ≡ find (λ other. overlap other range.now) earlier.now }
{
    earlier.iter().copied().find(|other| overlap(other, range))
}

/// What is wrong with a range behind earlier ones, which are laid out.
fn range_fault(earlier: &[Range], laid: &BTreeMap<u64, Range>, range: &Range) -> Option<PlaceWhy>
    requires { IsLaid earlier.now laid.now }
    ensures { result ≡ range_fault earlier.now range.now }
{
    let Some(end) = range.base.checked_add(range.size) else {
        return Some(PlaceWhy::Wraps);
    };
    if range.size == 0 {
        return None;
    }
    let Some((_base, last)) = laid.range(..end).next_back() else {
        return None;
    };
    if last.base + last.size <= range.base {
        return None;
    }
    let other = first_overlapped(earlier, range)?;
    Some(PlaceWhy::Overlaps { other: other.sec })
}

/// The ranges by their bases, but for the empty ones; or the first that doesn't fit.
fn lay(alloc: Global, ranges: &[Range]) -> Result<BTreeMap<u64, Range>, PlaceFault>
    ensures fits { OnOk result (first_faulty [] ranges.now ≡ None) }
    ensures laid { IfOk result (λ laid. IsLaid ranges.now laid) }
    ensures fault { IfErr result (λ fault. (fault ≡ no_memory)
        ⊎ (first_faulty [] ranges.now ≡ Some fault)) }
{
    let mut laid = BTreeMap::new(alloc);
    for (i, range) in ranges.iter().enumerate() {
        if let Some(why) = range_fault(&ranges[..i], &laid, range) {
            return Err(PlaceFault::At {
                sec: range.sec,
                why,
            });
        }
        if range.size > 0 {
            laid.insert(range.base, *range)?;
        }
    }
    Ok(laid)
}

/// The ranges of a map, ascending by their bases.
fn ranges_of(alloc: Global, laid: &BTreeMap<u64, Range>) -> Result<Vec<Range>, NoMemory>
    ensures all { IfOk result (λ ranges. ranges.items ≡ values laid.now) }
    ensures ordered { OnOk result (IsOrdered nat_cmp laid.now) }
{
    let ranges = laid.values().copied().collect(alloc)?;
    Ok(ranges)
}

/// The ranges that aren't empty, ascending; or the first that doesn't fit.
pub(crate) fn lay_out(alloc: Global, ranges: &[Range]) -> Result<Vec<Range>, PlaceFault>
    ensures fits { OnOk result (first_faulty [] ranges.now ≡ None) }
    ensures laid_out { OnOk result (IsLaidOut ranges.now) }
    ensures ascending { IfOk result (λ laid. IsAscending laid.items) }
    ensures inside { IfOk result (λ laid. (address : ℕ)
        → is_inside laid.items address ≡ is_inside ranges.now address) }
    ensures fault { IfErr result (λ fault. (fault ≡ no_memory)
        ⊎ (first_faulty [] ranges.now ≡ Some fault)) }
{
    let laid = lay(alloc, ranges)?;
    let ascending = ranges_of(alloc, &laid)?;
    Ok(ascending)
}
