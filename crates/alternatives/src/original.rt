//! The originals of alternatives, by their places.

ghost use Rattle.std.specs.Prelude.{◌≡◌, ◌+◌, ◌≤◌, length, IfOk, OnOk, MatchBool};
ghost use Rattle.std.specs.List.Sorted.{IsPermutation};
ghost use Rattle.alternatives.specs.Sorted.{meets as meet, original_cmp, originals_of, AreByPlace, NoneMeet, SomeMeet};
ghost use Rattle.alternatives.specs.Originals.{counts as is_counted};

use ot_base::{NoMemory, Place};
use special_sections::AltEntry;
use std::alloc::Global;

/// The original of an entry.
#[derive(Clone, Copy)]
pub(crate) struct Original {
    /// Where it begins.
    pub(crate) place: Place,
    /// Its length in bytes.
    pub(crate) len: u8,
    /// The entry's number.
    pub(crate) entry: u32,
}

/// Whether an entry has an original.
pub(crate) fn counts(entry: &AltEntry) -> bool
    ensures { result ≡ is_counted entry.now }
{
    entry.original_len != 0
}

/// The originals of entries, in the order of the entries.
fn list_originals(alloc: Global, entries: &[AltEntry]) -> Result<Vec<Original>, NoMemory>
    requires { length entries.now ≤ 8388608 }
    ensures { IfOk result (λ list. list.items ≡ originals_of entries.now) }
{
    let mut list = Vec::new(alloc);
    for entry in 0..entries.len() as u32 {
        let alternative = &entries[entry as usize];
        if counts(alternative) {
            let place = alternative.original;
            let len = alternative.original_len;
            list.push(Original { place, len, entry })?;
        }
    }
    Ok(list)
}

/// The originals of entries by their places, those at one place in the order of the entries.
pub(crate) fn sorted_originals(
    alloc: Global,
    entries: &[AltEntry],
) -> Result<Vec<Original>, NoMemory>
    requires { length entries.now ≤ 8388608 }
    ensures all { IfOk result (λ list. IsPermutation (originals_of entries.now) list.items) }
    ensures sorted { IfOk result (λ list. AreByPlace list.items) }
{
    let mut list = list_originals(alloc, entries)?;
    list.sort_unstable_by_key(|original| (original.place, original.entry));
    Ok(list)
}

/// The offset behind an original.
fn end(original: &Original) -> u128
    ensures { result ≡ original.now.place.off + original.now.len }
{
    u128::from(original.place.off) + u128::from(original.len)
}

/// Whether two originals share a byte and aren't the same.
fn meets(a: &Original, b: &Original) -> bool
    ensures { result ≡ meet a.now b.now }
{
    let some = a.len != 0 && b.len != 0;
    let share = a.place.sec == b.place.sec
        && u128::from(a.place.off) < end(b)
        && u128::from(b.place.off) < end(a);
    let same = a.place.off == b.place.off && a.len == b.len;
    some && share && !same
}

/// Whether two neighbours among these meet.
pub(crate) fn some_meet(originals: &[Original]) -> bool
    ensures { MatchBool result (SomeMeet originals.now) (NoneMeet originals.now) }
{
    for i in 1..originals.len() {
        if meets(&originals[i - 1], &originals[i]) {
            return true;
        }
    }
    false
}
