//! Alternatives at one place, which are nested in one another.

ghost use Rattle.std.specs.Prelude.{◌≡◌, List, unwrap_or, IfOk, IfErr};
ghost use Rattle.std.specs.BTreeMap.{get};
ghost use Rattle.ot_base.specs.Places.{place_cmp};
ghost use Rattle.special_sections.specs.declared.entries.AltEntry.{AltEntry};
ghost use Rattle.special_sections.specs.Longest.{AreLongest};
ghost use Rattle.special_sections.specs.Nested.{nested, with_longest as with_the_longest};

use crate::entries::AltEntry;
use crate::fault::SpecialFault;
use ot_base::Place;
use std::alloc::Global;
use std::collections::BTreeMap;

/// The length at a place; 0 where there is none.
fn length_at(lengths: &BTreeMap<Place, u8>, place: Place) -> u8
    ensures { result ≡ unwrap_or (get place_cmp lengths.now place) 0 }
{
    lengths.get(&place).copied().unwrap_or(0)
}

/// The greatest length of the originals at each place.
fn longest_lengths(alloc: Global, entries: &[AltEntry]) -> Result<BTreeMap<Place, u8>, SpecialFault>
    ensures ok { IfOk result (AreLongest entries.now) }
    ensures err { IfErr result (λ e. e ≡ SpecialFault.NoMemory) }
{
    let mut lengths = BTreeMap::new(alloc);
    for entry in entries {
        let longest = length_at(&lengths, entry.original).max(entry.original_len);
        lengths.insert(entry.original, longest)?;
    }
    Ok(lengths)
}

/// An entry, where it has an original with the longest at its place.
fn with_longest(entry: AltEntry, lengths: &BTreeMap<Place, u8>) -> AltEntry
    ensures { (entries : List AltEntry) → AreLongest entries lengths.now → result ≡ with_the_longest entries entry }
{
    if entry.original_len == 0 {
        return entry;
    }
    let original_len = length_at(lengths, entry.original);
    AltEntry {
        original_len,
        ..entry
    }
}

/// These entries, with the longest originals at their places.
pub(crate) fn nest(alloc: Global, entries: &[AltEntry]) -> Result<Vec<AltEntry>, SpecialFault>
    ensures ok { IfOk result (λ list. list.items ≡ nested entries.now) }
    ensures err { IfErr result (λ e. e ≡ SpecialFault.NoMemory) }
{
    let lengths = longest_lengths(alloc, entries)?;
    let mut list = Vec::with_capacity(alloc, entries.len())?;
    for entry in entries {
        list.push(with_longest(*entry, &lengths))?;
    }
    Ok(list)
}
