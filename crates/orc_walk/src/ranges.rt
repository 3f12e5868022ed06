//! Pieces of memory by their addresses.

ghost use Rattle.std.specs.Prelude.{◌≡◌, ◌+◌, ◌<◌, ◌∷◌, IsPermutation, None, OnOk, length, nat_lt};
ghost use Rattle.orc_walk.specs.Memory.{IsMemory, pieces_of};
ghost use Rattle.orc_walk.specs.ImageFile.{piece_fault};

use crate::image_fault::ImageWhy;
use std::alloc::AllocError;
use std::collections::BTreeMap;

/// Whether bytes from `first` on end above an address.
fn ends_above(first: u64, bytes: &[u8], address: u64) -> bool
    ensures { result ≡ nat_lt address (first + length bytes.now) }
{
    address < first || address - first < bytes.len() as u64
}

/// What is wrong with bytes at an address behind the earlier ranges.
pub(crate) fn piece_fault(
    ranges: &BTreeMap<u64, Vec<u8>>,
    base: u64,
    bytes: &[u8],
) -> Option<ImageWhy>
    requires memory { IsMemory (pieces_of ranges.now.entries) }
    requires not_empty { 0 < length bytes.now }
    ensures { result ≡ piece_fault (pieces_of ranges.now.entries)
        (record { base = base; bytes = bytes.now }) }
{
    let Some(last) = base.checked_add(bytes.len() as u64 - 1) else {
        return Some(ImageWhy::Wraps);
    };
    let Some((below, earlier)) = ranges.range(..=last).next_back() else {
        return None;
    };
    if ends_above(*below, earlier, base) {
        Some(ImageWhy::Overlaps)
    } else {
        None
    }
}

/// Adds bytes at an address.
pub(crate) fn add_piece(
    ranges: &mut BTreeMap<u64, Vec<u8>>,
    base: u64,
    bytes: Vec<u8>,
) -> Result<(), AllocError>
    requires memory { IsMemory (pieces_of ranges.old.entries) }
    requires not_empty { 0 < length bytes.items }
    requires fits { piece_fault (pieces_of ranges.old.entries)
        (record { base = base; bytes = bytes.items }) ≡ None }
    ensures memory { OnOk result (IsMemory (pieces_of ranges.new.entries)) }
    ensures more { OnOk result (IsPermutation
        (record { base = base; bytes = bytes.items } ∷ pieces_of ranges.old.entries)
        (pieces_of ranges.new.entries)) }
{
    ranges.insert(base, bytes)?;
    Ok(())
}
