//! Which entry is refused.

ghost use Rattle.std.specs.Prelude.{◌≡◌, ◌==◌, ◌<◌, ◌≤◌, length, IfErr, OnOk, false, Some, None, MatchOption};
ghost use Rattle.alternatives.specs.Faults.{why_of, AreRight, IsFirstFault};
ghost use Rattle.alternatives.specs.Originals.{overlaps_earlier};
ghost use Rattle.alternatives.specs.Sorted.{IsOverlap};
ghost use Rattle.alternatives.specs.Texts.{AreShort, AscendBySection};

use crate::fault::{SiteFault, SiteWhy};
use crate::original::counts;
use crate::texts::{SectionText, is_whole};
use special_sections::AltEntry;

/// Why an entry is refused, where it is told whether its original overlaps that of an earlier one.
fn why(texts: &[SectionText<'_>], entries: &[AltEntry], k: u32, overlaps: bool) -> Option<SiteWhy>
    requires ascending { AscendBySection texts.now }
    requires short { AreShort texts.now }
    requires inside { k < length entries.now }
    requires overlap { overlaps ≡ overlaps_earlier entries.now k }
    ensures { result ≡ why_of texts.now entries.now k }
{
    let entry = &entries[k as usize];
    if !counts(entry) {
        return None;
    }
    if !is_whole(texts, entry.original, entry.original_len) {
        return Some(SiteWhy::NotBoundary);
    }
    if overlaps {
        return Some(SiteWhy::Overlap);
    }
    if !is_whole(texts, entry.replacement, entry.replacement_len) {
        return Some(SiteWhy::Replacement);
    }
    None
}

/// Whether this is the number of an entry.
fn is_entry(found: Option<u32>, entry: u32) -> bool
    ensures { MatchOption found (result ≡ false) (λ k. result ≡ (k == entry)) }
{
    match found {
        Some(k) => k == entry,
        None => false,
    }
}

/// Tells the first entry that is refused, where the first that overlaps an earlier one is known.
pub(crate) fn check_entries(
    texts: &[SectionText<'_>],
    entries: &[AltEntry],
    overlap: Option<u32>,
) -> Result<(), SiteFault>
    requires ascending { AscendBySection texts.now }
    requires short { AreShort texts.now }
    requires few { length entries.now ≤ 8388608 }
    requires overlap { IsOverlap entries.now overlap }
    ensures ok { OnOk result (AreRight texts.now entries.now (length entries.now)) }
    ensures err { IfErr result (IsFirstFault texts.now entries.now) }
{
    for entry in 0..entries.len() as u32 {
        if let Some(why) = why(texts, entries, entry, is_entry(overlap, entry)) {
            return Err(SiteFault::At { entry, why });
        }
    }
    Ok(())
}
