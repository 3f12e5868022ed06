//! Which bodies share a byte of the file with another.

ghost use Rattle.std.specs.Prelude.{◌≡◌, ◌<◌, ◌+◌, ◌↔◌, ℕ, false, length, IsTrue, IfOk, IfErr, OnOk, replicate};
ghost use Rattle.std.specs.List.{AllPairs};
ghost use Rattle.std.specs.List.Sorted.{IsNonDecreasingBy, IsPermutation};
ghost use Rattle.elf_objects.specs.Steps.{file};
ghost use Rattle.elf_objects.specs.File.{section_count};
ghost use Rattle.elf_objects.specs.Extents.{has_bytes, AreExtents, AreInOrder, AreMarked, IsCrowded, IsReach, TellsShared};

use crate::fault::ElfFault;
use crate::header::SectionHeader;
use crate::headers::Headers;
use std::alloc::Global;

/// The bytes of the file that the body of a section takes up, at least one.
#[derive(Clone, Copy)]
struct Extent {
    offset: u64,
    end: u128,
    sec: u32,
}

/// Whether the body of a section is not empty.
fn has_bytes_in(h: &SectionHeader) -> bool
    ensures { result ≡ has_bytes h.now }
{
    h.has_body() && h.size != 0
}

/// Whether another extent meets the one at a place, where `reach` is the greatest end before it.
fn is_crowded(extents: &[Extent], reach: u128, p: usize) -> bool
    requires order { (n : ℕ) × AreInOrder n extents.now }
    requires reach { IsReach extents.now p reach }
    requires known { p < length extents.now }
    ensures { IsTrue result ↔ IsCrowded extents.now p }
{
    let extent = extents[p];
    if u128::from(extent.offset) < reach {
        return true;
    }
    p + 1 < extents.len() && u128::from(extents[p + 1].offset) < extent.end
}

/// Marks the sections whose extents others meet.
fn mark_crowded(extents: &[Extent], marks: &mut Vec<bool>)
    requires order { AreInOrder (length marks.old.items) extents.now }
    requires none { marks.old.items ≡ replicate (length marks.old.items) false }
    ensures { AreMarked (length marks.old.items) extents.now (length extents.now) marks.new.items }
{
    let mut reach = 0;
    for p in 0..extents.len() {
        let extent = extents[p];
        let section = extent.sec as usize;
        marks[section] = is_crowded(extents, reach, p);
        reach = reach.max(extent.end);
    }
}

/// Adds the extent of the body of a section, where it is not empty.
fn add_extent(headers: &Headers, list: &mut Vec<Extent>, i: u32) -> Result<(), ElfFault>
    requires known { i < section_count (file headers.now) }
    requires extents { AreExtents (file headers.now) i list.old.items }
    requires rising { AllPairs (λ x y. x.sec < y.sec) list.old.items }
    ensures ok { OnOk result (AreExtents (file headers.now) (i + 1) list.new.items) }
    ensures rising { OnOk result (AllPairs (λ x y. x.sec < y.sec) list.new.items) }
    ensures err { IfErr result (λ e. e ≡ ElfFault.NoMemory) }
{
    let h = headers.get(i);
    if !has_bytes_in(&h) {
        return Ok(());
    }
    list.push(Extent {
        offset: h.offset,
        end: u128::from(h.offset) + u128::from(h.size),
        sec: i,
    })?;
    Ok(())
}

/// The extents of the bodies that are not empty.
fn list_extents(alloc: Global, headers: &Headers) -> Result<Vec<Extent>, ElfFault>
    ensures ok { IfOk result
        (λ list. AreExtents (file headers.now) (section_count (file headers.now)) list.items) }
    ensures rising { IfOk result (λ list. AllPairs (λ x y. x.sec < y.sec) list.items) }
    ensures err { IfErr result (λ e. e ≡ ElfFault.NoMemory) }
{
    let mut list = Vec::new(alloc);
    for i in 0..headers.count {
        add_extent(headers, &mut list, i)?;
    }
    Ok(list)
}

/// Puts extents in the order of their offsets.
fn sort_extents(extents: &mut Vec<Extent>)
    ensures permutation { IsPermutation extents.old.items extents.new.items }
    ensures sorted { IsNonDecreasingBy (λ e. e.offset) extents.new.items }
{
    extents.sort_unstable_by_key(|extent| extent.offset);
}

/// The extents of the bodies that are not empty, in the order of their offsets.
fn ordered_extents(alloc: Global, headers: &Headers) -> Result<Vec<Extent>, ElfFault>
    ensures extents { IfOk result
        (λ list. AreExtents (file headers.now) (section_count (file headers.now)) list.items) }
    ensures order { IfOk result
        (λ list. AreInOrder (section_count (file headers.now)) list.items) }
    ensures err { IfErr result (λ e. e ≡ ElfFault.NoMemory) }
{
    let mut list = list_extents(alloc, headers)?;
    sort_extents(&mut list);
    Ok(list)
}

/// For each section whether its body shares a byte with that of another.
pub(crate) fn find_shared(alloc: Global, headers: &Headers) -> Result<Vec<bool>, ElfFault>
    ensures ok { IfOk result (λ marks. TellsShared (file headers.now) marks.items) }
    ensures err { IfErr result (λ e. e ≡ ElfFault.NoMemory) }
{
    let extents = ordered_extents(alloc, headers)?;
    let mut marks = vec![in alloc; false; headers.count as usize]?;
    mark_crowded(&extents, &mut marks);
    Ok(marks)
}
