//! The relocations of a section, found by the offset of their field.

ghost use Rattle.std.specs.Prelude.{◌≡◌, ◌<◌, ◌≤◌, ◌+◌, ◌^◌, ℕ, List, IsFalse, IsTrue, length, find, slice_index_or, option_and_then, option_map, IfOk, IfSome, OnOk};
ghost use Rattle.std.specs.List.Sorted.{IsNonDecreasingBy};
ghost use Rattle.elf_objects.specs.Contents.{relocs_at};
ghost use Rattle.elf_objects.specs.declared.symbol.Reloc.{Reloc};
ghost use Rattle.symbols_relocs.specs.NamedPlaces.{place_named};
ghost use Rattle.symbols_relocs.specs.RelocCounts.{AreBelow, IsCount, LackRelocs};
ghost use Rattle.symbols_relocs.specs.Relocs.{at_offset, first_at_offset, first_pointer, is_pointer_kind, IsIndexOf};

use crate::near_relocs::{list_counts, near_count};
use crate::pointers::{is_pointer, named_place};
use elf_objects::{Object, Reloc};
use ot_base::{NoMemory, Place};
use std::alloc::Global;
use std::marker::Model;

/// How many relocations are tried one by one before a search.
const STEPS: usize = 8;

/// The relocations of a section by the offset of their field, those at one offset in the order of the
/// file. Contracts see it as the list of them.
#[derive(Drop)]
pub struct RelocIndex {
    relocs: Vec<Reloc>,
    /// How many of them are below the beginning of each block of offsets.
    near: Vec<u32>,
}

impl Model for RelocIndex {
    ghost use Rattle.std.specs.Prelude.{List};
    ghost use Rattle.elf_objects.specs.declared.symbol.Reloc.{Reloc};
    ghost use Rattle.symbols_relocs.specs.RelocCounts.{AreCounted};

    ghost Value = { List Reloc };

    ghost view = { λ index. index.relocs.items };

    ghost invariant = { λ index. AreCounted index.relocs.items index.near.items };
}

impl RelocIndex {
    /// The relocations of the section with this index.
    pub fn build(alloc: Global, object: &Object<'_>, sec: u32) -> Result<RelocIndex, NoMemory>
        requires { sec < length object.now.sections }
        ensures { IfOk result (λ index. IsIndexOf (relocs_at object.now sec) index) }
    {
        let mut relocs = list_relocs(alloc, object, sec)?;
        sort_by_offset(&mut relocs)?;
        let near = list_counts(alloc, &relocs)?;
        Ok(RelocIndex { relocs, near })
    }

    /// How many are below an offset, where few steps lead to one that isn't.
    #[inline(always)]
    fn count_near(&self, off: u64) -> Option<usize>
        ensures count { IfSome result (IsCount self.now off) }
        ensures inside { IfSome result (λ n. n < length self.now) }
    {
        count_from(&self.relocs, near_count(&self.near, off)?, off)
    }

    /// How many are below an offset.
    #[inline(always)]
    fn count(&self, off: u64) -> usize
        ensures { IsCount self.now off result }
    {
        match self.count_near(off) {
            Some(count) => count,
            None => count_below(&self.relocs, off),
        }
    }

    /// The relocations whose field begins at an offset, in the order of the file.
    pub fn at(&self, off: u64) -> &[Reloc]
        ensures { result.now ≡ at_offset off self.now }
    {
        run_from(&self.relocs, self.count(off), off)
    }

    /// The first of them.
    pub fn reloc_at(&self, off: u64) -> Option<Reloc>
        ensures { result ≡ first_at_offset off self.now }
    {
        first_from(&self.relocs, self.count(off), off)
    }

    /// The same, where few steps tell it.
    #[inline(always)]
    pub(crate) fn reloc_near(&self, off: u64) -> Option<Option<&Reloc>>
        ensures { IfSome result (λ r. option_map (λ p. p.now) r ≡ first_at_offset off self.now) }
    {
        let start = self.count_near(off)?;
        Some(first_at(&self.relocs, start, off))
    }

    /// Whether few steps show that none begins at one of so many bytes from an offset on.
    #[inline(always)]
    pub(crate) fn lacks_from(&self, off: u64, len: u8) -> bool
        requires { off + len < 2 ^ 64 }
        ensures { IsTrue result → LackRelocs self.now off len }
    {
        match self.count_near(off) {
            Some(start) => is_beyond(&self.relocs, start, off, len),
            None => false,
        }
    }

    /// The first of them whose type stands for a place: `R_X86_64_64`, `R_X86_64_PC32`, `R_X86_64_32` or
    /// `R_X86_64_32S`.
    pub fn pointer_at(&self, off: u64) -> Option<Reloc>
        ensures { result ≡ first_pointer off self.now }
    {
        find_pointer(self.at(off))
    }

    /// The place that it names in the object, where it names one.
    pub fn place_held_at(&self, object: &Object<'_>, off: u64) -> Option<Place>
        ensures { result ≡ option_and_then (place_named object.now) (first_pointer off self.now) }
    {
        named_place(object, self.pointer_at(off)?)
    }
}

/// The relocations of a section, in the order of the file.
fn list_relocs(alloc: Global, object: &Object<'_>, sec: u32) -> Result<Vec<Reloc>, NoMemory>
    requires { sec < length object.now.sections }
    ensures items { IfOk result (λ relocs. relocs.items ≡ relocs_at object.now sec) }
    ensures few { IfOk result (λ relocs. length relocs.items < 2 ^ 32) }
{
    let count = object.relocs(sec);
    let mut relocs = Vec::with_capacity(alloc, count as usize)?;
    for i in 0..count {
        relocs.push(object.reloc(sec, i))?;
    }
    Ok(relocs)
}

/// Puts relocations in the order of their offsets, and leaves those at one offset in their order.
fn sort_by_offset(relocs: &mut Vec<Reloc>) -> Result<(), NoMemory>
    ensures sorted { OnOk result (IsNonDecreasingBy (λ r. r.offset) relocs.new.items) }
    ensures same { OnOk result (IsIndexOf relocs.old.items relocs.new.items) }
    ensures len { OnOk result (length relocs.new.items ≡ length relocs.old.items) }
{
    relocs.sort_by_key(|reloc| reloc.offset)?;
    Ok(())
}

/// Those at an offset, where so many are below it.
fn run_from(relocs: &[Reloc], start: usize, off: u64) -> &[Reloc]
    requires sorted { IsNonDecreasingBy (λ r. r.offset) relocs.now }
    requires start { IsCount relocs.now off start }
    ensures { result.now ≡ at_offset off relocs.now }
{
    let end = end_of_run(relocs, start, off);
    let (to_end, _) = relocs.split_at(end);
    let (_, run) = to_end.split_at(start);
    run
}

/// The first of them, where not all are below it.
#[inline(always)]
fn first_at(relocs: &[Reloc], start: usize, off: u64) -> Option<&Reloc>
    requires sorted { IsNonDecreasingBy (λ r. r.offset) relocs.now }
    requires start { IsCount relocs.now off start }
    requires inside { start < length relocs.now }
    ensures { option_map (λ r. r.now) result ≡ first_at_offset off relocs.now }
{
    if relocs[start].offset == off {
        Some(&relocs[start])
    } else {
        None
    }
}

/// Whether the first that isn't below an offset is behind so many bytes from it on.
#[inline(always)]
fn is_beyond(relocs: &[Reloc], start: usize, off: u64, len: u8) -> bool
    requires sorted { IsNonDecreasingBy (λ r. r.offset) relocs.now }
    requires start { IsCount relocs.now off start }
    requires inside { start < length relocs.now }
    requires fits { off + len < 2 ^ 64 }
    ensures { IsTrue result → LackRelocs relocs.now off len }
{
    relocs[start].offset >= off + u64::from(len)
}

/// The first of them.
fn first_from(relocs: &[Reloc], start: usize, off: u64) -> Option<Reloc>
    requires sorted { IsNonDecreasingBy (λ r. r.offset) relocs.now }
    requires start { IsCount relocs.now off start }
    ensures { result ≡ first_at_offset off relocs.now }
{
    if start < relocs.len() {
        first_at(relocs, start, off).copied()
    } else {
        None
    }
}

/// The first relocation whose type stands for a place.
fn find_pointer(relocs: &[Reloc]) -> Option<Reloc>
    ensures { result ≡ find (λ r. is_pointer_kind r.kind) relocs.now }
{
    for reloc in relocs {
        if is_pointer(reloc.kind) {
            return Some(*reloc);
        }
    }
    None
}

/// Whether those from an index on are above an offset, by the first of them.
fn are_above(relocs: &[Reloc], from: usize, off: u64) -> bool
    requires sorted { IsNonDecreasingBy (λ r. r.offset) relocs.now }
    ensures yes { IsTrue result → (k : ℕ) (d : Reloc) → from ≤ k → k < length relocs.now → off < (slice_index_or relocs.now k d).offset }
    ensures no { IsFalse result → (from < length relocs.now) × ((d : Reloc) → (slice_index_or relocs.now from d).offset ≤ off) }
{
    from >= relocs.len() || relocs[from].offset > off
}

/// Whether there is a relocation with an index, and it isn't below an offset.
#[inline(always)]
fn is_from(relocs: &[Reloc], index: usize, off: u64) -> bool
    requires { IsNonDecreasingBy (λ r. r.offset) relocs.now }
    ensures inside { IsTrue result → index < length relocs.now }
    ensures above { IsTrue result → (k : ℕ) (d : Reloc) → index ≤ k → k < length relocs.now → off ≤ (slice_index_or relocs.now k d).offset }
    ensures below { IsFalse result → index < length relocs.now → (d : Reloc) → (slice_index_or relocs.now index d).offset < off }
{
    index < relocs.len() && relocs[index].offset >= off
}

/// How many of these are below an offset, where at least the first `start` are, and few steps lead to one that isn't.
#[inline(always)]
fn count_from(relocs: &[Reloc], start: usize, off: u64) -> Option<usize>
    requires sorted { IsNonDecreasingBy (λ r. r.offset) relocs.now }
    requires below { AreBelow relocs.now start off }
    ensures count { IfSome result (IsCount relocs.now off) }
    ensures inside { IfSome result (λ n. n < length relocs.now) }
{
    if is_from(relocs, start, off) {
        return Some(start);
    }
    for index in start + 1..relocs.len().min(start + STEPS) {
        if relocs[index].offset >= off {
            return Some(index);
        }
    }
    None
}

/// The end of the relocations at an offset, where so many are below it.
fn end_of_run(relocs: &[Reloc], start: usize, off: u64) -> usize
    requires sorted { IsNonDecreasingBy (λ r. r.offset) relocs.now }
    requires start { IsCount relocs.now off start }
    ensures within { result ≤ length relocs.now }
    ensures below { (k : ℕ) (d : Reloc) → k < result → (slice_index_or relocs.now k d).offset ≤ off }
    ensures above { (k : ℕ) (d : Reloc) → result ≤ k → k < length relocs.now → off < (slice_index_or relocs.now k d).offset }
{
    if are_above(relocs, start, off) {
        return start;
    }
    if are_above(relocs, start + 1, off) {
        return start + 1;
    }
    count_to(relocs, off)
}

/// How many of these are below an offset.
#[inline(never)]
fn count_below(relocs: &[Reloc], off: u64) -> usize
    requires { IsNonDecreasingBy (λ r. r.offset) relocs.now }
    ensures { IsCount relocs.now off result }
{
    relocs.partition_point(|reloc| reloc.offset < off)
}

/// How many of these are at an offset or below.
fn count_to(relocs: &[Reloc], off: u64) -> usize
    requires { IsNonDecreasingBy (λ r. r.offset) relocs.now }
    ensures within { result ≤ length relocs.now }
    ensures below { (k : ℕ) (d : Reloc) → k < result → (slice_index_or relocs.now k d).offset ≤ off }
    ensures above { (k : ℕ) (d : Reloc) → result ≤ k → k < length relocs.now → off < (slice_index_or relocs.now k d).offset }
{
    relocs.partition_point(|reloc| reloc.offset <= off)
}
