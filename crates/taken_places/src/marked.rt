//! Sections whose names have a text somewhere.

ghost use Rattle.std.specs.Prelude.{◌≡◌, ◌<◌, ◌≤◌, ◌+◌, ◌^◌, ℕ, IfOk, false, true, length, slice_index_or, slice_range};
ghost use Rattle.elf_objects.specs.Contents.{section_at};
ghost use Rattle.taken_places.specs.Marks.{AreMarks, AreStarts, begins_at as begins_at_of, section_names as names_of};
ghost use Rattle.taken_places.specs.Taken.{has_text};

use crate::section_names::{name_start, section_names};
use elf_objects::Object;
use ot_base::NoMemory;
use std::alloc::Global;
use text_numbers::Ends;

/// Whether a text begins at an offset of a table.
fn begins_at(table: &[u8], text: &[u8], at: usize) -> bool
    requires { at ≤ length table.now }
    ensures { result ≡ begins_at_of text.now table.now at }
{
    table[at..].starts_with(text)
}

/// The offsets of a table at which a text begins, ascending.
fn list_starts(alloc: Global, table: &[u8], text: &[u8]) -> Result<Vec<u32>, NoMemory>
    requires { length table.now < 2 ^ 32 }
    ensures { IfOk result (λ starts. AreStarts text.now table.now (length table.now) starts.items) }
{
    let mut starts = Vec::new(alloc);
    for at in 0..table.len() {
        if begins_at(table, text, at) {
            starts.push(at as u32)?;
        }
    }
    Ok(starts)
}

/// How many of these offsets are below one.
fn count_below(starts: &[u32], at: u32) -> usize
    requires { (i j d : ℕ) → i < j → j < length starts.now → slice_index_or starts.now i d < slice_index_or starts.now j d }
    ensures within { result ≤ length starts.now }
    ensures below { (k d : ℕ) → k < result → slice_index_or starts.now k d < at }
    ensures from { (k d : ℕ) → result ≤ k → k < length starts.now → at ≤ slice_index_or starts.now k d }
{
    starts.partition_point(|start| *start < at)
}

/// Whether a text of so many bytes, which begins at these offsets of a table, stands between two offsets.
fn stands_between(starts: &[u32], len: usize, start: u32, end: usize) -> bool
    requires rising { (i j d : ℕ) → i < j → j < length starts.now → slice_index_or starts.now i d < slice_index_or starts.now j d }
    requires few { len < 2 ^ 32 }
    ensures some { (k d : ℕ) → k < length starts.now → start ≤ slice_index_or starts.now k d → slice_index_or starts.now k d + len ≤ end → result ≡ true }
    ensures none { ((k d : ℕ) → k < length starts.now → start ≤ slice_index_or starts.now k d → slice_index_or starts.now k d + len ≤ end → ⊥) → result ≡ false }
{
    let next = count_below(starts, start);
    next < starts.len() && starts[next] as usize + len <= end
}

/// Whether the name of a section has a text, which begins at these offsets of the table of section names.
fn has_text_at(object: &Object<'_>, ends: &Ends<'_>, starts: &[u32], text: &[u8], sec: u32) -> bool
    requires known { sec < length object.now.sections }
    requires ends { ends.now ≡ names_of object.now }
    requires short { length (names_of object.now) < 2 ^ 32 }
    requires some { 0 < length text.now }
    requires few { length text.now < 2 ^ 32 }
    requires starts { AreStarts text.now (names_of object.now) (length (names_of object.now)) starts.now }
    ensures { result ≡ has_text text.now (section_at object.now sec).name }
{
    let start = name_start(object, sec);
    let end = ends.end_of(start);
    stands_between(starts, text.len(), start as u32, end)
}

/// For each section, whether its name has a text somewhere. Each byte of the table of names is read once for each byte of
/// the text at most, however many names share it.
pub(crate) fn list_marked(
    alloc: Global,
    object: &Object<'_>,
    text: &[u8],
) -> Result<Vec<bool>, NoMemory>
    requires some { 0 < length text.now }
    requires few { length text.now < 2 ^ 32 }
    ensures { IfOk result (λ marks. AreMarks text.now object.now marks.items) }
{
    let table = section_names(object);
    let ends = Ends::build(alloc, table)?;
    let starts = list_starts(alloc, table, text)?;
    let count = object.sections();
    let mut marks = Vec::with_capacity(alloc, count as usize)?;
    for sec in 0..count {
        marks.push(has_text_at(object, &ends, &starts, text, sec))?;
    }
    Ok(marks)
}
