//! Numbers of texts by where they begin.

ghost use Rattle.std.specs.Prelude.{◌≡◌, ◌<◌, ◌≤◌, ◌-◌, ◌%◌, ◌^◌, ℕ, Some, length, slice_get, slice_range, IfOk, IfSome};
ghost use Rattle.text_numbers.specs.Texts.{AreKept, AreMarks};

use crate::pieces::Pieces;
use ot_base::NoMemory;
use std::alloc::Global;

/// From where to where a text with a number stands.
#[derive(Clone, Copy)]
pub(crate) struct Mark {
    pub(crate) start: u32,
    pub(crate) end: u32,
    pub(crate) number: u32,
}

/// The empty text at the table's beginning: so each mark says something true.
const NO_MARK: Mark = Mark {
    start: 0,
    end: 0,
    number: 0,
};

/// No marks, with slots for a table.
pub(crate) fn unmarked_slots(alloc: Global, pieces: &Pieces<'_>) -> Result<Vec<Mark>, NoMemory>
    ensures { IfOk result (λ marks. AreMarks pieces.now marks.items) }
{
    let slots = 2 * (pieces.table().len() / 64 + 1);
    Ok(vec![in alloc; NO_MARK; slots]?)
}

/// The slot of what stands from one place to another. What ends at one place and begins 64 bytes apart has different
/// slots, and so has what ends before a zero byte and what doesn't.
fn slot_of(table: &[u8], start: usize, end: usize) -> usize {
    let zero = end >= table.len() || table[end] == 0;
    2 * (start / 64) + usize::from(zero)
}

/// The number that is marked of what stands from one place to another.
fn marked(pieces: &Pieces<'_>, marks: &[Mark], start: usize, end: usize) -> Option<u32>
    requires { AreMarks pieces.now marks.now }
    ensures { IfSome result (λ n. slice_get pieces.now.texts n ≡ Some (slice_range pieces.now.table start end)) }
{
    let mark = marks.get(slot_of(pieces.table(), start, end))?;
    if mark.start as usize == start && mark.end as usize == end {
        Some(mark.number)
    } else {
        None
    }
}

/// Marks the number of what stands from one place to another.
fn set_mark(pieces: &Pieces<'_>, marks: &mut Vec<Mark>, start: usize, end: usize, number: u32)
    requires order { start ≤ end }
    requires inside { end ≤ length pieces.now.table }
    requires is { slice_get pieces.now.texts number ≡ Some (slice_range pieces.now.table start end) }
    requires marks { AreMarks pieces.now marks.old.items }
    ensures { AreMarks pieces.now marks.new.items }
{
    let table = pieces.table();
    let slot = slot_of(table, start, end);
    if slot < marks.len() {
        marks[slot] = Mark {
            start: start as u32,
            end: end as u32,
            number,
        };
    }
}

/// The first place, in steps of 64 bytes, from which on the text up to `end` has a number that is marked, and that
/// number. From `end` on there is the empty text, whose number is 0.
fn first_marked(pieces: &Pieces<'_>, marks: &[Mark], start: usize, end: usize) -> (usize, u32)
    requires order { start ≤ end }
    requires inside { end ≤ length pieces.now.table }
    requires whole { (end - start) % 64 ≡ 0 }
    requires marks { AreMarks pieces.now marks.now }
    ensures from { start ≤ result.0 }
    ensures to { result.0 ≤ end }
    ensures whole { (end - result.0) % 64 ≡ 0 }
    ensures number { slice_get pieces.now.texts result.1 ≡ Some (slice_range pieces.now.table result.0 end) }
{
    let _table = pieces.table();
    let mut at = start;
    while at < end {
        if let Some(number) = marked(pieces, marks, at, end) {
            return (at, number);
        }
        at += 64;
    }
    (end, 0)
}

/// The number of the text from one place to another, whose length is a multiple of 64.
pub(crate) fn number_whole(
    pieces: &mut Pieces<'_>,
    marks: &mut Vec<Mark>,
    start: usize,
    end: usize,
) -> Result<u32, NoMemory>
    requires order { start ≤ end }
    requires inside { end ≤ length pieces.old.table }
    requires whole { (end - start) % 64 ≡ 0 }
    requires marks { AreMarks pieces.old marks.old.items }
    ensures number { IfOk result (λ n. slice_get pieces.new.texts n ≡ Some (slice_range pieces.old.table start end)) }
    ensures table { pieces.new.table ≡ pieces.old.table }
    ensures kept { AreKept pieces.old.texts pieces.new.texts }
    ensures marks { AreMarks pieces.new marks.new.items }
{
    let (mut at, mut number) = first_marked(pieces, marks, start, end);
    while at > start {
        number = pieces.join(at - 64, at, end, number)?;
        at -= 64;
        set_mark(pieces, marks, at, end, number);
    }
    Ok(number)
}
