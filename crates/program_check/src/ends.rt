//! The rows that end sections.

ghost use Rattle.std.specs.Prelude.{◌≡◌, ◌≤◌, ◌++◌, [], false, IfOk, OnOk, length, map};
ghost use Rattle.machine_defs.specs.Rows.{placed, place_in};
ghost use Rattle.ot_base.specs.Rows.{zero_row};
ghost use Rattle.program_graph.specs.Tells.{text_of};
ghost use Rattle.program_check.specs.Ends.{in_front, with_ends as with_ends_of};

use crate::row::ZERO_ROW;
use ot_base::{NoMemory, Place, PlacedRow};
use program_graph::TextSection;
use std::alloc::Global;

/// How many of these rows are in a section, up to the first that isn't.
fn count_in(rows: &[PlacedRow], sec: u32) -> usize
    ensures within { result ≤ length rows.now }
    ensures front { result ≡ length (in_front sec rows.now) }
{
    for i in 0..rows.len() {
        if rows[i].place.sec != sec {
            return i;
        }
    }
    rows.len()
}

/// The row at a section's end, which says that nothing is known behind it.
fn end_row(text: &TextSection) -> PlacedRow
    ensures { result ≡ placed (place_in (text_of text.now) text.now.size) zero_row }
{
    PlacedRow {
        place: Place {
            sec: text.sec,
            off: text.size,
        },
        row: ZERO_ROW,
    }
}

/// Whether the first of these rows is in a section.
fn begin_in(rows: &[PlacedRow], sec: u32) -> bool
    ensures { result ≡ false → in_front sec rows.now ≡ [] }
{
    !rows.is_empty() && rows[0].place.sec == sec
}

/// Sections without those before the first one that has a row.
fn without_first_empty<'a>(texts: &'a [TextSection], changes: &[PlacedRow]) -> &'a [TextSection]
    ensures { with_ends_of (map text_of result.now) changes.now ≡ with_ends_of (map text_of texts.now) changes.now }
{
    for i in 0..texts.len() {
        if begin_in(changes, texts[i].sec) {
            return &texts[i..];
        }
    }
    &texts[texts.len()..]
}

/// Adds the rows of sections, each with a row at its end where it has a row.
fn push_sections(
    rows: &mut Vec<PlacedRow>,
    texts: &[TextSection],
    changes: &[PlacedRow],
) -> Result<(), NoMemory>
    ensures { OnOk result (rows.new.items ≡ rows.old.items ++ with_ends_of (map text_of texts.now) changes.now) }
{
    let mut rest = changes;
    for text in texts {
        let count = count_in(rest, text.sec);
        let (front, behind) = rest.split_at(count);
        rows.extend_from_slice(front)?;
        if count != 0 {
            rows.push(end_row(text))?;
        }
        rest = behind;
    }
    Ok(())
}

/// The rows of sections, each with a row at its end where it has a row. Those of the first that has one stay where they are.
pub(crate) fn with_ends(
    alloc: Global,
    texts: &[TextSection],
    changes: Vec<PlacedRow>,
) -> Result<Vec<PlacedRow>, NoMemory>
    ensures { IfOk result (λ rows. rows.items ≡ with_ends_of (map text_of texts.now) changes.items) }
{
    let mut rows = changes;
    let texts = without_first_empty(texts, rows.as_slice());
    if texts.is_empty() {
        return Ok(Vec::new(alloc));
    }
    let count = count_in(rows.as_slice(), texts[0].sec);
    let rest = Vec::from_slice(alloc, &rows[count..])?;
    rows.truncate(count);
    if count != 0 {
        rows.push(end_row(&texts[0]))?;
    }
    push_sections(&mut rows, &texts[1..], rest.as_slice())?;
    Ok(rows)
}
