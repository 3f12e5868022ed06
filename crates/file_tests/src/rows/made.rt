//! Tables of examples.

ghost use Rattle.std.specs.Prelude.{◌≡◌, ◌==◌, find, true};
ghost use Rattle.orc_walk.specs.Table.{IsWithin};

use orc_walk::{PlaceFault, Range, Table};
use ot_base::{Place, PlacedRow, Row};
use std::alloc::Global;

fn range_of(ranges: &[Range], sec: u32) -> Option<Range>
    ensures { result ≡ find (λ range. range.sec == sec) ranges.now }
{
    ranges.iter().copied().find(|range| range.sec == sec)
}

fn is_in_range(ranges: &[Range], placed: PlacedRow) -> bool
    ensures { result ≡ true → IsWithin ranges.now placed }
{
    match range_of(ranges, placed.place.sec) {
        Some(range) => placed.place.off <= range.size,
        None => true,
    }
}

/// The table of rows, each of which is in its section's range. What it is is told by no contract.
pub fn place(
    alloc: Global,
    rows: &[PlacedRow],
    ranges: &[Range],
) -> Option<Result<Table, PlaceFault>> {
    for placed in rows {
        let within = is_in_range(ranges, *placed);
        if !within {
            return None;
        }
    }
    if rows.len() < 1000 {
        Some(Table::place(alloc, rows, ranges))
    } else {
        None
    }
}

/// The fields of a row, in the order of `struct orc_entry`.
pub type Fields = (i16, i16, u8, u8, u8, bool);

/// A row of a section.
pub fn row(sec: u32, off: u64, fields: Fields) -> PlacedRow {
    let (sp_offset, bp_offset, sp_reg, bp_reg, kind, signal) = fields;
    PlacedRow {
        place: Place { sec, off },
        row: Row {
            sp_offset,
            bp_offset,
            sp_reg,
            bp_reg,
            kind,
            signal,
        },
    }
}

const CALL: Fields = (8, 0, 5, 0, 2, false);

pub const ZERO: Fields = (0, 0, 0, 0, 0, false);

pub const PUSHED: Fields = (16, -16, 5, 1, 2, false);

pub const FRAMED: Fields = (16, -16, 4, 1, 2, false);

/// The rows of `55 48 89 E5 5D C3`: `push rbp; mov rbp, rsp; pop rbp; ret`, with their offsets.
pub const FRAME_ROWS: [(u64, Fields); 5] = [
    (0, CALL),
    (1, PUSHED),
    (4, FRAMED),
    (5, CALL),
    (6, ZERO),
];

/// Rows of section 1.
pub fn rows_of(alloc: Global, rows: &[(u64, Fields)]) -> Option<Vec<PlacedRow>> {
    let mut all = Vec::new(alloc);
    for (off, fields) in rows {
        all.push(row(1, *off, *fields)).ok()?;
    }
    Some(all)
}
