//! How much of a table a look-up reads.

use crate::rows::made::{FRAME_ROWS, FRAMED, Fields, PUSHED, ZERO, place, row, rows_of};
use orc_walk::{Range, Table};
use ot_base::Row;
use std::alloc::Global;
use std::process::Abort;

/// The row with these fields.
fn fields(fields: Fields) -> Row {
    row(0, 0, fields).row
}

/// The table of section 1 across the boundary of two blocks: three of its rows are in the second.
fn across(alloc: Global) -> Option<Table> {
    let rows = rows_of(alloc, &FRAME_ROWS)?;
    let ranges = [Range {
        sec: 1,
        base: 0xFE,
        size: 6,
    }];
    place(alloc, &rows, &ranges)?.ok()
}

fn expect_row(rt: &impl Abort, table: &mut Table, address: u64, row: Option<Row>) {
    assert!(rt; table.find(address) == row);
}

fn expect_counted(rt: &impl Abort, table: &mut Table) {
    expect_row(rt, table, 0x100, Some(fields(PUSHED)));
    let first = table.reads();
    assert!(rt; first >= 1 && first <= 4);
    expect_row(rt, table, 0x104, Some(fields(ZERO)));
    let second = table.reads();
    assert!(rt; second > first && second - first <= 5);
}

#[test]
fn readings_are_counted(rt: HostRuntime) {
    let mut table = across(rt.alloc()).expect(&rt, "a table");
    expect_counted(&rt, &mut table);
    expect_row(&rt, &mut table, 0xFD, None);
    expect_row(&rt, &mut table, 0x102, Some(fields(FRAMED)));
    assert!(rt; table.inside(0x103) && !table.inside(0x104) && !table.inside(0xFD));
}
