ghost use Rattle.std.specs.Prelude.{◌≡◌, ◌⊎◌, ◌^◌, ◌<◌, None, Some, All, IfErr, IfOk, OnOk, length};
ghost use Rattle.table_defs.specs.Placement.{is_inside};
ghost use Rattle.orc_walk.specs.Cost.{ReadsFew, rows_to_search};
ghost use Rattle.orc_walk.specs.Faults.{place_fault};
ghost use Rattle.orc_walk.specs.Rows.{row_at};
ghost use Rattle.orc_walk.specs.Table.{IsLaidOut, IsTableOf, IsWithin};
ghost use Rattle.orc_walk.specs.declared.faults.PlaceFault.TheVariants.{NoMemory as no_memory};

use crate::bases::{addressed, bases_of, first_unplaced};
use crate::blocks::{Blocks, blocks_of};
use crate::faults::{PlaceFault, PlaceWhy};
use crate::find::{begun, find_in};
use crate::layout::{covers, lay_out};
use crate::order::sort;
use ot_base::{PlacedRow, Row, Tape};
use std::alloc::Global;
use std::marker::Model;
use table_defs::Range;

/// Rows that are placed in memory, each at its address, in the order of look-up: by address, and at one
/// address the undefined kind first. So the row that ends a section gives way to the first row of a
/// section right behind it.
#[derive(Drop)]
pub struct Table {
    tape: Tape,
    blocks: Vec<Blocks>,
}

impl Model for Table {
    ghost use Rattle.orc_walk.specs.Blocks.{Fits, ranges_of};
    ghost use Rattle.orc_walk.specs.Rows.{IsInOrder, rows_of};
    ghost use Rattle.orc_walk.specs.Table.{PlacedTable};

    ghost Value = { PlacedTable };

    ghost view = { λ t. record { rows = rows_of t.tape.items; ranges = ranges_of t.blocks.items; reads = t.tape.reads } };

    ghost invariant = { λ t. IsInOrder (rows_of t.tape.items) × Fits (rows_of t.tape.items) t.blocks.items };
}

impl Table {
    /// The table of these rows in these ranges. No row lies behind its section's range. Of two ranges of
    /// one section the first counts. Refused are, in this order, the first row whose section has no
    /// range, and the first range that doesn't fit: behind which the address has more than 64 bits, or
    /// which shares an address with an earlier one.
    pub fn place(alloc: Global, rows: &[PlacedRow], ranges: &[Range]) -> Result<Table, PlaceFault>
        requires number { length rows.now < 2 ^ 32 }
        requires within { All (IsWithin ranges.now) rows.now }
        ensures fits { OnOk result (place_fault rows.now ranges.now ≡ None) }
        ensures laid_out { OnOk result (IsLaidOut ranges.now) }
        ensures table { IfOk result (λ table. IsTableOf rows.now ranges.now table) }
        ensures unread { IfOk result (λ table. table.reads ≡ 0) }
        ensures fault { IfErr result (λ fault. (fault ≡ no_memory)
            ⊎ (place_fault rows.now ranges.now ≡ Some fault)) }
    {
        let bases = bases_of(alloc, ranges)?;
        if let Some(placed) = first_unplaced(rows, &bases) {
            return Err(PlaceFault::At {
                sec: placed.place.sec,
                why: PlaceWhy::Missing,
            });
        }
        let laid = lay_out(alloc, ranges)?;
        let mut items = addressed(alloc, rows, &bases)?;
        sort(&mut items)?;
        let blocks = blocks_of(alloc, &items, &laid)?;
        Ok(Table {
            tape: Tape::build(items),
            blocks,
        })
    }

    /// Whether some placed section has a byte at the address.
    pub fn inside(&self, addr: u64) -> bool
        ensures { result ≡ is_inside self.now.ranges addr }
    {
        let count = begun(&self.blocks, addr);
        count > 0 && covers(&self.blocks[count - 1].range, addr)
    }

    /// The row that holds at an address: the last one at or below it. None where there is none.
    pub fn find(&mut self, addr: u64) -> Option<Row>
        ensures found { result ≡ row_at addr self.old.rows }
        ensures only_reads { self.new ≡ record self.old { reads = self.new.reads } }
        ensures counted { ReadsFew (rows_to_search self.old.ranges self.old.rows addr)
            self.old.reads self.new.reads }
    {
        find_in(&mut self.tape, &self.blocks, addr)
    }

    /// How many rows were read so far.
    pub fn reads(&self) -> u64
        ensures { result ≡ self.now.reads }
    {
        self.tape.reads()
    }
}
