//! Look-ups that are counted.

ghost use Rattle.std.specs.Prelude.{◌≡◌, ◌+◌, ◌-◌, ◌*◌, ◌^◌, ◌<◌, ◌≤◌, length};
ghost use Rattle.std.specs.List.{AllWithin};
ghost use Rattle.std.specs.List.Sorted.{IsNonDecreasingBy, IsPartitionPoint};
ghost use Rattle.table_defs.specs.Placement.{is_inside};
ghost use Rattle.orc_walk.specs.Blocks.{Fits, IsAscending, beginning_of, ranges_of, rows_below};
ghost use Rattle.orc_walk.specs.Cost.{ReadsFew, block_of, rows_to_search};
ghost use Rattle.orc_walk.specs.Rows.{IsInOrder, row_at, rows_of};

use crate::blocks::{BLOCK_SIZE, Blocks};
use ot_base::{Row, Tape};

/// The row that holds at an address: the last one at or below it. The tape's items stand in the order of
/// look-up (by address, the undefined kind first), and the blocks fit them. Only rows of the address's
/// block are read, by halving, and one row before them where none of them is at or below the address.
/// Where no range has the address, all rows are halved.
pub fn find_in(tape: &mut Tape, blocks: &[Blocks], addr: u64) -> Option<Row>
    requires in_order { IsInOrder (rows_of tape.old.items) }
    requires fits { Fits (rows_of tape.old.items) blocks.now }
    ensures found { result ≡ row_at addr (rows_of tape.old.items) }
    ensures only_reads { tape.new.items ≡ tape.old.items }
    ensures counted { ReadsFew (rows_to_search (ranges_of blocks.now) (rows_of tape.old.items) addr) tape.old.reads tape.new.reads }
{
    let (low, high) = items_near(tape, blocks, addr);
    let count = items_up_to(tape, addr, low, high);
    if count == 0 {
        return None;
    }
    let (_address, row) = tape.read(count - 1);
    Some(row)
}

/// How many ranges begin at or below an address.
pub(crate) fn begun(blocks: &[Blocks], addr: u64) -> usize
    requires { IsAscending (ranges_of blocks.now) }
    ensures bound { result ≤ length blocks.now }
    ensures split { IsPartitionPoint (λ b. b.range.base ≤ addr) (λ b. addr < b.range.base)
        blocks.now result }
{
    blocks.partition_point(|b| b.range.base <= addr)
}

/// The items of the block that has the address, or all where no range has it: those from the first
/// number to the second, not included.
fn items_near(tape: &Tape, blocks: &[Blocks], addr: u64) -> (u32, u32)
    requires ascending { IsNonDecreasingBy (λ item. item.0) tape.now.items }
    requires fits { Fits (rows_of tape.now.items) blocks.now }
    ensures order { result.0 ≤ result.1 }
    ensures within { result.1 ≤ length tape.now.items }
    ensures below { AllWithin (λ item. item.0 ≤ addr) tape.now.items 0 result.0 }
    ensures above { AllWithin (λ item. addr < item.0) tape.now.items result.1
        (length tape.now.items) }
    ensures number { result.1 - result.0
        ≡ rows_to_search (ranges_of blocks.now) (rows_of tape.now.items) addr }
{
    let all = (0, tape.len());
    let count = begun(blocks, addr);
    if count == 0 {
        return all;
    }
    let Blocks { range, firsts } = &blocks[count - 1];
    if addr - range.base >= range.size {
        return all;
    }
    let block = (addr / BLOCK_SIZE - range.base / BLOCK_SIZE) as usize;
    (firsts[block], firsts[block + 1])
}

/// How many items have an address at or below this one, where those below `low` do and those from
/// `high` on don't.
fn items_up_to(tape: &mut Tape, addr: u64, low: u32, high: u32) -> u32
    requires ascending { IsNonDecreasingBy (λ item. item.0) tape.old.items }
    requires order { low ≤ high }
    requires within { high ≤ length tape.old.items }
    requires below { AllWithin (λ item. item.0 ≤ addr) tape.old.items 0 low }
    requires above { AllWithin (λ item. addr < item.0) tape.old.items high (length tape.old.items) }
    ensures bound { result ≤ length tape.old.items }
    ensures split { IsPartitionPoint (λ item. item.0 ≤ addr) (λ item. addr < item.0)
        tape.old.items result }
    ensures only_reads { tape.new.items ≡ tape.old.items }
    ensures no_fewer { tape.old.reads ≤ tape.new.reads }
    ensures few { 2 ^ (tape.new.reads - tape.old.reads) ≤ 2 * (high - low) + 1 }
{
    let mut low = low;
    let mut high = high;
    while low < high {
        let middle = low + (high - low) / 2;
        let (address, _row) = tape.read(middle);
        if address <= addr {
            low = middle + 1;
        } else {
            high = middle;
        }
    }
    low
}
