ghost use Rattle.std.specs.Prelude.{◌≡◌, ◌+◌, ◌^◌, ◌<◌, All, IfOk, length};
ghost use Rattle.std.specs.List.Sorted.{IsNonDecreasingBy};
ghost use Rattle.orc_walk.specs.Blocks.{HasFirsts, IsAscending, beginning_of, ranges_of, rows_below};
ghost use Rattle.orc_walk.specs.Rows.{rows_of};

use ot_base::{NoMemory, Row};
use std::alloc::Global;
use table_defs::Range;

/// Addresses of a block. Blocks begin at its multiples.
pub const BLOCK_SIZE: u64 = 256;

/// A placed section's range, and which rows of the table are placed in each of its blocks of addresses.
#[derive(Drop)]
pub struct Blocks {
    /// Where the section lies.
    pub range: Range,
    /// How many rows of the whole table have an address below the beginning of each block in which the
    /// range has an address, ascending, and of the block behind these. So the rows of the `k`th such
    /// block are those from `firsts[k]` to `firsts[k + 1]`, not included. The first block may begin
    /// below the range.
    pub firsts: Vec<u32>,
}

/// The blocks of ascending ranges, by items whose addresses ascend.
pub(crate) fn blocks_of(
    alloc: Global,
    items: &[(u64, Row)],
    ranges: &[Range],
) -> Result<Vec<Blocks>, NoMemory>
    requires ascending { IsNonDecreasingBy (λ item. item.0) items.now }
    requires number { length items.now < 2 ^ 32 }
    requires ranges { IsAscending ranges.now }
    ensures ranges { IfOk result (λ blocks. ranges_of blocks.items ≡ ranges.now) }
    ensures firsts { IfOk result (λ blocks. All (HasFirsts (rows_of items.now)) blocks.items) }
{
    let mut blocks = Vec::with_capacity(alloc, ranges.len())?;
    for range in ranges {
        blocks.push(Blocks::of(alloc, items, *range)?)?;
    }
    Ok(blocks)
}

impl Blocks {
    /// The blocks of a range, by items whose addresses ascend.
    pub(crate) fn of(alloc: Global, items: &[(u64, Row)], range: Range) -> Result<Blocks, NoMemory>
        requires ascending { IsNonDecreasingBy (λ item. item.0) items.now }
        requires number { length items.now < 2 ^ 32 }
        requires not_empty { 0 < range.size }
        requires in_memory { range.base + range.size < 2 ^ 64 }
        ensures range { IfOk result (λ blocks. blocks.range ≡ range) }
        ensures firsts { IfOk result (λ blocks. HasFirsts (rows_of items.now) blocks) }
    {
        let first = range.base / BLOCK_SIZE;
        let last = (range.base + range.size - 1) / BLOCK_SIZE;
        let mut firsts = Vec::new(alloc);
        for block in first..last + 2 {
            firsts.push(Blocks::items_before(items, block))?;
        }
        Ok(Blocks { range, firsts })
    }

    /// How many items have an address below a block's beginning.
    fn items_before(items: &[(u64, Row)], block: u64) -> u32
        requires ascending { IsNonDecreasingBy (λ item. item.0) items.now }
        requires number { length items.now < 2 ^ 32 }
        ensures { result ≡ rows_below (beginning_of block) (rows_of items.now) }
    {
        items.partition_point(|item| item.0 / BLOCK_SIZE < block) as u32
    }
}
