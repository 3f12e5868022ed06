//! How many relocations are below an offset, told without a search.

ghost use Rattle.std.specs.Prelude.{◌≡◌, ◌<◌, ◌≤◌, ◌*◌, ◌+◌, ◌/◌, ◌^◌, Some, length, slice_get, IfOk, IfSome};
ghost use Rattle.symbols_relocs.specs.RelocCounts.{CountBlocks};

use elf_objects::Reloc;
use ot_base::NoMemory;
use std::alloc::Global;

/// The bytes of a block, and how many blocks there are for each relocation at most.
const BLOCK: u64 = 32;

const MOST_BLOCKS: usize = 16;

/// The number of the block of an offset.
#[inline(always)]
fn block_of(off: u64) -> usize
    ensures { result ≡ off / 32 }
{
    (off / BLOCK) as usize
}

/// How many blocks there are: up to that of the last relocation.
fn block_count(relocs: &[Reloc]) -> usize {
    match relocs.last() {
        Some(reloc) => relocs
            .len()
            .saturating_mul(MOST_BLOCKS)
            .min(block_of(reloc.offset) + 1),
        None => 0,
    }
}

/// How many relocations are below the beginning of each block, where they are in the order of their offsets.
pub(crate) fn list_counts(alloc: Global, relocs: &[Reloc]) -> Result<Vec<u32>, NoMemory>
    requires { length relocs.now < 2 ^ 32 }
    ensures { IfOk result (λ near. CountBlocks relocs.now near.items) }
{
    let count = block_count(relocs);
    let mut near = Vec::with_capacity(alloc, count)?;
    let mut below = 0;
    for block in 0..count {
        while below < relocs.len() && block_of(relocs[below].offset) < block {
            below += 1;
        }
        near.push(below as u32)?;
    }
    Ok(near)
}

/// How many relocations are below the beginning of the block of an offset, where it is one of the blocks.
#[inline(always)]
pub(crate) fn near_count(near: &[u32], off: u64) -> Option<usize>
    ensures { IfSome result (λ n. slice_get near.now (off / 32) ≡ Some n) }
{
    let count = near.get(block_of(off))?;
    Some(*count as usize)
}
