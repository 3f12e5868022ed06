//! Where a point stands by its place, found among the few of its block.

ghost use Rattle.std.specs.Prelude.{◌≡◌, ◌<◌, ◌^◌, true, Some, length, slice_get, IfSome};

use crate::point::Point;
use crate::site::AlternativesSite;
use crate::stored::StoredPoint;
use ot_base::{NoMemory, Place};
use std::alloc::Global;

/// How many bytes of a section a block has.
const BYTES: u64 = 32;

/// A block of bytes of a section.
#[derive(Clone, Copy)]
struct Block {
    /// How many places stand before it.
    before: u32,
    /// Its bytes at which plain points stand: bit k is that of byte k.
    starts: u32,
}

/// How many of some places stand before each block of bytes of the sections. It is a guess: no contract says so.
#[derive(Drop)]
pub(crate) struct Blocks {
    /// How many blocks the sections before each section have.
    before: Vec<u64>,
    /// The blocks of each section up to its last place, and of the sections in their order.
    blocks: Vec<Block>,
    /// How many places there are.
    count: u32,
}

/// The last block of a section, while its points are counted.
#[derive(Clone, Copy)]
pub(crate) struct OpenBlock {
    /// Where it ends, in bytes from its section's start; 0 before the first block.
    end: u64,
    /// Its bytes at which plain points stand, so far.
    starts: u32,
}

impl OpenBlock {
    /// No block of a section yet.
    pub(crate) fn before_first() -> OpenBlock {
        OpenBlock { end: 0, starts: 0 }
    }
}

/// The bit of the byte at an offset, in its block.
fn bit_of(off: u64) -> u32 {
    1u32.wrapping_shl((off % BYTES) as u32)
}

impl Blocks {
    /// No blocks yet.
    pub(crate) fn new(alloc: Global) -> Blocks {
        let before = Vec::new(alloc);
        let blocks = Vec::new(alloc);
        Blocks {
            before,
            blocks,
            count: 0,
        }
    }

    /// Adds the blocks up to that of a place, which comes behind so many others, and opens the last.
    fn open(&mut self, place: Place, others: usize) -> Result<OpenBlock, NoMemory> {
        let sec = place.sec as usize;
        while self.before.len() <= sec {
            self.before.push(self.blocks.len() as u64)?;
        }
        let block = self.block_of(place);
        let before = u32::try_from(others).unwrap_or(u32::MAX);
        while self.blocks.len() <= block {
            self.blocks.push(Block { before, starts: 0 })?;
        }
        let start = place.off - place.off % BYTES;
        Ok(OpenBlock {
            end: start.wrapping_add(BYTES),
            starts: 0,
        })
    }

    /// Keeps which bytes of the open block plain points stand at.
    pub(crate) fn close(&mut self, open: OpenBlock) {
        if let Some(block) = self.blocks.last_mut() {
            block.starts |= open.starts;
        }
    }

    /// Closes the open block, and opens that of a place, which comes behind so many others.
    #[inline(never)]
    fn go_on(
        &mut self,
        open: OpenBlock,
        place: Place,
        others: usize,
    ) -> Result<OpenBlock, NoMemory> {
        self.close(open);
        self.open(place, others)
    }

    /// Counts a plain point of the section of the open block, which comes behind so many others.
    #[inline(always)]
    pub(crate) fn add(
        &mut self,
        open: &mut OpenBlock,
        place: Place,
        others: usize,
    ) -> Result<(), NoMemory> {
        if place.off >= open.end {
            *open = self.go_on(*open, place, others)?;
        }
        open.starts |= bit_of(place.off);
        Ok(())
    }

    /// Keeps how many places there are.
    pub(crate) fn end(&mut self, count: usize) {
        self.count = u32::try_from(count).unwrap_or(u32::MAX);
    }

    /// The blocks of the starts of sites that ascend.
    pub(crate) fn of_sites(alloc: Global, sites: &[AlternativesSite]) -> Result<Blocks, NoMemory> {
        let mut blocks = Blocks::new(alloc);
        for n in 0..sites.len() {
            blocks.open(sites[n].start, n)?;
        }
        blocks.end(sites.len());
        Ok(blocks)
    }

    /// How many blocks the sections before one have.
    fn before(&self, sec: usize) -> u64 {
        match self.before.get(sec) {
            Some(before) => *before,
            None => self.blocks.len() as u64,
        }
    }

    /// The number of the block of a place.
    fn block_of(&self, place: Place) -> usize {
        self.before(place.sec as usize)
            .wrapping_add(place.off / BYTES) as usize
    }

    /// How many places stand before a block.
    fn count_before(&self, block: usize) -> u32 {
        match self.blocks.get(block) {
            Some(block) => block.before,
            None => self.count,
        }
    }

    /// How many places stand before the block of a place, and up to its end.
    pub(crate) fn numbers(&self, place: Place) -> (u32, u32) {
        let behind = self.before(place.sec as usize + 1) as usize;
        let block = self.block_of(place).min(behind);
        (
            self.count_before(block),
            self.count_before(block.wrapping_add(1)),
        )
    }

    /// A guess of the number of the plain point at a place: others may stand in its block.
    fn guess(&self, place: Place) -> u32 {
        match self.blocks.get(self.block_of(place)) {
            Some(block) => {
                let below = block.starts & bit_of(place.off).wrapping_sub(1);
                block.before.wrapping_add(below.count_ones())
            }
            None => self.count,
        }
    }

    /// The number of a point, guessed or found among those of its block. Where none is told, the point may still be one.
    pub(crate) fn number_of(&self, points: &[StoredPoint], point: Point) -> Option<u32>
        ensures { IfSome result (λ n. slice_get points.now n ≡ Some point) }
    {
        let guess = self.guess(point.place);
        if is_at(points, guess, point) {
            return Some(guess);
        }
        let (first, end) = self.numbers(point.place);
        let n = last_up_to(points, point, first, end)?;
        if is_at(points, n, point) {
            Some(n)
        } else {
            None
        }
    }
}

/// Whether a point has this number.
#[inline(always)]
fn is_at(points: &[StoredPoint], n: u32, point: Point) -> bool
    ensures { result ≡ true → slice_get points.now n ≡ Some point }
{
    match points.get(n as usize) {
        Some(stored) => stored.point() == point,
        None => false,
    }
}

/// The last of these points, of those between two numbers, that isn't behind a point, where they ascend.
fn last_up_to(points: &[StoredPoint], point: Point, first: u32, end: u32) -> Option<u32> {
    if end as usize > points.len() || first >= end {
        return None;
    }
    let mut low = first;
    let mut high = end;
    while high - low > 1 {
        let middle = low + (high - low) / 2;
        if points[middle as usize].point() <= point {
            low = middle;
        } else {
            high = middle;
        }
    }
    Some(low)
}
