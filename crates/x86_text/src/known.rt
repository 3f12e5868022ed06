//! Reading instructions, where equal bytes were read before.

ghost use Rattle.std.specs.Prelude.{◌≡◌, true, ◌-◌, ◌<◌, ◌≤◌, Some, IfOk, IfSome, List, drop, take, slice_get};
ghost use Rattle.std.specs.Int.{w64, to_le_bytes};
ghost use Rattle.operation_defs.specs.declared.insn.Insn.{Insn as AnInsn};
ghost use Rattle.x86_decode.specs.Decoding.{StandsInFront};
ghost use Rattle.x86_text.specs.Code.{may_use_table as may_use_a_table};
ghost use Rattle.x86_text.specs.Known.{is_told_alone, upper_bytes, AreSpellings, IsFoundInFront, IsKindInFront};

use crate::guess::likely_len;
use operation_defs::{Insn, Op};
use ot_base::NoMemory;
use std::alloc::Global;
use x86_decode::Map;

/// How many places there are for spellings at most.
const SPELLINGS: usize = 65_536;

/// How many places there are for longer spellings at most.
const LONG: usize = 2_048;

/// An instruction of at most eight bytes, and how it is spelled.
#[derive(Clone, Copy)]
pub(crate) struct Spelling {
    /// Its bytes at the upper end of the number, the first of them lowest, and zeros below.
    pub(crate) front: u64,
    /// Its number among those of the list that differ.
    pub(crate) number: u32,
    /// How many bytes it has: none before one is noted.
    pub(crate) len: u8,
    /// Whether it may jump by a table.
    pub(crate) may_jump: bool,
}

/// An instruction of nine to fifteen bytes, and how it is spelled.
#[derive(Clone, Copy)]
pub(crate) struct LongSpelling {
    /// Its first eight bytes: the first of them is the lowest of the number.
    pub(crate) front: u64,
    /// Its last eight bytes, in the same order. Some are of the first eight too.
    pub(crate) back: u64,
    /// Its number among those of the list that differ.
    pub(crate) number: u32,
    /// How many bytes it has: none before one is noted.
    pub(crate) len: u8,
}

/// An instruction whose spelling is known.
#[derive(Clone, Copy)]
pub(crate) struct Found {
    /// Its number among those of the list that differ.
    pub(crate) number: u32,
    /// How many bytes it has.
    pub(crate) len: u8,
    /// Whether it may jump by a table.
    pub(crate) may_jump: bool,
}

/// The spellings by a map that were read last, of those with the same hash.
#[derive(Drop)]
pub(crate) struct Known {
    /// By which map they are read.
    pub(crate) map: Map,
    /// For each hash of a spelling, the last one that has it.
    pub(crate) spellings: Vec<Spelling>,
    /// In the same way, those of more than eight bytes.
    pub(crate) long: Vec<LongSpelling>,
}

impl Known {
    /// Room for none.
    pub(crate) fn none(alloc: Global, map: Map) -> Known
        ensures { (kinds : List AnInsn) → AreSpellings kinds result }
    {
        Known {
            map,
            spellings: Vec::new(alloc),
            long: Vec::new(alloc),
        }
    }

    /// Room for the spellings by a map of about so many instructions.
    pub(crate) fn new(alloc: Global, map: Map, count: usize) -> Result<Known, NoMemory>
        ensures { IfOk result (λ known. (kinds : List AnInsn) → AreSpellings kinds known) }
    {
        let none = Spelling {
            front: 0,
            number: 0,
            len: 0,
            may_jump: false,
        };
        let no_long = LongSpelling {
            front: 0,
            back: 0,
            number: 0,
            len: 0,
        };
        Ok(Known {
            map,
            spellings: vec![in alloc; none; count.min(SPELLINGS)]?,
            long: vec![in alloc; no_long; (count / 8).min(LONG)]?,
        })
    }

    /// Whether they are read by this map.
    #[inline(always)]
    pub(crate) fn is_by(&self, map: Map) -> bool
        ensures { result ≡ true → self.now.map ≡ map }
    {
        matches!(
            (self.map, map),
            (Map::Base, Map::Base) | (Map::Whole, Map::Whole)
        )
    }

    /// Whether there is room for the spellings by a map of about so many instructions.
    pub(crate) fn has_room(&self, map: Map, count: usize) -> bool {
        self.is_by(map) && self.spellings.len() >= count.min(SPELLINGS)
    }

    /// Where a spelling with these bytes is kept.
    #[inline(always)]
    fn place_of(&self, front: u64) -> usize {
        place_among(self.spellings.len(), front)
    }

    /// Where a longer one with these first and last bytes is kept.
    #[inline(always)]
    fn long_place_of(&self, front: u64, back: u64) -> usize {
        place_among(self.long.len(), front ^ back)
    }

    /// The instruction of at most eight bytes with which the bytes begin, if its length is guessed and its spelling is known.
    #[inline(always)]
    pub(crate) fn find(&self, bytes: &[u8]) -> Option<Found>
        ensures { (kinds : List AnInsn) → AreSpellings kinds self.now → IfSome result (IsFoundInFront self.now.map kinds bytes.now) }
    {
        let first = first_eight(bytes)?;
        let len = likely_len(first);
        let front = upper_of(first, len)?;
        let spelling = *self.spellings.get(self.place_of(front))?;
        if spelling.front == front && spelling.len == len {
            Some(Found {
                number: spelling.number,
                len,
                may_jump: spelling.may_jump,
            })
        } else {
            None
        }
    }

    /// The number of the instruction of more than eight bytes with which the bytes begin, if its length is guessed and its
    /// spelling is known.
    pub(crate) fn find_long(&self, bytes: &[u8]) -> Option<u32>
        ensures { (kinds : List AnInsn) → AreSpellings kinds self.now → IfSome result (IsKindInFront self.now.map kinds bytes.now) }
    {
        let first = first_eight(bytes)?;
        let len = likely_len(first);
        let back = last_eight(bytes, len)?;
        let spelling = *self.long.get(self.long_place_of(first, back))?;
        if spelling.front == first && spelling.back == back && spelling.len == len {
            Some(spelling.number)
        } else {
            None
        }
    }

    /// Keeps the spelling with which the bytes begin, which are as many as its instruction has, with the instruction's number,
    /// if these bytes tell the instruction alone.
    pub(crate) fn note(&mut self, bytes: &[u8], insn: Insn, number: u32)
        ensures { (kinds : List AnInsn) → AreSpellings kinds self.old → slice_get kinds number ≡ Some insn → StandsInFront self.old.map bytes.now insn → AreSpellings kinds self.new }
    {
        if !is_told_alone(self.map, insn.op) {
            return;
        }
        if let Some(first) = first_eight(bytes) {
            let len = insn.len;
            if let Some(front) = upper_of(first, len) {
                let place = self.place_of(front);
                if place < self.spellings.len() {
                    self.spellings[place] = Spelling {
                        front,
                        number,
                        len,
                        may_jump: may_use_table(insn.op),
                    };
                }
            } else if let Some(back) = last_eight(bytes, len) {
                let place = self.long_place_of(first, back);
                if place < self.long.len() {
                    self.long[place] = LongSpelling {
                        front: first,
                        back,
                        number,
                        len,
                    };
                }
            }
        }
    }
}

/// Whether an instruction with this operation is told by its own bytes. A ud2 of the whole map isn't: with those behind it it may
/// begin an emulated instruction.
fn is_told_alone(map: Map, op: Op) -> bool
    ensures { result ≡ is_told_alone map op }
{
    !matches!((map, op), (Map::Whole, Op::Ud2))
}

/// Whether an operation may jump by a table.
pub(crate) fn may_use_table(op: Op) -> bool
    ensures { result ≡ may_use_a_table op }
{
    matches!(op, Op::JmpInd { .. } | Op::Jmp { wide: true, .. })
}

/// The first eight bytes: the first of them is the lowest of the number.
#[inline(always)]
fn first_eight(bytes: &[u8]) -> Option<u64>
    ensures { IfSome result (λ first. to_le_bytes w64 first ≡ take 8 bytes.now) }
{
    let first = bytes.first_chunk::<8>()?;
    Some(u64::from_le_bytes(*first))
}

/// The last eight of the first bytes, so many of them, where they are nine to fifteen.
fn last_eight(bytes: &[u8], len: u8) -> Option<u64>
    ensures { IfSome result (λ back. (8 < len) × (len ≤ 15) × (to_le_bytes w64 back ≡ take 8 (drop (len - 8) bytes.now))) }
{
    if len <= 8 || len > 15 {
        return None;
    }
    let before = usize::from(len - 8);
    if before > bytes.len() {
        return None;
    }
    first_eight(&bytes[before..])
}

/// The lowest bytes of a number, so many of them, moved to its upper end.
#[inline(always)]
fn upper_of(first: u64, len: u8) -> Option<u64>
    ensures { IfSome result (λ front. (0 < len) × (len ≤ 8) × (upper_bytes front len ≡ take len (to_le_bytes w64 first))) }
{
    if len == 0 || len > 8 {
        return None;
    }
    Some(first << (64 - 8 * u32::from(len)))
}

/// A hash of a number, below so many places. No contract says so.
#[inline(always)]
pub(crate) fn place_among(places: usize, number: u64) -> usize {
    let hash = number.wrapping_mul(0x9E37_79B9_7F4A_7C15) >> 32;
    (hash.wrapping_mul(places as u64) >> 32) as usize
}
