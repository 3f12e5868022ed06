ghost use Rattle.std.specs.Prelude.{◌≡◌, ◌+◌, ◌<◌, ◌≤◌, length};
ghost use Rattle.std.specs.List.Sorted.{IsPartitionPoint};
ghost use Rattle.orc_walk.specs.Memory.{IsMemory, byte_at, pieces_of, word_at};

use std::marker::Model;

/// The memory that a walk reads: ranges of addresses with a byte at each.
#[derive(Drop)]
pub struct Memory {
    ranges: Vec<(u64, Vec<u8>)>,
}

impl Model for Memory {
    ghost use Rattle.std.specs.Prelude.{List};
    ghost use Rattle.orc_walk.specs.Memory.{IsMemory, Piece, pieces_of};

    ghost Value = { List Piece };

    ghost view = { λ m. pieces_of m.ranges.items };

    ghost invariant = { λ m. IsMemory (pieces_of m.ranges.items) };
}

/// How many ranges begin at or below an address.
fn begun(ranges: &[(u64, Vec<u8>)], addr: u64) -> usize
    requires { IsMemory (pieces_of ranges.now) }
    ensures bound { result ≤ length ranges.now }
    ensures split { IsPartitionPoint (λ range. range.0 ≤ addr) (λ range. addr < range.0)
        ranges.now result }
{
    ranges.partition_point(|range| range.0 <= addr)
}

impl Memory {
    /// The memory of these ranges, each the address of its first byte and its bytes. They ascend, none
    /// is empty, no two share an address, and the last address of each is at most `u64::MAX`.
    pub fn new(ranges: Vec<(u64, Vec<u8>)>) -> Memory
        requires { IsMemory (pieces_of ranges.items) }
        ensures { result ≡ pieces_of ranges.items }
    {
        Memory { ranges }
    }

    /// The byte so many bytes above an address.
    fn byte(&self, addr: u64, above: u64) -> Option<u8>
        ensures { result ≡ byte_at self.now (addr + above) }
    {
        let ranges = self.ranges.as_slice();
        let at = addr.checked_add(above)?;
        let count = begun(ranges, at);
        if count == 0 {
            return None;
        }
        let (base, bytes) = &ranges[count - 1];
        bytes.get((at - *base) as usize).copied()
    }

    /// The word of 8 bytes at an address, low byte first, where each of them is in some range.
    pub fn word(&self, addr: u64) -> Option<u64>
        ensures { result ≡ word_at self.now addr }
    {
        let mut bytes = [0u8; 8];
        for (i, byte) in bytes.iter_mut().enumerate() {
            *byte = self.byte(addr, i as u64)?;
        }
        Some(u64::from_le_bytes(bytes))
    }
}
