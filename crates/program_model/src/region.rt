ghost use Rattle.std.specs.Prelude.{◌≡◌, ◌<◌, ◌≤◌, ◌^◌, length};
ghost use Rattle.state_defs.specs.Region.{little_endian};

use crate::address::up;
use std::alloc::AllocError;

/// A byte that is stored at an address.
#[derive(Clone, Copy)]
pub struct Store {
    /// The address.
    pub at: u64,
    /// The byte.
    pub byte: u8,
}

/// Every stack ends below this address, a gigabyte below the last.
const END_OF_STACKS: u128 = (1 << 64) - (1 << 30);

/// The stack in memory: the addresses from `lo` on, one byte each.
#[derive(Clone, Drop)]
pub struct Region {
    /// The first address.
    pub lo: u64,
    /// The bytes from there on.
    pub bytes: Vec<u8>,
}

/// The number that these bytes are, the lowest first.
#[tactic(auto, using(crate::proofs::Words::bytes_bound, crate::proofs::Words::seven_bytes))]
fn little_endian(bytes: &[u8]) -> u64
    requires { length bytes.now ≤ 8 }
    ensures value { result ≡ little_endian bytes.now }
    ensures bound { result < 256 ^ length bytes.now }
{
    match bytes {
        [] => 0,
        [first, rest @ ..] => u64::from(*first) + 256 * little_endian(rest),
    }
}

impl Region {
    ghost use Rattle.std.specs.Prelude.{◌≡◌, ◌≢◌, ℕ, ◌<◌, All, IfOk, IfSome, IsSome, IsTrue, Some};
    ghost use Rattle.state_defs.specs.Region.{hi_of, IsRegion, byte_at, word_at, Reads, SameAddresses, WritesOnly, WritesWord, Stores};
    ghost use Rattle.program_model.specs.Region.{region_of, WritesBytes, StoresWord};

    /// The address behind the last byte, a plain sum.
    pub fn end(&self) -> u128
        ensures { result ≡ hi_of (region_of self.now) }
    {
        u128::from(self.lo) + self.bytes.len() as u128
    }

    /// Whether it stays clear of the end of the addresses by a gigabyte.
    pub fn is_placed(&self) -> bool
        ensures { IsTrue result → IsRegion (region_of self.now) }
    {
        let bytes = self.bytes.as_slice();
        u128::from(self.lo) + (bytes.len() as u128) < END_OF_STACKS
    }

    /// The byte at an address, where the region has one.
    pub fn byte_at(&self, address: u64) -> Option<u8>
        ensures { result ≡ byte_at (region_of self.now) address }
    {
        if self.lo <= address {
            self.bytes.get((address - self.lo) as usize).copied()
        } else {
            None
        }
    }

    /// The word at an address: eight bytes, all of them in the region.
    pub fn word_at(&self, address: u64) -> Option<u64>
        ensures { result ≡ word_at (region_of self.now) address }
    {
        if self.lo <= address && u128::from(address) + 8 <= self.end() {
            let first = (address - self.lo) as usize;
            let word = &self.bytes[first..first + 8];
            Some(little_endian(word))
        } else {
            None
        }
    }

    /// The word that an instruction reads at an address: what the region holds there, or any word
    /// where not all of it is in the region.
    pub fn read(&self, address: u64, any: u64) -> u64
        ensures { Reads (region_of self.now) address result }
    {
        match self.word_at(address) {
            Some(held) => held,
            None => any,
        }
    }

    /// Whether an instruction that reads the word at an address may get this one.
    pub fn may_read(&self, address: u64, word: u64) -> bool
        ensures { IsTrue result → Reads (region_of self.now) address word }
    {
        match self.word_at(address) {
            Some(held) => word == held,
            None => true,
        }
    }

    /// Whether an instruction that reads the word at an address may get another than this.
    pub fn may_read_another(&self, address: u64, word: u64) -> bool
        ensures { IsTrue result → (other : ℕ) × Reads (region_of self.now) address other × (other ≢ word) }
    {
        match self.word_at(address) {
            Some(held) => held != word,
            None => true,
        }
    }

    /// Writes a byte, where the region has the address.
    pub fn write_byte(&mut self, address: u64, byte: u8)
        ensures addresses { SameAddresses (region_of self.old) (region_of self.new) }
        ensures others { (other : ℕ) → other ≢ address → byte_at (region_of self.new) other ≡ byte_at (region_of self.old) other }
        ensures there { IsSome (byte_at (region_of self.old) address) → byte_at (region_of self.new) address ≡ Some byte }
    {
        if self.lo <= address {
            let index = (address - self.lo) as usize;
            if index < self.bytes.len() {
                self.bytes[index] = byte;
            }
        }
    }

    /// Writes up to eight bytes, as far as the region has their addresses, which wrap.
    #[tactic(auto, using(crate::proofs::Writes::byte_more, crate::proofs::Writes::none_written))]
    fn write_bytes(&mut self, address: u64, bytes: &[u8])
        requires { length bytes.now ≤ 8 }
        ensures { WritesBytes address (length bytes.now) bytes.now (region_of self.old) (region_of self.new) }
    {
        for (i, byte) in bytes.iter().enumerate() {
            self.write_byte(up(address, i as u64), *byte);
        }
    }

    /// Writes a word, as far as the region has its bytes.
    #[tactic(auto, using(crate::proofs::Writes::word_written))]
    pub fn write_word(&mut self, address: u64, word: u64)
        ensures only { WritesOnly address 8 (region_of self.old) (region_of self.new) }
        ensures word { hi_of (region_of self.old) ≤ 2 ^ 64 → WritesWord address word (region_of self.old) (region_of self.new) }
    {
        self.write_bytes(address, &word.to_le_bytes());
    }

    /// Whether the word at an address is the same as in another region.
    fn has_same_word(&self, other: &Region, address: u64) -> bool
        ensures { IsTrue result → word_at (region_of self.now) address ≡ word_at (region_of other.now) address }
    {
        match (self.word_at(address), other.word_at(address)) {
            (Some(here), Some(there)) => here == there,
            (None, None) => true,
            _ => false,
        }
    }

    /// Whether each of the words at these addresses is the same as in another region.
    fn spares(&self, before: &Region, spared: &[u64]) -> bool
        ensures { IsTrue result → All (λ a. word_at (region_of self.now) a ≡ word_at (region_of before.now) a) spared.now }
    {
        for address in spared {
            if !self.has_same_word(before, *address) {
                return false;
            }
        }
        true
    }

    /// The region after these stores, where each of the words at these addresses is spared.
    pub fn stored(&self, stores: &[Store], spared: &[u64]) -> Result<Option<Region>, AllocError>
        ensures { IfOk result (λ stored. IfSome stored (λ after. Stores spared.now (region_of self.now) (region_of after))) }
    {
        let mut after = self.clone()?;
        for store in stores {
            after.write_byte(store.at, store.byte);
        }
        if after.spares(self, spared) {
            Ok(Some(after))
        } else {
            Ok(None)
        }
    }

    /// The region after this word was stored, where each of the words at these addresses is spared.
    pub fn with_word(
        &self,
        address: u64,
        word: u64,
        spared: &[u64],
    ) -> Result<Option<Region>, AllocError>
        ensures { IfOk result (λ stored. IfSome stored (λ after. StoresWord address word spared.now (region_of self.now) (region_of after))) }
    {
        let mut after = self.clone()?;
        after.write_word(address, word);
        if after.spares(self, spared) {
            Ok(Some(after))
        } else {
            Ok(None)
        }
    }
}
