//! Numbers in chains by key. A key is open until a number has it or it is closed.

ghost use Rattle.std.specs.Prelude.{◌≡◌, ◌+◌, ◌<◌, ◌^◌, ◌∷◌, ◌++◌, ℕ, [], None, Some, List, Option, OnOk, IfOk, IsTrue, length, replicate, slice_index_or};
ghost use Rattle.return_search.specs.Chained.{AreChains, IsLastBelow, IsOpen, OpensNone};

use ot_base::NoMemory;
use std::alloc::Global;

/// The head of an open key: no number has it, and it isn't closed.
const OPEN: u32 = u32::MAX;

/// The head of a closed key that no number has. All numbers are less.
const CLOSED: u32 = u32::MAX - 1;

/// Numbers from 0 on in chains, one for each key. A number gets its place as it is added.
#[derive(Drop)]
pub(crate) struct Chains {
    /// For each key, the last number that has it, or else `OPEN` or `CLOSED`.
    heads: Vec<u32>,
    /// For each number, the number before it that has its key, or one that isn't less where there is none.
    links: Vec<u32>,
}

impl Chains {
    /// No number has a key yet, and all keys are open.
    pub(crate) fn new(alloc: Global, keys: u32) -> Result<Chains, NoMemory>
        ensures none { IfOk result (λ chains. AreChains chains.heads.items chains.links.items []) }
        ensures heads { IfOk result (λ chains. length chains.heads.items ≡ keys) }
    {
        Ok(Chains {
            heads: vec![in alloc; OPEN; keys as usize]?,
            links: Vec::new(alloc),
        })
    }

    /// Adds the next number, with its key, which isn't open any more. 2^32 numbers, which would take 16 GiB, are too many.
    pub(crate) fn add(&mut self, key: u32) -> Result<(), NoMemory>
        requires { key < length self.old.heads.items }
        ensures added { OnOk result ((keys : List (Option ℕ)) → AreChains self.old.heads.items self.old.links.items keys → AreChains self.new.heads.items self.new.links.items (keys ++ Some key ∷ [])) }
        ensures opens { OpensNone self.old.heads.items self.new.heads.items }
        ensures heads { length self.new.heads.items ≡ length self.old.heads.items }
    {
        if self.links.len() >= CLOSED as usize {
            return Err(NoMemory);
        }
        let n = self.links.len() as u32;
        self.links.push(self.heads[key as usize])?;
        self.heads[key as usize] = n;
        Ok(())
    }

    /// Closes a key.
    pub(crate) fn close(&mut self, key: u32)
        requires { key < length self.old.heads.items }
        ensures chains { (keys : List (Option ℕ)) → AreChains self.old.heads.items self.old.links.items keys → AreChains self.new.heads.items self.new.links.items keys }
        ensures opens { OpensNone self.old.heads.items self.new.heads.items }
        ensures closed { IsOpen self.new.heads.items key → ⊥ }
        ensures heads { length self.new.heads.items ≡ length self.old.heads.items }
    {
        if self.heads[key as usize] == OPEN {
            self.heads[key as usize] = CLOSED;
        }
    }

    /// The heads of the keys.
    pub(crate) fn heads(&self) -> &[u32]
        ensures { result.now ≡ self.now.heads.items }
    {
        &self.heads
    }

    /// The last number that has a key.
    pub(crate) fn last(&self, key: u32) -> Option<u32>
        requires { key < length self.now.heads.items }
        ensures { (keys : List (Option ℕ)) → AreChains self.now.heads.items self.now.links.items keys → IsLastBelow keys key (length keys) result }
    {
        let head = self.heads[key as usize];
        if head < CLOSED { Some(head) } else { None }
    }

    /// The number before one that has its key.
    pub(crate) fn before(&self, n: u32) -> Option<u32>
        requires { n < length self.now.links.items }
        ensures { (keys : List (Option ℕ)) (key : ℕ) → AreChains self.now.heads.items self.now.links.items keys → slice_index_or keys n None ≡ Some key → IsLastBelow keys key n result }
    {
        let link = self.links[n as usize];
        if link < n { Some(link) } else { None }
    }
}

/// Whether a key is open, by the heads of the keys.
pub(crate) fn is_open(heads: &[u32], key: usize) -> bool
    requires { key < length heads.now }
    ensures { IsTrue result → IsOpen heads.now key }
{
    heads[key] == OPEN
}
