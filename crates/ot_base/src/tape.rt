ghost use Rattle.std.specs.Prelude.{◌≡◌, ◌<◌, ◌^◌, Some, length, slice_get};
ghost use Rattle.ot_base.specs.CountedItems.{one_more};

use crate::row::Row;
use std::marker::Model;

/// A list of rows, each with an address, whose items are told by `read` alone, which counts. So the
/// number of its readings is the number of items that were looked at. It can't be copied.
#[derive(Drop)]
pub struct Tape {
    items: Vec<(u64, Row)>,
    reads: u64,
}

impl Model for Tape {
    ghost use Rattle.std.specs.Prelude.{◌<◌, ◌^◌, length};
    ghost use Rattle.ot_base.specs.CountedItems.{CountedItems};

    ghost Value = { CountedItems };

    ghost view = { λ t. record { items = t.items.items; reads = t.reads } };

    ghost invariant = { λ t. length t.items.items < 2 ^ 32 };
}

impl Tape {
    /// The tape of these items, none of them read so far.
    pub fn build(items: Vec<(u64, Row)>) -> Tape
        requires { length items.items < 2 ^ 32 }
        ensures { result ≡ record { items = items.items; reads = 0 } }
    {
        Tape { items, reads: 0 }
    }

    /// How many items there are.
    pub fn len(&self) -> u32
        ensures { result ≡ length self.now.items }
    {
        self.items.len() as u32
    }

    /// How many readings there were. The count stays at `u64::MAX` once it is there.
    pub fn reads(&self) -> u64
        ensures { result ≡ self.now.reads }
    {
        self.reads
    }

    /// Item `i`, counted from 0.
    pub fn read(&mut self, i: u32) -> (u64, Row)
        requires { i < length self.old.items }
        ensures item { slice_get self.old.items i ≡ Some result }
        ensures counted { self.new ≡ record self.old { reads = one_more self.old.reads } }
    {
        self.reads = self.reads.saturating_add(1);
        self.items[i as usize]
    }
}
