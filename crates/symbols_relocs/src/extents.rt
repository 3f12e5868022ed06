//! Bytes from places on.

ghost use Rattle.std.specs.Prelude.{◌≡◌, ◌+◌, ◌-◌, ◌<◌, ◌≤◌, ◌&&◌, not, ℕ, false, true, length, slice_index_or, slice_set, IsTrue, MatchOption};
ghost use Rattle.std.specs.List.Sorted.{IsPermutation};
ghost use Rattle.ot_base.specs.Places.{is_before as is_lower};
ghost use Rattle.symbols_relocs.specs.Extents.{AreByStart, HaveSameBytes, Reach, end_of, has_byte as has_byte_at, have_byte, have_start, starts_upto};

use ot_base::{Place, is_before};
use std::marker::Model;

/// So many bytes from a place on.
#[derive(Clone, Copy)]
pub struct Extent {
    /// The place of the first of them.
    pub start: Place,
    /// How many there are.
    pub size: u64,
}

/// Extents in an order in which halving tells whether one of them has a place. Contracts see them as this list.
#[derive(Drop)]
pub struct Extents {
    extents: Vec<Extent>,
}

impl Model for Extents {
    ghost use Rattle.std.specs.Prelude.{List, length};
    ghost use Rattle.symbols_relocs.specs.declared.extents.Extent.{Extent};
    ghost use Rattle.symbols_relocs.specs.Extents.{AreByStart, Reach};

    ghost Value = { List Extent };

    ghost view = { λ e. e.extents.items };

    ghost invariant = { λ e. AreByStart e.extents.items × Reach e.extents.items (length e.extents.items) };
}

impl Extents {
    /// Extents with the bytes of these, which start where these do.
    pub fn build(mut extents: Vec<Extent>) -> Extents
        ensures { HaveSameBytes extents.items result }
    {
        sort_by_start(&mut extents);
        for k in 1..extents.len() {
            extend(&mut extents, k);
        }
        Extents { extents }
    }

    /// Whether there is none.
    pub fn is_empty(&self) -> bool
        ensures { IsTrue result → (length self.now ≡ 0) }
    {
        self.extents.is_empty()
    }

    /// The last one that starts at a place or before it in its section.
    fn last_upto(&self, place: Place) -> Option<Extent>
        ensures { MatchOption result (have_start self.now place ≡ false) (λ e. (have_start self.now place ≡ true) × (starts_upto place e ≡ true) × (have_byte self.now place ≡ has_byte_at place e)) }
    {
        let count = count_to(&self.extents, place);
        if count == 0 {
            return None;
        }
        let last = self.extents[count - 1];
        if last.start.sec == place.sec {
            Some(last)
        } else {
            None
        }
    }

    /// Whether a place is one of their bytes.
    pub fn contains(&self, place: Place) -> bool
        ensures { result ≡ have_byte self.now place }
    {
        match self.last_upto(place) {
            Some(extent) => has_byte(extent, place),
            None => false,
        }
    }

    /// Whether one starts at a place or before it in its section, and the place is none of their bytes.
    pub fn leaves_out(&self, place: Place) -> bool
        ensures { result ≡ (have_start self.now place && not (have_byte self.now place)) }
    {
        match self.last_upto(place) {
            Some(extent) => !has_byte(extent, place),
            None => false,
        }
    }
}

/// Whether a place is one of the bytes of an extent that starts there or before it.
fn has_byte(extent: Extent, place: Place) -> bool
    requires { starts_upto place extent ≡ true }
    ensures { result ≡ has_byte_at place extent }
{
    place.off - extent.start.off < extent.size
}

/// Puts extents in the order of their starts.
fn sort_by_start(extents: &mut Vec<Extent>)
    ensures sorted { AreByStart extents.new.items }
    ensures same { IsPermutation extents.old.items extents.new.items }
{
    extents.sort_unstable_by_key(|extent| extent.start);
}

/// An extent with as many bytes more as it takes to end where another does, which doesn't start behind it.
fn with_reach(extent: Extent, other: Extent) -> Extent
    requires { is_lower extent.start other.start ≡ false }
    ensures start { result.start ≡ extent.start }
    ensures own { end_of extent ≤ end_of result }
    ensures reaches { extent.start.sec ≡ other.start.sec → end_of other ≤ end_of result }
    ensures bytes { (place : Place) → has_byte_at place result ≡ true → has_byte_at place extent ≡ false → has_byte_at place other ≡ true }
{
    if extent.start.sec != other.start.sec {
        return extent;
    }
    let distance = extent.start.off - other.start.off;
    Extent {
        start: extent.start,
        size: extent.size.max(other.size.saturating_sub(distance)),
    }
}

/// Extends the one with an index to where the one in front of it ends, where both are of one section.
fn extend(extents: &mut Vec<Extent>, k: usize)
    requires first { 1 ≤ k }
    requires inside { k < length extents.old.items }
    requires sorted { AreByStart extents.old.items }
    requires reach { Reach extents.old.items k }
    ensures long { length extents.new.items ≡ length extents.old.items }
    ensures sorted { AreByStart extents.new.items }
    ensures reach { Reach extents.new.items (k + 1) }
    ensures same { HaveSameBytes extents.old.items extents.new.items }
{
    extents[k] = with_reach(extents[k], extents[k - 1]);
}

/// How many of these start at a place or before it.
fn count_to(extents: &[Extent], place: Place) -> usize
    requires { AreByStart extents.now }
    ensures within { result ≤ length extents.now }
    ensures upto { (k : ℕ) (d : Extent) → k < result → is_lower place (slice_index_or extents.now k d).start ≡ false }
    ensures behind { (k : ℕ) (d : Extent) → result ≤ k → k < length extents.now → is_lower place (slice_index_or extents.now k d).start ≡ true }
{
    extents.partition_point(|extent| !is_before(place, extent.start))
}
