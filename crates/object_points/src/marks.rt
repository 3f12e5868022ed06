//! Marks at the offsets of places. Nearly all places that aren't in a list are told by them, without a search.

ghost use Rattle.std.specs.Prelude.{◌≡◌, ◌<◌, length, IfOk};
ghost use Rattle.object_points.specs.Marks.{is_marked as is_marked_by, mark_of as mark_of_place, tag_of as tag_of_place, with_tag as with_one_tag, AreMarked};

use ot_base::{NoMemory, Place};
use std::alloc::Global;

/// How many marks there are for each place, and at most.
const MARKS: usize = 16;

const MOST_MARKS: usize = 262144;

/// How many marks there are for so many places: a power of two, so that the number of a mark is told by the last bits of
/// an offset.
fn count_marks(places: usize) -> usize
    ensures { 0 < result }
{
    let wanted = places.saturating_mul(MARKS);
    wanted.min(MOST_MARKS).max(1).next_power_of_two()
}

/// The number of the mark of a place, of so many.
#[inline(always)]
fn mark_of(place: Place, count: usize) -> usize
    requires { 0 < count }
    ensures value { result ≡ mark_of_place count place }
    ensures known { result < count }
{
    place.off as usize & (count - 1)
}

/// The mark of no place.
const UNSET: u8 = 0;

/// The mark of places with different tags.
const SEVERAL: u8 = 255;

/// The tag of a place, by which places with one mark are told apart: its section and higher bits of its offset.
#[inline(always)]
fn tag_of(place: Place) -> u8
    ensures { result ≡ tag_of_place place }
{
    ((u64::from(place.sec) + place.off / 4096) % 128 + 1) as u8
}

/// A mark with the tag of one more place.
fn with_tag(mark: u8, tag: u8) -> u8
    ensures { result ≡ with_one_tag mark tag }
{
    if mark == UNSET || mark == tag {
        tag
    } else {
        SEVERAL
    }
}

/// So many marks of which none is set.
fn unset_marks(alloc: Global, count: usize) -> Result<Vec<u8>, NoMemory>
    ensures { IfOk result (λ marks. length marks.items ≡ count) }
{
    Ok(vec![in alloc; UNSET; count]?)
}

/// Marks of which those of places are set.
pub(crate) fn mark_places(alloc: Global, places: &[Place]) -> Result<Vec<u8>, NoMemory>
    ensures some { IfOk result (λ marks. 0 < length marks.items) }
    ensures set { IfOk result (λ marks. AreMarked (length marks.items) places.now marks.items) }
{
    let count = count_marks(places.len());
    let mut marks = unset_marks(alloc, count)?;
    for place in places {
        let number = mark_of(*place, count);
        marks[number] = with_tag(marks[number], tag_of(*place));
    }
    Ok(marks)
}

/// Whether the mark of a place is set, and may be so for it.
#[inline(always)]
pub(crate) fn is_marked(marks: &[u8], place: Place) -> bool
    requires { 0 < length marks.now }
    ensures { result ≡ is_marked_by (length marks.now) marks.now place }
{
    let mark = marks[mark_of(place, marks.len())];
    mark != UNSET && (mark == SEVERAL || mark == tag_of(place))
}
