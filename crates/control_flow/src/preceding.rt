//! The point right before a point.

ghost use Rattle.std.specs.Prelude.{◌≡◌, ◌+◌, ◌<◌, ◌≤◌, ◌↔◌, ℕ, IfSome, IsTrue, length, slice_index_or};
ghost use Rattle.alternatives.specs.Texts.{AscendBySection};
ghost use Rattle.alternatives.specs.declared.texts.SectionText.{SectionText};
ghost use Rattle.flow_defs.specs.Code.{point_at, points_of_object, texts_of};
ghost use Rattle.flow_defs.specs.Program.{previous_of};
ghost use Rattle.control_flow.specs.Gapless.{EndsThere, IsGapless, IsLastBefore};

use alternatives::{Point, SectionText};
use object_points::PointPlaces;
use ot_base::Place;
use x86_text::Text;

/// The law that a text has no gaps between its instructions.
fn text_is_gapless(text: &Text<'_>)
    ensures { IsGapless text.now }
{
    text.count();
}

/// How many of these are of sections below one.
fn count_below(texts: &[SectionText<'_>], sec: u32) -> usize
    requires { AscendBySection texts.now }
    ensures within { result ≤ length texts.now }
    ensures below { (k : ℕ) (d : SectionText) → k < result → (slice_index_or texts.now k d).sec < sec }
    ensures above { (k : ℕ) (d : SectionText) → result ≤ k → k < length texts.now → sec ≤ (slice_index_or texts.now k d).sec }
{
    texts.partition_point(|text| text.sec < sec)
}

/// Whether a plain point whose instruction has so many bytes ends at a place.
pub(crate) fn ends_at(point: Point, len: u8, place: Place) -> bool
    ensures { IsTrue result ↔ ((point.variant ≡ 0) × (point.place.sec ≡ place.sec) × (point.place.off + len ≡ place.off)) }
{
    if point.variant != 0 || point.place.sec != place.sec || point.place.off > place.off {
        return false;
    }
    place.off - point.place.off == u64::from(len)
}

/// Where the point before another in their order begins, where it is plain and ends where that one begins.
fn neighbour(places: &PointPlaces<'_, '_, '_>, n: u32) -> Option<u64>
    requires { n < length (points_of_object places.now) }
    ensures { IfSome result (EndsThere (texts_of places.now) (point_at places.now n).place) }
{
    if n == 0 {
        return None;
    }
    let place = places.point(n).place;
    let point = places.point(n - 1);
    let insn = places.decoded_insn(n - 1);
    if ends_at(point, insn.len, place) {
        Some(point.place.off)
    } else {
        None
    }
}

/// The offset of the last instruction of its section that begins before a place: that of one that ends there, where it is
/// known.
fn last_before(texts: &[SectionText<'_>], place: Place, near: Option<u64>) -> Option<u64>
    requires ascending { AscendBySection texts.now }
    requires near { IfSome near (EndsThere texts.now place) }
    ensures { IsLastBefore texts.now place result }
{
    let at = count_below(texts, place.sec);
    if at >= texts.len() {
        return None;
    }
    let text = &texts[at];
    if text.sec != place.sec {
        return None;
    }
    text_is_gapless(&text.text);
    match near {
        Some(off) => Some(off),
        None => text.text.prev(place.off),
    }
}

/// The plain point right before a plain point: the instruction of its section that ends where it begins. There is none
/// before the first instruction of a section, and none is told of a point of a replacement.
pub fn previous(places: &PointPlaces<'_, '_, '_>, n: u32) -> Option<u32>
    requires { n < length (points_of_object places.now) }
    ensures { result ≡ previous_of places.now (point_at places.now n) }
{
    let point = places.point(n);
    if point.variant != 0 {
        return None;
    }
    let near = neighbour(places, n);
    let off = last_before(places.linked().texts(), point.place, near)?;
    let place = Place { off, ..point.place };
    places.number_by_guess(Point { place, variant: 0 }, n.saturating_sub(1))
}
