//! The points of an object's code.

ghost use Rattle.std.specs.Prelude.{◌≡◌, ◌<◌, ◌≤◌, ℕ, true, false, length, slice_index_or};
ghost use Rattle.std.specs.List.Sorted.{IsStrictlySortedBy};
ghost use Rattle.ot_base.specs.Places.{is_before as is_lower};
ghost use Rattle.alternatives.specs.declared.point.Point.{Point};
ghost use Rattle.alternatives.specs.Points.{point_cmp};

use crate::stored::StoredPoint;
use ot_base::{Place, is_before};

/// A place where control may stand: an instruction of the code, or one of a replacement that may be
/// patched over a site.
///
/// Points are ordered by place, and at one place by variant.
#[derive(Clone, Copy, PartialEq, Eq, PartialOrd, Ord)]
pub struct Point {
    /// Where its bytes stand; of the padding behind a replacement, where that replacement ends.
    pub place: Place,
    /// 0 in the code as it is assembled; k + 1 in the replacement of the alternatives entry k.
    pub variant: u32,
}

/// How many of these stand before a place.
pub(crate) fn count_before(points: &[StoredPoint], place: Place) -> usize
    requires { IsStrictlySortedBy point_cmp points.now }
    ensures within { result ≤ length points.now }
    ensures before { (k : ℕ) (d : Point) → k < result → is_lower (slice_index_or points.now k d).place place ≡ true }
    ensures others { (k : ℕ) (d : Point) → result ≤ k → k < length points.now → is_lower (slice_index_or points.now k d).place place ≡ false }
{
    points.partition_point(|point| is_before(point.place(), place))
}

/// How many of these stand at a place or before it.
pub(crate) fn count_to(points: &[StoredPoint], place: Place) -> usize
    requires { IsStrictlySortedBy point_cmp points.now }
    ensures within { result ≤ length points.now }
    ensures upto { (k : ℕ) (d : Point) → k < result → is_lower place (slice_index_or points.now k d).place ≡ false }
    ensures behind { (k : ℕ) (d : Point) → result ≤ k → k < length points.now → is_lower place (slice_index_or points.now k d).place ≡ true }
{
    points.partition_point(|point| !is_before(place, point.place()))
}
