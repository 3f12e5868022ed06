//! The points that have given in a batch.

ghost use Rattle.std.specs.Prelude.{◌≡◌, ◌<◌, ◌≤◌, ◌↔◌, ℕ, List, Contains, IsTrue, length, slice_index};
ghost use Rattle.kept_states.specs.Done.{done_of};

/// The places where the points of level 0 begin and end that are in a batch.
#[derive(Clone, Copy)]
pub(crate) struct Batch {
    pub(crate) from: usize,
    pub(crate) to: usize,
}

/// That of no points.
pub(crate) const NO_BATCH: Batch = Batch { from: 0, to: 0 };

impl Batch {
    /// Whether the point at a place has given, where so many are settled or of level 0, and those in front begin at such a
    /// place: one of level 0, as long as that is in front, or one behind the settled points.
    pub(crate) fn has_given(self, settled: usize, front: usize, place: usize) -> bool
        ensures { IsTrue result → (reached : List ℕ) → self.to ≤ length reached → front ≤ length reached → Contains (done_of settled front self reached) (slice_index reached place) }
    {
        if front < settled {
            return false;
        }
        if is_between(self.from, self.to, place) {
            return true;
        }
        is_between(settled, front, place)
    }
}

/// Whether a place is between two others.
fn is_between(from: usize, to: usize, place: usize) -> bool
    ensures { IsTrue result ↔ (from ≤ place × place < to) }
{
    from <= place && place < to
}
