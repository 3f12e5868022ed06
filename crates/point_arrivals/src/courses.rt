//! The courses of points.

ghost use Rattle.std.specs.Prelude.{◌≡◌, Some, IsSome};
ghost use Rattle.point_arrivals.specs.Courses.{course_at};

use crate::course::InsnCourse;

/// The courses of the decoded instructions of points, by numbers.
#[derive(Clone, Copy)]
pub(crate) struct Courses<'a> {
    /// Those of the instructions that differ.
    pub(crate) kinds: &'a [InsnCourse],
    /// For each point, where among these its own stands.
    pub(crate) numbers: &'a [u32],
}

impl Courses<'_> {
    /// The course of the decoded instruction of a point.
    #[inline(always)]
    pub(crate) fn at(self, n: u32) -> InsnCourse
        requires { IsSome (course_at self.kinds.now self.numbers.now n) }
        ensures { course_at self.entry.kinds.now self.entry.numbers.now n ≡ Some result }
    {
        self.kinds[self.numbers[n as usize] as usize]
    }
}
