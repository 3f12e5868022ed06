//! What holds of the points of every object.

ghost use Rattle.alternatives.specs.Laws.{PointsAreListed};

/// The points of an object are the one list that ascends and has exactly the points.
pub fn points_are_listed()
    ensures { PointsAreListed }
{}
