//! What holds of all merged rows.

ghost use Rattle.orc_merge.specs.Alike.{MergedTellAlike};
ghost use Rattle.orc_merge.specs.Merged.{MergeIsDetermined};
ghost use Rattle.orc_merge.specs.MergedWalk.{MergedWalkAlike, MergedWalkBegins};

/// At most one list is the merged rows of some objects.
pub fn merged_rows_are_determined()
    ensures { MergeIsDetermined }
{}

/// At each address inside one of an object's ranges, the merged rows and the object's own rows tell the same of the stack.
pub fn merged_rows_find_alike()
    ensures { MergedTellAlike }
{}

/// A walk over merged rows gives the frames of the walk over an object's own rows, where that stays in the object's ranges; and where
/// it leaves them, these frames and then maybe more.
pub fn merged_rows_walk_alike()
    ensures within { MergedWalkAlike }
    ensures front { MergedWalkBegins }
{}
