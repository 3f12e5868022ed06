//! The owners of points.

ghost use Rattle.std.specs.Prelude.{◌≡◌};
ghost use Rattle.flow_defs.specs.Tables.{same_owner};

/// Whether two owners are one, or neither is there.
pub(crate) fn is_same_owner(owner: Option<u32>, other: Option<u32>) -> bool
    ensures { result ≡ same_owner owner other }
{
    match (owner, other) {
        (Some(sym), Some(second)) => sym == second,
        (None, None) => true,
        _ => false,
    }
}
