//! What direct and indirect jumps are.

ghost use Rattle.std.specs.Prelude.{◌≡◌, ◌<◌, length};
ghost use Rattle.flow_defs.specs.Code.{point_at, points_of_object};
ghost use Rattle.flow_defs.specs.Roles.{jump_by_table, jump_by_way as jump_by_way_of, jump_role as jump_role_of, table_of_point};
ghost use Rattle.point_edges.specs.Jumps.{destination_way};

use crate::Branch;
use crate::flow_points::FlowPoints;
use flow_defs::{Destination, Way};
use machine_defs::Role;

/// A jump by the way that it takes to a place, by a weak symbol or not.
fn jump_by_way(way: Way, weak: Option<u32>) -> Role
    ensures { result ≡ jump_by_way_of way weak }
{
    match (way, weak) {
        (Way::Outside(sym), _) => Role::JumpOut { sym },
        (Way::Along(_), Some(sym)) => Role::JumpOut { sym },
        _ => Role::Plain,
    }
}

/// What the direct jump at a point is that goes there.
pub(crate) fn jump_role(points: &FlowPoints<'_, '_, '_>, n: u32, branch: Branch) -> Role
    requires point { n < length (points_of_object points.now) }
    requires way { branch.way ≡ destination_way points.now (point_at points.now n) branch.to }
    ensures { result ≡ jump_role_of points.now (point_at points.now n) branch.to }
{
    match branch.to {
        Destination::ToPlace { weak, .. } => jump_by_way(branch.way, weak),
        Destination::ToOwnPoint(_) | Destination::ToNowhere => Role::Plain,
        Destination::ToOutside(sym) => Role::JumpOut { sym },
        Destination::ToIndirectThunk => indirect_role(points, n),
        Destination::ToReturnThunk => Role::Return,
    }
}

/// What the indirect jump at a point is, which may go by a thunk.
pub(crate) fn indirect_role(points: &FlowPoints<'_, '_, '_>, n: u32) -> Role
    requires { n < length (points_of_object points.now) }
    ensures { result ≡ jump_by_table (table_of_point points.now (point_at points.now n)) }
{
    if points.table(n).is_empty() {
        Role::JumpAny
    } else {
        Role::Plain
    }
}
