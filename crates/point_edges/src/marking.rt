//! All that is wrong with where a point goes.

ghost use Rattle.std.specs.Prelude.{◌≡◌, ◌<◌, ◌&&◌, length};
ghost use Rattle.flow_defs.specs.Arrival.{insn_of_object, is_at_end as is_at_an_end};
ghost use Rattle.flow_defs.specs.Code.{point_at, points_of_object};
ghost use Rattle.flow_defs.specs.Edges.{goes_on as goes_on_of};
ghost use Rattle.flow_defs.specs.Marks.{has_relocated_offset as has_relocated_offset_at, marks_of};
ghost use Rattle.flow_defs.specs.Roles.{returns_through};
ghost use Rattle.flow_defs.specs.Targets.{destination_of};
ghost use Rattle.point_edges.specs.Jumps.{direct_way};

use crate::Branch;
use crate::flow_points::FlowPoints;
use crate::into_functions::calls_into_function;
use crate::next_edges::goes_on;
use crate::target_edges::{has_bad_target, has_target_in_site};
use machine_defs::Marks;
use operation_defs::Insn;
use point_arrivals::has_relocated_offset;

/// Whether nothing follows a point.
fn is_at_end(points: &FlowPoints<'_, '_, '_>, n: u32) -> bool
    requires { n < length (points_of_object points.now) }
    ensures { result ≡ is_at_an_end points.now (point_at points.now n) }
{
    points.arrivals().is_at_end(n)
}

/// Whether execution goes on behind a point with this instruction, where it is told whether a call there can come back.
fn comes_behind(points: &FlowPoints<'_, '_, '_>, n: u32, insn: Insn, comes_back: bool) -> bool
    requires point { n < length (points_of_object points.now) }
    requires insn { insn ≡ insn_of_object points.now (point_at points.now n) }
    ensures { result ≡ (goes_on_of points.now (point_at points.now n) && comes_back) }
{
    goes_on(points, n, insn) && comes_back
}

/// Whether execution goes on behind a point with this instruction, and there its section ends.
fn runs_past_end(points: &FlowPoints<'_, '_, '_>, n: u32, insn: Insn, comes_back: bool) -> bool
    requires point { n < length (points_of_object points.now) }
    requires insn { insn ≡ insn_of_object points.now (point_at points.now n) }
    ensures { let point = point_at points.now n in result ≡ (is_at_an_end points.now point && (goes_on_of points.now point && comes_back)) }
{
    is_at_end(points, n) && comes_behind(points, n, insn, comes_back)
}

/// Whether a relocation changes the number of a point with this instruction, where it is one by a number of the stack.
fn is_relocated(points: &FlowPoints<'_, '_, '_>, n: u32, insn: Insn) -> bool
    requires point { n < length (points_of_object points.now) }
    requires insn { insn ≡ insn_of_object points.now (point_at points.now n) }
    ensures { let point = point_at points.now n in result ≡ has_relocated_offset_at points.now point (insn_of_object points.now point) }
{
    has_relocated_offset(points.places(), n, insn)
}

/// What is wrong with where a point with this instruction goes, whose direct call or branch goes there, where it is told
/// whether a call there can come back, and with the number by which it moves the stack.
pub fn marks(
    points: &FlowPoints<'_, '_, '_>,
    n: u32,
    insn: Insn,
    branch: Branch,
    comes_back: bool,
) -> Marks
    requires point { n < length (points_of_object points.now) }
    requires insn { insn ≡ insn_of_object points.now (point_at points.now n) }
    requires to { branch.to ≡ destination_of points.now (point_at points.now n) }
    requires way { branch.way ≡ direct_way points.now (point_at points.now n) insn.op }
    requires through { branch.through ≡ returns_through points.now (point_at points.now n) }
    ensures { result ≡ marks_of points.now (point_at points.now n) comes_back }
{
    Marks {
        bad: has_bad_target(points, n, insn, branch),
        past_end: runs_past_end(points, n, insn, comes_back),
        into_site: has_target_in_site(points, n, insn, branch),
        into_function: calls_into_function(points, n, insn, branch),
        relocated: is_relocated(points, n, insn),
    }
}
