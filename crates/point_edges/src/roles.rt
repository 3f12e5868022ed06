//! What a point is to its function.

ghost use Rattle.std.specs.Prelude.{◌≡◌, ℕ, ◌<◌, length};
ghost use Rattle.flow_defs.specs.Arrival.{insn_of_object};
ghost use Rattle.flow_defs.specs.Code.{point_at, points_of_object};
ghost use Rattle.flow_defs.specs.Roles.{returns_through, role_by as role_by_op, role_of};
ghost use Rattle.flow_defs.specs.Targets.{destination_of};
ghost use Rattle.point_edges.specs.Jumps.{direct_way};

use crate::Branch;
use crate::call_roles::call_role;
use crate::flow_points::FlowPoints;
use crate::jump_roles::{indirect_role, jump_role};
use machine_defs::Role;
use operation_defs::{Insn, Op};

/// What a point with this operation is to its function, where its direct call or branch goes there.
fn role_by(points: &FlowPoints<'_, '_, '_>, n: u32, op: Op, branch: Branch) -> Role
    requires point { n < length (points_of_object points.now) }
    requires to { branch.to ≡ destination_of points.now (point_at points.now n) }
    requires way { branch.way ≡ direct_way points.now (point_at points.now n) op }
    ensures { result ≡ role_by_op points.now (point_at points.now n) op }
{
    match op {
        Op::Call { .. } => call_role(points.places(), n, branch),
        Op::CallInd => Role::CallAny,
        Op::Jmp { .. } | Op::Jcc { .. } => jump_role(points, n, branch),
        Op::JmpInd { .. } => indirect_role(points, n),
        Op::Ret | Op::RetImm => Role::Return,
        Op::Iret | Op::Switch => Role::Switch,
        _ => Role::Plain,
    }
}

/// What a point with this instruction, whose direct call or branch goes there, is to its function: whether it calls,
/// leaves, or neither.
pub fn role(points: &FlowPoints<'_, '_, '_>, n: u32, insn: Insn, branch: Branch) -> Role
    requires point { n < length (points_of_object points.now) }
    requires insn { insn ≡ insn_of_object points.now (point_at points.now n) }
    requires to { branch.to ≡ destination_of points.now (point_at points.now n) }
    requires way { branch.way ≡ direct_way points.now (point_at points.now n) insn.op }
    requires through { branch.through ≡ returns_through points.now (point_at points.now n) }
    ensures value { result ≡ role_of points.now (point_at points.now n) }

    // The entries that calls go to are points.
    ensures known { (entry : ℕ) → result ≡ Role.CallIn entry → entry < length (points_of_object points.now) }
    ensures known_by_weak { (entry sym : ℕ) → result ≡ Role.CallEither entry sym → entry < length (points_of_object points.now) }
{
    if let Some(sym) = branch.through {
        return Role::JumpOut { sym };
    }
    role_by(points, n, insn.op, branch)
}
