//! Where control may go from the points, beside their edges.

ghost use Rattle.std.specs.Prelude.{◌≡◌, ◌<◌, ◌^◌, ℕ, IfOk, false, length, true};
ghost use Rattle.flow_defs.specs.Coded.{Coded};
ghost use Rattle.flow_defs.specs.Arrival.{insn_of_object};
ghost use Rattle.flow_defs.specs.Code.{point_at};
ghost use Rattle.flow_defs.specs.Roles.{returns_through, role_of};
ghost use Rattle.flow_defs.specs.Targets.{destination_of};
ghost use Rattle.return_search.specs.Shape.{HaveShape};
ghost use Rattle.point_edges.specs.Jumps.{direct_way};
ghost use Rattle.control_flow.specs.Listed.{CallsPoint, count_of};
ghost use Rattle.control_flow.specs.Lone.{GoAlike};
ghost use Rattle.control_flow.specs.Numbers.{AreNumbered, HaveNumbers, IsNumbered};
ghost use Rattle.control_flow.specs.Transfers.{IsTransfer, IsTransferIfBack, IsTransferOf};

use crate::numbers::number_of;
use machine_defs::{Marks, Role};
use object_points::calls_fentry;
use operation_defs::Insn;
use ot_base::NoMemory;
use point_edges::{Branch, FlowPoints, marks, names};
use program_graph::Transfer;
use return_search::Returns;

/// That of most points: they neither call nor leave their function, nothing is wrong with where they go, and no symbol names that.
pub(crate) const USUAL: Transfer = Transfer {
    role: Role::Plain,
    marks: Marks {
        bad: false,
        past_end: false,
        into_site: false,
        into_function: false,
        relocated: false,
    },
    calls_fentry: false,
    names_symbol: false,
};

/// That of a point with this instruction and this role, whose direct call or branch goes there, where a call there can come
/// back.
pub(crate) fn transfer_of(
    points: &FlowPoints<'_, '_, '_>,
    n: u32,
    insn: Insn,
    branch: Branch,
    role: Role,
) -> Transfer
    requires point { n < count_of points.now }
    requires insn { insn ≡ insn_of_object points.now (point_at points.now n) }
    requires to { branch.to ≡ destination_of points.now (point_at points.now n) }
    requires way { branch.way ≡ direct_way points.now (point_at points.now n) insn.op }
    requires through { branch.through ≡ returns_through points.now (point_at points.now n) }
    requires role { role ≡ role_of points.now (point_at points.now n) }
    requires known { CallsPoint points.now role }
    ensures { IsTransfer points.now n true result }
{
    Transfer {
        role,
        marks: marks(points, n, insn, branch, true),
        calls_fentry: calls_fentry(points.places(), role),
        names_symbol: names(points.places(), n).is_some(),
    }
}

/// That of a point that goes like another with this transfer: but for the symbol that names where it goes, the same.
pub(crate) fn alike_transfer(
    points: &FlowPoints<'_, '_, '_>,
    n: u32,
    transfer: Transfer,
) -> Transfer
    requires { n < count_of points.now }
    ensures { (r : ℕ) → GoAlike points.now (point_at points.now n) (point_at points.now r) → IsTransfer points.now r true transfer → IsTransfer points.now n true result }
{
    Transfer {
        names_symbol: names(points.places(), n).is_some(),
        ..transfer
    }
}

/// The number of a transfer, which goes behind the others unless it is that of most points or the last.
pub(crate) fn number_transfer(
    transfers: &mut Vec<Transfer>,
    transfer: Transfer,
) -> Result<u32, NoMemory>
    requires some { 0 < length transfers.old.items }
    requires few { length transfers.old.items < 2 ^ 32 }
    ensures { IfOk result (IsNumbered transfers.old.items transfers.new.items transfer) }
{
    let is_first = transfers[0] == transfer;
    let is_last = !is_first && transfers[transfers.len() - 1] == transfer;
    number_of(transfers, transfer, is_first, is_last)
}

/// Transfers, and for each point where its own stands.
#[derive(Drop)]
pub(crate) struct TransferList {
    pub(crate) transfers: Vec<Transfer>,
    pub(crate) numbers: Vec<u32>,
}

/// A transfer that is told where a call there can come back, where it can't.
fn without_back(transfer: Transfer) -> Transfer
    ensures { (o : Coded) (q : ℕ) → IsTransfer o q true transfer → IsTransfer o q false result }
{
    Transfer {
        marks: Marks {
            past_end: false,
            ..transfer.marks
        },
        ..transfer
    }
}

/// The transfers of all points, by those where every call can come back. 2^32 of them, which would take 80 GiB, are too many.
pub(crate) fn settle_transfers(
    points: &FlowPoints<'_, '_, '_>,
    list: TransferList,
    returns: &Returns,
) -> Result<TransferList, NoMemory>
    requires list { AreNumbered (IsTransferIfBack points.now) list.transfers.items list.numbers.items (count_of points.now) }
    requires returns { HaveShape (count_of points.now) returns.now }
    ensures { IfOk result (λ list. HaveNumbers (IsTransferOf points.now returns.now) list.transfers.items list.numbers.items (count_of points.now)) }
{
    let TransferList {
        mut transfers,
        mut numbers,
    } = list;
    for k in 0..numbers.len() {
        if returns.comes_back[k] {
            continue;
        }
        if transfers.len() > u32::MAX as usize {
            return Err(NoMemory);
        }
        let transfer = transfers[numbers[k] as usize];
        numbers[k] = transfers.len() as u32;
        transfers.push(without_back(transfer))?;
    }
    Ok(TransferList { transfers, numbers })
}
