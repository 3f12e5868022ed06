//! The walk over the rows of a table.

ghost use Rattle.std.specs.Prelude.{◌<◌, IfOk};

use crate::{Region, address_of, is_inside};
use ot_base::{PlacedRow, Row};
use std::alloc::{AllocError, Global};
use table_defs::codes::{
    IRET_SP, KIND_CALL, KIND_END_OF_STACK, KIND_REGS, KIND_UNDEFINED, PT_REGS_BP, PT_REGS_IP,
    PT_REGS_SP, REG_BP, REG_PREV_SP, REG_SP, REG_UNDEFINED,
};
use table_defs::{Frame, Range, Regs, Stop};

/// Whether a row that begins at `one` comes before a row that begins at `other`: by its address, or at
/// one address by being of the undefined kind where the other isn't.
fn comes_before(one: (u64, Row), other: (u64, Row)) -> bool {
    one.0 < other.0
        || (one.0 == other.0 && one.1.kind == KIND_UNDEFINED && other.1.kind != KIND_UNDEFINED)
}

/// The row that holds at an address: the last of those that begin at or below it.
fn find_row(rows: &[PlacedRow], placement: &[Range], address: u64) -> Option<Row> {
    let mut last: Option<(u64, Row)> = None;
    for placed in rows {
        if let Some(from) = address_of(placement, placed.place) {
            let found = (from, placed.row);
            if from <= address && last.is_none_or(|best| !comes_before(found, best)) {
                last = Some(found);
            }
        }
    }
    Some(last?.1)
}

/// The word at an address.
fn read(region: &Region, address: u64) -> Result<u64, Stop> {
    region
        .word_at(address)
        .ok_or(Stop::Unreadable { addr: address })
}

/// Where the caller's ip lies.
fn ra_address(row: Row, at: u64) -> u64 {
    match row.kind {
        KIND_CALL => at.wrapping_sub(8),
        KIND_REGS => at.wrapping_add(u64::from(PT_REGS_IP)),
        _ => at,
    }
}

/// The caller's stack pointer.
fn caller_sp(region: &Region, row: Row, at: u64) -> Result<u64, Stop> {
    match row.kind {
        KIND_CALL => Ok(at),
        KIND_REGS => read(region, at.wrapping_add(u64::from(PT_REGS_SP))),
        _ => read(region, at.wrapping_add(u64::from(IRET_SP))),
    }
}

/// The caller's rbp.
fn caller_bp(region: &Region, regs: Regs, row: Row, at: u64, cfa: u64) -> Result<u64, Stop> {
    let offset = i64::from(row.bp_offset);
    match row.bp_reg {
        REG_PREV_SP => read(region, cfa.wrapping_add_signed(offset)),
        REG_BP => read(region, regs.bp.wrapping_add_signed(offset)),
        _ if row.kind == KIND_REGS => read(region, at.wrapping_add(u64::from(PT_REGS_BP))),
        _ => Ok(regs.bp),
    }
}

/// The frame that a row with known registers gives.
fn frame_of(region: &Region, regs: Regs, row: Row) -> Result<Frame, Stop>
    ensures { IfOk result (λ frame. regs.sp < frame.cfa) }
{
    let base = if row.sp_reg == REG_SP {
        regs.sp
    } else {
        regs.bp
    };
    let at = base.wrapping_add_signed(i64::from(row.sp_offset));
    let ra = read(region, ra_address(row, at))?;
    let cfa = caller_sp(region, row, at)?;
    let bp = caller_bp(region, regs, row, at, cfa)?;
    if regs.sp < cfa {
        Ok(Frame { ra, cfa, bp })
    } else {
        Err(Stop::NotRising {
            old: regs.sp,
            new: cfa,
        })
    }
}

/// The frame that a row gives at these registers, or why the walk stops at it.
fn unwound(region: &Region, regs: Regs, row: Row) -> Result<Frame, Stop>
    ensures { IfOk result (λ frame. regs.sp < frame.cfa) }
{
    match row.kind {
        KIND_UNDEFINED => return Err(Stop::Undefined),
        KIND_END_OF_STACK => return Err(Stop::EndOfStack),
        _ => {}
    }
    if row.sp_reg != REG_SP && row.sp_reg != REG_BP {
        return Err(Stop::BaseUnknown { reg: row.sp_reg });
    }
    if row.bp_reg != REG_UNDEFINED && row.bp_reg != REG_PREV_SP && row.bp_reg != REG_BP {
        return Err(Stop::BaseUnknown { reg: row.bp_reg });
    }
    frame_of(region, regs, row)
}

/// The row that is looked up: at ip itself where it is the address of the next instruction, and at the
/// byte before it where it is a return address.
fn row_for(rows: &[PlacedRow], placement: &[Range], next: bool, ip: u64) -> Result<Row, Stop> {
    let address = if next { ip } else { ip.wrapping_sub(1) };
    if !is_inside(placement, address) {
        return Err(Stop::Outside);
    }
    find_row(rows, placement, address).ok_or(Stop::NoRow)
}

/// The frame at these registers, and whether its address is that of an interrupted instruction.
fn next_frame(
    rows: &[PlacedRow],
    placement: &[Range],
    region: &Region,
    next: bool,
    regs: Regs,
) -> Result<(Frame, bool), Stop>
    ensures { IfOk result (λ found. regs.sp < found.0.cfa) }
{
    let row = row_for(rows, placement, next, regs.ip)?;
    let frame = unwound(region, regs, row)?;
    Ok((frame, row.signal))
}

/// What a walk gives: its frames, innermost first, and why it ended.
#[derive(Drop)]
pub struct Walked {
    /// The frames.
    pub frames: Vec<Frame>,
    /// Why it ended.
    pub stop: Stop,
}

/// The walk over the rows from these registers, whose ip is the address of the next instruction.
pub fn walk(
    alloc: Global,
    rows: &[PlacedRow],
    placement: &[Range],
    region: &Region,
    regs: Regs,
) -> Result<Walked, AllocError> {
    let mut frames = Vec::new(alloc);
    let mut next = true;
    let mut regs = regs;
    loop {
        match next_frame(rows, placement, region, next, regs) {
            Err(stop) => return Ok(Walked { frames, stop }),
            Ok((frame, signal)) => {
                frames.push(frame)?;
                regs = Regs {
                    ip: frame.ra,
                    sp: frame.cfa,
                    bp: frame.bp,
                };
                next = signal;
            }
        }
    }
}
