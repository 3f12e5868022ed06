//! The numbers that the fields of a `Row` hold: `ORC_REG_*` and `ORC_TYPE_*` of Linux 6.6,
//! `orc_types.h`.

/// The register isn't known; for rbp, it still holds the caller's value.
pub const REG_UNDEFINED: u8 = 0;
/// The frame's top, which is the caller's stack pointer.
pub const REG_PREV_SP: u8 = 1;
/// rdx.
pub const REG_DX: u8 = 2;
/// rdi.
pub const REG_DI: u8 = 3;
/// rbp.
pub const REG_BP: u8 = 4;
/// rsp.
pub const REG_SP: u8 = 5;
/// r10.
pub const REG_R10: u8 = 6;
/// r13.
pub const REG_R13: u8 = 7;
/// The word that rbp and the offset point to.
pub const REG_BP_INDIRECT: u8 = 8;
/// The word that rsp points to, and the offset.
pub const REG_SP_INDIRECT: u8 = 9;

/// Nothing is known of the frame.
pub const KIND_UNDEFINED: u8 = 0;
/// The stack ends here.
pub const KIND_END_OF_STACK: u8 = 1;
/// A call's frame: the return address lies right below its top.
pub const KIND_CALL: u8 = 2;
/// All registers of an interrupted place are saved (`struct pt_regs`).
pub const KIND_REGS: u8 = 3;
/// Only the interrupted place's ip, cs, flags, sp and ss are saved.
pub const KIND_REGS_PARTIAL: u8 = 4;
