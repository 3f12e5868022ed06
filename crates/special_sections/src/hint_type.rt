//! The types of unwind hints (Linux 6.6, `orc_types.h` and `objtool_types.h`).

/// `UNWIND_HINT_TYPE_UNDEFINED`: nothing is known of the stack.
pub const UNDEFINED: u8 = 0;
/// `UNWIND_HINT_TYPE_END_OF_STACK`: the stack has no frame above.
pub const END_OF_STACK: u8 = 1;
/// `UNWIND_HINT_TYPE_CALL`: a call frame, whose top is `sp_offset` bytes above rsp.
pub const CALL: u8 = 2;
/// `UNWIND_HINT_TYPE_REGS`: all saved registers are on the stack, `sp_offset` bytes above rsp.
pub const REGS: u8 = 3;
/// `UNWIND_HINT_TYPE_REGS_PARTIAL`: ip, cs, flags, sp and ss are.
pub const REGS_PARTIAL: u8 = 4;
/// `UNWIND_HINT_TYPE_FUNC`: as at a function's entry.
pub const FUNC: u8 = 5;
/// `UNWIND_HINT_TYPE_SAVE`: the state is saved.
pub const SAVE: u8 = 6;
/// `UNWIND_HINT_TYPE_RESTORE`: the state is that which was saved.
pub const RESTORE: u8 = 7;
