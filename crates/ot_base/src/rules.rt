//! The numbers of the rules (`docs/RULES.md`): what a `Warning` is of.

/// A branch, call, static branch or exception entry leads to no place to go.
pub const BAD_BRANCH_TARGET: u8 = 1;
/// The next instruction is of another function.
pub const FALLS_THROUGH: u8 = 2;
/// The next instruction lies past its section's end.
pub const RUNS_OFF_SECTION: u8 = 3;
/// Two paths bring different stack states to one instruction.
pub const STATE_MISMATCH: u8 = 4;
/// A return whose stack isn't as at the function's entry, or which drops bytes.
pub const MODIFIED_RETURN: u8 = 5;
/// A jump to another function whose stack isn't as at the function's entry.
pub const MODIFIED_SIBLING_CALL: u8 = 6;
/// rsp is written in a way that can't be followed.
pub const UNSUPPORTED_SP_WRITE: u8 = 7;
/// rbp is written while it still holds the caller's value, which is saved nowhere.
pub const BP_NOT_SAVED: u8 = 8;
/// How far rsp lies below the frame's top isn't known any more.
pub const STACK_POINTER_LOST: u8 = 9;
/// An offset in bytes is out of the range of stack states, or of a row's 16 bits.
pub const OFFSET_OUT_OF_RANGE: u8 = 10;
/// The slot of the caller's rbp is dropped while rbp doesn't hold that value.
pub const SAVED_SLOT_DROPPED: u8 = 11;
/// The variants of an alternative site have different rows at one address.
pub const ALTERNATIVES_DISAGREE: u8 = 12;
/// A target lies inside an alternative site, and not at its start.
pub const JUMP_INTO_SITE: u8 = 13;
/// An instruction isn't reached.
pub const UNREACHABLE_INSTRUCTION: u8 = 14;
/// A return, a jump to another function or a context switch stands where it isn't allowed.
pub const EXIT_NOT_ALLOWED: u8 = 15;
/// A call names a place inside a function that is no entry.
pub const CALL_INTO_FUNCTION: u8 = 16;
/// A function symbol has size 0.
pub const FUNCTION_WITHOUT_SIZE: u8 = 17;
/// Control comes to a RESTORE hint that has no saved state.
pub const RESTORE_WITHOUT_SAVE: u8 = 18;
/// A relocation changes the number by which an instruction moves the stack.
pub const RELOCATED_STACK_OFFSET: u8 = 19;
/// A call is made without a frame pointer set up.
pub const CALL_WITHOUT_FRAME: u8 = 21;
/// An indirect call or jump that isn't listed as safe.
pub const INDIRECT_BRANCH: u8 = 31;
/// A return instruction that isn't listed as safe.
pub const NAKED_RETURN: u8 = 32;
/// A call of a function that isn't safe with user access on.
pub const CALL_WITH_ACCESS: u8 = 41;
/// A return with user access on.
pub const RETURN_WITH_ACCESS: u8 = 42;
/// A return of a safe function with user access off.
pub const RETURN_WITHOUT_ACCESS: u8 = 43;
/// User access is turned on where it is on.
pub const ACCESS_ON_TWICE: u8 = 44;
/// User access is turned off where it is off.
pub const ACCESS_OFF_TWICE: u8 = 45;
/// A safe function turns user access off.
pub const SAFE_FUNCTION_ACCESS_OFF: u8 = 46;
/// A popf, which may change user access unseen.
pub const POPF_WITH_ACCESS_TRACKED: u8 = 47;
/// Code that may not be instrumented calls code that may be, or jumps there.
pub const CALL_LEAVES_NOINSTR: u8 = 51;
/// No INT3 follows a return.
pub const RETURN_WITHOUT_INT3: u8 = 52;
/// No INT3 follows an indirect jump.
pub const JUMP_WITHOUT_INT3: u8 = 53;
/// An entry whose address is taken doesn't begin with an ENDBR.
pub const TAKEN_WITHOUT_ENDBR: u8 = 54;
