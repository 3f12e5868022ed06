//! The entries of special sections.

use ot_base::Place;

/// Instructions that may be replaced, an entry of `.altinstructions` (Linux 6.6, `struct alt_instr`).
#[derive(Clone, Copy, PartialEq, Eq)]
pub struct AltEntry {
    /// Where the original begins.
    pub original: Place,
    /// Where the replacement begins.
    pub replacement: Place,
    /// The number of the processor feature under which it is replaced.
    pub feature: u16,
    /// How the feature is taken.
    pub flags: u16,
    /// The original's length in bytes.
    pub original_len: u8,
    /// The replacement's length in bytes.
    pub replacement_len: u8,
}

/// A static branch, an entry of `__jump_table` (`struct jump_entry`).
#[derive(Clone, Copy, PartialEq, Eq)]
pub struct BranchEntry {
    /// The instruction that is a jump or none.
    pub code: Place,
    /// Where the jump goes.
    pub target: Place,
}

/// An exception entry, of `__ex_table` (`struct exception_table_entry`).
#[derive(Clone, Copy, PartialEq, Eq)]
pub struct FixEntry {
    /// The instruction that may fault.
    pub insn: Place,
    /// Where code goes on then.
    pub fixup: Place,
}

/// A hint on the stack, an entry of `.discard.unwind_hints` (`struct unwind_hint`).
#[derive(Clone, Copy, PartialEq, Eq)]
pub struct HintEntry {
    /// The instruction before which it holds.
    pub place: Place,
    /// How far the frame's top, or the saved registers, are above the base, in bytes.
    pub sp_offset: i16,
    /// The number of the base register.
    pub sp_reg: u8,
    /// The hint's type, of [`crate::hint_type`]. Where what is written of base, offset and signal fits no hint of its type, it is
    /// 0: nothing is known of the stack.
    pub kind: u8,
    /// Whether the signal byte isn't 0.
    pub signal: bool,
}
