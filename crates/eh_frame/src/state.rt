//! The rules of a frame while the instructions of a record are followed.

ghost use Rattle.std.specs.Prelude.{◌≡◌};
ghost use Rattle.eh_frame.specs.Rules.{after, first_state, rule_of};

use crate::instruction::Instruction;
use crate::rule::{CfaReg, CfaRule};

/// The rules of the three columns of the unwinding table that the profile knows (DWARF 4, section 6.4.1).
#[derive(Clone, Copy)]
pub(crate) struct FrameState {
    /// The canonical frame address: a register ..
    reg: CfaReg,
    /// .. and the bytes that are added to it.
    off: i64,
    /// Where the caller's rbp is, from the canonical frame address on; in rbp where nothing is said.
    bp: Option<i64>,
    /// Whether the return address is right below the canonical frame address; else it isn't known.
    known: bool,
}

impl FrameState {
    /// What the instructions of the CIE leave.
    pub(crate) fn first() -> FrameState
        ensures { result ≡ first_state }
    {
        FrameState {
            reg: CfaReg::Rsp,
            off: 8,
            bp: None,
            known: true,
        }
    }

    /// The rules behind an instruction.
    pub(crate) fn after(self, instruction: Instruction) -> FrameState
        ensures { result ≡ after instruction self }
    {
        let mut state = self;
        match instruction {
            Instruction::Nop | Instruction::AdvanceLoc { .. } => {}
            Instruction::DefCfa { reg, off } => {
                state.reg = reg;
                state.off = off;
            }
            Instruction::SavedReturn => state.known = true,
            Instruction::UndefinedReturn => state.known = false,
            Instruction::SavedRbp { off } => state.bp = Some(off),
            Instruction::SameRbp => state.bp = None,
        }
        state
    }

    /// The rule that they are.
    pub(crate) fn rule(&self) -> CfaRule
        ensures { result ≡ rule_of self.now }
    {
        if self.known {
            CfaRule::Cfa {
                reg: self.reg,
                off: self.off,
                bp: self.bp,
            }
        } else {
            CfaRule::Undefined
        }
    }
}
