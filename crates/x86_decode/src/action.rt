ghost use Rattle.std.specs.Prelude.{◌≡◌, ◌<◌};
ghost use Rattle.x86_decode.specs.Action.{action_of};

/// What an opcode does to rsp, rbp, the stack and the flow of control, as far as the opcode tells.
#[derive(Clone, Copy)]
pub enum Action {
    /// None of the others: what it does follows from the registers that it writes.
    Other,
    /// NOP, or XCHG of r8 and rAX.
    Exchange,
    /// NOP Ev.
    NoOperation,
    /// ENDBR and RDSSP.
    Hint,
    /// PUSH of a register.
    PushRegister,
    /// PUSH of an immediate, the flags, FS or GS.
    Push,
    /// POP of a register.
    PopRegister,
    /// POP Ev.
    PopOperand,
    /// POP of FS or GS.
    Pop,
    /// POPF.
    PopFlags,
    /// ADD, OR, ADC, SBB, AND, SUB, XOR or CMP of an operand and an immediate.
    Arithmetic,
    /// SUB Ev, Gv.
    SubtractFrom,
    /// SUB Gv, Ev.
    Subtract,
    /// MOV Ev, Gv.
    Store,
    /// MOV Gv, Ev.
    Load,
    /// LEA.
    LoadAddress,
    /// ENTER.
    Enter,
    /// LEAVE.
    Leave,
    /// Near CALL.
    Call,
    /// JMP Jb.
    ShortJump,
    /// JMP Jz.
    Jump,
    /// Jcc Jb, LOOP and its kin, JRCXZ.
    ShortCondition,
    /// Jcc Jz.
    Condition,
    /// Near RET.
    Return,
    /// Near RET that drops bytes.
    ReturnImmediate,
    /// IRET.
    InterruptReturn,
    /// Far RET, SYSCALL, SYSRET, SYSENTER, SYSEXIT, RSM.
    Far,
    /// UD0, UD1, UD2.
    Undefined,
    /// INT3.
    Breakpoint,
    /// INC, DEC, CALL, JMP, PUSH.
    Group5,
    /// CLAC, STAC, ENCLU, ERETU, ERETS, UIRET and others.
    Group7,
    /// MOV of an immediate, XBEGIN.
    Group11,
}

/// What an opcode does. `number` is that of its map, as in `x86_map`: 1 for the one-byte opcodes, 2 for those behind 0F.
#[inline(always)]
pub(crate) fn action_at(number: u8, opcode: u8) -> Action
    ensures { result ≡ action_of number opcode }
{
    match number {
        1 => one_byte_action(opcode),
        2 => two_byte_action(opcode),
        _ => Action::Other,
    }
}

#[tactic(auto, unfolding(crate::specs::Action::action_of))]
#[inline(always)]
fn one_byte_action(opcode: u8) -> Action
    ensures { result ≡ action_of 1 opcode }
{
    match opcode {
        0x29 => Action::SubtractFrom,
        0x2B => Action::Subtract,
        0x50..=0x57 => Action::PushRegister,
        0x58..=0x5F => Action::PopRegister,
        0x68 | 0x6A | 0x9C => Action::Push,
        0x70..=0x7F | 0xE0..=0xE3 => Action::ShortCondition,
        0x81 | 0x83 => Action::Arithmetic,
        0x89 => Action::Store,
        0x8B => Action::Load,
        0x8D => Action::LoadAddress,
        0x8F => Action::PopOperand,
        0x90 => Action::Exchange,
        0x9D => Action::PopFlags,
        0xC2 => Action::ReturnImmediate,
        0xC3 => Action::Return,
        0xC7 => Action::Group11,
        0xC8 => Action::Enter,
        0xC9 => Action::Leave,
        0xCA | 0xCB => Action::Far,
        0xCC => Action::Breakpoint,
        0xCF => Action::InterruptReturn,
        0xE8 => Action::Call,
        0xE9 => Action::Jump,
        0xEB => Action::ShortJump,
        0xFF => Action::Group5,
        _ => Action::Other,
    }
}

#[tactic(auto, unfolding(crate::specs::Action::action_of))]
#[inline(always)]
fn two_byte_action(opcode: u8) -> Action
    ensures { result ≡ action_of 2 opcode }
{
    match opcode {
        0x01 => Action::Group7,
        0x05 | 0x07 | 0x34 | 0x35 | 0xAA => Action::Far,
        0x0B | 0xB9 | 0xFF => Action::Undefined,
        0x1E => Action::Hint,
        0x1F => Action::NoOperation,
        0x80..=0x8F => Action::Condition,
        0xA0 | 0xA8 => Action::Push,
        0xA1 | 0xA9 => Action::Pop,
        _ => Action::Other,
    }
}
