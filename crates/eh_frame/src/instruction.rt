//! The call frame instructions of the profile (DWARF 4, section 7.23).

ghost use Rattle.std.specs.Prelude.{◌≡◌, ◌≤◌, ◌<◌, ◌^◌, ◌⊎◌, ◌+◌, length};
ghost use Rattle.eh_frame.specs.Spelling.{offset};
ghost use Rattle.eh_frame.specs.ReadInstruction.{read_advance, read_def_cfa, read_def_cfa_sf, read_instruction, read_operands, read_pair, read_saved_rbp, register_of};

use crate::groups::read_number;
use crate::rule::CfaReg;
use byteorder::{ByteOrder, LittleEndian};

/// A call frame instruction.
#[derive(Clone, Copy)]
pub(crate) enum Instruction {
    /// `DW_CFA_nop`.
    Nop,
    /// `DW_CFA_advance_loc`, with an operand of any width: the rules that follow hold from so many bytes on.
    AdvanceLoc { delta: u32 },
    /// `DW_CFA_def_cfa` or `DW_CFA_def_cfa_sf`: the canonical frame address is a register and so many bytes.
    DefCfa { reg: CfaReg, off: i64 },
    /// `DW_CFA_offset` of the return address: it is right below the canonical frame address.
    SavedReturn,
    /// `DW_CFA_undefined` of the return address.
    UndefinedReturn,
    /// `DW_CFA_offset` of rbp: the caller's is at the canonical frame address and so many bytes.
    SavedRbp { off: i64 },
    /// `DW_CFA_same_value` of rbp.
    SameRbp,
}

/// An instruction, and how many bytes it takes.
#[derive(Clone, Copy)]
pub(crate) struct Read {
    pub instruction: Instruction,
    pub len: usize,
}

/// The instruction at the beginning of some bytes, where it is one of the profile.
#[tactic(auto, unfolding(crate::specs::ReadInstruction::read_instruction))]
pub(crate) fn read_instruction(bytes: &[u8]) -> Option<Read>
    ensures { result ≡ read_instruction bytes.now }
{
    match bytes {
        [] => None,
        [code, rest @ ..] => read_operands(*code, rest),
    }
}

/// The same, behind its first byte.
fn read_operands(code: u8, rest: &[u8]) -> Option<Read>
    ensures { result ≡ read_operands code rest.now }
{
    match code {
        0x00 => Some(Read {
            instruction: Instruction::Nop,
            len: 1,
        }),
        0x41..=0x7F => Some(Read {
            instruction: Instruction::AdvanceLoc {
                delta: u32::from(code - 0x40),
            },
            len: 1,
        }),
        0x02 => read_advance(rest, 1),
        0x03 => read_advance(rest, 2),
        0x04 => read_advance(rest, 4),
        0x0C => read_def_cfa(rest),
        0x12 => read_def_cfa_sf(rest),
        0x90 => read_pair(rest, 0x08, Instruction::SavedReturn),
        0x07 => read_pair(rest, 0x10, Instruction::UndefinedReturn),
        0x08 => read_pair(rest, 0x06, Instruction::SameRbp),
        0x86 => read_saved_rbp(rest),
        _ => None,
    }
}

/// An instruction with one operand, which has to be this byte.
fn read_pair(rest: &[u8], operand: u8, instruction: Instruction) -> Option<Read>
    ensures { result ≡ read_pair rest.now operand instruction }
{
    match rest {
        [byte, ..] if *byte == operand => Some(Read {
            instruction,
            len: 2,
        }),
        _ => None,
    }
}

/// A move by an operand of one, two or four bytes.
fn read_advance(rest: &[u8], width: usize) -> Option<Read>
    requires { (width ≡ 1) ⊎ (width ≡ 2) ⊎ (width ≡ 4) }
    ensures { result ≡ read_advance rest.now width }
{
    if rest.len() < width {
        return None;
    }
    let delta = match width {
        1 => u32::from(rest[0]),
        2 => u32::from(LittleEndian::read_u16(rest)),
        _ => LittleEndian::read_u32(rest),
    };
    Some(Read {
        instruction: Instruction::AdvanceLoc { delta },
        len: 1 + width,
    })
}

/// A register from which the canonical frame address may be counted, by its number.
fn register_of(number: u8) -> Option<CfaReg>
    ensures { result ≡ register_of number }
{
    match number {
        6 => Some(CfaReg::Rbp),
        7 => Some(CfaReg::Rsp),
        _ => None,
    }
}

/// So many bytes, above or below.
fn offset(below: bool, bytes: u64) -> i64
    requires { bytes ≤ 2 ^ 32 }
    ensures { result ≡ offset below bytes }
{
    if below { -(bytes as i64) } else { bytes as i64 }
}

/// `DW_CFA_def_cfa`, behind its code: a register and an unsigned number.
fn read_def_cfa(rest: &[u8]) -> Option<Read>
    ensures { result ≡ read_def_cfa rest.now }
{
    let [register, operand @ ..] = rest else {
        return None;
    };
    let reg = register_of(*register)?;
    let number = read_number(operand, 128)?;
    if number.bits >= 1 << 32 {
        return None;
    }
    Some(Read {
        instruction: Instruction::DefCfa {
            reg,
            off: offset(false, number.bits),
        },
        len: 2 + number.len,
    })
}

/// `DW_CFA_def_cfa_sf`, behind its code: a register and a signed number, which the data alignment factor of -1 turns.
fn read_def_cfa_sf(rest: &[u8]) -> Option<Read>
    ensures { result ≡ read_def_cfa_sf rest.now }
{
    let [register, operand @ ..] = rest else {
        return None;
    };
    let reg = register_of(*register)?;
    let number = read_number(operand, 64)?;
    if number.bits >= 1 << 31 {
        return None;
    }
    let off = if number.turned {
        offset(false, number.bits + 1)
    } else {
        offset(true, number.bits)
    };
    Some(Read {
        instruction: Instruction::DefCfa { reg, off },
        len: 2 + number.len,
    })
}

/// `DW_CFA_offset` of rbp, behind its code: an unsigned number, which the data alignment factor of -1 turns.
fn read_saved_rbp(rest: &[u8]) -> Option<Read>
    ensures { result ≡ read_saved_rbp rest.now }
{
    let number = read_number(rest, 128)?;
    if number.bits >= 1 << 32 {
        return None;
    }
    Some(Read {
        instruction: Instruction::SavedRbp {
            off: offset(true, number.bits),
        },
        len: 1 + number.len,
    })
}
