//! The instruction in which a relocation begins.

ghost use Rattle.std.specs.Prelude.{◌≡◌, ◌<◌, ◌≤◌, ◌+◌, find, length, IfSome};
ghost use Rattle.x86_text.specs.Code.{code_of};
ghost use Rattle.taken_places.specs.Taken.{has_byte, takes_none as takes_none_of};

use operation_defs::Op;
use x86_text::{PlacedInsn, Text};

/// The instruction of a text that has the byte at an offset.
pub(crate) fn insn_over(text: &Text<'_>, off: u64) -> Option<PlacedInsn>
    requires { length text.now.bytes ≤ 16777216 }
    ensures found { result ≡ find (has_byte off) (code_of text.now) }
    ensures begins { IfSome result (λ p. p.off ≤ off) }
    ensures ends { IfSome result (λ p. off < p.off + p.insn.len) }
    ensures inside { IfSome result (λ p. p.off < 16777216) }
{
    if text.count() == 0 {
        return None;
    }
    if off >= text.size() {
        return None;
    }
    let begin = text.prev(off + 1)?;
    let insn = text.insn_at(begin)?;
    Some(PlacedInsn { off: begin, insn })
}

/// Whether what stands in such an instruction takes no address.
pub(crate) fn takes_none(op: Op) -> bool
    ensures { result ≡ takes_none_of op }
{
    matches!(
        op,
        Op::Call { .. }
            | Op::CallInd
            | Op::Jmp { .. }
            | Op::Jcc { .. }
            | Op::JmpInd { .. }
            | Op::Ret
            | Op::RetImm
            | Op::Nop
    )
}
