//! The words of operations.

ghost use Rattle.std.specs.Prelude.{Some};
ghost use Rattle.code_listing.specs.Operations.{operation_words};

use operation_defs::Op;
use std::fmt;

/// The words of an operation.
#[derive(Clone, Copy)]
pub(crate) struct OperationWords(pub(crate) Op);

impl fmt::Display for OperationWords {
    ghost output = { λ o. Some (operation_words o.0) };

    #[tactic(auto, unfolding(crate::specs::Operations::operation_words))]
    fn fmt<W: fmt::Write>(&self, f: &mut fmt::Formatter<W>) -> fmt::Result {
        match self.0 {
            Op::Plain => write!(f, "plain"),
            Op::Nop => write!(f, "nop"),
            Op::Endbr => write!(f, "endbr"),
            Op::Push => write!(f, "push"),
            Op::PushBp => write!(f, "push-bp"),
            Op::Pop => write!(f, "pop"),
            Op::PopBp => write!(f, "pop-bp"),
            Op::Popf => write!(f, "popf"),
            Op::AddSp { by } => write!(f, "add-sp {by}"),
            Op::AndSp { mask } => write!(f, "and-sp {mask}"),
            Op::LeaSpBp { by } => write!(f, "lea-sp-bp {by}"),
            Op::LeaBpSp { by } => write!(f, "lea-bp-sp {by}"),
            Op::LeaBpRoom { by } => write!(f, "lea-bp-room {by}"),
            Op::SubSp => write!(f, "sub-sp"),
            Op::SpReg => write!(f, "sp-reg"),
            Op::StoreBp { at } => write!(f, "store-bp {at}"),
            Op::LoadBp { at } => write!(f, "load-bp {at}"),
            Op::Leave => write!(f, "leave"),
            Op::SpOther => write!(f, "sp-other"),
            Op::BpOther => write!(f, "bp-other"),
            Op::Call { .. } => write!(f, "call"),
            Op::Hop => write!(f, "hop"),
            Op::CallInd => write!(f, "call-indirect"),
            Op::Jmp { .. } => write!(f, "jump"),
            Op::Jcc { .. } => write!(f, "jump-if"),
            Op::JmpInd { .. } => write!(f, "jump-indirect"),
            Op::Ret => write!(f, "return"),
            Op::RetImm => write!(f, "return-and-drop"),
            Op::Iret => write!(f, "iret"),
            Op::IretNext => write!(f, "iret-next"),
            Op::Switch => write!(f, "switch"),
            Op::Ud2 => write!(f, "ud2"),
            Op::Int3 => write!(f, "int3"),
            Op::Stac => write!(f, "stac"),
            Op::Clac => write!(f, "clac"),
        }
    }
}
