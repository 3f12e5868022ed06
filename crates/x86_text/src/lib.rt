//! The instructions of a body of x86-64 code, one behind the other from its first byte to its last, in a list in which
//! equal ones stand once.
#![tactic(auto)]

mod fault;
mod fault_text;
mod guess;
mod insn_list;
mod known;
mod numbered;
mod placed;
mod text;

pub use fault::TextFault;
pub use fault_text::TextFaultText;
pub use insn_list::{InsnList, hash_of};
pub use numbered::NumberedInsns;
pub use operation_defs::{Insn, Op};
pub use placed::PlacedInsn;
pub use text::Text;
pub use x86_decode::{DecodeFault, Map};
