//! Instructions as a list numbers them.

use operation_defs::Insn;

/// The instructions of a list as they are numbered: each is the one that stands at its number among those that came.
#[derive(Clone, Copy)]
pub struct NumberedInsns<'a> {
    /// The instructions that came, each once or, rarely, more often.
    pub kinds: &'a [Insn],
    /// For each instruction of the list, where among these it stands.
    pub numbers: &'a [u32],
}
