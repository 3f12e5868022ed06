use operation_defs::Insn;

/// An instruction at its place in a body of code.
#[derive(Clone, Copy, PartialEq, Eq)]
pub struct PlacedInsn {
    /// Bytes from the body's start to the instruction's first byte.
    pub off: u64,
    /// The instruction.
    pub insn: Insn,
}
