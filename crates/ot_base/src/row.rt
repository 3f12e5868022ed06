use crate::place::Place;

/// One row of an ORC table (`struct orc_entry` of Linux 6.6, `orc_types.h`): how the caller's frame is
/// found at the addresses that the row covers.
///
/// `sp_reg` and `sp_offset` give an address. In a row of kind CALL it is the frame's top, right above
/// the return address, which is the caller's stack pointer. In one of kind REGS or REGS_PARTIAL the
/// saved registers begin there.
#[derive(Clone, Copy, PartialEq, Eq)]
pub struct Row {
    /// Bytes that are added to what `sp_reg` gives.
    pub sp_offset: i16,
    /// Bytes that are added to what `bp_reg` gives, for the address of the word that holds the
    /// caller's rbp. Means nothing where `bp_reg` is `REG_UNDEFINED`.
    pub bp_offset: i16,
    /// What `sp_offset` is counted from: one of the `REG_*` of `codes`, from 0 to 9. In a row of kind
    /// UNDEFINED or END_OF_STACK it means nothing.
    pub sp_reg: u8,
    /// What `bp_offset` is counted from, one of the same: `REG_PREV_SP`, the caller's stack pointer, or
    /// `REG_BP`, rbp. Under `REG_UNDEFINED` the caller's rbp isn't saved by the code: it is still in rbp,
    /// or in the registers that a row of kind REGS points to.
    pub bp_reg: u8,
    /// What kind of frame it is: one of the `KIND_*` of `codes`, from 0 to 4.
    pub kind: u8,
    /// Whether the address that the frame gives is that of an interrupted instruction, which is looked
    /// up as it is, and no return address.
    pub signal: bool,
}

/// A row and the place from which on it holds.
#[derive(Clone, Copy, PartialEq, Eq)]
pub struct PlacedRow {
    /// The first place that the row covers.
    pub place: Place,
    /// The row.
    pub row: Row,
}
