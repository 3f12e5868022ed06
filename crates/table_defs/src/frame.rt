/// The registers that a walk begins with.
#[derive(Clone, Copy, PartialEq, Eq)]
pub struct Regs {
    /// The address of the next instruction.
    pub ip: u64,
    /// The stack pointer, rsp.
    pub sp: u64,
    /// The frame pointer, rbp.
    pub bp: u64,
}

/// One frame that a walk gives: what the caller goes on with.
#[derive(Clone, Copy, PartialEq, Eq)]
pub struct Frame {
    /// Where the caller goes on: the return address, or the address of the interrupted instruction.
    pub ra: u64,
    /// The canonical frame address: the caller's rsp once it goes on.
    pub cfa: u64,
    /// The caller's rbp.
    pub bp: u64,
}

/// Why a walk ended.
#[derive(Clone, Copy, PartialEq, Eq)]
pub enum Stop {
    /// The address looked up lies in no placed section.
    Outside,
    /// The row says that the stack ends here.
    EndOfStack,
    /// The row says that nothing is known here.
    Undefined,
    /// No row lies at or below the address.
    NoRow,
    /// The row counts from a register that the walk doesn't follow.
    BaseUnknown {
        /// The register's number.
        reg: u8,
    },
    /// A word that the row names isn't in memory.
    Unreadable {
        /// The word's address.
        addr: u64,
    },
    /// The caller's stack pointer isn't above the one before.
    NotRising {
        /// The stack pointer before.
        old: u64,
        /// The caller's.
        new: u64,
    },
    /// Memory for the frames was wanted and not there.
    NoMemory,
}
