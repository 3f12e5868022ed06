use machine_defs::Edge;
use program_model::Store;

/// What a definition lets be anything: a run chooses it.
#[derive(Clone, Copy)]
pub struct Anything<'a> {
    /// The bytes that ordinary stores write.
    pub stores: &'a [Store],
    /// A word that is pushed, or read outside the stack.
    pub word: u64,
    /// rsp, where it is written in another way, or room is made.
    pub rsp: u64,
    /// rbp, where it is written in another way.
    pub rbp: u64,
    /// User access, where flags are popped.
    pub ac: bool,
}

/// The words besides ip and sp that the processor pushes at an interrupt.
#[derive(Clone, Copy)]
pub struct InterruptWords {
    pub cs: u64,
    pub flags: u64,
    pub ss: u64,
    /// The error code, where the gate has one.
    pub error: u64,
}

/// Why a stack is wrecked.
#[derive(Clone, Copy)]
pub enum Wreck {
    /// It leaves its function with a stack that isn't ready for that.
    WrongReturn,
    /// It returns from an interrupt with such a stack.
    WrongIret,
    /// It drops bytes as it returns.
    DropsBytes,
    /// A target of it is no place to go.
    BadTarget,
    /// A target of it lies inside a site.
    IntoSite,
    /// It calls a place inside a function.
    IntoFunction,
    /// It goes on past its section's end.
    PastEnd,
}

/// One step of a run, chosen among those that are possible.
#[derive(Clone, Copy)]
pub enum Choice<'a> {
    /// The instruction goes on along this edge.
    GoesOn {
        edge: Edge,
        any: Anything<'a>,
    },
    /// It faults, and goes to the fixup at this point.
    Faults {
        to: u32,
        stores: &'a [Store],
    },
    /// It calls this entry, and control stands at this point there.
    CallsIn {
        entry: u32,
        at: u32,
    },
    /// It calls code outside, or what comes back as that does, which returns to this point.
    CallsOut {
        to: u32,
        stores: &'a [Store],
    },
    /// It returns to this point of the caller.
    Returns {
        to: u32,
        stores: &'a [Store],
    },
    /// It jumps to another function, at this point.
    TailCalls {
        to: u32,
    },
    /// Its stack is wrecked.
    Wrecks(Wreck),
    /// An interrupt comes to this gate, and control stands at this point there.
    IsInterrupted {
        gate: u32,
        at: u32,
        words: InterruptWords,
    },
    /// It returns from an interrupt.
    ReturnsFromInterrupt,
}
