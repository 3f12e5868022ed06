//! Why the program of an object isn't checked.

/// What keeps an object's program from being checked, though its parts are in order.
#[derive(Clone, Copy, Debug, PartialEq, Eq)]
pub enum FlowFault {
    /// The function with this symbol starts at no boundary, or inside an alternatives site, past its start.
    FuncStart { sym: u32 },
    /// A place of a list is no boundary. The lists are 1 the code of static branches, 2 the instructions of
    /// exception entries, 3 the hints, 4 `.discard.reachable`, 5 `.discard.unreachable`, 6
    /// `.discard.retpoline_safe`, and 7 `.discard.intra_function_calls`. The places of 4 and 5 are ends of
    /// instructions: the size of a section is one, and its beginning is none.
    NotBoundary { list: u8, entry: u32 },
    /// The code of a static branch is neither a Nop nor a Jmp.
    StaticSite { entry: u32 },
    /// The instruction at a place of `.discard.intra_function_calls` is no direct call (E8).
    NotCall { entry: u32 },
    /// At a place of `.discard.func_stack_frame_non_standard` no function starts. Places that aren't in a text
    /// section don't count as entries.
    NotFunction { entry: u32 },
    /// Memory was wanted and not there.
    NoMemory,
}
