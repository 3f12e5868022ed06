//! Tables of ORC rows, which row holds at an address, and which frames a walk over a stack gives (Linux 6.6, `orc_types.h` and
//! `orc-unwinder.rst`); and what a table has to tell of a program. Definitions.
#![tactic(auto)]

pub mod codes;
mod frame;
mod laws;
mod range;
mod worked;

pub use frame::{Frame, Regs, Stop};
pub use laws::{
    find_is_exact, last_row_is_determined, one_section_has_one_range, row_is_found_among_others,
    walk_ends, walk_is_determined,
};
pub use range::Range;
pub use worked::{worked_lookups, worked_placement, worked_walks};
