//! Reads the sections in which a kernel object says what its code does not show by itself: alternatives, static branches,
//! exception entries, unwind hints and lists of places (Linux 6.6).
//!
//! The lists tell the places behind which code goes on or does not, functions that are not checked, branches that are
//! safe, and calls that only push an address. All places stand there by relocations. What a hint does to the state of the stack is told by its place
//! (Linux 6.6, `orc_types.h`).
#![tactic(auto)]

mod entries;
mod fault;
mod fields;
mod format;
mod hint_state;
pub mod hint_type;
mod hints;
mod hints_by_place;
mod laws;
mod lists;
mod nested;
mod read;
mod section;
mod special;
mod tables;

pub use entries::{AltEntry, BranchEntry, FixEntry, HintEntry};
pub use fault::{SpecialFault, Why};
pub use fields::Bound;
pub use hint_state::state_of_hint;
pub use hints_by_place::Hints;
pub use laws::{alternatives_are_few, alternatives_are_nested};
pub use special::Special;
pub use state_defs::HintState;
