//! The places in an object whose addresses are taken: those that its relocations name, but for the operands of calls and
//! branches and for the tables that tell of code (Linux 6.6, tools/objtool/check.c, `validate_ibt`).
#![tactic(auto)]

mod excused;
mod instructions;
mod marked;
mod named;
mod section_names;
mod targets;

pub use excused::list_excused;
pub use targets::list_taken;
