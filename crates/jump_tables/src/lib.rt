//! The tables that indirect jumps take their target from, as compilers make them of `switch`.
//!
//! Such a jump names its table by a 32-bit address, or goes to where a register points and the code right before it takes
//! the table's address; the table is a list of addresses of 8 bytes in data that are read-only or made so. In a relocatable
//! object all of these are relocations (x86-64 psABI, "Relocation"). [`JumpTables`] has the table of each such jump.
#![tactic(auto)]

mod bytes;
mod code;
mod entry;
mod field;
mod jump;
mod owner;
mod places;
mod registers;
mod starts;
mod table;
mod tables;
mod taken;
mod texts;

pub use alternatives::{Point, SectionText, Sites};
pub use tables::JumpTables;
