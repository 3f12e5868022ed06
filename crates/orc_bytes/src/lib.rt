//! Rows to the bytes of an object's ORC sections and back: the rows that they hold, or their first fault.
#![tactic(auto)]

mod bodies;
mod fault;
mod fault_text;
mod laws;
mod reading;
mod relocs;
mod rows;
mod worked;

pub use bodies::{OrcSections, encode};
pub use fault::{OrcFault, SlotWhy};
pub use laws::{bodies_are_held, relocs_read_back, rows_are_determined};
pub use reading::decode;
pub use worked::{worked_relocs, worked_rows};
