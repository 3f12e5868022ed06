//! What program an object is: its points, and how control goes between them. Definitions.
//!
//! `program_of` in the definitions says it of every object, also of one that is refused. Each field of a program
//! is made of what the crates below say that an object means: its texts, functions, targets, special sections,
//! alternatives, jump tables and hints.
#![tactic(auto)]

mod destination;
mod fault;
pub mod laws;

pub use destination::{Crossing, Destination, Way};
pub use fault::FlowFault;
