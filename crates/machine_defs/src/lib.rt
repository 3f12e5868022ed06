//! Programs, the states and rules of a checker over them, and the stack machine that runs them. Definitions.
//!
//! A program is what a control-flow graph is: instructions by number, and how control goes between them. Over it stand the
//! states that a checker keeps, the rules of stack validation and those that options ask for, the rows of an ORC table,
//! the machine with its steps and runs, and the law that an accepted program unwinds.
#![tactic(auto)]

pub mod checking_laws;
mod flow;
pub mod machine_laws;

pub use flow::{Edge, EdgeKind, Marks, Role};
