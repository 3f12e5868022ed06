//! Makes relocatable ELF-64 objects of given sections, symbols and relocations, and the object of N functions that `demo
//! N` checks. The tables that go with them, and the places of all, are this crate's.
#![tactic(auto)]

mod bytes;
mod file;
mod functions;
mod object;
mod parts;
mod relocs;
mod sections;
mod spec;
mod symbols;

pub use functions::demo;
pub use object::{build, make};
pub use spec::{RelSpec, Spec, SymSpec, section};
