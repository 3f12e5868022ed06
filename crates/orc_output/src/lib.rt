//! Adds the ORC sections of some rows to an object, and the section symbols by which these name their places (Linux 6.6,
//! `orc-unwinder.rst`; ELF-64 gABI, symbol table).
#![tactic(auto)]

mod fault;
mod output;
mod sections;
pub mod symbols;
mod tables;

pub use fault::TableFault;
pub use output::with_orc;
pub use tables::with_tables;
