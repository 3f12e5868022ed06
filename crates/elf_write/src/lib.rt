//! Writes relocatable ELF-64 objects: an object read before, with section symbols inserted or sections added behind it.
#![tactic(auto)]

mod bytes;
mod changes;
mod fault;
mod find;
mod header;
mod input;
mod insert;
mod law;
mod pieces;
mod plan;
mod section;
mod tables;
mod write;

pub use bytes::{next_multiple, pad, push_bytes, push_u16, push_u32, push_u64};
pub use fault::SymFault;
pub use header::{Header, push_header};
pub use insert::with_section_symbols;
pub use law::calls_add;
pub use section::NewSection;
pub use write::append;
