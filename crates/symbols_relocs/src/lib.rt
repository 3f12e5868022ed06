//! The functions of an object with their parts and owners, the places that its relocations name, and where its calls and
//! branches go.
//!
//! A function is what the symbols of type `STT_FUNC` with one start in a text section stand for (ELF-64
//! gABI, symbol table). The code that a compiler moves out of a function `P` is a function of its own with
//! the name `P.cold` or `P.cold.N`: a part of it. A field that holds a place holds it by a relocation: the place is that
//! of the relocation's symbol, moved on by the addend (x86-64 psABI, "Relocation"). The target of a call or branch is that
//! of the relocation on its displacement, where one stands there.
#![tactic(auto)]

mod code_names;
mod displacement;
mod extents;
mod fault;
mod function;
mod index;
mod merge;
mod names;
mod near;
mod near_relocs;
mod order;
mod outer;
mod parents;
mod part;
mod pointers;
mod reloc_index;
mod relocated;
mod returning;
mod span;
mod strings;
mod symbols;
mod target;

pub use code_names::{CodeNames, covered_code, is_linked, named_code};
pub use extents::{Extent, Extents};
pub use fault::IndexFault;
pub use function::Function;
pub use index::Index;
pub use pointers::{is_pointer, named_place};
pub use reloc_index::RelocIndex;
pub use relocated::is_relocated;
pub use returning::{NamedStart, ReturningCode};
pub use span::Span;
pub use target::Target;
