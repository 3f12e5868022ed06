//! The check of an object: its code is read, its control flow followed, and the rules of stack validation are tested; where none
//! is broken, the rows of its ORC table are made (Linux 6.6, tools/objtool/Documentation/objtool.txt).
#![tactic(auto)]

mod branches;
mod check;
mod code;
mod counts;
mod fault;
mod initial;
mod laws;
mod names;
mod outcome;
mod points;
mod room;
mod smap;
mod table;

pub use check::{check_code, check_object};
pub use code::{ReadCode, read_code, states_of};
pub use counts::CodeCounts;
pub use fault::{CheckFault, CodeFault};
pub use object_points::Map;
pub use outcome::ObjectVerdict;
pub use table::table_of;
