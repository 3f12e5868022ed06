//! What all other crates speak in: places, rows, warnings with their texts, the rules by number, options, and the lists
//! of function names.
#![tactic(auto)]

pub mod codes;
mod lists;
mod memory;
mod name_set;
mod names;
mod options;
mod place;
mod row;
pub mod rules;
mod tape;
mod text;
mod warning;

pub use lists::{Lists, ListsFault, ListsWhy};
pub use memory::NoMemory;
pub use names::Names;
pub use options::Options;
pub use place::{Place, is_before};
pub use row::{PlacedRow, Row};
pub use tape::Tape;
pub use text::{
    Escaped, Hexadecimal, PlaceText, RowLine, RowWords, WarningLine, row_text, warning_text,
};
pub use warning::Warning;
