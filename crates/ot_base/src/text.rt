mod places;
mod rows;
mod warnings;

pub use places::{Escaped, Hexadecimal, PlaceText};
pub use rows::{RowLine, RowWords, row_text};
pub use warnings::{WarningLine, warning_text};
