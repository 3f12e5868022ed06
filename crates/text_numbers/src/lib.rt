//! Numbers for the names of one string table, by which names are compared: two have one number exactly where they have
//! the same bytes.
//!
//! Many names of a string table may share most of their bytes, since a name begins anywhere and ends before the
//! first zero byte. Here no call reads a text whole that is in the table twice: a text is its first 1 to 64 bytes and
//! one that has a number, whose length is a multiple of 64. The numbers of what ends at one place are found again
//! by where it begins.
#![tactic(auto)]

mod ends;
mod marks;
mod piece;
mod pieces;
mod texts;

pub use ends::Ends;
pub use texts::Texts;
