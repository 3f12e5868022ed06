//! The rows of an accepted program tell its kept states, and a table that tells them walks to exactly the frames.
#![tactic(auto)]

mod rows;
mod walks;

pub use rows::{kept_are_points, mismatch_is_two_paths, rows_tell, rows_unwind, tells_worked};
pub use walks::{ranges_are_placement, strays_worked, walk_law, walks_worked};
