//! What the check of an object comes to.

use crate::counts::CodeCounts;
use ot_base::{PlacedRow, Warning};

/// What the check of an object comes to.
#[derive(Drop)]
pub enum ObjectVerdict {
    /// No rule is broken that is asked for.
    Accepted {
        /// The rows of the ORC table, section by section in ascending order, and ascending by offset.
        rows: Vec<PlacedRow>,
        /// How much code the object has.
        counts: CodeCounts,
    },
    /// Rules are broken: these are all warnings, each once, ascending by section, offset, rule and numbers.
    Broken(Vec<Warning>),
}
