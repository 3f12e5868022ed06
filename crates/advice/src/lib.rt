//! What helps with words at fault, refusals and files that fail: the known word that was meant, the name that is missing, the topic that
//! explains, and that a file stands from before.
#![tactic(auto)]

mod files;
mod known_words;
mod lines;
mod missing_names;
mod nearest;

pub use files::{fault_line, out_name, standing_line};
pub use lines::{refusal_line, usage_line};
