//! A command line as `clap` reads it: the command that its words ask for, and the texts that tell its
//! user of it.
#![tactic(auto)]

mod arguments;
pub mod definition;
mod making;
mod reading;
mod texts;

pub use reading::read_words;
pub use texts::{help_text, version_text};
