//! The words of a command line: what they mean, and the first of them that is at fault.
#![tactic(auto)]

mod command;
mod fault;
mod judge;
mod line;
mod number;
mod options;
mod word;

pub use command::Command;
pub use fault::{UsageFault, UsageKind};
pub use line::judge_words;
pub use number::{address_of, number_of};
pub use options::{CheckOptions, EntryRules, SiteOptions};
pub use word::CommandWord;
pub use x86_map::Map;
