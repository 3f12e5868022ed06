//! The commands over an object's code that make no table: `entry` checks the entry rules of all code, `sites` adds lists of its returns
//! and calls, and `show` prints the program as the checker sees it.
#![tactic(auto)]

mod entry_answering;
mod entry_checking;
mod entry_finding;
mod entry_words;
mod show_answering;
mod show_code;
mod show_printing;
mod show_telling;
mod show_words;
mod sites_adding;
mod sites_code;
mod sites_room;
mod sites_words;
mod sites_writing;

pub use entry_checking::entry;
pub use entry_words::{EntryAsked, entry_options};
pub use show_telling::show;
pub use show_words::ShowAsked;
pub use sites_adding::sites;
pub use sites_words::{SitesAsked, list_options};
