//! The commands, over files and an output that are handed in: `run` takes the steps of each in their order, with the lines that are
//! printed, what is written, and the status. `check` and `demo` make tables, and `check` tells behind a warning where it is and how control
//! came there; others add to an object what a table or a list tells of its code, or read it back (`sites` and `list`, `cfi` and `cfa`,
//! `merge` and `find`), check the entry rules (`entry`), or print the program as the checker sees it (`show`).
#![tactic(auto)]

mod check;
mod command;
mod demo;
mod frames_adding;
mod frames_checking;
mod frames_room;
mod frames_words;
mod frames_writing;
mod summaries;
mod telling;
mod words;
mod writing;

pub use code_commands::{EntryAsked, ShowAsked, SitesAsked, entry, show, sites};
pub use command::run;
pub use command_base::{
    Holder, MAX_LAYOUT_BYTES, MOST_FILES, Status, cfa, find, list, merge, merged_rows_are_found,
    print_backtraces,
};
pub use frames_adding::cfi;
pub use frames_words::CfiAsked;
pub use summaries::summary;
