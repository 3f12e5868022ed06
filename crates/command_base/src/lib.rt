//! What the commands share, how an input is read, why a command stops and with which status; what is printed behind a warning, of where
//! its place is in its function and how control came there; and the commands that read tables and lists back over files and an output
//! that are handed in: `dump` and `unwind` an object's tables, `list` its site lists, `cfa` its call frame information, `find` a merged
//! table, and `merge` tables of many objects, of which it makes one.
#![tactic(auto)]

mod backtrace_cases;
mod backtrace_holder;
mod backtrace_printing;
mod backtrace_spots;
mod backtrace_text;
mod code;
mod dumping;
mod finding;
mod flow_text;
mod frames_telling;
mod layouts;
mod merge_laws;
mod merged_objects;
mod merging;
mod names;
mod printing;
mod reading;
mod refusal;
mod rule_line;
mod sites_listing;
mod sites_text;
mod status;
mod stop;
mod unwinding;
mod usage;
mod walk_text;
mod warnings;
mod writing;

pub use backtrace_holder::Holder;
pub use backtrace_printing::print_backtraces;
pub use code::{flow_stop, link_stop};
pub use dumping::dump;
pub use finding::find;
pub use flow_text::FlowFaultText;
pub use frames_telling::cfa;
pub use layouts::{MAX_LAYOUT_BYTES, MOST_FILES};
pub use merge_laws::merged_rows_are_found;
pub use merging::merge;
pub use names::read_names;
pub use printing::{conclude, print_line, print_part};
pub use reading::{
    MAX_IMAGE_BYTES, frames_stop, image_stop, layout_stop, lists_stop, merge_stop, orc_stop,
    parse_stop, place_stop, read_file, sites_stop, table_stop,
};
pub use refusal::Refusal;
pub use sites_listing::list;
pub use status::Status;
pub use stop::{CommandStop, of_part};
pub use unwinding::{is_text_section, ranges_of, unwind};
pub use usage::Usage;
pub use warnings::print_warnings;
pub use writing::write_file;
