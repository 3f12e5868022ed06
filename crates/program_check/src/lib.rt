//! The check of a program: the warnings of all rules of stack validation, or one that is accepted, and the rows of its ORC table.
#![tactic(auto)]

mod access_exits;
mod access_listing;
mod access_points;
mod access_search;
mod access_ways;
mod allowance_table;
mod asked;
mod callees;
mod changes;
mod checked;
mod ends;
mod in_sites;
mod operations;
mod option_verdict;
mod reaching;
mod row;
mod safe_branches;
mod safety;
mod starting;
mod table;
mod verdict;
mod warnings;

pub use access_points::push_access;
pub use allowance_table::AllowanceTable;
pub use checked::Checked;
pub use option_verdict::{OptionVerdict, check};
pub use row::row_of;
pub use safe_branches::push_branches;
pub use verdict::{StackVerdict, check_stack};
