//! From which points of a program a return may come.
#![tactic(auto)]

mod backward;
mod carrying;
mod chains;
mod found_returns;
mod kept_edges;
mod return_search;
mod searched_flow;
mod spreading;
mod stored;

pub use found_returns::{Returns, find_returns};
pub use searched_flow::{Exit, Flow};
pub use stored::{MOST_POINTS, StoredEntry, StoredExit};
