//! Different states of the stack by number, in a region that is reserved once, and how many of them a checker keeps. Only
//! tests ask for it.
#![tactic(auto)]

mod counting;
mod key;
mod pool;

pub use counting::count_states;
pub use pool::{Pool, StateNo};
