//! The broken rules of a program over its control-flow graph and kept states: every rule of stack validation, those of
//! alternatives sites (12) among them.
#![tactic(auto)]

mod arrivals;
mod exit_rules;
mod exits;
mod force;
mod frames;
mod gap;
mod holes;
mod listing;
mod numbers;
mod offsets;
mod point_rules;
mod quiet;
mod quiet_exits;
mod site_check;
mod site_index;
mod site_points;
mod site_warnings;
mod sorting;
mod unframed;
mod unreached;
mod ways;

pub use exit_rules::{iret_rule, return_rule, sibling_rule, switch_rule};
pub use frames::{call_rule, depth_number, same_row};
pub use offsets::{fit_rule, unfit_offset};
pub use point_rules::push_warnings;
pub use site_check::push_site_warnings;
pub use site_index::SiteIndex;
pub use site_points::{address_by_number, list_site_points};
pub use sorting::sort_warnings;
pub use unframed::push_without_frame;
pub use unreached::push_unreachable;
