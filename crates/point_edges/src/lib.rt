//! Where control goes from the points of an object: their jump tables, the way of each branch, their edges, what they are to
//! their functions, and what is wrong with where they go.
#![tactic(auto)]

mod bad_targets;
mod branch_edges;
mod call_roles;
mod called;
mod direct_branches;
mod edges;
mod entered;
mod flow_points;
mod into_functions;
mod into_sites;
mod jump_roles;
mod marking;
mod named;
mod next_edges;
mod order;
mod place_owner;
mod place_ways;
mod roles;
mod same_owner;
mod target_edges;
mod way_edges;

pub use direct_branches::{Branch, branch_at};
pub use edges::push_edges;
pub use entered::entry_of_point;
pub use flow_points::FlowPoints;
pub use marking::marks;
pub use named::names;
pub use order::object_is_in_order;
pub use place_owner::owner_at;
pub use place_ways::listed_way;
pub use point_arrivals::stays_decoded;
pub use roles::role;
