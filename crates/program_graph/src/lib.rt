//! The control-flow graph over which the checker runs: the points of a program by number, with the edges, roles, hints
//! and marks of each.
#![tactic(auto)]

mod graph;
mod parts;
mod usual;

pub use graph::Graph;
pub use parts::{
    GraphParts, GraphPoint, GraphSite, Hinted, Owner, PointKind, Previous, Rare, Replaced,
    TextSection, Transfer,
};
