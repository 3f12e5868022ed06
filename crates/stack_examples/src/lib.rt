//! The programs of a few points that tests of the plain readings run, made from tables of their instructions.
#![tactic(auto)]

pub mod builder;
pub mod lines;
