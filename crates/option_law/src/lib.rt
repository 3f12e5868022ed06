//! What the rules that options ask for promise of every run of the stack machine on a program that breaks none of them.
#![tactic(auto)]

pub mod laws;
