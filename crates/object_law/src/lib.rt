//! What holds of the program of every object: that it is one, how control comes into its sites and entries, that it is known
//! by symbols, and that its rows unwind it.
#![tactic(auto)]

pub mod entry_laws;
pub mod flow_laws;
pub mod object_laws;
pub mod symbol_laws;
pub mod worked_object;
