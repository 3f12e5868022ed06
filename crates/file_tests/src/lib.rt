//! Tests of what no command shows: objects that are made, what a look-up reads, the help text beside what `clap` renders,
//! and files in memory.
#![tactic(auto)]

#[cfg(test)]
mod elf;
#[cfg(test)]
mod outside;
#[cfg(test)]
mod rows;
