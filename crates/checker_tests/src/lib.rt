//! Tests of the checker that no command shows: states by number, the rules of a state, and how many different states are kept of
//! objects that `demo` makes.
#![tactic(auto)]

#[cfg(test)]
mod numbers;
#[cfg(test)]
mod readings;
#[cfg(test)]
mod rules;
#[cfg(test)]
mod states;
