//! Tests of `x86_decode` and `x86_text`, which aren't proved again for them: bodies of code, and lists of instructions. What
//! single instructions are is shown by `tests/commands`.
#![tactic(auto)]

#[cfg(test)]
mod answers;
#[cfg(test)]
mod bodies;
#[cfg(test)]
mod lists;
