//! Tests of whole commands of objtool over files and an output in memory: what no built program can show. They stand apart from
//! `objtool_cli`, so that it isn't proved again for them. All else of commands is shown by `tests/commands`.
#![tactic(auto)]

#[cfg(test)]
mod tests;
