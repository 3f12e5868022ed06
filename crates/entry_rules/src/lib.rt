//! The rules on entry code, over an object's control flow: calls out of code that isn't instrumented (51), returns
//! and indirect jumps without an INT3 behind them (52, 53), and entries without an ENDBR whose addresses are taken
//! (54); and what they promise of every run (Linux 6.6, tools/objtool/Documentation/objtool.txt).
#![tactic(auto)]

mod bare;
mod entry_check;
mod law;
mod leaving;
mod listing;
mod noinstr;
mod options;
mod taken;

pub use entry_check::check;
pub use law::rules_are_kept;
pub use options::EntryOptions;
