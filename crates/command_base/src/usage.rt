use cli_words::{UsageFault, UsageKind};
use std::fmt;

/// Why the words of a command line ask for nothing: the first word at fault, counted from 0, and what is wrong with it.
#[derive(Clone, Copy, PartialEq, Eq)]
pub struct Usage {
    /// The number of the word, counted from 0.
    pub word: u64,
    /// What is wrong with it.
    pub kind: UsageKind,
}

impl fmt::Display for Usage {
    ghost use Rattle.std.specs.Prelude.{Some};
    ghost use Rattle.command_base.specs.Stop.{usage_text};

    ghost output = { λ usage. Some (usage_text usage) };

    fn fmt<W: fmt::Write>(&self, f: &mut fmt::Formatter<W>) -> fmt::Result {
        let Usage { word, kind } = *self;
        write!(f, "{}", UsageFault::At { word, kind })
    }
}
