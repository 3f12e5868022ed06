ghost use Rattle.std.specs.Prelude.{◌≡◌};
ghost use Rattle.code_commands.specs.EntryWords.{entry_options};

use cli_words::EntryRules;
use entry_rules::EntryOptions;
use x86_map::Map;

/// What `entry` is asked to do.
#[derive(Clone, Copy)]
pub struct EntryAsked<'a> {
    /// The name of the object.
    pub input: &'a str,
    /// Which of the rules it is checked against.
    pub options: EntryOptions,
    /// The opcode map by which its code is read.
    pub map: Map,
    /// The file of function names, where one is given.
    pub names: Option<&'a str>,
}

/// The entry rules that the words ask for: those that their options name, or all where they name none.
pub fn entry_options(rules: EntryRules) -> EntryOptions
    ensures { result ≡ entry_options rules }
{
    let EntryRules { noinstr, sls, ibt } = rules;
    if noinstr || sls || ibt {
        EntryOptions { noinstr, sls, ibt }
    } else {
        EntryOptions {
            noinstr: true,
            sls: true,
            ibt: true,
        }
    }
}
