use crate::options::{CheckOptions, EntryRules, SiteOptions};
use x86_map::Map;

/// What the words of a command line ask for.
#[derive(Drop)]
pub enum Command {
    /// `check IN OUT` and its options: check the object `input`, and write it to `output` with its tables.
    Check {
        input: String,
        output: String,
        options: CheckOptions,
        /// The file of function names, where one is given.
        names: Option<String>,
    },
    /// `dump FILE`: print the rows of an object.
    Dump {
        file: String,
    },
    /// `unwind FILE IMAGE`: print the frames of a stack.
    Unwind {
        file: String,
        image: String,
    },
    /// `sites IN OUT` and its options: write the object `input` to `output` with lists of its returns, calls
    /// through thunks and calls.
    Sites {
        input: String,
        output: String,
        options: SiteOptions,
        map: Map,
        /// The file of function names, where one is given.
        names: Option<String>,
    },
    /// `list FILE`: print the site lists of an object.
    List {
        file: String,
    },
    /// `entry IN` and its options: check the code of the object `input` against the entry rules.
    Entry {
        input: String,
        rules: EntryRules,
        map: Map,
        /// The file of function names, where one is given.
        names: Option<String>,
    },
    /// `cfi IN OUT` and its options: check the object `input`, and write it to `output` with call frame
    /// information.
    Cfi {
        input: String,
        output: String,
        map: Map,
        /// The file of function names, where one is given.
        names: Option<String>,
    },
    /// `cfa FILE`: print the call frame information of an object.
    Cfa {
        file: String,
    },
    /// `merge LAYOUT OUT`: write one table of the rows of all objects that the text `layout` names.
    Merge {
        layout: String,
        output: String,
    },
    /// `find TABLE ADDR`: print the row of a merged table that holds at an address.
    Find {
        table: String,
        address: u64,
    },
    /// `show IN` and its options: print the program of the object `input` as the checker sees it.
    Show {
        input: String,
        /// The function whose code alone is printed, where one is given.
        function: Option<String>,
        map: Map,
        /// The file of function names, where one is given.
        names: Option<String>,
    },
    /// `explain` and maybe a topic: print what it means, or all topics.
    Explain {
        /// The topic, where one is given.
        topic: Option<String>,
    },
    /// `demo N`: check an object of `n` functions that is made up, from 0 to 100,000.
    Demo {
        n: u32,
    },
    /// `--help`, or `-h`.
    Help,
    /// `--version`, or `-V`.
    Version,
}
