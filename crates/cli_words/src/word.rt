//! The words of a command line, one by one.

ghost use Rattle.std.specs.Prelude.{◌≡◌, option_map};
ghost use Rattle.cli_words.specs.Words.{command_named, file_after, function_after, is_check_option, is_common_option, is_entry_option, is_function_option, is_names_option, is_option, is_option_of, is_same_option, is_show_option, is_sites_option, places_of};

/// The word of a command.
#[derive(Clone, Copy, PartialEq, Eq)]
pub enum CommandWord {
    /// `check`.
    Check,
    /// `dump`.
    Dump,
    /// `unwind`.
    Unwind,
    /// `sites`.
    Sites,
    /// `list`.
    List,
    /// `entry`.
    Entry,
    /// `cfi`.
    Cfi,
    /// `cfa`.
    Cfa,
    /// `merge`.
    Merge,
    /// `find`.
    Find,
    /// `show`.
    Show,
    /// `explain`.
    Explain,
    /// `demo`.
    Demo,
}

/// The command that a first word asks for.
pub(crate) fn command_named(word: &str) -> Option<CommandWord>
    ensures { result ≡ command_named word.now }
{
    match word {
        "check" => Some(CommandWord::Check),
        "dump" => Some(CommandWord::Dump),
        "unwind" => Some(CommandWord::Unwind),
        "sites" => Some(CommandWord::Sites),
        "list" => Some(CommandWord::List),
        "entry" => Some(CommandWord::Entry),
        "cfi" => Some(CommandWord::Cfi),
        "cfa" => Some(CommandWord::Cfa),
        "merge" => Some(CommandWord::Merge),
        "find" => Some(CommandWord::Find),
        "show" => Some(CommandWord::Show),
        "explain" => Some(CommandWord::Explain),
        "demo" => Some(CommandWord::Demo),
        _ => None,
    }
}

impl CommandWord {
    /// How many names or numbers stand behind it; `explain` does with none, too.
    pub(crate) fn places(self) -> usize
        ensures { result ≡ places_of self }
    {
        match self {
            CommandWord::Dump | CommandWord::List | CommandWord::Entry => 1,
            CommandWord::Cfa | CommandWord::Show => 1,
            CommandWord::Explain | CommandWord::Demo => 1,
            _ => 2,
        }
    }

    /// Whether a word is one of its options.
    pub(crate) fn has_option(self, word: &str) -> bool
        ensures { result ≡ is_option_of self word.now }
    {
        match self {
            CommandWord::Check => is_check_option(word),
            CommandWord::Sites => is_sites_option(word),
            CommandWord::Cfi => is_common_option(word),
            CommandWord::Entry => is_entry_option(word),
            CommandWord::Show => is_show_option(word),
            _ => false,
        }
    }
}

/// Whether a word behind a command is an option: it begins with a dash.
pub(crate) fn is_option(word: &str) -> bool
    ensures { result ≡ is_option word.now }
{
    match word.as_bytes() {
        [] => false,
        [first, ..] => *first == b'-',
    }
}

/// The name of a file of function names, where a word gives one.
pub(crate) fn file_after(word: &str) -> Option<&str>
    ensures { option_map (λ file. file.now) result ≡ file_after word.now }
{
    word.strip_prefix("--names=")
}

/// Whether a word gives a file of function names.
pub(crate) fn is_names_option(word: &str) -> bool
    ensures { result ≡ is_names_option word.now }
{
    file_after(word).is_some()
}

/// The name of a function, where a word gives one.
fn function_after(word: &str) -> Option<&str>
    ensures { option_map (λ function. function.now) result ≡ function_after word.now }
{
    word.strip_prefix("--function=")
}

/// Whether a word gives the name of a function.
fn is_function_option(word: &str) -> bool
    ensures { result ≡ is_function_option word.now }
{
    function_after(word).is_some()
}

/// Whether a word is an option that each of `check`, `sites`, `entry`, `cfi` and `show` has.
fn is_common_option(word: &str) -> bool
    ensures { result ≡ is_common_option word.now }
{
    word == "--all-opcodes" || is_names_option(word)
}

/// Whether a word is an option of `check`.
fn is_check_option(word: &str) -> bool
    ensures { result ≡ is_check_option word.now }
{
    match word {
        "--fp" | "--retpoline" | "--rethunk" | "--uaccess" => true,
        "--no-unreachable" | "--link" | "--module" | "--backtrace" => true,
        _ => is_common_option(word),
    }
}

/// Whether a word is an option of `sites`.
fn is_sites_option(word: &str) -> bool
    ensures { result ≡ is_sites_option word.now }
{
    match word {
        "--module" => true,
        _ => is_common_option(word),
    }
}

/// Whether a word is an option of `entry`.
fn is_entry_option(word: &str) -> bool
    ensures { result ≡ is_entry_option word.now }
{
    match word {
        "--noinstr" | "--sls" | "--ibt" => true,
        _ => is_common_option(word),
    }
}

/// Whether a word is an option of `show`.
fn is_show_option(word: &str) -> bool
    ensures { result ≡ is_show_option word.now }
{
    is_function_option(word) || is_common_option(word)
}

/// Whether two words give the same option.
pub(crate) fn is_same_option(one: &str, other: &str) -> bool
    ensures { result ≡ is_same_option one.now other.now }
{
    one == other
        || is_names_option(one) && is_names_option(other)
        || is_function_option(one) && is_function_option(other)
}
