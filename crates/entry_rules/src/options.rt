//! What is asked for.

/// Which of the entry rules are asked for.
#[derive(Clone, Copy, PartialEq, Eq)]
pub struct EntryOptions {
    /// Rule 51: code that isn't instrumented may not call code that is.
    pub noinstr: bool,
    /// Rules 52 and 53: an INT3 has to follow each return and each indirect jump.
    pub sls: bool,
    /// Rule 54: an entry whose address is taken has to begin with an ENDBR.
    pub ibt: bool,
}
