use ot_base::Options;
use x86_map::Map;

/// What the options of `check` ask for.
#[derive(Clone, Copy, PartialEq, Eq)]
pub struct CheckOptions {
    /// The opcode map by which code is read.
    pub map: Map,
    /// The rules that are looked at besides those that always are, and what the object is taken for.
    pub rules: Options,
    /// Behind each warning it is printed where it is and how control came there.
    pub backtrace: bool,
}

/// What the options of `sites` say, but for the opcode map.
#[derive(Clone, Copy, PartialEq, Eq)]
pub struct SiteOptions {
    /// The object is taken for part of a module.
    pub module: bool,
}

/// Which entry rules the options of `entry` name.
#[derive(Clone, Copy, PartialEq, Eq)]
pub struct EntryRules {
    /// Code that isn't instrumented calls no code that is.
    pub noinstr: bool,
    /// An INT3 stands behind each return and each indirect jump.
    pub sls: bool,
    /// Functions whose address is taken begin with ENDBR.
    pub ibt: bool,
}
