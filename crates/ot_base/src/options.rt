/// Which optional rules a check looks at, and what it takes the object for.
#[derive(Clone, Copy, PartialEq, Eq)]
pub struct Options {
    /// Each call is made with a frame pointer set up.
    pub fp: bool,
    /// No indirect branch, but at listed places.
    pub retpoline: bool,
    /// No return instruction, but at listed places.
    pub rethunk: bool,
    /// User access is off at calls and returns, but in listed functions.
    pub uaccess: bool,
    /// Each instruction is reached.
    pub unreachable: bool,
    /// The object is a linked one, in which code that a linker left without a symbol may stand unreached.
    pub link: bool,
    /// The object is part of a module, so that `.init.text` counts as other code does.
    pub module: bool,
}
