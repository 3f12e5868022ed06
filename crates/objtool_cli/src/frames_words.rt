use x86_map::Map;

/// What `cfi` is asked to do.
#[derive(Clone, Copy)]
pub struct CfiAsked<'a> {
    /// The name of the object to check.
    pub input: &'a str,
    /// The name that the object with its call frame information is written to.
    pub output: &'a str,
    /// The opcodes that its code is read by.
    pub map: Map,
    /// The file of function names, where one is given.
    pub names: Option<&'a str>,
}
