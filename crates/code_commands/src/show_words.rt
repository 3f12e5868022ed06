use x86_map::Map;

/// What `show` is asked to do.
#[derive(Clone, Copy)]
pub struct ShowAsked<'a> {
    /// The name of the object.
    pub input: &'a str,
    /// The name of the functions whose code alone is shown, where one is given.
    pub function: Option<&'a str>,
    /// The opcode map by which its code is read.
    pub map: Map,
    /// The file of function names, where one is given.
    pub names: Option<&'a str>,
}
