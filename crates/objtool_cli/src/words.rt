use cli_words::CheckOptions;

/// What `check` is asked to do.
#[derive(Clone, Copy)]
pub struct Check<'a> {
    /// The name of the object to check.
    pub input: &'a str,
    /// The name that the object with its tables is written to.
    pub output: &'a str,
    /// What its options ask for.
    pub options: CheckOptions,
    /// The file of function names, where one is given.
    pub names: Option<&'a str>,
}
