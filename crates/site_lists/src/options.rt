//! What is asked of site lists.

/// What is known of an object whose sites are listed.
#[derive(Clone, Copy, PartialEq, Eq)]
pub struct ListOptions {
    /// The object is part of a module: its start-up code has call sites too.
    pub module: bool,
}
