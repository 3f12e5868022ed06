//! A function of an object.

use ot_base::Place;

/// A function: the symbols of type `STT_FUNC` with one start in a text section and a size above 0.
#[derive(Clone, Copy, PartialEq, Eq)]
pub struct Function {
    /// Where it starts.
    pub start: Place,
    /// The greatest size of its symbols, in bytes.
    pub size: u64,
    /// The lowest number of its symbols. The name of this symbol is its name.
    pub sym: u32,
    /// Where its name is `P.cold`, or `P.cold.` and digits: the function that has a symbol with the name
    /// P, by its place in the list of functions, where that is another one.
    pub parent: Option<u32>,
}
