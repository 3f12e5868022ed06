//! Pieces that texts are made of, and where texts stand.

/// The first bytes of a text, and the number of the rest.
#[derive(Clone, Copy, PartialEq, Eq, Hash)]
pub(crate) struct Piece<'a> {
    pub(crate) bytes: &'a [u8],
    pub(crate) rest: u32,
}

/// Where a text stands in the table.
#[derive(Clone, Copy)]
pub(crate) struct Span {
    pub(crate) start: u32,
    pub(crate) end: u32,
}
