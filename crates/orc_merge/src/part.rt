use ot_base::PlacedRow;
use table_defs::Range;

/// The rows of one object, and where its text sections lie in memory.
#[derive(Drop)]
pub struct Part {
    /// The rows, at their places in the object.
    pub rows: Vec<PlacedRow>,
    /// The ranges of its sections. Of two of one section the first counts.
    pub ranges: Vec<Range>,
}
