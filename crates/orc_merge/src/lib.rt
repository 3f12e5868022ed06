//! One ORC table of many objects: their rows merged at their addresses, the bytes of such a table, look-ups in it, and the layout
//! that says where the sections of each object lie.
#![tactic(auto)]

mod addresses;
mod bytes;
mod ends;
mod fault_texts;
mod faults;
mod laws;
mod layout;
mod layout_lines;
mod merged;
mod overlaps;
mod part;
mod places;
mod row_bytes;
mod table_reading;

pub use faults::{LayoutFault, LayoutWhy, MergeFault, TableFault};
pub use laws::{merged_rows_are_determined, merged_rows_find_alike, merged_rows_walk_alike};
pub use layout::{Layout, LayoutFile};
pub use merged::{MOST_ROWS, Merged};
pub use orc_walk::{PlaceFault, PlaceWhy, Range};
pub use part::Part;
