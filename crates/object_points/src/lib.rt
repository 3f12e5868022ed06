//! An object with its code read, or the first fault: its texts, special sections, functions and alternatives sites; and the points
//! of this code by their numbers: their instructions, where they run, their functions, owners, sites and hints, and what the names of
//! symbols say of them.
#![tactic(auto)]

mod code_owners;
mod fault;
mod fault_text;
mod function_starts;
mod hint_points;
mod hinted;
mod linked;
mod marked_hints;
mod marks;
mod meanings;
mod owner;
mod owner_table;
mod patch_sections;
mod place_map;
mod place_set;
mod places;
mod saves;
mod site;
mod site_marks;
mod sites;
mod symbol_names;
mod text_sections;
mod texts;
mod unchecked;

pub use code_owners::{CodeOwner, CodeOwners};
pub use fault::LinkFault;
pub use fault_text::LinkFaultText;
pub use hint_points::HintPoints;
pub use linked::Linked;
pub use owner_table::OwnerTable;
pub use place_map::PlaceMap;
pub use place_set::PlaceSet;
pub use places::PointPlaces;
pub use sites::{is_into_site, list_sites, site_holding};
pub use state_defs::HintState;
pub use symbol_names::{calls_fentry, never_returns};
pub use text_sections::{list_texts, list_without_size};
pub use unchecked::is_among;
pub use x86_text::Map;
