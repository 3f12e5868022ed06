//! Alternatives: the sites of an object's code that may be patched over, the replacements that they may
//! be patched with (Linux 6.6, `struct alt_instr`), and the points of all of this code.
#![tactic(auto)]

mod check;
mod fault;
mod insns;
pub mod laws;
mod near;
mod original;
mod overlap;
mod point;
mod points;
mod site;
mod sites;
mod stored;
mod table;
mod texts;

pub use fault::{SiteFault, SiteWhy};
pub use point::Point;
pub use site::AlternativesSite;
pub use sites::Sites;
pub use special_sections::AltEntry;
pub use texts::SectionText;
