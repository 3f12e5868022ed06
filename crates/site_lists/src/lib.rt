//! Site lists: the places of returns, of indirect branches through thunks and of calls in an object's code, which a kernel patches
//! when it boots; how sections hold them, and which an object has (Linux 6.6, tools/objtool/Documentation/objtool.txt).
#![tactic(auto)]

mod bodies;
mod code_sites;
mod existing;
mod fault;
mod fault_text;
mod laws;
mod lists;
mod named;
mod needed;
mod options;
mod output;
mod reading;
mod relocs;
mod sections;
mod tables;

pub use bodies::{SiteSection, SiteSections, encode};
pub use code_sites::sites;
pub use existing::first_site_section;
pub use fault::SitesFault;
pub use laws::{bodies_are_held, lists_are_determined};
pub use lists::SiteLists;
pub use options::ListOptions;
pub use orc_bytes::SlotWhy;
pub use orc_output::TableFault;
pub use output::with_lists;
pub use reading::decode;
pub use tables::with_sites;
