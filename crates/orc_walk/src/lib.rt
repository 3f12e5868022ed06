//! Tables of ORC rows that are placed in memory: which row holds at an address, and the walk over a stack by them (Linux 6.6,
//! `orc-unwinder.rst`).
#![tactic(auto)]

mod bases;
mod blocks;
mod faults;
mod find;
mod frame_below;
mod image;
mod image_fault;
mod image_fault_text;
mod image_laws;
mod layout;
mod lines;
mod memory;
mod numbers;
mod order;
mod ranges;
mod reading;
mod statements;
mod table;
mod walks;

pub use blocks::{BLOCK_SIZE, Blocks};
pub use faults::{PlaceFault, PlaceWhy};
pub use find::find_in;
pub use image::Image;
pub use image_fault::{ImageFault, ImageWhy};
pub use image_laws::memory_is_said;
pub use memory::Memory;
pub use numbers::{decimal, hexadecimal};
pub use table::Table;
pub use table_defs::{Frame, Range, Regs, Stop};
pub use walks::walk;
