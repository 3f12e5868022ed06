//! Whole commands over files and an output in memory.

mod calls;
mod files;
mod memory;
mod objects;
mod running;
mod summing;
