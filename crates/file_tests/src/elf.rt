//! What `demo_objects` makes, and what `elf_objects` and `elf_write` answer where no command asks them.

mod adding;
mod functions;
mod insertion;
mod leaf;
mod making;
mod names;
mod readings;
