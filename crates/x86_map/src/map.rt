/// Which opcode map is asked.
#[derive(Clone, Copy, PartialEq, Eq)]
pub enum Map {
    /// The instructions of kernel code without vectors and virtual machines.
    Base,
    /// Those of the base map, and of the extension: vectors, virtual machines and newer system instructions.
    Whole,
}
