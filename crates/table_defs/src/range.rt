/// Where a text section lies in memory.
#[derive(Clone, Copy, PartialEq, Eq)]
pub struct Range {
    /// The section's number in the section header table.
    pub sec: u32,
    /// The address of the section's first byte.
    pub base: u64,
    /// Bytes of the section.
    pub size: u64,
}
