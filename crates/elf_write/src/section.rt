// A section to add.

/// A section to add to an object: the fields of its header that the caller chooses (ELF-64 gABI,
/// section header), its name and its body. Its address is 0, and its offset and size are those of
/// its body in the new file.
#[derive(Drop)]
pub struct NewSection {
    /// The name, free of zero bytes. The zero byte that ends it in the name table isn't part of it.
    pub name: Vec<u8>,
    /// sh_type.
    pub kind: u32,
    /// sh_flags.
    pub flags: u64,
    /// sh_link, the number of a section.
    pub link: u32,
    /// sh_info.
    pub info: u32,
    /// sh_addralign, in bytes.
    pub align: u64,
    /// sh_entsize, in bytes: 0 for a section without entries of one size.
    pub entsize: u64,
    /// The body's bytes.
    pub body: Vec<u8>,
}
