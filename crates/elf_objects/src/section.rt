//! A section as it is lent.

/// A section: the fields of its header, and its body. Its name is read by
/// [`name_of_section`](crate::Object::name_of_section) and its kin alone, since that takes the time
/// of the name's length.
#[derive(Clone, Copy)]
pub struct Section<'a> {
    /// `sh_type`.
    pub kind: u32,
    /// `sh_flags`.
    pub flags: u64,
    /// `sh_addr`.
    pub addr: u64,
    /// `sh_offset`, in bytes from the file's beginning.
    pub offset: u64,
    /// `sh_size`, in bytes.
    pub size: u64,
    /// `sh_link`.
    pub link: u32,
    /// `sh_info`.
    pub info: u32,
    /// `sh_addralign`.
    pub align: u64,
    /// `sh_entsize`, in bytes.
    pub entsize: u64,
    /// The bytes of the section; empty for `SHT_NULL` and `SHT_NOBITS`.
    pub body: &'a [u8],
}
