//! The records of `.eh_frame` as bytes.

ghost use Rattle.std.specs.Prelude.{◌≡◌, ◌≤◌, ◌<◌, ◌+◌, ◌^◌, ◌↔◌, ◌++◌, List, ℕ, false, drop, take, length, IfSome, IfNone, IsTrue};
ghost use Rattle.eh_frame.specs.Records.{cie, terminator, IsEntry};

use byteorder::{ByteOrder, LittleEndian};

/// The common information entry (DWARF 4, section 6.4.1): version 1, augmentation "zR" with addresses of form 1B, code
/// alignment factor 1, data alignment factor -1, return address in column 16; `DW_CFA_def_cfa` of rsp and 8, `DW_CFA_offset` of
/// column 16 at 8 below, and padding.
pub(crate) const CIE: [u8; 24] = [
    0x14, 0x00, 0x00, 0x00, 0x00, 0x00, 0x00, 0x00, 0x01, 0x7A, 0x52, 0x00, 0x01, 0x7F, 0x10, 0x01,
    0x1B, 0x0C, 0x07, 0x08, 0x90, 0x08, 0x00, 0x00,
];

/// The length of zero that ends the section.
pub(crate) const TERMINATOR: [u8; 4] = [0; 4];

/// What a frame description entry says of itself.
#[derive(Clone, Copy)]
pub(crate) struct EntryBytes<'a> {
    /// The size of the section that it is for, in bytes.
    pub size: u32,
    /// Its instructions.
    pub spelled: &'a [u8],
}

/// Whether a section begins with the CIE.
pub(crate) fn begins_with_cie(body: &[u8]) -> bool
    ensures some { IsTrue result → take 24 body.now ≡ cie }
    ensures none { result ≡ false → (behind : List ℕ) → body.now ≡ cie ++ behind → ⊥ }
{
    body.len() >= CIE.len() && &body[..CIE.len()] == CIE.as_slice()
}

/// Whether these bytes are the length that ends the section, and nothing else.
pub(crate) fn is_terminator(bytes: &[u8]) -> bool
    ensures { IsTrue result ↔ bytes.now ≡ terminator }
{
    bytes == TERMINATOR.as_slice()
}

/// The frame description entry at the beginning of some bytes, which stand at this offset of the section.
pub(crate) fn read_entry<'a>(bytes: &'a [u8], at: usize) -> Option<EntryBytes<'a>>
    requires { at + length bytes.now < 2 ^ 32 }
    ensures some { IfSome result (λ e. IsEntry at bytes.now e.size e.spelled.now (drop (17 + length e.spelled.now) bytes.now)) }
    ensures short { IfSome result (λ e. 17 + length e.spelled.now ≤ length bytes.now) }
    ensures none { IfNone result ((size : ℕ) (spelled behind : List ℕ) → IsEntry at bytes.now size spelled behind → ⊥) }
{
    if bytes.len() < 17 {
        return None;
    }
    let length = LittleEndian::read_u32(bytes) as usize;
    if length < 13 || length > bytes.len() - 4 || length % 8 != 4 {
        return None;
    }
    let back = LittleEndian::read_u32(&bytes[4..]);
    let address = LittleEndian::read_u32(&bytes[8..]);
    if back as usize != at + 4 || address != 0 || bytes[16] != 0 {
        return None;
    }
    Some(EntryBytes {
        size: LittleEndian::read_u32(&bytes[12..]),
        spelled: &bytes[17..4 + length],
    })
}
