//! The numbers of the ELF-64 data types, little-endian.

ghost use Rattle.std.specs.Prelude.{◌≡◌, ◌+◌, ◌≤◌, length};
ghost use Rattle.elf_objects.specs.Number.{half, word, xword};

/// The `Elf64_Half` at an offset.
#[tactic(auto, unfolding(crate::specs::Number::half))]
pub(crate) fn half_at(bytes: &[u8], at: usize) -> u16
    requires { at + 2 ≤ length bytes.now }
    ensures { result ≡ half bytes.now at }
{
    let Some(field) = bytes[at..].first_chunk::<2>() else {
        unreachable!()
    };
    u16::from_le_bytes(*field)
}

/// The `Elf64_Word` at an offset.
#[tactic(auto, unfolding(crate::specs::Number::word))]
pub(crate) fn word_at(bytes: &[u8], at: usize) -> u32
    requires { at + 4 ≤ length bytes.now }
    ensures { result ≡ word bytes.now at }
{
    let Some(field) = bytes[at..].first_chunk::<4>() else {
        unreachable!()
    };
    u32::from_le_bytes(*field)
}

/// The `Elf64_Xword`, `Elf64_Addr` or `Elf64_Off` at an offset.
#[tactic(auto, unfolding(crate::specs::Number::xword))]
pub(crate) fn xword_at(bytes: &[u8], at: usize) -> u64
    requires { at + 8 ≤ length bytes.now }
    ensures { result ≡ xword bytes.now at }
{
    let Some(field) = bytes[at..].first_chunk::<8>() else {
        unreachable!()
    };
    u64::from_le_bytes(*field)
}
