//! What the two calls after one another give.

ghost use Rattle.elf_write.specs.AddedSymbols.{CallsAdd};

/// Where section symbols may be inserted into an object and sections may be added to the result, [`with_section_symbols`] and
/// then `elf_write::append` on what it wrote give the object with both added, and its relocations and groups name the same
/// symbols as before.
///
/// [`with_section_symbols`]: crate::with_section_symbols
pub fn calls_add()
    ensures { CallsAdd }
{}
