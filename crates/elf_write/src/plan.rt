//! Where the new pieces go.

ghost use Rattle.std.specs.Prelude.{◌≡◌, ◌+◌, ◌<◌, ◌^◌};
ghost use Rattle.elf_write.specs.SymbolLayout.{renumbered};

/// Where the new pieces go, in bytes from the file's beginning, and which symbols get new numbers.
#[derive(Clone, Copy)]
pub(crate) struct Plan {
    /// How many symbols are local.
    pub(crate) locals: u32,
    /// How many symbols are inserted behind these.
    pub(crate) count: u32,
    /// Where the symbol table goes.
    pub(crate) symbols_at: u64,
    /// Where the table of section numbers goes.
    pub(crate) numbers_at: u64,
    /// Where the headers go.
    pub(crate) headers_at: u64,
}

impl Plan {
    /// The new number of a symbol.
    pub(crate) fn renumbered(&self, sym: u32) -> u32
        requires { sym + self.now.count < 2 ^ 32 }
        ensures { result ≡ renumbered self.now.locals self.now.count sym }
    {
        if sym < self.locals {
            sym
        } else {
            sym + self.count
        }
    }
}
