//! What an object is to say.

ghost use Rattle.std.specs.Prelude.{◌≡◌, [], IfOk};
ghost use Rattle.elf_objects.specs.declared.TheConstants.{SHT_PROGBITS};
ghost use Rattle.elf_write.specs.New.{entry_of};
ghost use Rattle.demo_objects.specs.Spec.{spec_of};

use elf_objects::{Home, Reloc, SHT_PROGBITS};
use elf_write::NewSection;
use ot_base::NoMemory;
use std::alloc::Global;

/// What an object is to say. Section 0 and symbol 0, which each object has, are not told.
#[derive(Drop)]
pub struct Spec {
    /// The sections, from number 1 on.
    pub sections: Vec<NewSection>,
    /// The symbols, from number 1 on. The local ones stand first.
    pub symbols: Vec<SymSpec>,
    /// The relocations. Those of one section keep their order.
    pub relocs: Vec<RelSpec>,
}

impl Spec {
    /// Nothing yet.
    pub fn new(alloc: Global) -> Spec
        ensures { spec_of result ≡ record { sections = []; symbols = []; relocs = [] } }
    {
        Spec {
            sections: Vec::new(alloc),
            symbols: Vec::new(alloc),
            relocs: Vec::new(alloc),
        }
    }
}

/// A section of type PROGBITS with a name, `sh_flags` and a body. It has no entries of one size, and is
/// aligned to one byte.
///
/// # Errors
///
/// [`NoMemory`] where memory was wanted and not there.
pub fn section(alloc: Global, name: &[u8], flags: u64, body: &[u8]) -> Result<NewSection, NoMemory>
    ensures { IfOk result (λ made. entry_of made ≡ record {
      name = name.now;
      kind = SHT_PROGBITS;
      flags = flags;
      link = 0;
      info = 0;
      align = 1;
      entsize = 0;
      body = body.now;
    }) }
{
    Ok(NewSection {
        name: Vec::from_slice(alloc, name)?,
        kind: SHT_PROGBITS,
        flags,
        link: 0,
        info: 0,
        align: 1,
        entsize: 0,
        body: Vec::from_slice(alloc, body)?,
    })
}

/// A symbol of an object.
#[derive(Drop)]
pub struct SymSpec {
    /// The name, free of zero bytes.
    pub name: Vec<u8>,
    /// The high four bits of `st_info`.
    pub bind: u8,
    /// The low four bits of `st_info`.
    pub kind: u8,
    /// Where it is defined.
    pub home: Home,
    /// `st_value`: an offset in its home.
    pub value: u64,
    /// `st_size`, in bytes.
    pub size: u64,
}

/// A relocation of a section.
#[derive(Clone, Copy, PartialEq, Eq)]
pub struct RelSpec {
    /// The number of the section that it changes.
    pub sec: u32,
    /// The relocation.
    pub reloc: Reloc,
}
