//! Small objects in memory.

use demo_objects::{RelSpec, Spec, SymSpec, build, section};
use elf_objects::{
    Home, R_X86_64_PLT32, Reloc, SHF_ALLOC, SHF_EXECINSTR, STB_GLOBAL, STB_LOCAL, STT_FUNC,
    STT_NOTYPE, STT_SECTION,
};
use ot_base::NoMemory;
use std::alloc::Global;

/// `sh_flags` of sections with code.
const CODE: u64 = SHF_ALLOC | SHF_EXECINSTR;

/// A section with its flags and its bytes.
type Piece<'a> = (&'a [u8], u64, &'a [u8]);

/// A symbol: its name, bind, type, section, value and size. It is undefined in section 0.
type Named<'a> = (&'a [u8], u8, u8, u32, u64, u64);

/// A relocation: the section and the offset of its field, its type, symbol and addend.
type Field = (u32, u64, u32, u32, i64);

/// The section symbol of section 1.
const TEXT: Named<'static> = (b"", STB_LOCAL, STT_SECTION, 1, 0, 0);

/// What an object has: its sections and symbols, each from number 1 on, and its relocations.
#[derive(Clone, Copy)]
struct Example<'a> {
    sections: &'a [Piece<'a>],
    symbols: &'a [Named<'a>],
    fields: &'a [Field],
}

fn symbol(alloc: Global, named: &Named<'_>) -> Result<SymSpec, NoMemory> {
    let (name, bind, kind, sec, value, size) = *named;
    let home = if sec == 0 {
        Home::Undefined
    } else {
        Home::Section(sec)
    };
    Ok(SymSpec {
        name: Vec::from_slice(alloc, name)?,
        bind,
        kind,
        home,
        value,
        size,
    })
}

fn relocation(field: &Field) -> RelSpec {
    let (sec, offset, kind, sym, addend) = *field;
    let reloc = Reloc {
        offset,
        kind,
        sym,
        addend,
    };
    RelSpec { sec, reloc }
}

/// Adds what an example has.
fn fill(alloc: Global, spec: &mut Spec, example: &Example<'_>) -> Result<(), NoMemory> {
    for (name, flags, body) in example.sections {
        spec.sections.push(section(alloc, name, *flags, body)?)?;
    }
    for named in example.symbols {
        spec.symbols.push(symbol(alloc, named)?)?;
    }
    for field in example.fields {
        spec.relocs.push(relocation(field))?;
    }
    Ok(())
}

/// The object of an example, if it makes one. What it is is told by no contract.
fn object(alloc: Global, example: &Example<'_>) -> Option<Vec<u8>> {
    let mut spec = Spec::new(alloc);
    fill(alloc, &mut spec, example).ok()?;
    build(alloc, &spec).ok()?
}

/// The object of a code: `.text` with the code, its section symbol, and the function `f` over the code.
pub fn code_in_f(alloc: Global, code: &[u8]) -> Option<Vec<u8>> {
    let sections: [Piece<'_>; 1] = [(b".text", CODE, code)];
    let symbols: [Named<'_>; 2] = [TEXT, (b"f", STB_GLOBAL, STT_FUNC, 1, 0, code.len() as u64)];
    let example = Example {
        sections: &sections,
        symbols: &symbols,
        fields: &[],
    };
    object(alloc, &example)
}

/// The object of a code that calls or jumps to a function which is defined elsewhere: `offset` is that
/// of the displacement.
pub fn code_with_call(alloc: Global, code: &[u8], offset: u64, callee: &[u8]) -> Option<Vec<u8>> {
    let sections: [Piece<'_>; 1] = [(b".text", CODE, code)];
    let symbols: [Named<'_>; 3] = [
        TEXT,
        (b"f", STB_GLOBAL, STT_FUNC, 1, 0, code.len() as u64),
        (callee, STB_GLOBAL, STT_NOTYPE, 0, 0, 0),
    ];
    let fields: [Field; 1] = [(1, offset, R_X86_64_PLT32, 3, -4)];
    let example = Example {
        sections: &sections,
        symbols: &symbols,
        fields: &fields,
    };
    object(alloc, &example)
}
