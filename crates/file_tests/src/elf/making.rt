//! Objects that are made, and what cannot be made.

use super::leaf::leaf;
use demo_objects::{RelSpec, Spec, SymSpec, build, section};
use elf_objects::{
    Home, R_X86_64_PC32, Reloc, SHF_ALLOC, SHF_EXECINSTR, SHT_NOBITS, SHT_PROGBITS, STB_GLOBAL,
    STB_LOCAL, STT_FUNC, STT_SECTION,
};
use elf_write::NewSection;
use ot_base::NoMemory;
use std::alloc::Global;
use std::process::Abort;

/// The code `55 48 89 E5 5D C3` in a section, the symbol of the section, by its binding, another symbol, and a relocation.
#[derive(Clone, Copy)]
struct Parts {
    section: &'static [u8],
    kind: u32,
    align: u64,
    first: u8,
    symbol: &'static [u8],
    bind: u8,
    of: u8,
    home: Home,
    rel: RelSpec,
}

/// The function `f0`, and a relocation of the section by it.
const RIGHT: Parts = Parts {
    section: b".text",
    kind: SHT_PROGBITS,
    align: 1,
    first: STB_LOCAL,
    symbol: b"f0",
    bind: STB_GLOBAL,
    of: STT_FUNC,
    home: Home::Section(1),
    rel: CALL,
};

/// A relocation of section 1 by symbol 2.
const CALL: RelSpec = RelSpec {
    sec: 1,
    reloc: BY_F0,
};

const BY_F0: Reloc = Reloc {
    offset: 2,
    kind: R_X86_64_PC32,
    sym: 2,
    addend: -4,
};

fn symbol(alloc: Global, name: &[u8], bind: u8, kind: u8, home: Home) -> Result<SymSpec, NoMemory> {
    let size = if kind == STT_SECTION { 0 } else { 6 };
    Ok(SymSpec {
        name: Vec::from_slice(alloc, name)?,
        bind,
        kind,
        home,
        value: 0,
        size,
    })
}

/// The section of the code.
fn text(alloc: Global, parts: &Parts) -> Result<NewSection, NoMemory> {
    let flags = SHF_ALLOC + SHF_EXECINSTR;
    let mut text = section(alloc, parts.section, flags, b"\x55\x48\x89\xE5\x5D\xC3")?;
    text.kind = parts.kind;
    text.align = parts.align;
    Ok(text)
}

fn sections(alloc: Global, parts: &Parts) -> Result<Vec<NewSection>, NoMemory> {
    let mut all = Vec::new(alloc);
    all.push(text(alloc, parts)?)?;
    Ok(all)
}

fn symbols(alloc: Global, parts: &Parts) -> Result<Vec<SymSpec>, NoMemory> {
    let mut all = Vec::new(alloc);
    let home = Home::Section(1);
    all.push(symbol(alloc, b"", parts.first, STT_SECTION, home)?)?;
    all.push(symbol(alloc, parts.symbol, parts.bind, parts.of, parts.home)?)?;
    Ok(all)
}

/// What the object of these parts is made of, without the relocation.
fn spec_of(alloc: Global, parts: &Parts) -> Result<Spec, NoMemory> {
    Ok(Spec {
        sections: sections(alloc, parts)?,
        symbols: symbols(alloc, parts)?,
        relocs: Vec::new(alloc),
    })
}

/// The object of a specification, if it makes one. What it is is told by no contract.
fn built(alloc: Global, spec: &Spec) -> Result<Option<Vec<u8>>, NoMemory> {
    build(alloc, spec)
}

/// The object of these parts and relocations, if they make one.
fn made(alloc: Global, parts: &Parts, relocs: &[RelSpec]) -> Result<Option<Vec<u8>>, NoMemory> {
    let mut spec = spec_of(alloc, parts)?;
    spec.relocs.extend_from_slice(relocs)?;
    built(alloc, &spec)
}

/// Whether these parts and relocations make an object.
fn is_made(alloc: Global, parts: &Parts, relocs: &[RelSpec]) -> Option<bool> {
    Some(made(alloc, parts, relocs).ok()?.is_some())
}

/// The leaf, made.
fn made_leaf(alloc: Global) -> Option<Vec<u8>> {
    made(alloc, &RIGHT, &[]).ok()?
}

#[test]
fn the_leaf_byte_by_byte(rt: HostRuntime) {
    let file = made_leaf(rt.alloc()).expect(&rt, "the leaf can be made");
    assert!(rt; file.as_slice() == leaf());
}

/// Parts of which no object is made.
const WRONG: [Parts; 13] = [
    // A local symbol behind a global one.
    Parts {
        first: STB_GLOBAL,
        bind: STB_LOCAL,
        ..RIGHT
    },
    Parts {
        section: b"a\0",
        ..RIGHT
    },
    Parts {
        kind: SHT_NOBITS,
        ..RIGHT
    },
    Parts { align: 0, ..RIGHT },
    Parts {
        symbol: b"f\0",
        ..RIGHT
    },
    Parts { bind: 16, ..RIGHT },
    Parts { of: 16, ..RIGHT },
    Parts {
        home: Home::Section(0),
        ..RIGHT
    },
    Parts {
        home: Home::Section(6),
        ..RIGHT
    },
    Parts {
        rel: RelSpec { sec: 0, ..CALL },
        ..RIGHT
    },
    Parts {
        rel: RelSpec { sec: 2, ..CALL },
        ..RIGHT
    },
    Parts {
        rel: RelSpec {
            reloc: Reloc { sym: 3, ..BY_F0 },
            ..CALL
        },
        ..RIGHT
    },
    Parts {
        rel: RelSpec {
            reloc: Reloc { offset: 3, ..BY_F0 },
            ..CALL
        },
        ..RIGHT
    },
];

/// No object is made of these parts with their relocation.
fn expect_unmade(rt: &impl Abort, alloc: Global, wrong: &[Parts]) {
    for parts in wrong {
        assert!(rt; is_made(alloc, parts, &[parts.rel]) == Some(false));
    }
}

#[test]
fn what_cannot_be_made(rt: HostRuntime) {
    assert!(rt; is_made(rt.alloc(), &RIGHT, &[CALL]) == Some(true));
    expect_unmade(&rt, rt.alloc(), &WRONG);
}
