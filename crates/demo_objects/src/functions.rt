//! An object of functions one after the other.

ghost use Rattle.std.specs.Prelude.{◌≡◌, ◌+◌, ◌≤◌, ◌++◌, codes, IfOk, length};
ghost use Rattle.std.specs.Fmt.{decimal};
ghost use Rattle.elf_objects.specs.Contents.{elf_of};
ghost use Rattle.elf_objects.specs.Object.{IsWellFormed};
ghost use Rattle.demo_objects.specs.Demo.{demo_code, demo_spec, demo_symbol, demo_text, text_symbol};
ghost use Rattle.demo_objects.specs.Made.{made};
ghost use Rattle.demo_objects.specs.Object.{IsMadeFrom};
ghost use Rattle.demo_objects.specs.Spec.{spec_of, symbol_of};

use crate::object::make;
use crate::spec::{Spec, SymSpec, section};
use elf_objects::{Home, SHF_ALLOC, SHF_EXECINSTR, STB_GLOBAL, STB_LOCAL, STT_FUNC, STT_SECTION};
use elf_write::push_bytes;
use ot_base::NoMemory;
use std::alloc::Global;

/// The code of the function with a number, by its remainder modulo 3.
fn code_of(i: u32) -> &'static [u8]
    ensures { result.now ≡ demo_code i }
{
    match i % 3 {
        // push %rbp; mov %rsp,%rbp; pop %rbp; ret
        0 => b"\x55\x48\x89\xE5\x5D\xC3",
        // push %rbx; sub $16,%rsp; call of the function before it; add $16,%rsp; pop %rbx; ret
        1 => b"\x53\x48\x83\xEC\x10\xE8\xF0\xFF\xFF\xFF\x48\x83\xC4\x10\x5B\xC3",
        // test %edi,%edi; je to the ret; push %rbp; pop %rbp; ret
        _ => b"\x85\xFF\x74\x02\x55\x5D\xC3",
    }
}

/// `f` and the number of a function.
fn name_of(alloc: Global, i: u32) -> Result<Vec<u8>, NoMemory>
    ensures { IfOk result (λ name. name.items ≡ codes "f" ++ decimal i) }
{
    let number = format!(in alloc; "{i}")?;
    let mut name = Vec::from_slice(alloc, b"f")?;
    push_bytes(&mut name, number.as_bytes())?;
    Ok(name)
}

/// The symbol that stands for `.text`.
fn text_symbol(alloc: Global) -> SymSpec
    ensures { symbol_of result ≡ text_symbol }
{
    SymSpec {
        name: Vec::new(alloc),
        bind: STB_LOCAL,
        kind: STT_SECTION,
        home: Home::Section(1),
        value: 0,
        size: 0,
    }
}

/// The symbol of the function with a number, which begins at `value`.
fn function(alloc: Global, i: u32, value: u64) -> Result<SymSpec, NoMemory>
    requires { value ≡ length (demo_text i) }
    ensures { IfOk result (λ symbol. symbol_of symbol ≡ demo_symbol i) }
{
    Ok(SymSpec {
        name: name_of(alloc, i)?,
        bind: STB_GLOBAL,
        kind: STT_FUNC,
        home: Home::Section(1),
        value,
        size: code_of(i).len() as u64,
    })
}

/// What the object of so many functions is to say.
fn spec_of_functions(alloc: Global, n: u32) -> Result<Spec, NoMemory>
    ensures { IfOk result (λ spec. spec_of spec ≡ demo_spec n) }
{
    let mut symbols = Vec::new(alloc);
    symbols.push(text_symbol(alloc))?;
    let mut text = Vec::new(alloc);
    for i in 0..n {
        symbols.push(function(alloc, i, text.len() as u64)?)?;
        push_bytes(&mut text, code_of(i))?;
    }
    let code = section(alloc, b".text", SHF_ALLOC | SHF_EXECINSTR, &text)?;
    Ok(Spec {
        sections: vec![in alloc; code]?,
        symbols,
        relocs: Vec::new(alloc),
    })
}

/// The object of the functions `f0`, `f1` and so on, `n` of them, one after the other in `.text`.
///
/// Of each three, the first has a frame, the second calls the first and the third branches. The symbols
/// are the section symbol of `.text`, and then that of each function, global and of type FUNC. It is
/// what [`make`] makes of these.
///
/// # Errors
///
/// [`NoMemory`] where memory was wanted and not there.
pub fn demo(alloc: Global, n: u32) -> Result<Vec<u8>, NoMemory>
    requires { n ≤ 100000 }
    ensures layout { IfOk result (λ file. file.items ≡ made (demo_spec n)) }
    ensures well_formed { IfOk result (λ file. IsWellFormed file.items) }
    ensures object { IfOk result (λ file. IsMadeFrom (demo_spec n) (elf_of file.items)) }
{
    let spec = spec_of_functions(alloc, n)?;
    make(alloc, &spec)
}
