//! The bodies of relocations.

ghost use Rattle.std.specs.Prelude.{◌≡◌, [], ◌+◌, ◌≤◌, ◌++◌, All, IfOk, OnOk, map};
ghost use Rattle.demo_objects.specs.Bodies.{AreRelocBodies};
ghost use Rattle.demo_objects.specs.Made.{reloc_bytes};

use crate::spec::RelSpec;
use elf_objects::Reloc;
use elf_write::push_u64;
use ot_base::NoMemory;
use std::alloc::Global;

/// Adds the 24 bytes of a relocation.
fn push_reloc(out: &mut Vec<u8>, reloc: &Reloc) -> Result<(), NoMemory>
    ensures { OnOk result (out.new.items ≡ out.old.items ++ reloc_bytes reloc.now) }
{
    push_u64(out, reloc.offset)?;
    push_u64(out, (u64::from(reloc.sym) << 32) + u64::from(reloc.kind))?;
    push_u64(out, reloc.addend.cast_unsigned())
}

/// So many empty bodies.
fn empty_bodies(alloc: Global, count: u32) -> Result<Vec<Vec<u8>>, NoMemory>
    ensures { IfOk result (λ bodies. AreRelocBodies [] count (map (λ v. v.items) bodies.items)) }
{
    let mut bodies = Vec::new(alloc);
    for _sec in 0..count {
        bodies.push(Vec::new(alloc))?;
    }
    Ok(bodies)
}

/// For each section number below `count` the bytes of the relocations of that section.
pub(crate) fn reloc_bodies(
    alloc: Global,
    count: u32,
    relocs: &[RelSpec],
) -> Result<Vec<Vec<u8>>, NoMemory>
    requires { All (λ r. r.sec + 1 ≤ count) relocs.now }
    ensures { IfOk result (λ bodies. AreRelocBodies relocs.now count (map (λ v. v.items) bodies.items)) }
{
    let mut bodies = empty_bodies(alloc, count)?;
    for rel in relocs {
        push_reloc(&mut bodies[rel.sec as usize], &rel.reloc)?;
    }
    Ok(bodies)
}
