//! Bodies of code whose boundaries `objdump -d` tells.
ghost use Rattle.std.specs.Prelude.{◌≤◌, length};

use std::alloc::Global;
use std::process::Abort;
use std::test::Fail;
use x86_text::{Insn, InsnList, Map, Op, Text, TextFault};

/// Three functions: a frame by rbp, a call, and a branch.
const CODE: [u8; 29] = [
    0x55, 0x48, 0x89, 0xE5, 0x5D, 0xC3, // push %rbp; mov %rsp,%rbp; pop %rbp; ret
    0x53, 0x48, 0x83, 0xEC, 0x10, 0xE8, 0xF0, 0xFF, 0xFF, 0xFF, // push %rbx; sub $16,%rsp; call
    0x48, 0x83, 0xC4, 0x10, 0x5B, 0xC3, // add $16,%rsp; pop %rbx; ret
    0x85, 0xFF, 0x74, 0x02, 0x55, 0x5D, 0xC3, // test %edi,%edi; je; push %rbp; pop %rbp; ret
];

const OFFSETS: [u64; 15] = [0, 1, 4, 5, 6, 7, 11, 16, 20, 21, 22, 24, 26, 27, 28];

/// The boundaries before and behind an offset are these, and an instruction begins at it where it is one.
fn expect_boundaries(rt: &impl Abort, text: &Text<'_>, off: u64) {
    let next = OFFSETS.iter().copied().find(|o| *o > off);
    let prev = OFFSETS.iter().copied().rfind(|o| *o < off);
    assert!(rt; text.next(off) == next, "next of {off}");
    assert!(rt; text.prev(off) == prev, "prev of {off}");
    assert!(rt;
        text.insn_at(off).is_some() == OFFSETS.contains(&off),
        "at {off}"
    );
}

#[test]
fn boundaries_of_a_body(rt: HostRuntime) -> Result<(), Fail> {
    let text = Text::read(
        rt.alloc(),
        Map::Base,
        &CODE,
        &mut InsnList::new(rt.alloc())?,
    )?;
    assert!(rt; text.count() == 15);
    for off in 0u64..32 {
        expect_boundaries(&rt, &text, off);
    }
    Ok(())
}

/// The instruction of this number begins at this offset, and is this one; the offset behind it.
fn expect_instruction(rt: &impl Abort, text: &Text<'_>, i: usize, begins: u64, insn: Insn) -> u64 {
    let off = text.offsets().get(i).copied().map(u64::from);
    assert!(rt;
        off == Some(begins) && text.insn_at(begins) == Some(insn),
        "at {begins}"
    );
    begins.saturating_add(u64::from(insn.len))
}

#[test]
fn instructions_of_a_body(rt: HostRuntime) -> Result<(), Fail> {
    let mut insns = InsnList::new(rt.alloc())?;
    let text = Text::read(rt.alloc(), Map::Base, &CODE, &mut insns)?;
    assert!(rt; insns.len() == OFFSETS.len());
    let mut end = 0;
    for i in 0..insns.len() {
        let off = OFFSETS.get(i).copied();
        assert!(rt; off == Some(end));
        end = expect_instruction(&rt, &text, i, end, insns.get(i));
    }
    assert!(rt; end == 29);
    assert!(rt; text.size() == 29);
    Ok(())
}

#[test]
fn instructions_by_number(rt: HostRuntime) -> Result<(), Fail> {
    let instructions: [(u32, u64, &[u8], Op); 5] = [
        (0, 0, b"\x55", Op::PushBp),
        (1, 1, b"\x48\x89\xE5", Op::LeaBpSp { by: 0 }),
        (5, 7, b"\x48\x83\xEC\x10", Op::AddSp { by: -16 }),
        (6, 11, b"\xE8\xF0\xFF\xFF\xFF", Op::Call { rel: -16 }),
        (14, 28, b"\xC3", Op::Ret),
    ];
    let text = Text::read(
        rt.alloc(),
        Map::Base,
        &CODE,
        &mut InsnList::new(rt.alloc())?,
    )?;
    for (i, begins, bytes, op) in instructions {
        assert!(rt; i < text.count());
        let (off, insn) = text.insn(i);
        assert!(rt; off == begins && insn.op == op, "instruction {i}");
        assert!(rt; text.bytes_of(i) == bytes, "bytes of instruction {i}");
    }
    Ok(())
}

/// A ud2, an emulated instruction and a return, which begin these bytes behind one another.
const EMULATED: [u8; 10] = [0x0F, 0x0B, 0x0F, 0x0B, 0x78, 0x65, 0x6E, 0x0F, 0xA2, 0xC3];

#[test]
fn ud2_beside_emulated_instructions(rt: HostRuntime) -> Result<(), Fail> {
    let mut body = Vec::new(rt.alloc());
    for _ in 0..20 {
        body.extend_from_slice(&EMULATED)?;
    }
    assert!(rt; body.len() == 200);
    let text = Text::read(
        rt.alloc(),
        Map::Whole,
        &body,
        &mut InsnList::new(rt.alloc())?,
    )?;
    let offsets = text.offsets();
    assert!(rt; offsets.len() == 60);
    for i in 0..60usize {
        let within = [0u32, 2, 9].get(i % 3).copied().unwrap_or(0);
        let off = (i / 3) as u32 * 10 + within;
        assert!(rt; offsets.get(i).copied() == Some(off), "{i}");
    }
    Ok(())
}

/// The bytes of the first instruction of a body, lent from it after its text is let go.
fn first_bytes(alloc: Global, body: &[u8]) -> Result<Option<&[u8]>, TextFault>
    requires { length body.now ≤ 16_777_216 }
{
    let text = Text::read(alloc, Map::Base, body, &mut InsnList::new(alloc)?)?;
    Ok(if text.count() == 0 {
        None
    } else {
        Some(text.bytes_of(0))
    })
}

#[test]
fn bytes_outlive_the_text(rt: HostRuntime) -> Result<(), Fail> {
    let Some(bytes) = first_bytes(rt.alloc(), &CODE[1..])? else {
        return Err(Fail::from("no instruction"));
    };
    assert!(rt; bytes == [0x48u8, 0x89, 0xE5].as_slice());
    assert!(rt; first_bytes(rt.alloc(), &[])?.is_none());
    Ok(())
}

// A jump by the table at an address, one through a register, one with a displacement of 8 bits and one of 32.
#[test]
fn jumps_by_a_table(rt: HostRuntime) -> Result<(), Fail> {
    let body = [
        0x90u8, 0xFF, 0x24, 0xC5, 0, 0, 0, 0, 0xFF, 0xE0, 0xEB, 0, 0xE9, 0, 0, 0, 0,
    ];
    let text = Text::read(
        rt.alloc(),
        Map::Base,
        &body,
        &mut InsnList::new(rt.alloc())?,
    )?;
    assert!(rt; text.count() == 5);
    let jumps = text.table_jumps();
    let offsets = [1u64, 8, 12];
    assert!(rt; jumps.len() == offsets.len());
    for (i, off) in offsets.iter().enumerate() {
        assert!(rt; jumps.get(i).map(|placed| placed.off) == Some(*off));
    }
    let table = Some(3);
    let op = Op::JmpInd { table };
    assert!(rt; jumps.first().map(|placed| placed.insn.op) == Some(op));
    Ok(())
}
