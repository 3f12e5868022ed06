//! What no body of code shows of single instructions.

use std::process::Abort;
use x86_decode::{DecodeFault, Insn, Map, Op, decode};

#[test]
fn no_byte_is_no_instruction(rt: HostRuntime) {
    let told = decode(Map::Base, b"");
    assert!(rt; told == Err(DecodeFault::Cut { have: 0 }));
}

/// By a map these bytes begin with this instruction.
fn expect(rt: &impl Abort, map: Map, bytes: &[u8], len: u8, op: Op) {
    let told = decode(map, bytes);
    assert!(rt; told == Ok(Insn { len, op }), "{bytes:?}");
}

// What Linux 6.12 makes of these bytes (arch/x86/include/asm/xen/prefix.h), and of a part of them.
#[test]
fn emulated_instructions(rt: HostRuntime) {
    let cpuid = b"\x0F\x0B\x78\x65\x6E\x0F\xA2";
    expect(&rt, Map::Whole, cpuid, 7, Op::Plain);
    expect(&rt, Map::Base, cpuid, 2, Op::Ud2);
    expect(&rt, Map::Whole, &cpuid[..6], 2, Op::Ud2);
    let xgetbv = b"\x0F\x0B\x6B\x76\x6D\x0F\x01\xD0";
    expect(&rt, Map::Whole, xgetbv, 8, Op::Plain);
}

#[test]
fn system_instructions_that_leave(rt: HostRuntime) {
    let leaving: [&[u8]; 5] = [
        b"\xF3\x0F\x01\xCA",
        b"\xF2\x0F\x01\xCA",
        b"\xF3\x0F\x01\xEC",
        b"\x0F\x01\xD7",
        b"\x0F\xAA",
    ];
    for (bytes, len) in leaving.iter().zip([4u8, 4, 4, 3, 2]) {
        expect(&rt, Map::Whole, bytes, len, Op::Switch);
    }
    expect(&rt, Map::Whole, b"\x0F\x01\xCA", 3, Op::Clac);
}
