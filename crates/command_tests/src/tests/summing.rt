//! The check of bytes that no file holds, and an output that takes a byte a write.

use super::objects::{code_in_f, code_with_call};
use super::running::{run_words, words_of};
use objtool_cli::{Status, summary};
use ot_files::{MemFiles, MemSink};
use std::alloc::Global;

/// Words, and the line that they print.
const LINE: &str = "demo 3";

const TEXT: &str = "demo 3: functions 3, instructions 15, rows 11, text bytes 29\n";

/// An output that takes one byte a write and fails at one.
fn output_of(alloc: Global, cut: usize) -> Option<MemSink> {
    let failing = vec![in alloc; cut as u64].ok()?;
    Some(MemSink::new(alloc, 1, failing))
}

/// Whether an output that fails at a byte has exactly those before it, or all where none fails.
fn is_cut(alloc: Global, cut: usize) -> Option<bool> {
    let words = words_of(alloc, LINE).ok()?;
    let mut files = MemFiles::new(alloc, Vec::new(alloc), Vec::new(alloc));
    let mut out = output_of(alloc, cut)?;
    let status = run_words(alloc, &words, &mut files, &mut out);
    let whole = if cut < TEXT.len() {
        Status::SinkFault
    } else {
        Status::Done
    };
    Some(status == whole && TEXT.as_bytes().get(..cut) == Some(out.written()))
}

#[test]
fn a_line_is_cut_where_the_output_fails(rt: HostRuntime) {
    for cut in 0..=TEXT.len() {
        assert!(rt; is_cut(rt.alloc(), cut) == Some(true), "{cut}");
    }
}

/// How bytes with the title `x` are summed up. What that comes to is told by no contract.
fn summed(alloc: Global, bytes: &[u8], out: &mut MemSink) -> Option<Status> {
    if bytes.len() < 1000 {
        Some(summary(alloc, "x", bytes, out))
    } else {
        None
    }
}

/// Whether bytes end with this status and print this text.
fn is_summed(alloc: Global, bytes: &[u8], status: Status, text: &str) -> Option<bool> {
    let mut out = MemSink::new(alloc, 100, Vec::new(alloc));
    let found = summed(alloc, bytes, &mut out)?;
    Some(found == status && out.written() == text.as_bytes())
}

/// push %rbp; push %rbx; sub $24,%rsp; mov %rdi,%rbp; call g; test %eax,%eax; je to the add; call f; add $24,%rsp; pop %rbx;
/// pop %rbp; ret
const CALLS: [u8; 30] = [
    0x55, 0x53, 0x48, 0x83, 0xEC, 0x18, 0x48, 0x89, 0xFD, 0xE8, 0, 0, 0, 0, 0x85, 0xC0, 0x74, 0x05,
    0xE8, 0xE9, 0xFF, 0xFF, 0xFF, 0x48, 0x83, 0xC4, 0x18, 0x5B, 0x5D, 0xC3,
];

/// A code, and how its bytes are summed up.
const SUMMED: [(&[u8], Status, &str); 2] = [
    // push %rbx; ret
    (
        b"\x53\xC3",
        Status::Warnings,
        ".text+0x1: rule 5: return with modified stack: depth 16\n",
    ),
    (b"", Status::Refused, "refused: symbol 2: bad function\n"),
];

/// Whether the object of a code is summed up so.
fn is_code_summed(alloc: Global, code: &[u8], status: Status, text: &str) -> Option<bool> {
    let object = code_in_f(alloc, code)?;
    is_summed(alloc, &object, status, text)
}

/// Whether that of the calls is.
fn are_calls_summed(alloc: Global) -> Option<bool> {
    let object = code_with_call(alloc, &CALLS, 10, b"g")?;
    let text = "x: functions 1, instructions 12, rows 8, text bytes 30\n";
    is_summed(alloc, &object, Status::Done, text)
}

#[test]
fn bytes_are_summed_up(rt: HostRuntime) {
    assert!(rt; are_calls_summed(rt.alloc()) == Some(true));
    for (code, status, text) in SUMMED {
        let found = is_code_summed(rt.alloc(), code, status, text);
        assert!(rt; found == Some(true), "{text}");
    }
}
