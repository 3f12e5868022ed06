//! Files and outputs in memory by tables of calls, and what the program never writes.
ghost use Rattle.std.specs.Prelude.{IfOk, IsTrue};
ghost use Rattle.ot_files.specs.Memory.{names_of, names_differ};

use ot_files::{
    FileError, Files, MemFiles, MemSink, Sink, SinkError, StdSink, SureFiles, SureSink, write_line,
};
use std::alloc::{AllocError, Global};
use std::process::Abort;

// `a` holds `abc`, and `b` nothing.
fn entries(alloc: Global) -> Result<Vec<(String, Vec<u8>)>, AllocError>
    ensures { IfOk result (λ entries. IsTrue (names_differ (names_of entries.items))) }
{
    let first = (
        String::from_str(alloc, "a")?,
        Vec::from_slice(alloc, b"abc")?,
    );
    let second = (String::from_str(alloc, "b")?, Vec::new(alloc));
    Ok(vec![in alloc; first, second]?)
}

fn sure_files(alloc: Global) -> Option<SureFiles> {
    let entries = entries(alloc).ok()?;
    Some(SureFiles::new(alloc, entries))
}

/// The same, of whose calls those with these numbers fail.
fn mem_files(alloc: Global, failing: &[u64]) -> Option<MemFiles> {
    let failing = Vec::from_slice(alloc, failing).ok()?;
    let entries = entries(alloc).ok()?;
    Some(MemFiles::new(alloc, entries, failing))
}

// A name, a limit, the answer to a read, and what is held after it.
type ReadRow = (&'static str, u64, Result<(), FileError>, &'static str);

// A name, bytes, and the answer to a write.
type WriteRow = (&'static str, &'static str, Result<(), FileError>);

/// Whether a read answers so, and that is held after it.
fn is_read<F: Files>(files: &mut F, into: &mut Vec<u8>, row: ReadRow) -> bool {
    let (name, limit, answer, held) = row;
    files.read(name, limit, into) == answer && into.as_slice() == held.as_bytes()
}

/// Whether a write answers so.
fn is_written<F: Files>(files: &mut F, row: WriteRow) -> bool {
    let (name, bytes, answer) = row;
    files.write(name, bytes.as_bytes()) == answer
}

fn expect_reads<F: Files>(rt: &impl Abort, alloc: Global, files: &mut F, rows: &[ReadRow]) {
    let mut into = Vec::from_slice(alloc, b"before").expect(rt, "memory");
    for row in rows {
        assert!(rt; is_read(files, &mut into, *row), "{}", row.0);
    }
}

fn expect_writes<F: Files>(rt: &impl Abort, files: &mut F, rows: &[WriteRow]) {
    for row in rows {
        assert!(rt; is_written(files, *row), "{}", row.0);
    }
}

// The answers that the content `a: abc`, `b:` gives.
const READS: [ReadRow; 6] = [
    ("a", 3, Ok(()), "abc"),
    ("a", u64::MAX, Ok(()), "abc"),
    ("a", 2, Err(FileError::TooLong { limit: 2 }), ""),
    ("b", 0, Ok(()), ""),
    ("c", 9, Err(FileError::Missing), ""),
    ("", 9, Err(FileError::Missing), ""),
];

#[test]
fn a_read_answers_by_the_content(rt: HostRuntime) {
    let mut sure = sure_files(rt.alloc()).expect(&rt, "memory");
    expect_reads(&rt, rt.alloc(), &mut sure, &READS);
    let mut mem = mem_files(rt.alloc(), &[]).expect(&rt, "memory");
    expect_reads(&rt, rt.alloc(), &mut mem, &READS);
    assert!(rt; mem.faults() == 0);
}

const WRITES: [WriteRow; 3] = [
    ("b", "new", Ok(())),
    ("b", "x", Ok(())),
    ("c", "more", Ok(())),
];

const WRITTEN: [(&str, Option<&str>); 4] = [
    ("a", Some("abc")),
    ("b", Some("x")),
    ("c", Some("more")),
    ("d", None),
];

/// Whether a name holds a text.
fn holds(files: &SureFiles, name: &str, text: Option<&str>) -> bool {
    files.content(name) == text.map(|text| text.as_bytes())
}

#[test]
fn a_write_replaces_one_name(rt: HostRuntime) {
    let mut files = sure_files(rt.alloc()).expect(&rt, "memory");
    expect_writes(&rt, &mut files, &WRITES);
    for (name, text) in WRITTEN {
        assert!(rt; holds(&files, name, text), "{name}");
    }
}

/// The calls with numbers 1 and 3 fail.
fn expect_failing(rt: &impl Abort, alloc: Global, files: &mut MemFiles) {
    expect_writes(rt, files, &[("c", "new", Ok(()))]);
    let reads: [ReadRow; 2] = [
        ("a", 9, Err(FileError::Failed), ""),
        ("a", 9, Ok(()), "abc"),
    ];
    expect_reads(rt, alloc, files, &reads);
    expect_writes(rt, files, &[("a", "lost", Err(FileError::Failed))]);
    expect_reads(rt, alloc, files, &[("a", 9, Ok(()), "abc")]);
}

#[test]
fn the_numbered_calls_fail(rt: HostRuntime) {
    let mut files = mem_files(rt.alloc(), &[3, 1]).expect(&rt, "memory");
    expect_failing(&rt, rt.alloc(), &mut files);
    assert!(rt; files.faults() == 2);
    assert!(rt; files.content("c") == Some(b"new".as_slice()));
}

// How many bytes an output takes at most at a time, which of its calls fails, the answer to ten bytes, and what is written.
type LineRow = (usize, usize, Result<(), SinkError>, &'static str);

const LINES: [LineRow; 7] = [
    (1, 10, Ok(()), "0123456789"),
    (3, 4, Ok(()), "0123456789"),
    (100, 1, Ok(()), "0123456789"),
    (1, 9, Err(SinkError::Failed), "012345678"),
    (3, 3, Err(SinkError::Failed), "012345678"),
    (3, 1, Err(SinkError::Failed), "012"),
    (100, 0, Err(SinkError::Failed), ""),
];

fn sink(alloc: Global, most: usize, failing: usize) -> Option<MemSink> {
    if most == 0 {
        return None;
    }
    let failing = Vec::from_slice(alloc, &[failing as u64]).ok()?;
    Some(MemSink::new(alloc, most, failing))
}

/// Whether the line of ten digits is answered so, that is written then, and a fault is counted where one is answered.
fn is_answered(out: &mut MemSink, answer: Result<(), SinkError>, written: &str) -> bool {
    write_line(out, b"0123456789") == answer
        && out.written() == written.as_bytes()
        && out.faults() == u64::from(answer.is_err())
}

fn is_right(alloc: Global, row: LineRow) -> bool {
    let (most, failing, answer, written) = row;
    let Some(mut out) = sink(alloc, most, failing) else {
        return false;
    };
    is_answered(&mut out, answer, written)
}

#[test]
fn a_line_goes_out_in_as_many_writes_as_it_takes(rt: HostRuntime) {
    for row in LINES {
        assert!(rt; is_right(rt.alloc(), row), "{}", row.3);
    }
}

/// Whether an output takes so many bytes of a piece, and has this text then.
fn takes(out: &mut SureSink, piece: &str, taken: usize, written: &str) -> bool {
    out.write(piece.as_bytes()) == Ok(taken) && out.written() == written.as_bytes()
}

#[test]
fn an_output_takes_its_most(rt: HostRuntime) {
    let mut out = SureSink::new(rt.alloc(), 4);
    for (piece, taken, written) in [("abc", 3, "abc"), ("", 0, "abc"), ("defghi", 4, "abcdefg")] {
        assert!(rt; takes(&mut out, piece, taken, written), "{piece}");
    }
}

#[test]
fn the_standard_output_takes_nothing(rt: HostRuntime) {
    let mut out = StdSink::new(rt);
    assert!(rt; out.write(b"") == Ok(0));
}
