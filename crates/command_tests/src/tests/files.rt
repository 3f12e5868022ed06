//! Files that are missing or whose calls fail, an output that fails, and how many calls failed.

ghost use Rattle.std.specs.Prelude.{IfOk, IsTrue};
ghost use Rattle.ot_files.specs.Memory.{names_of, names_differ};

use super::objects::code_in_f;
use super::running::run_words;
use objtool_cli::Status;
use ot_files::{MemFiles, MemSink};
use std::alloc::{AllocError, Global};

/// A run of `check` on an input's name, over the files where IN holds the object of `C3`.
#[derive(Clone, Copy)]
struct Faulty {
    input: &'static str,
    /// The call of the files that fails, how many bytes the output takes a write, and its write that
    /// fails.
    file_call: u64,
    most: usize,
    write: u64,
    status: Status,
    written: &'static str,
    /// How many calls of the files and of the output failed.
    faults: (u64, u64),
}

/// The number of a call that isn't made.
const NEVER: u64 = 99;

/// IN holds these bytes, and no other name anything.
fn entries_of(alloc: Global, bytes: &[u8]) -> Result<Vec<(String, Vec<u8>)>, AllocError>
    ensures { IfOk result (λ entries. IsTrue (names_differ (names_of entries.items))) }
{
    let entry = (
        String::from_str(alloc, "IN")?,
        Vec::from_slice(alloc, bytes)?,
    );
    Ok(vec![in alloc; entry]?)
}

/// The words of `check` on this input.
fn words_with(alloc: Global, input: &str) -> Result<Vec<String>, AllocError> {
    let mut words = Vec::new(alloc);
    for text in ["check", input, "OUT"] {
        words.push(String::from_str(alloc, text)?)?;
    }
    Ok(words)
}

/// The files: IN holds these bytes.
fn files_of(alloc: Global, case: &Faulty, object: &[u8]) -> Option<MemFiles> {
    let failing = vec![in alloc; case.file_call].ok()?;
    let entries = entries_of(alloc, object).ok()?;
    Some(MemFiles::new(alloc, entries, failing))
}

fn output_of(alloc: Global, case: &Faulty) -> Option<MemSink> {
    if case.most == 0 {
        return None;
    }
    let failing = vec![in alloc; case.write].ok()?;
    Some(MemSink::new(alloc, case.most, failing))
}

/// Whether the run ends so, and prints that; so many calls fail; and IN holds its object, and OUT isn't there.
fn ends_so(
    alloc: Global,
    case: &Faulty,
    object: &[u8],
    files: &mut MemFiles,
    out: &mut MemSink,
) -> Option<bool> {
    let words = words_with(alloc, case.input).ok()?;
    let status = run_words(alloc, &words, files, out);
    Some(
        status == case.status
            && out.written() == case.written.as_bytes()
            && (files.faults(), out.faults()) == case.faults
            && files.content("OUT").is_none()
            && files.content("IN") == Some(object),
    )
}

fn is_right(alloc: Global, case: &Faulty) -> Option<bool> {
    let object = code_in_f(alloc, b"\xC3")?;
    let mut files = files_of(alloc, case, &object)?;
    let mut out = output_of(alloc, case)?;
    ends_so(alloc, case, &object, &mut files, &mut out)
}

const MISSING: Faulty = Faulty {
    input: "no",
    file_call: NEVER,
    most: 100,
    write: NEVER,
    status: Status::Refused,
    written: "refused: no is missing\n",
    faults: (0, 0),
};

const UNREAD: Faulty = Faulty {
    input: "IN",
    file_call: 0,
    status: Status::FileFault,
    written: "file fault: IN\n",
    faults: (1, 0),
    ..MISSING
};

const FAULTY: [Faulty; 6] = [
    MISSING,
    Faulty {
        input: "a b\\",
        written: "refused: a\\20b\\5c is missing\n",
        ..MISSING
    },
    UNREAD,
    Faulty {
        file_call: 1,
        written: "file fault: OUT\n",
        ..UNREAD
    },
    // The output fails in the midst of the line.
    Faulty {
        most: 10,
        write: 1,
        status: Status::SinkFault,
        written: "refused: n",
        faults: (0, 1),
        ..MISSING
    },
    Faulty {
        most: 10,
        write: 1,
        written: "file fault",
        faults: (1, 1),
        ..UNREAD
    },
];

#[test]
fn missing_files_and_failing_calls(rt: HostRuntime) {
    for case in &FAULTY {
        assert!(rt;
            is_right(rt.alloc(), case) == Some(true),
            "{}",
            case.written
        );
    }
}
