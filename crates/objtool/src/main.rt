//! The program: the command of its words over the system's files and output, the exit status, and beside them lines that help with what
//! is at fault.
#![tactic(auto)]

mod file_state;
mod last_line;

ghost use Rattle.std.specs.Prelude.{◌≡◌};
ghost use Rattle.objtool_cli.specs.Status.{exit_code};

use crate::file_state::regular_file;
use crate::last_line::LastLine;
use advice::{fault_line, out_name, refusal_line, standing_line, usage_line};
use objtool_cli::{Status, run};
use ot_files::{FileFault, StdFiles, StdSink};
use std::alloc::{AllocError, Global};
use std::process::ExitCode;
use std::{env, fs, io};

/// The words behind the program's name.
fn words(rt: &HostRuntime, alloc: Global) -> io::Result<Vec<String>> {
    let mut words = Vec::new(alloc);
    for word in env::args(rt)?.skip(1) {
        words.push(word)?;
    }
    Ok(words)
}

/// The exit status of the program.
fn exit_code(status: Status) -> u8
    ensures { result ≡ exit_code status }
{
    status.code()
}

/// Says a line to the standard error. Where it fails or there was no memory for the line, nothing is said.
fn say(rt: &HostRuntime, line: Result<Option<String>, AllocError>) {
    if let Ok(Some(line)) = line {
        let _ = eprintln!(rt; "{line}");
    }
}

/// The reason of an error in the system's words, without the error's number.
fn reason(text: &str) -> &str {
    match text.split_once(" (os error ") {
        Some((reason, _)) => reason,
        None => text,
    }
}

/// The line that says why a file couldn't be read or written.
fn fault_line_of(alloc: Global, fault: &FileFault) -> Result<String, AllocError> {
    let text = format!(in alloc; "{}", fault.error)?;
    fault_line(alloc, fault.name.as_str(), reason(text.as_str()))
}

/// Says why a file couldn't be read or written, and which topic explains it.
fn explain_fault(rt: &HostRuntime, alloc: Global, fault: Option<&FileFault>) {
    let Some(fault) = fault else {
        return;
    };
    if let Ok(line) = fault_line_of(alloc, fault) {
        let topic = refusal_line(alloc, line.as_bytes());
        say(rt, Ok(Some(line)));
        say(rt, topic);
    }
}

/// Says that the file to write stands from before this run.
fn tell_standing(rt: &HostRuntime, alloc: Global, name: &str) {
    match standing_line(alloc, name) {
        Ok(line) => say(rt, Ok(Some(line))),
        Err(AllocError) => {}
    }
}

/// The size in bytes of a large file.
const LARGE_FILE: u64 = 2 << 20;

/// The size in bytes of the greatest blocks that the allocator is to keep once they are let go.
const KEPT_BLOCK: usize = 31 << 20;

/// Whether a word names a large file.
fn names_large_file(rt: &HostRuntime, word: &str) -> bool {
    match fs::metadata(rt, word) {
        Ok(said) => said.len() >= LARGE_FILE,
        Err(_) => false,
    }
}

/// Where a word names a large file, takes a block of that size, and lets it go untouched. Blocks up to the size of one that was
/// let go are kept by glibc's allocator for later ones; greater ones it maps, and unmaps at once, so that their pages would be
/// mapped and cleared for each list anew.
fn keep_blocks(rt: &HostRuntime, alloc: Global, words: &[String]) {
    for word in words {
        if names_large_file(rt, word) {
            let _ = Vec::<u8>::with_capacity(alloc, KEPT_BLOCK);
            return;
        }
    }
}

fn main(rt: HostRuntime) -> ExitCode {
    let alloc = rt.alloc();
    let words = match words(&rt, alloc) {
        Ok(words) => words,
        Err(error) if error.kind() == io::ErrorKind::OutOfMemory => {
            return ExitCode::from(exit_code(Status::NoMemory));
        }
        // A word that is no text is no word of a command.
        Err(_) => Vec::new(alloc),
    };
    keep_blocks(&rt, alloc, &words);
    let out_name = out_name(alloc, &words).unwrap_or(None);
    let before = out_name.and_then(|name| regular_file(&rt, name));
    let mut files = StdFiles::new(alloc, &rt);
    let mut out = LastLine::new(alloc, StdSink::new(&rt));
    let status = run(alloc, &words, &mut files, &mut out);
    match status {
        Status::Usage => say(&rt, usage_line(alloc, &words)),
        Status::Refused => say(&rt, refusal_line(alloc, out.line())),
        Status::FileFault => explain_fault(&rt, alloc, files.last_fault()),
        _ => {}
    }
    if let (Some(name), Some(before)) = (out_name, before)
        && status != Status::Done
        && regular_file(&rt, name) == Some(before)
    {
        tell_standing(&rt, alloc, name);
    }
    ExitCode::from(exit_code(status))
}
