//! Words, and what a command comes to.

use objtool_cli::{Status, run};
use ot_files::{Files, Sink};
use std::alloc::{AllocError, Global};

/// The words of a line.
pub fn words_of(alloc: Global, line: &str) -> Result<Vec<String>, AllocError> {
    let mut words = Vec::new(alloc);
    for word in line.split_whitespace() {
        words.push(String::from_str(alloc, word)?)?;
    }
    Ok(words)
}

/// Runs words. What they come to is told by no contract, so that callers are proved without that of [`run`].
pub fn run_words<F: Files, S: Sink>(
    alloc: Global,
    words: &[String],
    files: &mut F,
    out: &mut S,
) -> Status {
    run(alloc, words, files, out)
}
