//! What is said of files: why a call on one failed, and that the file to write is as it was before.

ghost use Rattle.std.specs.Prelude.{◌≡◌, IfOk, Some, map, option_map, string_bytes};
ghost use Rattle.cli_words.specs.Words.{names_in};
ghost use Rattle.advice.specs.Files.{fault_text, out_name, standing_text, writes_file};

use crate::missing_names::{is_name, name_at};
use ot_base::Escaped;
use std::alloc::{AllocError, Global};
use std::fmt;

/// The line on a file that couldn't be read or written, and why.
#[derive(Drop)]
struct FaultText<'a> {
    name: &'a str,
    reason: &'a str,
}

impl fmt::Display for FaultText<'_> {
    ghost output = { λ t. Some (fault_text t.name.now t.reason.now) };

    fn fmt<W: fmt::Write>(&self, f: &mut fmt::Formatter<W>) -> fmt::Result {
        write!(
            f,
            "objtool: {}: {}",
            Escaped(self.name.as_bytes()),
            self.reason
        )
    }
}

/// The line on a file that stands from before.
#[derive(Drop)]
struct StandingText<'a>(&'a str);

impl fmt::Display for StandingText<'_> {
    ghost output = { λ t. Some (standing_text t.0.now) };

    fn fmt<W: fmt::Write>(&self, f: &mut fmt::Formatter<W>) -> fmt::Result {
        write!(
            f,
            "objtool: {} stands from before this run",
            Escaped(self.0.as_bytes())
        )
    }
}

/// The line that says why a file couldn't be read or written. An error is want of memory.
pub fn fault_line(alloc: Global, name: &str, reason: &str) -> Result<String, AllocError>
    ensures { IfOk result (λ said. string_bytes said ≡ fault_text name.now reason.now) }
{
    Ok(format!(in alloc; "{}", FaultText { name, reason })?)
}

/// The line that says that a file stands from before this run. An error is want of memory.
pub fn standing_line(alloc: Global, name: &str) -> Result<String, AllocError>
    ensures { IfOk result (λ said. string_bytes said ≡ standing_text name.now) }
{
    Ok(format!(in alloc; "{}", StandingText(name))?)
}

/// Whether a first word asks for a command that writes a file, which its second name names.
fn writes_file(first: &str) -> bool
    ensures { result ≡ writes_file first.now }
{
    matches!(first, "check" | "sites" | "cfi" | "merge")
}

/// The names and numbers among some words.
fn names_in(alloc: Global, words: &[String]) -> Result<Vec<&str>, AllocError>
    ensures { IfOk result (λ names. map (λ name. name.now) names.items ≡ names_in (map string_bytes words.now)) }
{
    words
        .iter()
        .map(|word| word.as_str())
        .filter(|word| is_name(word))
        .collect(alloc)
}

/// The name of the file that the words of a command line ask to write, where they do. An error is want of memory.
pub fn out_name(alloc: Global, words: &[String]) -> Result<Option<&str>, AllocError>
    ensures { IfOk result (λ name. option_map (λ name. name.now) name ≡ out_name (map string_bytes words.now)) }
{
    match words {
        [first, rest @ ..] if writes_file(first.as_str()) => Ok(name_at(
            &names_in(alloc, rest)?,
            1,
        )),
        _ => Ok(None),
    }
}
