//! The lines of a layout, and what each says.

ghost use Rattle.std.specs.Prelude.{◌≡◌, ◌<◌, ◌==◌, IfOk, None, Some, length, map, option_map, string_bytes, if◌then◌else◌};
ghost use Rattle.std.specs.List.{list_all};
ghost use Rattle.ot_base.specs.NamesFile.{is_name, is_name_byte, lines, says_nothing};
ghost use Rattle.orc_walk.specs.Lines.{words};
ghost use Rattle.orc_merge.specs.LayoutLines.{file_said, place_said, said, words_said};
ghost use Rattle.orc_merge.specs.LayoutReading.{IsReadAs, said_by};

use crate::faults::{LayoutWhy, LineFault};
use orc_walk::{decimal, hexadecimal};
use std::alloc::{AllocError, Global};
use std::str::from_utf8;

/// What a line of a layout says.
#[derive(Drop)]
pub(crate) enum Statement {
    /// Nothing.
    Nothing,
    /// The name of a file.
    File(String),
    /// The number of a section of the last file, and the address of its first byte.
    Place(u32, u64),
}

/// The lines of a text. Behind a last LF stands an empty line, which says nothing.
pub(crate) fn lines_of(alloc: Global, text: &[u8]) -> Result<Vec<&[u8]>, AllocError>
    ensures { IfOk result (λ v. map (λ line. line.now) v.items ≡ lines text.now) }
{
    text.split(|byte| *byte == b'\n').collect(alloc)
}

/// The words of a line, which single spaces part.
fn words_of(alloc: Global, line: &[u8]) -> Result<Vec<&[u8]>, AllocError>
    ensures { IfOk result (λ v. map (λ word. word.now) v.items ≡ words line.now) }
{
    line.split(|byte| *byte == b' ').collect(alloc)
}

/// Whether a line is empty or begins with `#`.
fn says_nothing(line: &[u8]) -> bool
    ensures { result ≡ says_nothing line.now }
{
    line.is_empty() || line[0] == b'#'
}

/// Whether a name may have this byte.
fn is_name_byte(byte: u8) -> bool
    ensures { result ≡ is_name_byte byte }
{
    0x21 <= byte && byte <= 0x7e
}

/// Whether a name may have each of these bytes.
fn are_name_bytes(bytes: &[u8]) -> bool
    ensures { result ≡ list_all is_name_byte bytes.now }
{
    bytes.iter().all(|byte| is_name_byte(*byte))
}

/// Whether these are one or more bytes from 21 to 7E.
fn is_name(name: &[u8]) -> bool
    ensures { result ≡ is_name name.now }
{
    !name.is_empty() && are_name_bytes(name)
}

/// The text of a name.
fn name_text(alloc: Global, name: &[u8]) -> Result<Option<String>, AllocError>
    ensures { IfOk result (λ text. option_map string_bytes text
        ≡ (if is_name name.now then Some name.now else None)) }
{
    if !is_name(name) {
        return Ok(None);
    }
    match from_utf8(name) {
        Ok(text) => Ok(Some(String::from_str(alloc, text)?)),
        Err(_) => Ok(None),
    }
}

/// `file NAME`
fn file(alloc: Global, words: &[&[u8]]) -> Result<Option<Statement>, AllocError>
    ensures { IfOk result (λ s. option_map said_by s
        ≡ file_said (map (λ word. word.now) words.now)) }
{
    if words.len() != 2 {
        return Ok(None);
    }
    match name_text(alloc, words[1])? {
        Some(name) => Ok(Some(Statement::File(name))),
        None => Ok(None),
    }
}

/// `place N BASE`
fn place(words: &[&[u8]]) -> Option<Statement>
    ensures { option_map said_by result ≡ place_said (map (λ word. word.now) words.now) }
{
    if words.len() != 3 {
        return None;
    }
    let section = decimal(words[1])?;
    let base = hexadecimal(words[2])?;
    Some(Statement::Place(section, base))
}

/// What a line with these words says, of which there is one at least.
#[tactic(auto, unfolding(crate::specs::LayoutLines::words_said))]
fn statement_of(alloc: Global, words: &[&[u8]]) -> Result<Statement, LineFault>
    requires { 0 < length words.now }
    ensures { IsReadAs (words_said (map (λ word. word.now) words.now)) result }
{
    let statement = if words[0] == b"file".as_slice() {
        file(alloc, words)?
    } else if words[0] == b"place".as_slice() {
        place(words)
    } else {
        return Err(LineFault::Why(LayoutWhy::Word));
    };
    match statement {
        Some(statement) => Ok(statement),
        None => Err(LineFault::Why(LayoutWhy::Number)),
    }
}

/// What a line says.
#[tactic(auto, unfolding(crate::specs::LayoutLines::said))]
pub(crate) fn read_line(alloc: Global, line: &[u8]) -> Result<Statement, LineFault>
    ensures { IsReadAs (said line.now) result }
{
    if says_nothing(line) {
        return Ok(Statement::Nothing);
    }
    let words = words_of(alloc, line)?;
    statement_of(alloc, &words)
}
