//! What a line of an image says.

ghost use Rattle.std.specs.Prelude.{◌≡◌, ◌<◌, IfOk, IfSome, length, map, option_map};
ghost use Rattle.orc_walk.specs.Statements.{memory_said, place_said, registers_said, said, words_said};
ghost use Rattle.orc_walk.specs.Reading.{HasBytes, IsReadAs, said_by};

use crate::image_fault::{ImageWhy, LineFault};
use crate::lines::{says_nothing, words_of};
use crate::numbers::{bytes, decimal, hexadecimal};
use std::alloc::{AllocError, Global};
use table_defs::Regs;

/// What a line of an image says.
#[derive(Drop)]
pub(crate) enum Statement {
    /// Nothing.
    Nothing,
    /// The registers.
    Registers(Regs),
    /// The number of a section, and the address of its first byte.
    Place(u32, u64),
    /// An address, and the bytes from there on.
    Memory(u64, Vec<u8>),
}

/// `regs IP SP BP`
fn registers(words: &[&[u8]]) -> Option<Statement>
    ensures says { option_map said_by result ≡ registers_said (map (λ word. word.now) words.now) }
    ensures not_empty { IfSome result (λ s. HasBytes (said_by s)) }
{
    if words.len() != 4 {
        return None;
    }
    let ip = hexadecimal(words[1])?;
    let sp = hexadecimal(words[2])?;
    let bp = hexadecimal(words[3])?;
    Some(Statement::Registers(Regs { ip, sp, bp }))
}

/// `place N BASE`
fn place(words: &[&[u8]]) -> Option<Statement>
    ensures says { option_map said_by result ≡ place_said (map (λ word. word.now) words.now) }
    ensures not_empty { IfSome result (λ s. HasBytes (said_by s)) }
{
    if words.len() != 3 {
        return None;
    }
    let section = decimal(words[1])?;
    let base = hexadecimal(words[2])?;
    Some(Statement::Place(section, base))
}

/// `mem ADDR BYTES`
fn memory(alloc: Global, words: &[&[u8]]) -> Result<Option<Statement>, AllocError>
    ensures says { IfOk result (λ s. option_map said_by s
        ≡ memory_said (map (λ word. word.now) words.now)) }
    ensures not_empty { IfOk result (λ s. IfSome s (λ s. HasBytes (said_by s))) }
{
    if words.len() != 3 {
        return Ok(None);
    }
    let Some(base) = hexadecimal(words[1]) else {
        return Ok(None);
    };
    match bytes(alloc, words[2])? {
        Some(written) => Ok(Some(Statement::Memory(base, written))),
        None => Ok(None),
    }
}

/// What a line with these words says, of which there is one at least.
#[tactic(auto, unfolding(crate::specs::Statements::words_said))]
fn statement_of(alloc: Global, words: &[&[u8]]) -> Result<Statement, LineFault>
    requires { 0 < length words.now }
    ensures says { IsReadAs (words_said (map (λ word. word.now) words.now)) result }
    ensures not_empty { IfOk result (λ s. HasBytes (said_by s)) }
{
    let statement = if words[0] == b"regs".as_slice() {
        registers(words)
    } else if words[0] == b"place".as_slice() {
        place(words)
    } else if words[0] == b"mem".as_slice() {
        memory(alloc, words)?
    } else {
        return Err(LineFault::Why(ImageWhy::Word));
    };
    match statement {
        Some(statement) => Ok(statement),
        None => Err(LineFault::Why(ImageWhy::Number)),
    }
}

/// What a line says.
#[tactic(auto, unfolding(crate::specs::Statements::said))]
pub(crate) fn read_line(alloc: Global, line: &[u8]) -> Result<Statement, LineFault>
    ensures says { IsReadAs (said line.now) result }
    ensures not_empty { IfOk result (λ s. HasBytes (said_by s)) }
{
    if says_nothing(line) {
        return Ok(Statement::Nothing);
    }
    let words = words_of(alloc, line)?;
    statement_of(alloc, &words)
}
