//! Whether a whole command line means a command.

ghost use Rattle.std.specs.Prelude.{◌≡◌, true, map, string_bytes, is_ok, is_some, IfErr, IfOk, List, OnOk};
ghost use Rattle.cli_words.specs.Grammar.{asked, IsFaultOf, line_meaning, lone_meaning, meaning};
ghost use Rattle.cli_words.specs.Words.{Word, names_in};

use crate::fault::{UsageFault, UsageKind};
use crate::judge::first_fault;
use crate::number::{address_of, number_of};
use crate::word::{CommandWord, command_named, is_option};
use std::alloc::{AllocError, Global};

/// The names and numbers among the words, in order.
fn names_in(alloc: Global, words: &[String]) -> Result<Vec<&str>, AllocError>
    ensures { IfOk result (λ names. map (λ name. name.now) names.items ≡ names_in (map string_bytes words.now)) }
{
    words
        .iter()
        .map(|word| word.as_str())
        .filter(|word| !is_option(word))
        .collect(alloc)
}

/// Whether these names or numbers are all that a command asks for.
#[tactic(auto, unfolding(crate::specs::Grammar::asked))]
fn is_complete(command: CommandWord, names: &[&str]) -> bool
    ensures { (words : List Word) → result ≡ is_some (asked command (map (λ name. name.now) names.now) words) }
{
    match (command, names) {
        (CommandWord::Check | CommandWord::Sites | CommandWord::Cfi, [_, _]) => true,
        (CommandWord::Dump | CommandWord::List | CommandWord::Entry | CommandWord::Cfa, [_]) =>
            true,
        (CommandWord::Show, [_]) => true,
        (CommandWord::Explain, [] | [_]) => true,
        (CommandWord::Unwind | CommandWord::Merge, [_, _]) => true,
        (CommandWord::Find, [_, address]) => address_of(address).is_some(),
        (CommandWord::Demo, [n]) => number_of(n).is_some(),
        _ => false,
    }
}

/// Judges the words behind a command.
#[tactic(auto, unfolding(crate::specs::Grammar::line_meaning))]
fn judge_line(alloc: Global, command: CommandWord, words: &[String]) -> Result<(), UsageFault>
    ensures ok { OnOk result (is_ok (line_meaning command (map string_bytes words.now)) ≡ true) }
    ensures fault { IfErr result (IsFaultOf (line_meaning command (map string_bytes words.now))) }
{
    if let Some((word, kind)) = first_fault(command, words) {
        return Err(UsageFault::At { word, kind });
    }
    let names = names_in(alloc, words)?;
    if is_complete(command, &names) {
        Ok(())
    } else {
        Err(UsageFault::At {
            word: words.len() as u64 + 1,
            kind: UsageKind::Missing,
        })
    }
}

/// Whether a word is one beside which no other stands.
fn is_lone(word: &str, words: &[String]) -> bool
    ensures { result ≡ is_some (lone_meaning word.now (map string_bytes words.now)) }
{
    words.is_empty() && matches!(word, "--help" | "-h" | "--version" | "-V")
}

/// Whether the words of a command line, which stand here without the program's name, mean a command; or
/// the first of them that is at fault, and what is wrong with it.
///
/// The first word is a command word. Of the others those that begin with `-` are options, which `check`,
/// `sites`, `entry`, `cfi` and `show` alone have, and the rest are names or numbers; they may be mixed. The words
/// are judged from left to right. At one word `UnknownCommand`, `UnknownOption`, `Repeated`, `Extra`,
/// `Empty`, `BadNumber` and `UnknownTopic` are tested in this order; that a word is missing is found last.
#[tactic(auto, unfolding(crate::specs::Grammar::meaning))]
pub fn judge_words(alloc: Global, words: &[String]) -> Result<(), UsageFault>
    ensures ok { OnOk result (is_ok (meaning (map string_bytes words.now)) ≡ true) }
    ensures fault { IfErr result (IsFaultOf (meaning (map string_bytes words.now))) }
{
    let (word, rest) = match words {
        [] => {
            return Err(UsageFault::At {
                word: 0,
                kind: UsageKind::NoCommand,
            });
        }
        [word, rest @ ..] => (word.as_str(), rest),
    };
    if is_lone(word, rest) {
        return Ok(());
    }
    match command_named(word) {
        Some(command) => judge_line(alloc, command, rest),
        None => Err(UsageFault::At {
            word: 0,
            kind: UsageKind::UnknownCommand,
        }),
    }
}
