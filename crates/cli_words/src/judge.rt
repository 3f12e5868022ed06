//! Which of the words behind a command is at fault.

ghost use Rattle.std.specs.Prelude.{◌≡◌, [], map, length, string_bytes};
ghost use Rattle.std.specs.List.{list_any};
ghost use Rattle.cli_words.specs.Grammar.{first_fault, is_bad_number, is_unknown_topic, name_fault, option_fault, word_fault};
ghost use Rattle.cli_words.specs.Words.{is_same_option, names_in};

use crate::fault::UsageKind;
use crate::number::{address_of, number_of};
use crate::word::{CommandWord, is_option, is_same_option};
use explanations::is_topic;

/// Whether an option stands among these words.
fn is_given(before: &[String], option: &str) -> bool
    ensures { result ≡ list_any (is_same_option option.now) (map string_bytes before.now) }
{
    before
        .iter()
        .map(|word| word.as_str())
        .any(|word| is_same_option(option, word))
}

/// How many of these words are names or numbers.
fn count_names(before: &[String]) -> usize
    ensures { result ≡ length (names_in (map string_bytes before.now)) }
{
    before
        .iter()
        .map(|word| word.as_str())
        .filter(|word| !is_option(word))
        .count()
}

/// What is wrong with an option behind a command and these words.
fn option_fault(command: CommandWord, before: &[String], word: &str) -> Option<UsageKind>
    ensures { result ≡ option_fault command (map string_bytes before.now) word.now }
{
    if !command.has_option(word) {
        Some(UsageKind::UnknownOption)
    } else if is_given(before, word) {
        Some(UsageKind::Repeated)
    } else if word == "--names=" || word == "--function=" {
        Some(UsageKind::Empty)
    } else {
        None
    }
}

/// Whether the command asks for a number or an address at this place, counted from 0, and the word isn't
/// one.
fn is_bad_number(command: CommandWord, place: usize, word: &str) -> bool
    ensures { result ≡ is_bad_number command place word.now }
{
    match command {
        CommandWord::Demo => number_of(word).is_none(),
        CommandWord::Find => place == 1 && address_of(word).is_none(),
        _ => false,
    }
}

/// Whether the command asks for a topic, and the word isn't one.
fn is_unknown_topic(command: CommandWord, word: &str) -> bool
    ensures { result ≡ is_unknown_topic command word.now }
{
    match command {
        CommandWord::Explain => !is_topic(word),
        _ => false,
    }
}

/// What is wrong with a name or a number behind a command and these words.
fn name_fault(command: CommandWord, before: &[String], word: &str) -> Option<UsageKind>
    ensures { result ≡ name_fault command (map string_bytes before.now) word.now }
{
    let place = count_names(before);
    if command.places() <= place {
        Some(UsageKind::Extra)
    } else if word.is_empty() {
        Some(UsageKind::Empty)
    } else if is_bad_number(command, place, word) {
        Some(UsageKind::BadNumber)
    } else if is_unknown_topic(command, word) {
        Some(UsageKind::UnknownTopic)
    } else {
        None
    }
}

/// What is wrong with a word behind a command and these words.
#[tactic(auto, unfolding(crate::specs::Grammar::word_fault))]
fn word_fault(command: CommandWord, before: &[String], word: &str) -> Option<UsageKind>
    ensures { result ≡ word_fault command (map string_bytes before.now) word.now }
{
    if is_option(word) {
        option_fault(command, before, word)
    } else {
        name_fault(command, before, word)
    }
}

/// The first of the words behind a command that is at fault, counted from the command's word, which is 0,
/// and what is wrong with it. At most twelve words are passed, since no option stands twice, so it looks
/// at few words for each.
pub(crate) fn first_fault(command: CommandWord, words: &[String]) -> Option<(u64, UsageKind)>
    ensures { result ≡ first_fault command [] (map string_bytes words.now) }
{
    for (index, word) in words.iter().enumerate() {
        if let Some(kind) = word_fault(command, &words[..index], word.as_str()) {
            return Some((index as u64 + 1, kind));
        }
    }
    None
}
