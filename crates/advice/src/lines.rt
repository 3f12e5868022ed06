//! What is said to the standard error of words at fault and of refusals.

ghost use Rattle.std.specs.Prelude.{◌≡◌, [], IfOk, Some, map, option_map, slice_get, slice_index_or, string_bytes};
ghost use Rattle.explanations.specs.Refusals.{topic_of};
ghost use Rattle.advice.specs.Advice.{IsMeant, IsMeantOf, IsUsageLine, asked_for, missing_advice, option_part, quoted, refusal_advice, usage_advice};

use crate::known_words::{command_words, option_words, topic_words};
use crate::missing_names::{missing_of, usage};
use crate::nearest::nearest;
use cli_words::{UsageFault, UsageKind, judge_words};
use explanations::topic_of_refusal;
use ot_base::Escaped;
use std::alloc::{AllocError, Global};
use std::fmt;

/// A word in quotes, where there is one.
#[derive(Drop)]
struct Quoted<'a>(Option<&'a str>);

impl fmt::Display for Quoted<'_> {
    ghost output = { λ q. Some (quoted (option_map (λ word. word.now) q.0)) };

    fn fmt<W: fmt::Write>(&self, f: &mut fmt::Formatter<W>) -> fmt::Result {
        match self.0 {
            Some(word) => write!(f, " '{}'", Escaped(word.as_bytes())),
            None => Ok(()),
        }
    }
}

/// The question whether a known word was meant, where one is near.
#[derive(Drop)]
struct AskedFor(Option<&'static str>);

impl fmt::Display for AskedFor {
    ghost output = { λ a. Some (asked_for (option_map (λ near. near.now) a.0)) };

    fn fmt<W: fmt::Write>(&self, f: &mut fmt::Formatter<W>) -> fmt::Result {
        match self.0 {
            Some(near) => write!(f, ", did you mean '{near}'?"),
            None => write!(f, ";"),
        }
    }
}

/// The line on words at fault: what is wrong, with which word, and which known word is near.
#[derive(Drop)]
struct UsageAdvice<'a> {
    kind: UsageKind,
    word: Option<&'a str>,
    near: Option<&'static str>,
}

impl fmt::Display for UsageAdvice<'_> {
    ghost output = { λ a. Some (usage_advice a.kind (option_map (λ word. word.now) a.word) (option_map (λ near. near.now) a.near)) };

    fn fmt<W: fmt::Write>(&self, f: &mut fmt::Formatter<W>) -> fmt::Result {
        write!(
            f,
            "objtool: {}{}{} objtool --help lists the commands",
            self.kind,
            Quoted(self.word),
            AskedFor(self.near)
        )
    }
}

/// The line on a name or a number that is missing: what it is called, and how the command is used.
#[derive(Drop)]
struct MissingAdvice {
    name: &'static str,
    usage: &'static str,
}

impl fmt::Display for MissingAdvice {
    ghost output = { λ a. Some (missing_advice a.name.now a.usage.now) };

    fn fmt<W: fmt::Write>(&self, f: &mut fmt::Formatter<W>) -> fmt::Result {
        write!(f, "objtool: {} is missing: {}", self.name, self.usage)
    }
}

/// What of a word is compared with options: all of it, or as far as its first `=`, with it.
fn option_part(word: &str) -> &str
    ensures { result.now ≡ option_part word.now }
{
    word.split_inclusive('=').next().unwrap_or(word)
}

/// The known word that is nearest to the word at fault, where one is near: a command, an option of the
/// command, or a topic, as fits the fault.
fn known_word(
    alloc: Global,
    kind: UsageKind,
    first: &str,
    word: &str,
) -> Result<Option<&'static str>, AllocError>
    ensures { IfOk result (λ near. IsMeant kind first.now word.now (option_map (λ known. known.now) near)) }
{
    match kind {
        UsageKind::UnknownCommand => nearest(alloc, word, command_words()),
        UsageKind::UnknownOption => nearest(alloc, option_part(word), option_words(first)),
        UsageKind::UnknownTopic => nearest(alloc, word, &topic_words(alloc)?),
        _ => Ok(None),
    }
}

/// What a word at fault may stand for; nothing where there is no word.
fn near_word(
    alloc: Global,
    kind: UsageKind,
    first: &str,
    word: Option<&str>,
) -> Result<Option<&'static str>, AllocError>
    ensures { IfOk result (λ near. IsMeantOf kind first.now (option_map (λ word. word.now) word.entry) (option_map (λ known. known.now) near)) }
{
    match word {
        Some(word) => known_word(alloc, kind, first, word),
        None => Ok(None),
    }
}

/// The first word, empty where there is none.
fn first_word(words: &[String]) -> &str
    ensures { result.now ≡ slice_index_or (map string_bytes words.now) 0 [] }
{
    match words {
        [] => "",
        [first, ..] => first.as_str(),
    }
}

/// The word at this place, where there is one.
fn word_at(words: &[String], at: usize) -> Option<&str>
    ensures { option_map (λ word. word.now) result ≡ slice_get (map string_bytes words.now) at }
{
    if at < words.len() {
        Some(words[at].as_str())
    } else {
        None
    }
}

/// The line that helps with words at fault: what is missing and how the command is used; or what is wrong with which word, and
/// the known word that is near it, where one is. There is none where the words mean a command. An error is want of memory.
pub fn usage_line(alloc: Global, words: &[String]) -> Result<Option<String>, AllocError>
    ensures { IfOk result (λ said. IsUsageLine (map string_bytes words.now) (option_map string_bytes said)) }
{
    match judge_words(alloc, words) {
        Ok(()) => Ok(None),
        Err(UsageFault::NoMemory) => Err(AllocError),
        Err(UsageFault::At { word: at, kind }) => {
            let first = first_word(words);
            if let Some(name) = missing_of(kind, words) {
                let usage = usage(first);
                return Ok(Some(format!(in alloc; "{}", MissingAdvice { name, usage })?));
            }
            let word = word_at(words, at as usize);
            let near = near_word(alloc, kind, first, word)?;
            Ok(Some(format!(in alloc; "{}", UsageAdvice { kind, word, near })?))
        }
    }
}

/// The line that helps with a refusal, or with a file that fails, found by the line that told it: which topic explains it. There is none
/// where no topic does. An error is want of memory.
pub fn refusal_line(alloc: Global, line: &[u8]) -> Result<Option<String>, AllocError>
    ensures { IfOk result (λ said. option_map string_bytes said ≡ option_map refusal_advice (topic_of line.now)) }
{
    match topic_of_refusal(line) {
        Some(topic) => Ok(Some(format!(in alloc; "objtool: see objtool explain {topic}")?)),
        None => Ok(None),
    }
}
