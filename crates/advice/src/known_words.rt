//! The words that a word at fault may stand for.

ghost use Rattle.std.specs.Prelude.{◌≡◌, ◌==◌, IfOk, map};
ghost use Rattle.std.specs.List.{before_first};
ghost use Rattle.advice.specs.KnownWords.{AreCommands, AreOptions, AreTopics, command_words, options_behind, topic_words};

use explanations::{is_topic, topics};
use std::alloc::{AllocError, Global};

/// The words of all commands, and no others.
pub(crate) fn command_words() -> &'static [&'static str]
    ensures words { map (λ word. word.now) result.now ≡ command_words }
    ensures commands { AreCommands }
{
    &[
        "check", "dump", "unwind", "sites", "list", "entry", "cfi", "cfa", "merge", "find", "show",
        "explain", "demo",
    ]
}

/// The options of the command that a first word asks for, those that have a value as they begin.
pub(crate) fn option_words(first: &str) -> &'static [&'static str]
    ensures words { map (λ word. word.now) result.now ≡ options_behind first.now }
    ensures options { AreOptions }
{
    match first {
        "check" => &[
            "--fp",
            "--retpoline",
            "--rethunk",
            "--uaccess",
            "--no-unreachable",
            "--link",
            "--module",
            "--backtrace",
            "--all-opcodes",
            "--names=",
        ],
        "sites" => &["--module", "--all-opcodes", "--names="],
        "cfi" => &["--all-opcodes", "--names="],
        "entry" => &["--noinstr", "--sls", "--ibt", "--all-opcodes", "--names="],
        "show" => &["--function=", "--all-opcodes", "--names="],
        _ => &[],
    }
}

/// A line as far as its first blank.
fn before_blank(line: &str) -> &str
    ensures { result.now ≡ before_first (λ byte. byte == 32) line.now }
{
    match line.split_once(' ') {
        Some((word, _)) => word,
        None => line,
    }
}

/// The topics that `explain` lists: all topics, and no other words.
pub(crate) fn topic_words(alloc: Global) -> Result<Vec<&'static str>, AllocError>
    ensures words { IfOk result (λ words. map (λ word. word.now) words.items ≡ topic_words) }
    ensures topics { AreTopics }
{
    topics()
        .lines()
        .map(|line| before_blank(line))
        .filter(|word| is_topic(word))
        .collect(alloc)
}
