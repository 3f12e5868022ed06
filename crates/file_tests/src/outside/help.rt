//! What `clap` renders of the command line, beside the text that the program prints.

use clap::Command as Definition;
use cli_matches::definition::{
    cfa, cfi, check, command_line, demo, dump, entry, explain, find, list, merge, show, sites,
    unwind,
};
use cli_matches::help_text;
use std::alloc::{AllocError, Global};

/// What `clap` renders of a command.
fn help_of(command: Result<Definition<'_>, AllocError>) -> Option<String> {
    let mut command = command.ok()?;
    command.render_help().ok()
}

/// What it renders of a command that has options. One whose value stands behind `=` alone is shown so.
fn help_with_options(command: Result<Definition<'_>, AllocError>) -> Option<String> {
    let command = command.ok()?;
    help_of(command.mut_arg("names", |names| Ok(names.require_equals(true))))
}

/// What it renders of `show`, whose options that have a value are two.
fn help_of_show(command: Result<Definition<'_>, AllocError>) -> Option<String> {
    let command = command.ok()?;
    help_with_options(command.mut_arg("function", |function| Ok(function.require_equals(true))))
}

/// What stands in a text behind another and an empty line.
fn rest<'a>(text: &'a str, help: &str) -> Option<&'a str> {
    text.strip_prefix(help)?.strip_prefix("\n")
}

/// The same, where both are there.
fn behind<'a>(text: Option<&'a str>, help: Option<String>) -> Option<&'a str> {
    rest(text?, help?.as_str())
}

/// What stands behind what is rendered of the program, and then of the commands that make and read ORC tables.
fn behind_first(alloc: Global, text: Option<&str>) -> Option<&str> {
    let text = behind(text, help_of(command_line(alloc)));
    let text = behind(text, help_with_options(check(alloc)));
    let text = behind(text, help_of(dump(alloc)));
    behind(text, help_of(unwind(alloc)))
}

/// Behind that of those of site lists and entry rules, and of the one that makes call frame information.
fn behind_next(alloc: Global, text: Option<&str>) -> Option<&str> {
    let text = behind(text, help_with_options(sites(alloc)));
    let text = behind(text, help_of(list(alloc)));
    let text = behind(text, help_with_options(entry(alloc)));
    behind(text, help_with_options(cfi(alloc)))
}

/// Behind that of the rest.
fn behind_last(alloc: Global, text: Option<&str>) -> Option<&str> {
    let text = behind(text, help_of(cfa(alloc)));
    let text = behind(text, help_of(merge(alloc)));
    let text = behind(text, help_of(find(alloc)));
    let text = behind(text, help_of_show(show(alloc)));
    let text = behind(text, help_of(explain(alloc)));
    behind(text, help_of(demo(alloc)))
}

#[test]
fn help_is_what_clap_renders(rt: HostRuntime) {
    let text = behind_first(rt.alloc(), Some(help_text()));
    let text = behind_next(rt.alloc(), text);
    let text = behind_last(rt.alloc(), text);
    assert!(rt; text.is_some_and(|text| text.starts_with("Statuses:\n")));
}
