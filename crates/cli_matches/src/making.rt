//! Commands of `clap` in the making.

ghost use Rattle.std.specs.Prelude.{◌≡◌, IfOk, codes, true};
ghost use Rattle.clap.specs.Words.{App, app_of, with_rule, with_subcommand};
ghost use Rattle.cli_matches.specs.Definition.{Makes, command_app, file_app, optional_rule, place_rule, rewriting_app, switch_rule, text_rule, value_rule, with_common_options};

use clap::{Arg, ArgAction, Command};
use std::alloc::{AllocError, Global};

/// A command in the making, unless memory ran out. Each step hands that on, so that none is left by `?`
/// with a command in hand.
pub(crate) type Making<'a> = Result<Command<'a>, AllocError>;

/// With one more word that the command asks for.
pub(crate) fn with_place<'a>(
    alloc: Global,
    command: Making<'a>,
    name: &'a str,
    help: &'a str,
) -> Making<'a>
    ensures { (app : App) → Makes command.entry app → Makes result (with_rule app (place_rule name.entry.now)) }
{
    match command {
        Ok(command) => command.arg(Arg::new(alloc, name).required(true).help(help)),
        Err(fault) => Err(fault),
    }
}

/// With one more word that may be left out.
pub(crate) fn with_optional<'a>(
    alloc: Global,
    command: Making<'a>,
    name: &'a str,
    help: &'a str,
) -> Making<'a>
    ensures { (app : App) → Makes command.entry app → Makes result (with_rule app (optional_rule name.entry.now)) }
{
    match command {
        Ok(command) => command.arg(Arg::new(alloc, name).help(help)),
        Err(fault) => Err(fault),
    }
}

/// With one more option that has no value, which is given by its long name alone.
pub(crate) fn with_switch<'a>(
    alloc: Global,
    command: Making<'a>,
    name: &'a str,
    help: &'a str,
) -> Making<'a>
    ensures { (app : App) → Makes command.entry app → Makes result (with_rule app (switch_rule name.entry.now)) }
{
    match command {
        Ok(command) => command.arg(
            Arg::new(alloc, name)
                .long(name)
                .action(ArgAction::SetTrue)
                .help(help),
        ),
        Err(fault) => Err(fault),
    }
}

/// With one more option that asks for a text of the program, by its long name or by one letter.
pub(crate) fn with_text<'a>(
    alloc: Global,
    command: Making<'a>,
    name: &'a str,
    letter: char,
    action: ArgAction,
    help: &'a str,
) -> Making<'a>
    ensures { (app : App) → Makes command.entry app → Makes result (with_rule app (text_rule name.entry.now letter action)) }
{
    match command {
        Ok(command) => command.arg(
            Arg::new(alloc, name)
                .short(letter)
                .long(name)
                .action(action)
                .help(help),
        ),
        Err(fault) => Err(fault),
    }
}

/// With one more option that has a value, which is given by its long name alone.
pub(crate) fn with_value<'a>(
    alloc: Global,
    command: Making<'a>,
    name: &'a str,
    value: &'a str,
    help: &'a str,
) -> Making<'a>
    ensures { (app : App) → Makes command.entry app → Makes result (with_rule app (value_rule name.entry.now)) }
{
    match command {
        Ok(command) => command.arg(
            Arg::new(alloc, name)
                .long(name)
                .value_name(value)
                .help(help),
        ),
        Err(fault) => Err(fault),
    }
}

/// With the options that each command has which checks an object.
pub(crate) fn with_common_options<'a>(alloc: Global, command: Making<'a>) -> Making<'a>
    ensures { (app : App) → Makes command.entry app → Makes result (with_common_options app) }
{
    let command = with_switch(
        alloc,
        command,
        "all-opcodes",
        "Read vector, virtualization and newer system instructions too",
    );
    with_value(
        alloc,
        command,
        "names",
        "FILE",
        "Add the function names of FILE to the lists that are built in",
    )
}

/// A command, whose words are `program`, those of the program and of the command, and its own.
pub(crate) fn command<'a>(
    alloc: Global,
    name: &'a str,
    program: &str,
    about: &'a str,
) -> Result<Command<'a>, AllocError>
    ensures { IfOk result (λ command. app_of command ≡ command_app name.entry.now) }
{
    Command::new(alloc, name)
        .about(about)
        .disable_help_flag(true)
        .bin_name(program)
}

/// A command that asks for an object.
pub(crate) fn of_file<'a>(
    alloc: Global,
    name: &'a str,
    program: &str,
    about: &'a str,
) -> Result<Command<'a>, AllocError>
    ensures { IfOk result (λ command. app_of command ≡ file_app name.entry.now) }
{
    let command = command(alloc, name, program, about);
    with_place(alloc, command, "FILE", "The object")
}

/// With the places of a command that reads an object, and writes it to a file.
pub(crate) fn with_objects<'a>(alloc: Global, command: Making<'a>) -> Making<'a>
    ensures { (app : App) → Makes command.entry app
        → Makes result (with_rule (with_rule app (place_rule (codes "IN"))) (place_rule (codes "OUT"))) }
{
    let command = with_place(
        alloc,
        command,
        "IN",
        "The object, an ELF64 relocatable file for x86-64",
    );
    with_place(
        alloc,
        command,
        "OUT",
        "The file to write, which may have the name IN",
    )
}

/// A command that reads an object, and writes it to a file, with the common options alone.
pub(crate) fn rewriting<'a>(
    alloc: Global,
    name: &'a str,
    program: &str,
    about: &'a str,
) -> Result<Command<'a>, AllocError>
    ensures { IfOk result (λ command. app_of command ≡ rewriting_app name.entry.now) }
{
    let command = command(alloc, name, program, about);
    let command = with_objects(alloc, command);
    with_common_options(alloc, command)
}

/// With one more command.
pub(crate) fn with_command<'a>(program: Making<'a>, command: Making<'a>) -> Making<'a>
    ensures { (app added : App) → added.top.is_plain ≡ true → Makes program.entry app → Makes command.entry added
        → Makes result (with_subcommand app added.top) }
{
    match command {
        Ok(command) => match program {
            Ok(program) => program.subcommand(command),
            Err(fault) => Err(fault),
        },
        Err(fault) => Err(fault),
    }
}
