ghost use Rattle.std.specs.Prelude.{◌≡◌};
ghost use Rattle.command_base.specs.Stop.{of_part};

use crate::refusal::Refusal;
use crate::status::Status;
use crate::usage::Usage;
use ot_base::Escaped;
use std::fmt;

/// Why a command stopped before it was done. Its `Display` is the line that says so, with its line end;
/// of want of memory nothing is said.
#[derive(Clone, Copy)]
pub enum CommandStop<'a> {
    /// The words ask for nothing that is done.
    Usage(Usage),
    /// No file has an input's name.
    Missing {
        file: &'a str,
    },
    /// An input has more than `limit` bytes.
    TooLong {
        file: &'a str,
        limit: u64,
    },
    /// The bytes of an input are refused.
    Refused(Refusal<'a>),
    /// No file has the name that a layout gives its file number `part`, counted from 0.
    PartMissing {
        part: u32,
        file: &'a str,
    },
    /// That file has more than `limit` bytes.
    PartTooLong {
        part: u32,
        file: &'a str,
        limit: u64,
    },
    /// The bytes of that file are refused.
    PartRefused {
        part: u32,
        refusal: Refusal<'a>,
    },
    /// A file couldn't be read or written.
    FileFault {
        file: &'a str,
    },
    /// Memory ran out.
    NoMemory,
}

impl CommandStop<'_> {
    ghost use Rattle.std.specs.Prelude.{◌≡◌};
    ghost use Rattle.command_base.specs.Stop.{status_of};

    /// The status that a command ends with which stops so.
    pub fn status(self) -> Status
        ensures { result ≡ status_of self.entry }
    {
        match self {
            CommandStop::Usage(_) => Status::Usage,
            CommandStop::Missing { .. }
            | CommandStop::TooLong { .. }
            | CommandStop::Refused(_)
            | CommandStop::PartMissing { .. }
            | CommandStop::PartTooLong { .. }
            | CommandStop::PartRefused { .. } => Status::Refused,
            CommandStop::FileFault { .. } => Status::FileFault,
            CommandStop::NoMemory => Status::NoMemory,
        }
    }
}

/// Why a command stops that stops so at file number `part` of a layout: a refusal is one of that file.
pub fn of_part<'a>(part: u32, stop: CommandStop<'a>) -> CommandStop<'a>
    ensures { result ≡ of_part part stop.entry }
{
    match stop {
        CommandStop::Missing { file } => CommandStop::PartMissing { part, file },
        CommandStop::TooLong { file, limit } => CommandStop::PartTooLong { part, file, limit },
        CommandStop::Refused(refusal) => CommandStop::PartRefused { part, refusal },
        stop => stop,
    }
}

/// That no file has a name.
#[derive(Clone, Copy)]
struct Absent<'a> {
    file: Escaped<'a>,
}

impl fmt::Display for Absent<'_> {
    ghost use Rattle.std.specs.Prelude.{Some};
    ghost use Rattle.command_base.specs.Stop.{missing_text};

    ghost output = { λ a. Some (missing_text a.file.0.now) };

    fn fmt<W: fmt::Write>(&self, f: &mut fmt::Formatter<W>) -> fmt::Result {
        write!(f, "{} is missing", self.file)
    }
}

/// That a file is longer than a limit.
#[derive(Clone, Copy)]
struct Longer<'a> {
    file: Escaped<'a>,
    limit: u64,
}

impl fmt::Display for Longer<'_> {
    ghost use Rattle.std.specs.Prelude.{Some};
    ghost use Rattle.command_base.specs.Stop.{longer_text};

    ghost output = { λ l. Some (longer_text l.file.0.now l.limit) };

    fn fmt<W: fmt::Write>(&self, f: &mut fmt::Formatter<W>) -> fmt::Result {
        write!(f, "{} is longer than {} bytes", self.file, self.limit)
    }
}

impl fmt::Display for CommandStop<'_> {
    ghost use Rattle.std.specs.Prelude.{Some};
    ghost use Rattle.command_base.specs.Stop.{line_of};

    ghost output = { λ s. Some (line_of s) };

    fn fmt<W: fmt::Write>(&self, f: &mut fmt::Formatter<W>) -> fmt::Result {
        match self {
            CommandStop::Usage(usage) => write!(f, "usage: {usage}\n"),
            CommandStop::Missing { file } => {
                let file = Escaped(file.as_bytes());
                write!(f, "refused: {}\n", Absent { file })
            }
            CommandStop::TooLong { file, limit } => {
                let file = Escaped(file.as_bytes());
                let limit = *limit;
                let longer = Longer { file, limit };
                write!(f, "refused: {longer}\n")
            }
            CommandStop::Refused(refusal) => write!(f, "refused: {refusal}\n"),
            CommandStop::PartMissing { part, file } => {
                let file = Escaped(file.as_bytes());
                write!(f, "refused: file {part}: {}\n", Absent { file })
            }
            CommandStop::PartTooLong { part, file, limit } => {
                let file = Escaped(file.as_bytes());
                let limit = *limit;
                let longer = Longer { file, limit };
                write!(f, "refused: file {part}: {longer}\n")
            }
            CommandStop::PartRefused { part, refusal } => {
                write!(f, "refused: file {part}: {refusal}\n")
            }
            CommandStop::FileFault { file } => {
                let file = Escaped(file.as_bytes());
                write!(f, "file fault: {file}\n")
            }
            CommandStop::NoMemory => Ok(()),
        }
    }
}
