/// How a command ended. Its number, from 0 in the order of the variants, is the program's exit
/// status.
#[derive(Clone, Copy, PartialEq, Eq)]
pub enum Status {
    /// Everything asked for was done.
    Done,
    /// The object breaks a rule; the warnings were printed.
    Warnings,
    /// An input was refused; a line says which and why.
    Refused,
    /// The words are no command; a line says so.
    Usage,
    /// Reading or writing a file failed; a line names the file.
    FileFault,
    /// Writing to the output failed.
    SinkFault,
    /// Memory ran out.
    NoMemory,
}

impl Status {
    ghost use Rattle.std.specs.Prelude.{◌≡◌};
    ghost use Rattle.command_base.specs.Status.{exit_code};

    /// The exit status.
    pub fn code(self) -> u8
        ensures { result ≡ exit_code self }
    {
        self as u8
    }
}
