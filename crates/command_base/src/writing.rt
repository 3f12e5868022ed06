//! Writing an output file.

ghost use Rattle.std.specs.Prelude.{◌≡◌, ◌≤◌, IfErr, OnErr, OnOk};
ghost use Rattle.ot_files.specs.Content.{ChangesAtMost, writing};
ghost use Rattle.command_base.specs.Writing.{StopsAtWrite};

use crate::stop::CommandStop;
use ot_files::{FileError, Files};

/// Makes the file of this name hold these bytes, in one step, or tells why a command stops that can't.
pub fn write_file<'a, F: Files>(
    file: &'a str,
    bytes: &[u8],
    files: &mut F,
) -> Result<(), CommandStop<'a>>
    ensures written { OnOk result (F.content files.new ≡ writing (F.content files.old) file.now bytes.now) }
    ensures stopped { IfErr result (StopsAtWrite file.now
        (record { content = F.content files.old; faults = F.faults files.old })
        (record { content = F.content files.new; faults = F.faults files.new })) }
    ensures others { OnErr result (ChangesAtMost file.now (F.content files.old) (F.content files.new)) }
    ensures later { F.faults files.old ≤ F.faults files.new }
{
    match files.write(file, bytes) {
        Ok(()) => Ok(()),
        Err(FileError::NoMemory) => Err(CommandStop::NoMemory),
        Err(FileError::Failed) => Err(CommandStop::FileFault { file }),
        // No write answers these.
        Err(FileError::Missing) => unreachable!(),
        Err(FileError::TooLong { .. }) => unreachable!(),
    }
}
