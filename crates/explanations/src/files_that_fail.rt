//! What the reasons mean for which a file can't be read or written.

ghost use Rattle.std.specs.Prelude.{◌≡◌, map};
ghost use Rattle.explanations.specs.Entry.{entry_of};
ghost use Rattle.explanations.specs.Volumes.{files_that_fail};

use crate::row::Row;

const ROWS: [Row; 7] = [
    (
        "file-folder",
        "NAME: Is a directory",
        "\
objtool: NAME: Is a directory

NAME is a folder, and a file is read or written. It is told besides the line
`file fault: NAME` and the status 4.

Name a file: of an object that is to be written into a folder give the name
in it, as folder/out.o.
",
    ),
    (
        "file-full",
        "NAME: No space left on device",
        "\
objtool: NAME: No space left on device

The disk on which NAME lies, or the share of it that this user may fill, has
no room for the new file, or no file can be made there any more. A new file is
written beside the old one before it takes its place, so there has to be room
for both. It is told besides the line `file fault: NAME` and the status 4.

An old file NAME is as it was. Make room (`df -h`, `df -i`), or write to
another disk.
",
    ),
    (
        "file-no-folder",
        "NAME: No such file or directory",
        "\
objtool: NAME: No such file or directory

The folder in which NAME was to be written isn't there. It is told besides the
line `file fault: NAME` and the status 4. An input that isn't there is refused
instead: NAME is missing.

Make the folder (`mkdir -p`), or mend the name. It is seen from where the
program runs.
",
    ),
    (
        "file-not-a-folder",
        "NAME: Not a directory",
        "\
objtool: NAME: Not a directory

What stands in NAME in front of a / is a file, and no folder. It is told
besides the line `file fault: NAME` and the status 4.

Mend the name.
",
    ),
    (
        "file-permission",
        "NAME: Permission denied",
        "\
objtool: NAME: Permission denied

This user may not read NAME, or may not write it; or it may not make a file in
the folder of NAME or replace one there. A new file is written beside the old
one before it takes its place, so the folder has to be writable too, as well
as an old file itself. It is told besides the line `file fault: NAME` and the
status 4.

An old file NAME is as it was. Look at the file and at its folder (`ls -ld`),
change their permissions (`chmod`), or write to another folder.
",
    ),
    (
        "file-read-only",
        "NAME: Read-only file system",
        "\
objtool: NAME: Read-only file system

The disk on which NAME lies can only be read. It is told besides the line
`file fault: NAME` and the status 4.

Write to another disk, or mount this one so that it can be written.
",
    ),
    (
        "file-too-large",
        "NAME: File too large",
        "\
objtool: NAME: File too large

The new file would be larger than a file may be, by a limit of this process
(`ulimit -f`) or of the disk. It is told besides the line `file fault: NAME`
and the status 4.

An old file NAME is as it was. Raise the limit, or write to another disk.
",
    ),
];

/// The rows of this volume.
#[tactic(auto, unfolding(crate::specs::Volumes::files_that_fail))]
pub(crate) fn rows() -> &'static [Row]
    ensures { map entry_of result.now ≡ files_that_fail }
{
    &ROWS
}
