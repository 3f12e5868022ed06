ghost use Rattle.std.specs.Prelude.{◌≡◌, ◌≤◌, Ok, length, IfOk, IfErr};
ghost use Rattle.command_base.specs.Reading.{MayRead, StopsAtRead, frames_stop, image_stop, layout_stop, lists_stop, merge_stop, orc_stop, parse_stop, place_stop, sites_stop, table_stop};

use crate::refusal::Refusal;
use crate::stop::CommandStop;
use eh_frame::EhFault;
use elf_objects::ElfFault;
use orc_bytes::OrcFault;
use orc_merge::{LayoutFault, MergeFault, TableFault};
use orc_walk::{ImageFault, PlaceFault};
use ot_base::ListsFault;
use ot_files::{FileError, Files};
use site_lists::SitesFault;
use std::alloc::Global;

/// How many bytes an image file may have.
pub const MAX_IMAGE_BYTES: u64 = 16_777_216;

/// Reads an input file whole, at most `limit` bytes, or tells why a command stops that needs it.
pub fn read_file<'a, F: Files>(
    alloc: Global,
    file: &'a str,
    limit: u64,
    files: &mut F,
) -> Result<Vec<u8>, CommandStop<'a>>
    ensures ok { IfOk result (λ bytes. MayRead limit (F.content files.old) file.now (Ok bytes.items)) }
    ensures few { IfOk result (λ bytes. length bytes.items ≤ limit) }
    ensures stopped { IfErr result (StopsAtRead limit file.now
        (record { content = F.content files.old; faults = F.faults files.old })
        (record { content = F.content files.new; faults = F.faults files.new })) }
    ensures unchanged { F.content files.new ≡ F.content files.old }
    ensures later { F.faults files.old ≤ F.faults files.new }
{
    let mut bytes = Vec::new(alloc);
    match files.read(file, limit, &mut bytes) {
        Ok(()) => Ok(bytes),
        Err(FileError::Failed) => Err(CommandStop::FileFault { file }),
        Err(FileError::Missing) => Err(CommandStop::Missing { file }),
        Err(FileError::TooLong { limit }) => Err(CommandStop::TooLong { file, limit }),
        Err(FileError::NoMemory) => Err(CommandStop::NoMemory),
    }
}

/// Why a command stops whose input is no object.
pub fn parse_stop<'a>(fault: ElfFault) -> CommandStop<'a>
    ensures { result ≡ parse_stop fault }
{
    match fault {
        ElfFault::NoMemory => CommandStop::NoMemory,
        fault => CommandStop::Refused(Refusal::Malformed(fault)),
    }
}

/// Why a command stops whose input's ORC sections hold no rows.
pub fn orc_stop<'a>(fault: OrcFault) -> CommandStop<'a>
    ensures { result ≡ orc_stop fault }
{
    match fault {
        OrcFault::NoMemory => CommandStop::NoMemory,
        fault => CommandStop::Refused(Refusal::Orc(fault)),
    }
}

/// Why a command stops whose names file isn't one.
pub fn lists_stop<'a>(fault: ListsFault) -> CommandStop<'a>
    ensures { result ≡ lists_stop fault }
{
    match fault {
        ListsFault::NoMemory => CommandStop::NoMemory,
        fault => CommandStop::Refused(Refusal::Lists(fault)),
    }
}

/// Why a command stops whose image isn't one.
pub fn image_stop<'a>(fault: ImageFault) -> CommandStop<'a>
    ensures { result ≡ image_stop fault }
{
    match fault {
        ImageFault::NoMemory => CommandStop::NoMemory,
        fault => CommandStop::Refused(Refusal::Image(fault)),
    }
}

/// Why a command stops whose rows can't be placed.
pub fn place_stop<'a>(fault: PlaceFault) -> CommandStop<'a>
    ensures { result ≡ place_stop fault }
{
    match fault {
        PlaceFault::NoMemory => CommandStop::NoMemory,
        fault => CommandStop::Refused(Refusal::Unplaced(fault)),
    }
}

/// Why a command stops whose input's site lists can't be read.
pub fn sites_stop<'a>(fault: SitesFault) -> CommandStop<'a>
    ensures { result ≡ sites_stop fault }
{
    match fault {
        SitesFault::NoMemory => CommandStop::NoMemory,
        fault => CommandStop::Refused(Refusal::Sites(fault)),
    }
}

/// Why a command stops whose input's call frame information can't be read.
pub fn frames_stop<'a>(fault: EhFault) -> CommandStop<'a>
    ensures { result ≡ frames_stop fault }
{
    match fault {
        EhFault::NoMemory => CommandStop::NoMemory,
        fault => CommandStop::Refused(Refusal::Frames(fault)),
    }
}

/// Why a command stops whose layout isn't one.
pub fn layout_stop<'a>(fault: LayoutFault) -> CommandStop<'a>
    ensures { result ≡ layout_stop fault }
{
    match fault {
        LayoutFault::NoMemory => CommandStop::NoMemory,
        fault => CommandStop::Refused(Refusal::Layout(fault)),
    }
}

/// Why a command stops whose objects' rows can't be merged.
pub fn merge_stop<'a>(fault: MergeFault) -> CommandStop<'a>
    ensures { result ≡ merge_stop fault }
{
    match fault {
        MergeFault::NoMemory => CommandStop::NoMemory,
        fault => CommandStop::Refused(Refusal::Merge(fault)),
    }
}

/// Why a command stops whose merged table isn't one.
pub fn table_stop<'a>(fault: TableFault) -> CommandStop<'a>
    ensures { result ≡ table_stop fault }
{
    match fault {
        TableFault::NoMemory => CommandStop::NoMemory,
        fault => CommandStop::Refused(Refusal::Table(fault)),
    }
}
