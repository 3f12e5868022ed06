use crate::flow_text::FlowFaultText;
use eh_frame::EhFault;
use elf_objects::{Counted, ElfFault};
use object_points::LinkFaultText;
use orc_bytes::OrcFault;
use orc_merge::{LayoutFault, MergeFault, TableFault};
use orc_walk::{ImageFault, PlaceFault};
use ot_base::{Escaped, ListsFault};
use site_lists::SitesFault;
use std::fmt::{self, Display};

/// Why an input is refused.
#[derive(Clone, Copy)]
pub enum Refusal<'a> {
    /// The object file is no well-formed object.
    Malformed(ElfFault),
    /// The object's ORC sections hold no rows.
    Orc(OrcFault),
    /// The text of a names file isn't one.
    Lists(ListsFault),
    /// The text of an image isn't one.
    Image(ImageFault),
    /// A place of an image names section number `sec`, which is no text section.
    NoText { sec: u32 },
    /// The object's rows can't be placed as an image says.
    Unplaced(PlaceFault),
    /// The object's code isn't read.
    Unlinked(LinkFaultText<'a>),
    /// What the object says of its code doesn't fit the code.
    Unflowed(FlowFaultText),
    /// The object has ORC sections already; the section with this number is the first.
    HasOrc { sec: u32 },
    /// The object has site lists already; the section with this number is the first.
    HasSites { sec: u32 },
    /// The object's site lists can't be read.
    Sites(SitesFault),
    /// The object has call frame information already; the section with this number is the first.
    HasFrames { sec: u32 },
    /// The object's call frame information can't be read.
    Frames(EhFault),
    /// With what is added to it the object would have too many: it has `count` sections, or needs `count` symbols.
    TooMany { what: Counted, count: u64 },
    /// The text of a layout isn't one.
    Layout(LayoutFault),
    /// A layout names too many files: `count`.
    TooManyFiles { count: u64 },
    /// The rows of several objects can't be merged.
    Merge(MergeFault),
    /// The bytes of a merged table aren't one.
    Table(TableFault),
    /// No code of the object is of a function of this name.
    NoFunction { name: &'a str },
}

impl Display for Refusal<'_> {
    ghost use Rattle.std.specs.Prelude.{Some};
    ghost use Rattle.command_base.specs.Refusal.{refusal_text};

    ghost output = { λ r. Some (refusal_text r) };

    fn fmt<W: fmt::Write>(&self, f: &mut fmt::Formatter<W>) -> fmt::Result {
        match self {
            Refusal::Malformed(fault) => fault.fmt(f),
            Refusal::Orc(fault) => fault.fmt(f),
            Refusal::Lists(fault) => fault.fmt(f),
            Refusal::Image(fault) => fault.fmt(f),
            Refusal::NoText { sec } => write!(f, "section {sec}: no text"),
            Refusal::Unplaced(fault) => fault.fmt(f),
            Refusal::Unlinked(fault) => fault.fmt(f),
            Refusal::Unflowed(fault) => fault.fmt(f),
            Refusal::HasOrc { sec } => write!(f, "section {sec} is an ORC section"),
            Refusal::HasSites { sec } => write!(f, "section {sec} is a site list"),
            Refusal::Sites(fault) => fault.fmt(f),
            Refusal::HasFrames { sec } => write!(f, "section {sec} is a frame section"),
            Refusal::Frames(fault) => fault.fmt(f),
            Refusal::TooMany { what, count } => {
                ElfFault::TooMany {
                    what: *what,
                    count: *count,
                }
                .fmt(f)
            }
            Refusal::Layout(fault) => fault.fmt(f),
            Refusal::TooManyFiles { count } => write!(f, "too many files: {count}"),
            Refusal::Merge(fault) => fault.fmt(f),
            Refusal::Table(fault) => fault.fmt(f),
            Refusal::NoFunction { name } => {
                let name = Escaped(name.as_bytes());
                write!(f, "no function {name}")
            }
        }
    }
}
