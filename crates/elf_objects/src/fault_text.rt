//! The texts of faults.

ghost use Rattle.std.specs.Prelude.{◌≡◌, ◌++◌, codes};
ghost use Rattle.std.specs.Fmt.{decimal};
ghost use Rattle.elf_objects.specs.FaultParts.{part_text, parts_text};
ghost use Rattle.elf_objects.specs.FaultText.{counted_text, fault_text, name_of_text};

use crate::fault::{Counted, ElfFault, NameOf};
use std::fmt;

/// `section` or `symbol`.
impl fmt::Display for NameOf {
    ghost use Rattle.std.specs.Prelude.{Some};
    ghost use Rattle.elf_objects.specs.FaultText.{name_of_text};

    ghost output = { λ n. Some (name_of_text n) };

    fn fmt<W: fmt::Write>(&self, f: &mut fmt::Formatter<W>) -> fmt::Result {
        match self {
            NameOf::Section => write!(f, "section"),
            NameOf::Symbol => write!(f, "symbol"),
        }
    }
}

/// `sections`, `symbols` or `text bytes`.
impl fmt::Display for Counted {
    ghost use Rattle.std.specs.Prelude.{Some};
    ghost use Rattle.elf_objects.specs.FaultText.{counted_text};

    ghost output = { λ c. Some (counted_text c) };

    fn fmt<W: fmt::Write>(&self, f: &mut fmt::Formatter<W>) -> fmt::Result {
        match self {
            Counted::Sections => write!(f, "sections"),
            Counted::Symbols => write!(f, "symbols"),
            Counted::TextBytes => write!(f, "text bytes"),
        }
    }
}

/// Words, and the number behind them where there is one.
#[derive(Clone, Copy)]
struct Part(&'static str, Option<u64>);

impl fmt::Display for Part {
    ghost use Rattle.std.specs.Prelude.{Some};

    ghost output = { λ p. Some (part_text p.0.now p.1) };

    fn fmt<W: fmt::Write>(&self, f: &mut fmt::Formatter<W>) -> fmt::Result {
        match self.1 {
            Some(number) => write!(f, "{}{number}", self.0),
            None => write!(f, "{}", self.0),
        }
    }
}

/// The words before the number of what has a bad name.
fn whose(what: NameOf) -> &'static str
    ensures { result.now ≡ name_of_text what ++ codes " " }
{
    match what {
        NameOf::Section => "section ",
        NameOf::Symbol => "symbol ",
    }
}

/// That there is too much of something.
fn too_many(what: Counted) -> &'static str
    ensures { result.now ≡ codes "too many " ++ counted_text what }
{
    match what {
        Counted::Sections => "too many sections",
        Counted::Symbols => "too many symbols",
        Counted::TextBytes => "too many text bytes",
    }
}

/// What is wrong with one of several, by its number.
fn numbered(what: &'static str, number: u32, wrong: &'static str) -> (Part, Part)
    ensures { parts_text result ≡ what.now ++ decimal number ++ wrong.now }
{
    (Part(what, Some(u64::from(number))), Part(wrong, None))
}

/// The text of a fault in two parts.
fn parts(fault: ElfFault) -> (Part, Part)
    ensures { parts_text result ≡ fault_text fault }
{
    match fault {
        ElfFault::Short { need, have } => (
            Part("file needs ", Some(need)),
            Part(" bytes, has ", Some(have)),
        ),
        ElfFault::NotElfRel64 { at } => (
            Part("not an x86-64 relocatable file", None),
            Part(" at byte ", Some(at)),
        ),
        ElfFault::BadTable { sec } => numbered("section ", sec, ": bad table"),
        ElfFault::BadRange { sec } => numbered("section ", sec, ": outside the file"),
        ElfFault::BadName { what, index } => numbered(whose(what), index, ": bad name"),
        ElfFault::BadLink { sec } => numbered("section ", sec, ": bad link"),
        ElfFault::BadSymbol { sym } => numbered("symbol ", sym, ": bad symbol"),
        ElfFault::BadReloc { sec, index } => (
            Part("section ", Some(u64::from(sec))),
            Part(": bad relocation ", Some(u64::from(index))),
        ),
        ElfFault::TooMany { what, count } => {
            (Part(too_many(what), None), Part(": ", Some(count)))
        }
        ElfFault::NoMemory => (Part("", None), Part("", None)),
    }
}

/// The fault in words, such as `file needs 504 bytes, has 64` or `section 3: bad link`; numbers are
/// decimal. Want of memory has no text.
impl fmt::Display for ElfFault {
    ghost use Rattle.std.specs.Prelude.{Some};

    ghost output = { λ e. Some (fault_text e) };

    fn fmt<W: fmt::Write>(&self, f: &mut fmt::Formatter<W>) -> fmt::Result {
        let (first, second) = parts(*self);
        write!(f, "{first}{second}")
    }
}
