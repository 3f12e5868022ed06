//! How faults are told. Numbers are decimal; want of memory has no words.

use crate::faults::{LayoutFault, LayoutWhy, MergeFault, TableFault};
use std::fmt;

/// The fault in words, such as `file 1 section 1: overlaps file 0 section 1`.
impl fmt::Display for MergeFault {
    ghost use Rattle.std.specs.Prelude.{Some};
    ghost use Rattle.orc_merge.specs.FaultTexts.{merge_text};

    ghost output = { λ fault. Some (merge_text fault) };

    fn fmt<W: fmt::Write>(&self, f: &mut fmt::Formatter<W>) -> fmt::Result {
        match self {
            MergeFault::Place { part, fault } => write!(f, "file {part}: {fault}"),
            MergeFault::NotEnded { part, sec } => write!(f, "file {part} section {sec}: not ended"),
            MergeFault::Overlaps {
                part,
                sec,
                other_part,
                other_sec,
            } => write!(
                f,
                "file {part} section {sec}: overlaps file {other_part} section {other_sec}"
            ),
            MergeFault::TooMany { count } => write!(f, "too many rows: {count}"),
            MergeFault::NoMemory => Ok(()),
        }
    }
}

/// The fault in words, such as `table: bad at byte 16`.
impl fmt::Display for TableFault {
    ghost use Rattle.std.specs.Prelude.{Some};
    ghost use Rattle.orc_merge.specs.FaultTexts.{table_text};

    ghost output = { λ fault. Some (table_text fault) };

    fn fmt<W: fmt::Write>(&self, f: &mut fmt::Formatter<W>) -> fmt::Result {
        match self {
            TableFault::Bad { off } => write!(f, "table: bad at byte {off}"),
            TableFault::NoMemory => Ok(()),
        }
    }
}

/// The name of the variant.
impl fmt::Display for LayoutWhy {
    ghost use Rattle.std.specs.Prelude.{Some};
    ghost use Rattle.orc_merge.specs.FaultTexts.{why_text};

    ghost output = { λ why. Some (why_text why) };

    fn fmt<W: fmt::Write>(&self, f: &mut fmt::Formatter<W>) -> fmt::Result {
        match self {
            LayoutWhy::Word => write!(f, "Word"),
            LayoutWhy::Number => write!(f, "Number"),
            LayoutWhy::Repeated => write!(f, "Repeated"),
        }
    }
}

/// The fault in words, such as `layout line 3: Number`.
impl fmt::Display for LayoutFault {
    ghost use Rattle.std.specs.Prelude.{Some};
    ghost use Rattle.orc_merge.specs.FaultTexts.{layout_text};

    ghost output = { λ fault. Some (layout_text fault) };

    fn fmt<W: fmt::Write>(&self, f: &mut fmt::Formatter<W>) -> fmt::Result {
        match self {
            LayoutFault::Line { line, why } => write!(f, "layout line {line}: {why}"),
            LayoutFault::NoMemory => Ok(()),
        }
    }
}
