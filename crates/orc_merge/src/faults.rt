//! Why objects can't be merged, why bytes are no table, and why a text is no layout.

ghost use Rattle.std.specs.Prelude.{◌≡◌};

use orc_walk::PlaceFault;
use ot_base::NoMemory;
use std::alloc::{AllocError, AllocFailed};
use std::error::Error;

/// Why the rows of several objects can't be merged. Of several causes the first in this order is told.
/// Objects are numbered from 0 on.
#[derive(Clone, Copy, Debug, PartialEq, Eq)]
pub enum MergeFault {
    /// The rows of an object can't be placed in its ranges: of the first such object, the first cause.
    Place {
        /// The object.
        part: u32,
        /// Why.
        fault: PlaceFault,
    },
    /// A section doesn't end with a row of zeros right behind its last byte; or it has no byte, and a row. It is the first range of
    /// the first such object.
    NotEnded {
        /// The object.
        part: u32,
        /// The section's number.
        sec: u32,
    },
    /// The first range that shares an address with a range of an earlier object, the first of which is told too.
    Overlaps {
        /// The object.
        part: u32,
        /// The section's number.
        sec: u32,
        /// The earlier object.
        other_part: u32,
        /// The number of its section.
        other_sec: u32,
    },
    /// There are more than `MOST_ROWS` rows.
    TooMany {
        /// How many there are.
        count: u64,
    },
    /// Memory was wanted and not there.
    NoMemory,
}

/// Why bytes are no table.
#[derive(Clone, Copy, Debug, PartialEq, Eq)]
pub enum TableFault {
    /// They are wrong at this offset, the first of these that there is: a wrong byte of the first eight; their number, where it is
    /// below 16; 8, where the number of rows that stands there doesn't give their length, or is too large; an address that is
    /// below the one before it; a row that isn't one, or of the undefined kind behind another kind at the same address.
    Bad { off: u64 },
    /// Memory was wanted and not there.
    NoMemory,
}

/// What is wrong with a line of a layout. Of several the first in this order is told.
#[derive(Clone, Copy, Debug, PartialEq, Eq)]
pub enum LayoutWhy {
    /// Its first word is neither `file` nor `place`.
    Word,
    /// It has too few or too many words behind the first, or one of them isn't the name or the number that belongs there; or it
    /// says a place, and no line before it a file.
    Number,
    /// A line before it says where the same section of this file lies.
    Repeated,
}

/// Why a text isn't read as a layout.
#[derive(Clone, Copy, Debug, PartialEq, Eq)]
pub enum LayoutFault {
    /// The first faulty line, counted from 1.
    Line { line: u64, why: LayoutWhy },
    /// Memory was wanted and not there.
    NoMemory,
}

/// Why a line of a layout isn't read.
#[derive(Clone, Copy)]
pub(crate) enum LineFault {
    /// What is wrong with it.
    Why(LayoutWhy),
    /// Memory was wanted and not there.
    NoMemory,
}

impl LineFault {
    ghost use Rattle.orc_merge.specs.LayoutReading.{fault_at_line};

    /// The fault of this line.
    pub(crate) fn at(self, line: u64) -> LayoutFault
        ensures { result ≡ fault_at_line line self }
    {
        match self {
            LineFault::Why(why) => LayoutFault::Line { line, why },
            LineFault::NoMemory => LayoutFault::NoMemory,
        }
    }
}

impl Error for MergeFault {}

impl Error for TableFault {}

impl Error for LayoutFault {}

impl From<NoMemory> for MergeFault {
    ghost use Rattle.orc_merge.specs.declared.faults.MergeFault.TheVariants.{NoMemory as no_memory};

    ghost from_gives = { λ _ fault. fault ≡ no_memory };

    fn from(_error: NoMemory) -> MergeFault {
        MergeFault::NoMemory
    }
}

impl From<AllocError> for MergeFault {
    ghost use Rattle.orc_merge.specs.declared.faults.MergeFault.TheVariants.{NoMemory as no_memory};

    ghost from_gives = { λ _ fault. fault ≡ no_memory };

    fn from(_error: AllocError) -> MergeFault {
        MergeFault::NoMemory
    }
}

impl From<AllocError> for TableFault {
    ghost use Rattle.orc_merge.specs.declared.faults.TableFault.TheVariants.{NoMemory as no_memory};

    ghost from_gives = { λ _ fault. fault ≡ no_memory };

    fn from(_error: AllocError) -> TableFault {
        TableFault::NoMemory
    }
}

impl<T: Drop> From<AllocFailed<T>> for TableFault {
    ghost use Rattle.orc_merge.specs.declared.faults.TableFault.TheVariants.{NoMemory as no_memory};

    ghost from_gives = { λ _ fault. fault ≡ no_memory };

    fn from(_error: AllocFailed<T>) -> TableFault {
        TableFault::NoMemory
    }
}

impl From<AllocError> for LayoutFault {
    ghost use Rattle.orc_merge.specs.declared.faults.LayoutFault.TheVariants.{NoMemory as no_memory};

    ghost from_gives = { λ _ fault. fault ≡ no_memory };

    fn from(_error: AllocError) -> LayoutFault {
        LayoutFault::NoMemory
    }
}

impl From<AllocError> for LineFault {
    ghost use Rattle.orc_merge.specs.declared.faults.LineFault.TheVariants.{NoMemory as no_memory};

    ghost from_gives = { λ _ fault. fault ≡ no_memory };

    fn from(_error: AllocError) -> LineFault {
        LineFault::NoMemory
    }
}

impl<T: Drop> From<AllocFailed<T>> for LineFault {
    ghost use Rattle.orc_merge.specs.declared.faults.LineFault.TheVariants.{NoMemory as no_memory};

    ghost from_gives = { λ _ fault. fault ≡ no_memory };

    fn from(_error: AllocFailed<T>) -> LineFault {
        LineFault::NoMemory
    }
}
