//! Why a text is no image.

ghost use Rattle.std.specs.Prelude.{◌≡◌};
ghost use Rattle.orc_walk.specs.Reading.{fault_at_line};

use std::alloc::{AllocError, AllocFailed};
use std::error::Error;

/// What is wrong with a line of an image. Of several the first in this order is told.
#[derive(Clone, Copy, Debug, PartialEq, Eq)]
pub enum ImageWhy {
    /// Its first word is none of `regs`, `place` and `mem`.
    Word,
    /// It has too few or too many words behind the first, or one of them isn't the number or the bytes
    /// that belong there.
    Number,
    /// An earlier line says the registers too, or where the same section lies.
    Repeated,
    /// The last of its bytes would lie above address `u64::MAX`.
    Wraps,
    /// One of its bytes lies where an earlier line has one.
    Overlaps,
    /// No line says the registers. It is told of the line behind the last one.
    NoRegs,
}

/// Why a text isn't read as an image.
#[derive(Clone, Copy, Debug, PartialEq, Eq)]
pub enum ImageFault {
    /// The first faulty line, counted from 1.
    Line { line: u64, why: ImageWhy },
    /// Memory was wanted and not there.
    NoMemory,
}

impl Error for ImageFault {}

/// Why a line isn't read.
#[derive(Clone, Copy)]
pub(crate) enum LineFault {
    /// What is wrong with it.
    Why(ImageWhy),
    /// Memory was wanted and not there.
    NoMemory,
}

impl LineFault {
    /// The fault of this line.
    pub(crate) fn at(self, line: u64) -> ImageFault
        ensures { result ≡ fault_at_line line self }
    {
        match self {
            LineFault::Why(why) => ImageFault::Line { line, why },
            LineFault::NoMemory => ImageFault::NoMemory,
        }
    }
}

impl From<AllocError> for ImageFault {
    ghost use Rattle.orc_walk.specs.declared.image_fault.ImageFault.TheVariants.{NoMemory};
    ghost use Rattle.std.specs.Prelude.{◌≡◌};

    ghost from_gives = { λ _ fault. fault ≡ NoMemory };

    fn from(_error: AllocError) -> ImageFault {
        ImageFault::NoMemory
    }
}

impl From<AllocError> for LineFault {
    ghost use Rattle.orc_walk.specs.declared.image_fault.LineFault.TheVariants.{NoMemory};
    ghost use Rattle.std.specs.Prelude.{◌≡◌};

    ghost from_gives = { λ _ fault. fault ≡ NoMemory };

    fn from(_error: AllocError) -> LineFault {
        LineFault::NoMemory
    }
}

impl<T: Drop> From<AllocFailed<T>> for LineFault {
    ghost use Rattle.orc_walk.specs.declared.image_fault.LineFault.TheVariants.{NoMemory};
    ghost use Rattle.std.specs.Prelude.{◌≡◌};

    ghost from_gives = { λ _ fault. fault ≡ NoMemory };

    fn from(_error: AllocFailed<T>) -> LineFault {
        LineFault::NoMemory
    }
}
