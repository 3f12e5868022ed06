//! How a fault of an image is told.

use crate::image_fault::{ImageFault, ImageWhy};
use std::fmt;

/// What is wrong with the line, in words.
impl fmt::Display for ImageWhy {
    ghost use Rattle.std.specs.Prelude.{Some};
    ghost use Rattle.orc_walk.specs.ImageFaultText.{why_text};

    ghost output = { λ why. Some (why_text why) };

    fn fmt<W: fmt::Write>(&self, f: &mut fmt::Formatter<W>) -> fmt::Result {
        match self {
            ImageWhy::Word => write!(f, "bad word"),
            ImageWhy::Number => write!(f, "bad number"),
            ImageWhy::Repeated => write!(f, "repeated"),
            ImageWhy::Wraps => write!(f, "wraps"),
            ImageWhy::Overlaps => write!(f, "overlaps"),
            ImageWhy::NoRegs => write!(f, "no regs"),
        }
    }
}

/// The fault in words, such as `image line 3: bad number`. Want of memory has no words.
impl fmt::Display for ImageFault {
    ghost use Rattle.std.specs.Prelude.{Some};
    ghost use Rattle.orc_walk.specs.ImageFaultText.{fault_text};

    ghost output = { λ fault. Some (fault_text fault) };

    fn fmt<W: fmt::Write>(&self, f: &mut fmt::Formatter<W>) -> fmt::Result {
        match self {
            ImageFault::Line { line, why } => write!(f, "image line {line}: {why}"),
            ImageFault::NoMemory => Ok(()),
        }
    }
}
