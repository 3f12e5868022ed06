//! Why the code of an object isn't read, in words.

ghost use Rattle.std.specs.Prelude.{Some};
ghost use Rattle.object_points.specs.FaultText.{fault_text};

use crate::fault::LinkFault;
use std::fmt;
use x86_text::TextFaultText;

/// Why the code of an object isn't read, in the words of the reader that refuses it. Want of memory has no
/// words.
#[derive(Clone, Copy, PartialEq, Eq)]
pub struct LinkFaultText<'a> {
    /// Why it isn't read.
    pub fault: LinkFault,
    /// The name of the text section, where a text section isn't code.
    pub section: &'a [u8],
    /// Its body.
    pub body: &'a [u8],
}

impl fmt::Display for LinkFaultText<'_> {
    ghost output = { λ t. Some (fault_text t.fault t.section.now t.body.now) };

    fn fmt<W: fmt::Write>(&self, f: &mut fmt::Formatter<W>) -> fmt::Result {
        let section = self.section;
        let body = self.body;
        match self.fault {
            LinkFault::Text { sec: _, fault } => write!(
                f,
                "{}",
                TextFaultText {
                    fault,
                    section,
                    body,
                }
            ),
            LinkFault::Special(fault) => write!(f, "{fault}"),
            LinkFault::Index(fault) => write!(f, "{fault}"),
            LinkFault::Site(fault) => write!(f, "{fault}"),
            LinkFault::NoMemory => Ok(()),
        }
    }
}
