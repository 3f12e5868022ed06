ghost use Rattle.std.specs.Prelude.{Some};
ghost use Rattle.x86_text.specs.FaultText.{fault_text};

use crate::fault::TextFault;
use ot_base::PlaceText;
use std::fmt;
use x86_decode::DecodeFaultText;

/// Why a body of code isn't read, in words: the place of the first boundary without an instruction, `: `, and why none
/// stands there. Want of memory has no words.
#[derive(Clone, Copy, PartialEq, Eq)]
pub struct TextFaultText<'a> {
    /// What reading the body answered.
    pub fault: TextFault,
    /// The name of the section whose body it is.
    pub section: &'a [u8],
    /// The body.
    pub body: &'a [u8],
}

impl fmt::Display for TextFaultText<'_> {
    ghost output = { λ t. Some (fault_text t.fault t.section.now t.body.now) };

    fn fmt<W: fmt::Write>(&self, f: &mut fmt::Formatter<W>) -> fmt::Result {
        let section = self.section;
        match self.fault {
            TextFault::At { off, why: fault } => {
                let start = (off as usize).min(self.body.len());
                let bytes = &self.body[start..];
                let place = PlaceText { section, off };
                write!(f, "{place}: {}", DecodeFaultText { fault, bytes })
            }
            TextFault::NoMemory => Ok(()),
        }
    }
}
