//! How a fault of call frame information is told.

use crate::fault::EhFault;
use std::fmt;

/// The fault in words, such as `no section .eh_frame` or `bad operation at 57`; numbers are decimal. Want of memory has no words.
impl fmt::Display for EhFault {
    ghost use Rattle.std.specs.Prelude.{Some};
    ghost use Rattle.eh_frame.specs.Texts.{fault_text};

    ghost output = { λ fault. Some (fault_text fault) };

    fn fmt<W: fmt::Write>(&self, f: &mut fmt::Formatter<W>) -> fmt::Result {
        match *self {
            EhFault::NoSection => write!(f, "no section .eh_frame"),
            EhFault::BadRecord { off } => write!(f, "frame record at {off}: bad record"),
            EhFault::BadReloc { off } => write!(f, "bad relocation at {off}"),
            EhFault::BadOp { off } => write!(f, "bad operation at {off}"),
            EhFault::NoMemory => Ok(()),
        }
    }
}
