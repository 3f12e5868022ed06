ghost use Rattle.std.specs.Prelude.{Some};
ghost use Rattle.x86_decode.specs.FaultText.{fault_text};

use crate::DecodeFault;
use ot_base::Hexadecimal;
use std::fmt;

/// Why no instruction stands at the front of the bytes, in words: `opcode outside the map: ` and the bytes that were seen,
/// two hexadecimal digits each, `instruction cut after N bytes` or `instruction too long`.
#[derive(Clone, Copy, PartialEq, Eq)]
pub struct DecodeFaultText<'a> {
    /// What `decode` answered.
    pub fault: DecodeFault,
    /// The bytes that it was given.
    pub bytes: &'a [u8],
}

impl fmt::Display for DecodeFaultText<'_> {
    ghost output = { λ t. Some (fault_text t.fault t.bytes.now) };

    fn fmt<W: fmt::Write>(&self, f: &mut fmt::Formatter<W>) -> fmt::Result {
        match self.fault {
            DecodeFault::Outside { seen } => {
                let count = (seen as usize).min(self.bytes.len());
                let front = Hexadecimal(&self.bytes[..count]);
                write!(f, "opcode outside the map: {front}")
            }
            DecodeFault::Cut { have } => write!(f, "instruction cut after {have} bytes"),
            DecodeFault::Long => write!(f, "instruction too long"),
        }
    }
}
