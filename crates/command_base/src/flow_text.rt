//! What keeps an object's program from being checked, in words.

ghost use Rattle.std.specs.Prelude.{Some};
ghost use Rattle.command_base.specs.FlowText.{fault_text};

use flow_defs::FlowFault;
use std::fmt;

/// What keeps an object's program from being checked, in words. Want of memory has none.
#[derive(Clone, Copy, PartialEq, Eq)]
pub struct FlowFaultText {
    /// What keeps it.
    pub fault: FlowFault,
}

impl fmt::Display for FlowFaultText {
    ghost output = { λ t. Some (fault_text t.fault) };

    fn fmt<W: fmt::Write>(&self, f: &mut fmt::Formatter<W>) -> fmt::Result {
        match self.fault {
            FlowFault::FuncStart { sym } => write!(f, "symbol {sym}: bad function"),
            FlowFault::NotBoundary { list, entry } => {
                write!(f, "list {list}: entry {entry}: not a boundary")
            }
            FlowFault::StaticSite { entry } => write!(f, "static branch {entry}: not a site"),
            FlowFault::NotCall { entry } => write!(f, "intra call {entry}: not a call"),
            FlowFault::NotFunction { entry } => write!(f, "unchecked {entry}: not a function"),
            FlowFault::NoMemory => Ok(()),
        }
    }
}
