//! Why an object isn't checked.

use flow_defs::FlowFault;
use object_points::LinkFault;
use ot_base::NoMemory;

/// Why an object's code isn't read.
#[derive(Clone, Copy, Debug, PartialEq, Eq)]
pub enum CodeFault {
    /// Its texts, special sections, functions or alternatives aren't in order.
    Link(LinkFault),
    /// What it says of its code doesn't fit the code.
    Flow(FlowFault),
    /// Memory was wanted and not there.
    NoMemory,
}

impl From<LinkFault> for CodeFault {
    ghost use Rattle.std.specs.Prelude.{◌≡◌};
    ghost use Rattle.object_check.specs.Told.{link_fault};

    ghost from_gives = { λ fault told. told ≡ link_fault fault };

    fn from(fault: LinkFault) -> CodeFault {
        match fault {
            LinkFault::NoMemory => CodeFault::NoMemory,
            fault => CodeFault::Link(fault),
        }
    }
}

impl From<FlowFault> for CodeFault {
    ghost use Rattle.std.specs.Prelude.{◌≡◌};
    ghost use Rattle.object_check.specs.Told.{flow_fault};

    ghost from_gives = { λ fault told. told ≡ flow_fault fault };

    fn from(fault: FlowFault) -> CodeFault {
        match fault {
            FlowFault::NoMemory => CodeFault::NoMemory,
            fault => CodeFault::Flow(fault),
        }
    }
}

impl From<NoMemory> for CodeFault {
    ghost use Rattle.std.specs.Prelude.{◌≡◌};
    ghost use Rattle.object_check.specs.declared.fault.CodeFault.TheVariants as faults;

    ghost from_gives = { λ _ fault. fault ≡ faults.NoMemory };

    fn from(_want: NoMemory) -> CodeFault {
        CodeFault::NoMemory
    }
}

/// Why an object isn't checked.
#[derive(Clone, Copy, Debug, PartialEq, Eq)]
pub enum CheckFault {
    /// Its code isn't read.
    Link(LinkFault),
    /// What it says of its code doesn't fit the code.
    Flow(FlowFault),
    /// The section with this number is an ORC section already.
    HasOrc { sec: u32 },
    /// It has `count` sections, so that those of the tables would be too many.
    TooManySections { count: u64 },
    /// Memory was wanted and not there.
    NoMemory,
}

impl From<CodeFault> for CheckFault {
    ghost use Rattle.std.specs.Prelude.{◌≡◌};
    ghost use Rattle.object_check.specs.Told.{check_fault};

    ghost from_gives = { λ fault told. told ≡ check_fault fault };

    fn from(fault: CodeFault) -> CheckFault {
        match fault {
            CodeFault::Link(fault) => CheckFault::Link(fault),
            CodeFault::Flow(fault) => CheckFault::Flow(fault),
            CodeFault::NoMemory => CheckFault::NoMemory,
        }
    }
}

impl From<NoMemory> for CheckFault {
    ghost use Rattle.std.specs.Prelude.{◌≡◌};
    ghost use Rattle.object_check.specs.declared.fault.CheckFault.TheVariants as faults;

    ghost from_gives = { λ _ fault. fault ≡ faults.NoMemory };

    fn from(_want: NoMemory) -> CheckFault {
        CheckFault::NoMemory
    }
}
