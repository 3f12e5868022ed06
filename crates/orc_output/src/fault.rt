//! Why an object gets no tables.

use ot_base::NoMemory;

/// Why an object gets no tables.
#[derive(Clone, Copy, Debug, PartialEq, Eq)]
pub enum TableFault {
    /// With the section symbols that are needed it would have this many symbols, more than 4,194,304.
    TooManySymbols { count: u64 },
    /// Memory was wanted and not there.
    NoMemory,
}

impl From<NoMemory> for TableFault {
    ghost use Rattle.std.specs.Prelude.{◌≡◌};
    ghost use Rattle.orc_output.specs.declared.fault.TableFault.TheVariants as faults;

    ghost from_gives = { λ _ fault. fault ≡ faults.NoMemory };

    fn from(_want: NoMemory) -> TableFault {
        TableFault::NoMemory
    }
}
