use ot_base::NoMemory;
use std::alloc::AllocError;
use std::error::Error;
use std::fmt;

/// What is wrong with a word.
#[derive(Clone, Copy, Debug, PartialEq, Eq)]
pub enum UsageKind {
    /// There are no words.
    NoCommand,
    /// The first word is no command.
    UnknownCommand,
    /// A word that begins with `-` is no option of the command.
    UnknownOption,
    /// The option stands already.
    Repeated,
    /// A name is empty.
    Empty,
    /// A number isn't one from 0 to 100,000 in decimal digits, without zeros in front, or an address isn't
    /// 1 to 16 lower-case hexadecimal digits.
    BadNumber,
    /// A name is no topic that can be explained.
    UnknownTopic,
    /// The command takes no more names or numbers.
    Extra,
    /// A name or a number is missing.
    Missing,
}

/// Why words ask for nothing.
#[derive(Clone, Copy, Debug, PartialEq, Eq)]
pub enum UsageFault {
    /// The first word at fault, counted from 0. Where there is no word it is 0, and where one is missing
    /// it is the number of words.
    At { word: u64, kind: UsageKind },
    /// Memory ran out; this says nothing of the words.
    NoMemory,
}

impl fmt::Display for UsageKind {
    ghost use Rattle.std.specs.Prelude.{Some};
    ghost use Rattle.cli_words.specs.FaultText.{kind_text};

    ghost output = { λ kind. Some (kind_text kind) };

    fn fmt<W: fmt::Write>(&self, f: &mut fmt::Formatter<W>) -> fmt::Result {
        match self {
            UsageKind::NoCommand => write!(f, "no command"),
            UsageKind::UnknownCommand => write!(f, "unknown command"),
            UsageKind::UnknownOption => write!(f, "unknown option"),
            UsageKind::Repeated => write!(f, "repeated"),
            UsageKind::Empty => write!(f, "empty"),
            UsageKind::BadNumber => write!(f, "bad number"),
            UsageKind::UnknownTopic => write!(f, "unknown topic"),
            UsageKind::Extra => write!(f, "extra"),
            UsageKind::Missing => write!(f, "missing"),
        }
    }
}

/// The fault in words, such as `missing at word 2`. Want of memory has no words.
impl fmt::Display for UsageFault {
    ghost use Rattle.std.specs.Prelude.{Some};
    ghost use Rattle.cli_words.specs.FaultText.{fault_text};

    ghost output = { λ fault. Some (fault_text fault) };

    fn fmt<W: fmt::Write>(&self, f: &mut fmt::Formatter<W>) -> fmt::Result {
        match self {
            UsageFault::At { word, kind } => write!(f, "{kind} at word {word}"),
            UsageFault::NoMemory => Ok(()),
        }
    }
}

impl Error for UsageFault {}

impl From<NoMemory> for UsageFault {
    ghost use Rattle.cli_words.specs.declared.fault.UsageFault.TheVariants.{NoMemory};
    ghost use Rattle.std.specs.Prelude.{◌≡◌};

    ghost from_gives = { λ _ fault. fault ≡ NoMemory };

    fn from(_want: NoMemory) -> UsageFault {
        UsageFault::NoMemory
    }
}

impl From<AllocError> for UsageFault {
    ghost use Rattle.cli_words.specs.declared.fault.UsageFault.TheVariants.{NoMemory};
    ghost use Rattle.std.specs.Prelude.{◌≡◌};

    ghost from_gives = { λ _ fault. fault ≡ NoMemory };

    fn from(_error: AllocError) -> UsageFault {
        UsageFault::NoMemory
    }
}
