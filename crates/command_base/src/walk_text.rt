//! The lines of a walk's frames and of its stop.

use std::fmt;
use table_defs::{Frame, Stop};

/// The line of a frame: its number, counted from 0, and what the caller goes on with.
#[derive(Clone, Copy)]
pub struct FrameLine {
    /// The frame's number.
    pub number: u64,
    /// The frame.
    pub frame: Frame,
}

impl fmt::Display for FrameLine {
    ghost use Rattle.std.specs.Prelude.{Some};
    ghost use Rattle.command_base.specs.WalkText.{frame_line};

    ghost output = { λ l. Some (frame_line l.number l.frame) };

    #[tactic(auto, unfolding(crate::specs::WalkText::frame_line))]
    fn fmt<W: fmt::Write>(&self, f: &mut fmt::Formatter<W>) -> fmt::Result {
        let number = self.number;
        let Frame { ra, cfa, bp } = self.frame;
        writeln!(f, "frame {number}: ra 0x{ra:x} cfa 0x{cfa:x} bp 0x{bp:x}")
    }
}

/// That the caller's stack pointer isn't above the one before.
#[derive(Clone, Copy)]
struct NotRisingText {
    old: u64,
    new: u64,
}

impl fmt::Display for NotRisingText {
    ghost use Rattle.std.specs.Prelude.{Some};
    ghost use Rattle.command_base.specs.WalkText.{not_rising_text};

    ghost output = { λ t. Some (not_rising_text t.old t.new) };

    fn fmt<W: fmt::Write>(&self, f: &mut fmt::Formatter<W>) -> fmt::Result {
        write!(f, "not rising: old 0x{:x} new 0x{:x}", self.old, self.new)
    }
}

/// Why a walk stopped.
#[derive(Clone, Copy)]
struct StopText(Stop);

impl fmt::Display for StopText {
    ghost use Rattle.std.specs.Prelude.{Some};
    ghost use Rattle.command_base.specs.WalkText.{stop_text};

    ghost output = { λ s. Some (stop_text s.0) };

    fn fmt<W: fmt::Write>(&self, f: &mut fmt::Formatter<W>) -> fmt::Result {
        match self.0 {
            Stop::Outside => write!(f, "outside"),
            Stop::EndOfStack => write!(f, "end of stack"),
            Stop::Undefined => write!(f, "undefined"),
            Stop::NoRow => write!(f, "no row"),
            Stop::BaseUnknown { reg } => write!(f, "base unknown {reg}"),
            Stop::Unreadable { addr } => write!(f, "unreadable 0x{addr:x}"),
            Stop::NotRising { old, new } => write!(f, "{}", NotRisingText { old, new }),
            Stop::NoMemory => Ok(()),
        }
    }
}

/// The line of a walk's stop.
#[derive(Clone, Copy)]
pub struct StopLine(pub Stop);

impl fmt::Display for StopLine {
    ghost use Rattle.std.specs.Prelude.{Some};
    ghost use Rattle.command_base.specs.WalkText.{stop_line};

    ghost output = { λ s. Some (stop_line s.0) };

    #[tactic(auto, unfolding(crate::specs::WalkText::stop_line))]
    fn fmt<W: fmt::Write>(&self, f: &mut fmt::Formatter<W>) -> fmt::Result {
        let stop = StopText(self.0);
        writeln!(f, "stop: {stop}")
    }
}
