//! Entries and exits as they are stored.

ghost use Rattle.std.specs.Prelude.{◌≡◌, ◌+◌, ◌<◌, ◌^◌, ◌↔◌, ℕ, None, Option, Some, IsTrue, is_some};
ghost use Rattle.return_search.specs.declared.searched_flow.Exit.TheVariants.{Calls, Passes};

use crate::searched_flow::Exit;
use std::marker::Model;

/// What is stored where there is no entry. Entries have lesser numbers.
const NO_ENTRY: u32 = u32::MAX;

/// An entry, if there is one, in 4 bytes. Contracts see it as the option.
#[derive(Clone, Copy)]
pub struct StoredEntry {
    number: u32,
}

const _: () = prove!(size_of::<StoredEntry>() == 4);

impl Model for StoredEntry {
    ghost use Rattle.std.specs.Prelude.{ℕ, Option};
    ghost use Rattle.return_search.specs.Stored.{entry_stored_as, number_of};

    ghost Value = { Option ℕ };

    ghost view = { λ s. entry_stored_as s.number };

    ghost inverse = { λ entry. record { number = number_of entry } };
}

impl StoredEntry {
    /// No entry.
    pub fn none() -> StoredEntry
        ensures { result ≡ None }
    {
        StoredEntry { number: NO_ENTRY }
    }

    /// An entry, of less than 2^32 points.
    pub fn some(entry: u32) -> StoredEntry
        requires { entry + 1 < 2 ^ 32 }
        ensures { result ≡ Some entry }
    {
        StoredEntry { number: entry }
    }

    /// Whether there is an entry.
    pub fn is_some(&self) -> bool
        ensures { result ≡ is_some self.now }
    {
        self.number != NO_ENTRY
    }

    /// The entry.
    pub fn entry(&self) -> Option<u32>
        ensures { result ≡ self.now }
    {
        if self.number == NO_ENTRY {
            None
        } else {
            Some(self.number)
        }
    }
}

/// Exits are stored for no more points than these.
pub const MOST_POINTS: u32 = u32::MAX - 3;

/// What is stored for a call whose target never returns. The numbers of entries that are called are less.
const CALLS_NEVER: u32 = MOST_POINTS;

/// What is stored for a call whose target always may return.
const CALLS_OUT: u32 = u32::MAX - 2;

/// What is stored for that from which a return comes.
const LEAVES: u32 = u32::MAX - 1;

/// What is stored for what passes.
const PASSES: u32 = u32::MAX;

/// What a point is to a return, in 4 bytes. Contracts see it as the exit.
#[derive(Clone, Copy)]
pub struct StoredExit {
    code: u32,
}

const _: () = prove!(size_of::<StoredExit>() == 4);

impl Model for StoredExit {
    ghost use Rattle.return_search.specs.declared.searched_flow.Exit.{Exit};
    ghost use Rattle.return_search.specs.Stored.{exit_stored_as, code_of};

    ghost Value = { Exit };

    ghost view = { λ s. exit_stored_as s.code };

    ghost inverse = { λ exit. record { code = code_of exit } };
}

impl StoredExit {
    /// An exit. What it calls is one of as many points as may be.
    pub fn new(exit: Exit) -> StoredExit
        requires { (entry : ℕ) → exit ≡ Calls entry → entry < MOST_POINTS }
        ensures { result ≡ exit }
    {
        let code = match exit {
            Exit::Calls { entry } => entry,
            Exit::CallsNever => CALLS_NEVER,
            Exit::CallsOut => CALLS_OUT,
            Exit::Leaves => LEAVES,
            Exit::Passes => PASSES,
        };
        StoredExit { code }
    }

    /// That of a point that passes.
    pub fn passing() -> StoredExit
        ensures { result ≡ Passes }
    {
        StoredExit { code: PASSES }
    }

    /// The exit.
    pub fn exit(&self) -> Exit
        ensures { result ≡ self.now }
    {
        match self.code {
            PASSES => Exit::Passes,
            LEAVES => Exit::Leaves,
            CALLS_OUT => Exit::CallsOut,
            CALLS_NEVER => Exit::CallsNever,
            entry => Exit::Calls { entry },
        }
    }

    /// Whether it passes.
    pub fn passes(&self) -> bool
        ensures { IsTrue result ↔ (self.now ≡ Passes) }
    {
        self.code == PASSES
    }
}
