ghost use Rattle.std.specs.Prelude.{◌≡◌};

use crate::slot::Slot;
use program_model::{down, up};
use state_defs::EndKind;
use std::alloc::{AllocError, Global};

/// The last SAVE hint passed on a level, and what stood there.
#[derive(Clone, Copy)]
pub struct Mark {
    /// Its point.
    pub point: u32,
    /// rsp there.
    pub rsp: u64,
    /// rbp there.
    pub rbp: u64,
    /// The top frame's slot there, where there was a frame.
    pub slot: Option<Slot>,
    /// What had ended the stack there.
    pub ended: Option<EndKind>,
}

/// A frame of the shadow call stack. In a call frame `ra`, `cfa` and `bp` are the return address, the
/// caller's rsp and the caller's rbp; in an interrupt frame the interrupted address, rsp and rbp.
#[derive(Clone, Copy)]
pub struct Frame {
    /// The point of the call, or the interrupted point; none where the frame was there at the start.
    pub call: Option<u32>,
    /// Where the caller goes on.
    pub ra: u64,
    /// The caller's rsp.
    pub cfa: u64,
    /// The caller's rbp.
    pub bp: u64,
    /// Its kind, and where it keeps what.
    pub slot: Slot,
    /// Whether user access was on when it was made.
    pub ac: bool,
    /// What had ended the stack of the level below.
    pub ended_caller: Option<EndKind>,
    /// The mark of the level below.
    pub mark_caller: Option<Mark>,
}

/// A word of memory that a walk needs.
#[derive(Clone, Copy)]
pub struct Protected {
    /// Its address.
    pub at: u64,
    /// What it holds.
    pub value: u64,
}

fn word(at: u64, value: u64) -> Protected
    ensures { result ≡ record { at = at; value = value } }
{
    Protected { at, value }
}

impl Frame {
    ghost use Rattle.std.specs.Prelude.{◌≡◌, IfOk};
    ghost use Rattle.state_defs.specs.Frame.{protected};
    ghost use Rattle.machine_model.specs.Frame.{frame_of, words_of};

    /// The protected slots of the frame, by its kind.
    pub fn protected(&self, alloc: Global) -> Result<Vec<Protected>, AllocError>
        ensures { IfOk result (λ words. words_of words.items ≡ protected (frame_of self.now)) }
    {
        let ra = word(down(self.cfa, 8), self.ra);
        Ok(match self.slot {
            Slot::Unsaved => vec![in alloc; ra]?,
            Slot::SavedAt(a) => vec![in alloc; ra, word(a, self.bp)]?,
            Slot::PartialAt(a) => { vec![in alloc; word(a, self.ra), word(up(a, 24), self.cfa)]? }
            Slot::FullAt(a) => vec![in alloc;
                word(up(a, 32), self.bp),
                word(up(a, 128), self.ra),
                word(up(a, 152), self.cfa),
            ]?,
        })
    }
}
