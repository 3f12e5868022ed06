//! The rules that the instructions of an entry give.

ghost use Rattle.std.specs.Prelude.{◌≡◌, ◌≤◌, ◌<◌, ◌+◌, ◌++◌, ◌^◌, length, IfErr, OnOk};
ghost use Rattle.eh_frame.specs.Followed.{first_followed, moved_on, moved_rules, read_within, IsListFault, ListsRules};
ghost use Rattle.eh_frame.specs.Rules.{after, moves};

use crate::instruction::{Instruction, Read, read_instruction};
use crate::rule::{CfaRule, PlacedRule};
use crate::state::FrameState;
use ot_base::{NoMemory, Place};

/// Why the rules of an entry weren't listed.
#[derive(Clone, Copy)]
pub(crate) enum ListFault {
    /// The instruction behind so many bytes isn't one of the profile, or moves on past the section's end.
    Bad { at: usize },
    /// Memory ran out.
    NoMemory,
}

impl From<NoMemory> for ListFault {
    ghost from_gives = { λ _ fault. fault ≡ memory };

    ghost use Rattle.eh_frame.specs.declared.rules.ListFault.TheVariants.{NoMemory as memory};

    fn from(_want: NoMemory) -> ListFault {
        ListFault::NoMemory
    }
}

/// How far the instructions of an entry were followed.
#[derive(Clone, Copy)]
pub(crate) struct Followed {
    /// The location: an offset of the section.
    location: u32,
    /// The rules from there on.
    state: FrameState,
    /// The rule of the place before, or none at the section's beginning.
    last: Option<CfaRule>,
}

impl Followed {
    /// At the beginning of a section.
    fn first() -> Followed
        ensures { result ≡ first_followed }
    {
        Followed {
            location: 0,
            state: FrameState::first(),
            last: None,
        }
    }

    /// So many bytes further on, with other rules from there on.
    fn moved(self, bytes: u32, state: FrameState) -> Followed
        requires { self.location + bytes < 2 ^ 32 }
        ensures { result ≡ moved_on bytes state self }
    {
        Followed {
            location: self.location + bytes,
            state,
            last: if bytes == 0 {
                self.last
            } else {
                Some(self.state.rule())
            },
        }
    }
}

/// How far an instruction moves the location on, in bytes.
fn moves(instruction: &Instruction) -> u32
    ensures { result ≡ moves instruction.now }
{
    match *instruction {
        Instruction::AdvanceLoc { delta } => delta,
        _ => 0,
    }
}

/// The instruction at the beginning of some bytes, where it is one of the profile and moves on by no more than `room` bytes.
fn read_within(bytes: &[u8], room: u32) -> Option<Read>
    ensures { result ≡ read_within bytes.now room }
{
    let read = read_instruction(bytes)?;
    if moves(&read.instruction) <= room {
        Some(read)
    } else {
        None
    }
}

/// Lists the rule of a location from which so many bytes are moved on, where it isn't that of the place before.
fn list_moved(
    rules: &mut Vec<PlacedRule>,
    sec: u32,
    followed: &Followed,
    bytes: u32,
) -> Result<(), NoMemory>
    ensures { OnOk result (rules.new.items ≡ rules.old.items ++ moved_rules sec bytes followed.now) }
{
    let rule = followed.state.rule();
    if bytes == 0 || followed.last == Some(rule) {
        return Ok(());
    }
    let place = Place {
        sec,
        off: u64::from(followed.location),
    };
    rules.push(PlacedRule { place, rule })?;
    Ok(())
}

/// Lists the rules of a section of this size, as an entry's instructions give them.
pub(crate) fn list_rules(
    rules: &mut Vec<PlacedRule>,
    spelled: &[u8],
    sec: u32,
    size: u32,
) -> Result<(), ListFault>
    ensures ok { OnOk result (ListsRules sec size spelled.now rules.old.items rules.new.items) }
    ensures err { IfErr result (IsListFault size spelled.now) }
{
    let mut followed = Followed::first();
    let mut pos = 0;
    while pos < spelled.len() {
        let Some(read) = read_within(&spelled[pos..], size - followed.location) else {
            return Err(ListFault::Bad { at: pos });
        };
        let bytes = moves(&read.instruction);
        list_moved(rules, sec, &followed, bytes)?;
        followed = followed.moved(bytes, followed.state.after(read.instruction));
        pos += read.len;
    }
    list_moved(rules, sec, &followed, size - followed.location)?;
    Ok(())
}
