//! The words of stack states.

ghost use Rattle.std.specs.Prelude.{◌≡◌, ◌++◌, [], OnErr, OnOk, Some, codes, if◌then◌else◌};
ghost use Rattle.ot_base.specs.PlaceText.{with_sign};
ghost use Rattle.ot_base.specs.RowText.{kind_name, register_name};
ghost use Rattle.state_defs.specs.Row.{bp_offset_of, bp_reg_of, end_number, row_of, sp_offset_of, sp_reg_of};
ghost use Rattle.code_listing.specs.States.{besides_row, frame_words, kept_words, state_words};

use ot_base::NoMemory;
use state_defs::{BpHome, Depth, EndKind, State};
use std::fmt;

/// What a frame's top or a saved rbp is counted from, and how many bytes it lies above that.
#[derive(Clone, Copy)]
struct Base {
    register: &'static str,
    offset: i128,
}

/// From nothing.
const NOWHERE: Base = Base {
    register: "undef",
    offset: 0,
};

impl fmt::Display for Base {
    ghost output = { λ b. Some (b.register.now ++ with_sign b.offset) };

    fn fmt<W: fmt::Write>(&self, f: &mut fmt::Formatter<W>) -> fmt::Result {
        let register = self.register;
        let offset = self.offset;
        if offset < 0 {
            write!(f, "{register}{offset}")
        } else {
            write!(f, "{register}+{offset}")
        }
    }
}

/// The words of a row, with its offsets as whole numbers.
#[derive(Clone, Copy)]
struct WideRow {
    kind: &'static str,
    top: Base,
    home: Base,
    signal: bool,
}

impl fmt::Display for WideRow {
    ghost output = { λ r. Some (r.kind.now ++ codes " cfa " ++ (r.top.register.now ++ with_sign r.top.offset) ++ codes " bp " ++ (r.home.register.now ++ with_sign r.home.offset) ++ (if r.signal then codes " signal" else [])) };

    fn fmt<W: fmt::Write>(&self, f: &mut fmt::Formatter<W>) -> fmt::Result {
        let WideRow {
            kind,
            top,
            home,
            ..
        } = *self;
        let signal = if self.signal { " signal" } else { "" };
        write!(f, "{kind} cfa {top} bp {home}{signal}")
    }
}

/// What the top of a call frame is counted from.
#[tactic(auto, unfolding(ot_base::specs::RowText::register_name))]
fn top_of(depth: Depth, fp: Option<i64>) -> Base
    ensures register { result.register.now ≡ register_name (sp_reg_of fp) }
    ensures offset { result.offset ≡ sp_offset_of depth fp }
{
    match (fp, depth) {
        (Some(offset), _) => Base {
            register: "bp",
            offset: i128::from(offset),
        },
        (None, Depth::Known(offset) | Depth::AtLeast(offset)) => Base {
            register: "sp",
            offset: i128::from(offset),
        },
    }
}

/// Where the caller's rbp is.
#[tactic(auto, unfolding(ot_base::specs::RowText::register_name))]
fn home_of(bp: BpHome) -> Base
    ensures register { result.register.now ≡ register_name (bp_reg_of bp) }
    ensures offset { result.offset ≡ bp_offset_of bp }
{
    match bp {
        BpHome::Same => NOWHERE,
        BpHome::Saved(below) => Base {
            register: "prev",
            offset: -i128::from(below),
        },
    }
}

/// The word of a stack that a hint ended.
#[tactic(auto, unfolding(ot_base::specs::RowText::kind_name))]
fn end_word(kind: EndKind) -> &'static str
    ensures { result.now ≡ kind_name (end_number kind) }
{
    match kind {
        EndKind::Undefined => "undefined",
        EndKind::EndOfStack => "end",
    }
}

/// The words of a state's row.
#[tactic(auto, unfolding(ot_base::specs::RowText::kind_name, ot_base::specs::RowText::register_name))]
fn row_of(state: State) -> WideRow
    ensures kind { result.kind.now ≡ kind_name (row_of state).kind }
    ensures top { result.top.register.now ≡ register_name (row_of state).sp_reg }
    ensures offset { result.top.offset ≡ (row_of state).sp_offset }
    ensures home { result.home.register.now ≡ register_name (row_of state).bp_reg }
    ensures home_offset { result.home.offset ≡ (row_of state).bp_offset }
    ensures signal { result.signal ≡ (row_of state).signal }
{
    match state {
        State::Live { depth, fp, bp } => WideRow {
            kind: "call",
            top: top_of(depth, fp),
            home: home_of(bp),
            signal: false,
        },
        State::Ended(kind) => WideRow {
            kind: end_word(kind),
            top: NOWHERE,
            home: NOWHERE,
            signal: false,
        },
        State::Regs { full, depth } => WideRow {
            kind: if full { "regs" } else { "partial" },
            top: Base {
                register: "sp",
                offset: i128::from(depth),
            },
            home: NOWHERE,
            signal: true,
        },
    }
}

/// How far rsp is below the frame's top, where a state's row doesn't tell it.
#[derive(Clone, Copy)]
struct BesidesRow(State);

impl fmt::Display for BesidesRow {
    ghost output = { λ b. Some (besides_row b.0) };

    fn fmt<W: fmt::Write>(&self, f: &mut fmt::Formatter<W>) -> fmt::Result {
        match self.0 {
            State::Live {
                depth: Depth::Known(depth),
                fp: Some(_),
                ..
            } => write!(f, " depth {depth}"),
            State::Live {
                depth: Depth::AtLeast(depth),
                ..
            } => write!(f, " depth at least {depth}"),
            _ => Ok(()),
        }
    }
}

/// The words of a state in a frame.
#[derive(Clone, Copy)]
struct FrameWords(State);

impl fmt::Display for FrameWords {
    ghost output = { λ s. Some (frame_words s.0) };

    fn fmt<W: fmt::Write>(&self, f: &mut fmt::Formatter<W>) -> fmt::Result {
        let row = row_of(self.0);
        let besides = BesidesRow(self.0);
        write!(f, "{row}{besides}")
    }
}

/// The words of a state.
#[derive(Clone, Copy)]
pub(crate) struct StateWords(pub(crate) State);

impl fmt::Display for StateWords {
    ghost output = { λ s. Some (state_words s.0) };

    #[tactic(auto, unfolding(crate::specs::States::state_words))]
    fn fmt<W: fmt::Write>(&self, f: &mut fmt::Formatter<W>) -> fmt::Result {
        match self.0 {
            State::Ended(kind) => write!(f, "ended: {}", end_word(kind)),
            State::Live { .. } | State::Regs { .. } => write!(f, "{}", FrameWords(self.0)),
        }
    }
}

/// The words of the state that is kept at a point, if one is.
#[derive(Clone, Copy)]
struct KeptWords(Option<State>);

impl fmt::Display for KeptWords {
    ghost output = { λ k. Some (kept_words k.0) };

    fn fmt<W: fmt::Write>(&self, f: &mut fmt::Formatter<W>) -> fmt::Result {
        match self.0 {
            Some(state) => write!(f, "{}", StateWords(state)),
            None => write!(f, "not reached"),
        }
    }
}

/// Appends the words of the state that is kept at a point: its row as `dump` prints it, and the depth of rsp where the frame's top is
/// counted from rbp; `ended: ` and the row's kind where the stack has ended; or `not reached` where none is kept.
///
/// # Errors
///
/// [`NoMemory`] where memory was wanted and not there; then nothing is appended.
pub fn push_state(state: Option<State>, into: &mut Vec<u8>) -> Result<(), NoMemory>
    ensures ok { OnOk result (into.new.items ≡ into.old.items ++ kept_words state) }
    ensures err { OnErr result (into.new.items ≡ into.old.items) }
{
    let alloc = *into.allocator();
    let words = KeptWords(state);
    let text = format!(in alloc; "{words}")?;
    into.extend_from_slice(text.as_bytes())?;
    Ok(())
}
