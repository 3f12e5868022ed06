//! The rules and rows of states, by hand.

use stack_rules::{
    call_rule, depth_number, fit_rule, iret_rule, return_rule, same_row, sibling_rule, switch_rule,
};
use state_defs::{BpHome, Depth, EndKind, State};

/// At a function's entry.
const ENTRY: State = State::Live {
    depth: Depth::Known(8),
    fp: None,
    bp: BpHome::Same,
};

/// After push %rbp; mov %rsp,%rbp.
const FRAMED: State = State::Live {
    depth: Depth::Known(16),
    fp: Some(16),
    bp: BpHome::Saved(16),
};

/// After and $-64,%rsp besides.
const ALIGNED: State = State::Live {
    depth: Depth::AtLeast(16),
    fp: Some(16),
    bp: BpHome::Saved(16),
};

/// After sub $32768,%rsp at the entry.
const DEEP: State = State::Live {
    depth: Depth::Known(32776),
    fp: None,
    bp: BpHome::Same,
};

const UNDEFINED: State = State::Ended(EndKind::Undefined);

const END: State = State::Ended(EndKind::EndOfStack);

const PT_REGS: State = State::Regs {
    full: true,
    depth: 0,
};

const IRET_FRAME: State = State::Regs {
    full: false,
    depth: 0,
};

const PUSHED: State = State::Regs {
    full: false,
    depth: 8,
};

/// Each state with the rules that it breaks at a return, a sibling call, a switch, an iret, a call, and anywhere.
const RULES: [(State, [Option<u8>; 6]); 9] = [
    (ENTRY, [None, None, Some(15), Some(15), Some(21), None]),
    (FRAMED, [Some(5), Some(6), Some(15), Some(15), None, None]),
    (ALIGNED, [Some(5), Some(6), Some(15), Some(15), None, None]),
    (
        DEEP,
        [Some(5), Some(6), Some(15), Some(15), Some(21), Some(10)],
    ),
    (UNDEFINED, [Some(15), Some(15), None, None, None, None]),
    (END, [Some(15), Some(15), None, None, None, None]),
    (
        PT_REGS,
        [Some(15), Some(15), Some(15), Some(15), None, None],
    ),
    (IRET_FRAME, [Some(15), Some(15), Some(15), None, None, None]),
    (PUSHED, [Some(15), Some(15), Some(15), Some(15), None, None]),
];

#[test]
fn states_break_their_rules(rt: HostRuntime) {
    for (row, (state, want)) in RULES.iter().enumerate() {
        let rules = [
            return_rule(*state),
            sibling_rule(*state),
            switch_rule(*state),
            iret_rule(*state),
            call_rule(*state),
            fit_rule(*state),
        ];
        assert!(rt; rules == *want, "row {row}");
    }
}

/// Pairs of states, and whether they have one row.
const ROWS: [(State, State, bool); 5] = [
    (FRAMED, ALIGNED, true),
    (ENTRY, FRAMED, false),
    (ENTRY, DEEP, false),
    (UNDEFINED, END, false),
    (PT_REGS, IRET_FRAME, false),
];

#[test]
fn rows_are_compared(rt: HostRuntime) {
    for (row, (one, other, want)) in ROWS.iter().enumerate() {
        assert!(rt; same_row(*one, *other) == *want, "row {row}");
    }
}

#[test]
fn depths_are_told(rt: HostRuntime) {
    assert!(rt; depth_number(DEEP) == 32776);
    assert!(rt; depth_number(ALIGNED) == -16);
    assert!(rt; depth_number(PUSHED) == 8);
    assert!(rt; depth_number(END) == 0);
}
