//! What joined objects have: calls behind which control comes back by a mark, calls of code of no function, and jumps to entries
//! that were jumps outside.

use crate::case::{
    Accepted, Broken, CALLED, CALLER, END, ENDED, ENTERED, End, How, NO_OPTIONS, PUSHED, RBP, Run,
    TOLD, Wrong,
};
use crate::expect::{expect_accepted, expect_broken};
use crate::options::UNREACHABLE;
use machine_defs::{EdgeKind, Role};
use operation_defs::Op;
use ot_base::rules;
use stack_examples::lines::{Table, With};
use state_defs::HintState;
use table_defs::{Frame, Stop};

/// A hint ends the stack, or tells the stack as at an entry.
const ENDS: With = With::Hint(HintState::Set(END));

const ENTERS: With = With::Hint(HintState::Set(ENTERED));

/// A jump by 32 bits.
const WIDE_JMP: Op = Op::Jmp { rel: 0, wide: true };

/// The frame of a call at 1, of five bytes, behind a push.
const CALLED_AT_1: &[Frame] = &[
    Frame {
        ra: 0x1006,
        cfa: 0x80F0,
        bp: RBP,
    },
    CALLER,
];

/// 53 E8 00 00 00 00 5B C3 F4 EB FD: f calls g, which never returns, and whose name says so; but the call is marked.
const MARKED: Accepted = Accepted {
    name: "a marked call of a function that never returns",
    table: Table {
        rows: &[
            (0, 1, Op::Push, &[]),
            (
                1,
                5,
                Op::Call { rel: 2 },
                &[With::Is(Role::CallIn { entry: 4 }), With::Marked],
            ),
            (6, 1, Op::Pop, &[]),
            (7, 1, Op::Ret, &[]),
            (8, 1, Op::Plain, &[With::Listed(1)]),
            (
                9,
                2,
                Op::Jmp {
                    rel: -3,
                    wide: false,
                },
                &[With::Of(1), With::To(8, EdgeKind::Taken)],
            ),
        ],
        entries: &[0, 4],
        sites: &[],
    },
    states: &[
        Some(ENTERED),
        Some(PUSHED),
        Some(PUSHED),
        Some(ENTERED),
        Some(ENTERED),
        Some(ENTERED),
    ],
    runs: &[Run {
        from: CALLED,
        steps: &[
            (How::Next, 1, 0x80F0, &[CALLER]),
            (How::Calls, 4, 0x80E8, CALLED_AT_1),
            (How::Next, 5, 0x80E8, CALLED_AT_1),
            (How::Taken, 4, 0x80E8, CALLED_AT_1),
        ],
        refused: &[],
    }],
};

/// 53 E8 00 00 00 00 5B C3: f calls a listed name outside, behind which control comes back all the same.
const MARKED_OUTSIDE: Accepted = Accepted {
    name: "a marked call of a listed name",
    table: Table {
        rows: &[
            (0, 1, Op::Push, &[]),
            (
                1,
                5,
                Op::Call { rel: 0 },
                &[
                    With::Is(Role::CallOut { sym: 3 }),
                    With::NamesListed(3),
                    With::Marked,
                ],
            ),
            (6, 1, Op::Pop, &[]),
            (7, 1, Op::Ret, &[]),
        ],
        entries: &[0],
        sites: &[],
    },
    states: &[Some(ENTERED), Some(PUSHED), Some(PUSHED), Some(ENTERED)],
    runs: &[Run {
        from: CALLED,
        steps: &[
            (How::Next, 1, 0x80F0, &[CALLER]),
            (How::CallsOut(&[]), 2, 0x80F0, &[CALLER]),
            (How::Next, 3, 0x80F8, &[CALLER]),
        ],
        refused: &[],
    }],
};

/// The same without the mark: it doesn't come back.
const UNMARKED: Broken = Broken {
    name: "a call of a listed name without a mark",
    table: Table {
        rows: &[
            (
                0,
                5,
                Op::Call { rel: 0 },
                &[With::Is(Role::CallOut { sym: 3 }), With::NamesListed(3)],
            ),
            (5, 1, Op::Ret, &[]),
        ],
        entries: &[0],
        sites: &[],
    },
    options: UNREACHABLE,
    warnings: &[(5, rules::UNREACHABLE_INSTRUCTION, 0, 0)],
    run: End::HasNoStep(CALLED, How::CallsOut(&[]), 1),
};

/// 53 E8 00 00 00 00 5B C3 C3: f calls code of no function by its name, where a hint tells the stack as at an entry. Control comes
/// back by its return, and as from code outside.
const FREE: Accepted = Accepted {
    name: "a function's call of code of no function",
    table: Table {
        rows: &[
            (0, 1, Op::Push, &[]),
            (
                1,
                5,
                Op::Call { rel: 2 },
                &[With::Is(Role::CallIn { entry: 4 }), With::Names(1)],
            ),
            (6, 1, Op::Pop, &[]),
            (7, 1, Op::Ret, &[]),
            (8, 1, Op::Ret, &[With::OfNone, ENTERS]),
        ],
        entries: &[0],
        sites: &[],
    },
    states: &[
        Some(ENTERED),
        Some(PUSHED),
        Some(PUSHED),
        Some(ENTERED),
        Some(ENTERED),
    ],
    runs: &[
        Run {
            from: CALLED,
            steps: &[
                (How::Next, 1, 0x80F0, &[CALLER]),
                (How::Calls, 4, 0x80E8, CALLED_AT_1),
                (How::Returns(&[]), 2, 0x80F0, &[CALLER]),
            ],
            refused: &[],
        },
        Run {
            from: CALLED,
            steps: &[
                (How::Next, 1, 0x80F0, &[CALLER]),
                (How::CallsOut(&[]), 2, 0x80F0, &[CALLER]),
            ],
            refused: &[],
        },
    ],
};

/// The same, whose name is listed as one that never returns.
const FREE_LISTED: Broken = Broken {
    name: "a call of code of no function by a listed name",
    table: Table {
        rows: &[
            (
                0,
                5,
                Op::Call { rel: 1 },
                &[With::Is(Role::CallIn { entry: 2 }), With::NamesListed(1)],
            ),
            (5, 1, Op::Ret, &[]),
            (6, 1, Op::Ret, &[With::OfNone, ENTERS]),
        ],
        entries: &[0],
        sites: &[],
    },
    options: UNREACHABLE,
    warnings: &[(5, rules::UNREACHABLE_INSTRUCTION, 0, 0)],
    run: End::HasNoStep(CALLED, How::CallsOut(&[]), 1),
};

/// 53 E9 00 00 00 00 C3: code of no function, whose stack has ended, jumps by a symbol's name to the entry behind it. There a run
/// ends, as before the objects were joined.
const JOINED: Accepted = Accepted {
    name: "a joined jump where the stack has ended",
    table: Table {
        rows: &[
            (0, 1, Op::Push, &[With::OfNone, ENDS]),
            (
                1,
                5,
                WIDE_JMP,
                &[With::OfNone, With::To(6, EdgeKind::Sibling), With::Names(0)],
            ),
            (6, 1, Op::Ret, &[]),
        ],
        entries: &[2],
        sites: &[],
    },
    states: &[Some(END), Some(END), Some(ENTERED)],
    runs: &[Run {
        from: ENDED,
        steps: &[(How::Next, 1, 0x80F8, &[])],
        refused: &[(How::TailCalls, 2)],
    }],
};

/// The same without a name.
const UNNAMED: Broken = Broken {
    name: "a jump to a function that names no symbol, where the stack has ended",
    table: Table {
        rows: &[
            (
                0,
                5,
                WIDE_JMP,
                &[With::OfNone, ENDS, With::To(5, EdgeKind::Sibling)],
            ),
            (5, 1, Op::Ret, &[]),
        ],
        entries: &[1],
        sites: &[],
    },
    options: NO_OPTIONS,
    warnings: &[(0, rules::EXIT_NOT_ALLOWED, 0, 0)],
    run: End::IsWrong(
        ENDED,
        &[(How::TailCalls, 1)],
        Wrong::Walk(1, Stop::Unreadable { addr: 0x8100 }),
    ),
};

/// The same with a name, but where the stack is as behind a push.
const JOINED_LIVE: Broken = Broken {
    name: "a joined jump with a modified stack",
    table: Table {
        rows: &[
            (0, 1, Op::Push, &[With::OfNone, ENTERS]),
            (
                1,
                5,
                WIDE_JMP,
                &[With::OfNone, With::To(6, EdgeKind::Sibling), With::Names(0)],
            ),
            (6, 1, Op::Ret, &[]),
        ],
        entries: &[2],
        sites: &[],
    },
    options: NO_OPTIONS,
    warnings: &[(1, rules::MODIFIED_SIBLING_CALL, 16, 0)],
    run: End::IsWrong(
        TOLD,
        &[(How::Next, 1), (How::TailCalls, 2)],
        Wrong::Walk(2, Stop::Outside),
    ),
};

#[test]
fn programs_are_accepted(rt: HostRuntime) {
    expect_accepted(&rt, rt.alloc(), &MARKED);
    expect_accepted(&rt, rt.alloc(), &MARKED_OUTSIDE);
    expect_accepted(&rt, rt.alloc(), &FREE);
    expect_accepted(&rt, rt.alloc(), &JOINED);
}

#[test]
fn programs_break_their_rules(rt: HostRuntime) {
    expect_broken(&rt, rt.alloc(), &UNMARKED);
    expect_broken(&rt, rt.alloc(), &FREE_LISTED);
    expect_broken(&rt, rt.alloc(), &UNNAMED);
    expect_broken(&rt, rt.alloc(), &JOINED_LIVE);
}
