//! Calls between code of no function, calls within a function, and calls of what never returns though its code could.

use crate::case::{
    Accepted, Broken, CALLED, CALLER, END, ENDED, ENTERED, End, How, NO_OPTIONS, PUSHED, RBP, Run,
    Wrong,
};
use crate::exits::WRONG_RETURN;
use crate::expect::{expect_accepted, expect_broken};
use crate::targets::INTO_A_FUNCTION;
use machine_defs::{EdgeKind, Role};
use operation_defs::Op;
use ot_base::rules;
use stack_examples::lines::{Table, With};
use state_defs::HintState;
use table_defs::{Frame, Stop};

/// A hint ends the stack.
const ENDS: With = With::Hint(HintState::Set(END));

/// E8 01 00 00 00 C3 C3: code of no function calls the last instruction, where a hint ends the stack too. It returns, since its
/// caller's stack had ended.
const FREE_CALL: Accepted = Accepted {
    name: "call between code of no function",
    table: Table {
        rows: &[
            (
                0,
                5,
                Op::Call { rel: 1 },
                &[With::OfNone, ENDS, With::Is(Role::CallIn { entry: 2 })],
            ),
            (5, 1, Op::Ret, &[With::OfNone]),
            (6, 1, Op::Ret, &[With::OfNone, ENDS]),
        ],
        entries: &[],
        sites: &[],
    },
    states: &[Some(END), Some(END), Some(END)],
    runs: &[Run {
        from: ENDED,
        steps: &[
            (How::Calls, 2, 0x80F8, &[]),
            (How::Returns(&[]), 1, 0x8100, &[]),
        ],
        refused: &[(WRONG_RETURN, 0)],
    }],
};

/// The same without the second hint. No state is kept where it is called.
const UNTOLD_CALL: Broken = Broken {
    name: "a call of code of no function without a hint",
    table: Table {
        rows: &[
            (
                0,
                5,
                Op::Call { rel: 1 },
                &[
                    With::OfNone,
                    ENDS,
                    With::Is(Role::CallIn { entry: 2 }),
                    With::Marks(INTO_A_FUNCTION),
                ],
            ),
            (5, 1, Op::Ret, &[With::OfNone]),
            (6, 1, Op::Ret, &[With::OfNone]),
        ],
        entries: &[],
        sites: &[],
    },
    options: NO_OPTIONS,
    warnings: &[(0, rules::CALL_INTO_FUNCTION, 0, 0)],
    run: End::IsWrong(ENDED, &[(How::Calls, 2)], Wrong::NotKept(2)),
};

/// E8 01 00 00 00 CC 48 83 C4 08 C3: f calls behind the int3, and drops the address that was pushed.
const CALL_WITHIN: Accepted = Accepted {
    name: "call within a function",
    table: Table {
        rows: &[
            (0, 5, Op::Hop, &[With::To(6, EdgeKind::Taken)]),
            (5, 1, Op::Int3, &[]),
            (6, 4, Op::AddSp { by: 8 }, &[]),
            (10, 1, Op::Ret, &[]),
        ],
        entries: &[0],
        sites: &[],
    },
    states: &[Some(ENTERED), None, Some(PUSHED), Some(ENTERED)],
    runs: &[Run {
        from: CALLED,
        steps: &[
            (How::Taken, 2, 0x80F0, &[CALLER]),
            (How::Next, 3, 0x80F8, &[CALLER]),
        ],
        refused: &[],
    }],
};

/// E8 01 00 00 00 CC C3: the address stays on the stack.
const NOT_DROPPED: Broken = Broken {
    name: "a call within a function whose address isn't dropped",
    table: Table {
        rows: &[
            (0, 5, Op::Hop, &[With::To(6, EdgeKind::Taken)]),
            (5, 1, Op::Int3, &[]),
            (6, 1, Op::Ret, &[]),
        ],
        entries: &[0],
        sites: &[],
    },
    options: NO_OPTIONS,
    warnings: &[(6, rules::MODIFIED_RETURN, 16, 0)],
    run: End::IsWrong(
        CALLED,
        &[(How::Taken, 2), (WRONG_RETURN, 0)],
        Wrong::Wrecked,
    ),
};

/// The frame of the call at 1, of five bytes, with 8 bytes of its caller's frame.
const CALLED_AT_1: &[Frame] = &[
    Frame {
        ra: 0x1006,
        cfa: 0x80F0,
        bp: RBP,
    },
    CALLER,
];

/// 50 E8 00 00 00 00 C3: f pushes and calls a weak function with a listed name, which has its last instruction. Nothing comes
/// back, be it that or code outside.
const LISTED_CALL: Accepted = Accepted {
    name: "call of a function with a listed name",
    table: Table {
        rows: &[
            (0, 1, Op::Push, &[]),
            (
                1,
                5,
                Op::Call { rel: 0 },
                &[With::Is(Role::CallEither { entry: 2, sym: 1 })],
            ),
            (6, 1, Op::Ret, &[With::Listed(1)]),
        ],
        entries: &[0, 2],
        sites: &[],
    },
    states: &[Some(ENTERED), Some(PUSHED), Some(ENTERED)],
    runs: &[
        Run {
            from: CALLED,
            steps: &[
                (How::Next, 1, 0x80F0, &[CALLER]),
                (How::Calls, 2, 0x80E8, CALLED_AT_1),
            ],
            refused: &[(How::Returns(&[]), 2), (WRONG_RETURN, 0)],
        },
        Run {
            from: CALLED,
            steps: &[(How::Next, 1, 0x80F0, &[CALLER])],
            refused: &[(How::CallsOut(&[]), 2)],
        },
    ],
};

/// The same with a name that isn't listed. It comes back to the start of the function that it called.
const UNLISTED_CALL: Broken = Broken {
    name: "a call of the function behind it",
    table: Table {
        rows: &[
            (0, 1, Op::Push, &[]),
            (
                1,
                5,
                Op::Call { rel: 0 },
                &[With::Is(Role::CallIn { entry: 2 })],
            ),
            (6, 1, Op::Ret, &[With::Of(1)]),
        ],
        entries: &[0, 2],
        sites: &[],
    },
    options: NO_OPTIONS,
    warnings: &[
        (1, rules::FALLS_THROUGH, 0, 0),
        (6, rules::STATE_MISMATCH, 8, 16),
    ],
    run: End::IsWrong(
        CALLED,
        &[(How::Next, 1), (How::Calls, 2), (How::Returns(&[]), 2)],
        Wrong::Walk(2, Stop::Outside),
    ),
};

#[test]
fn programs_are_accepted(rt: HostRuntime) {
    expect_accepted(&rt, rt.alloc(), &FREE_CALL);
    expect_accepted(&rt, rt.alloc(), &CALL_WITHIN);
    expect_accepted(&rt, rt.alloc(), &LISTED_CALL);
}

#[test]
fn programs_break_their_rules(rt: HostRuntime) {
    expect_broken(&rt, rt.alloc(), &UNTOLD_CALL);
    expect_broken(&rt, rt.alloc(), &NOT_DROPPED);
    expect_broken(&rt, rt.alloc(), &UNLISTED_CALL);
}
