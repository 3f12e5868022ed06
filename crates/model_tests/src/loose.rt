//! Loose code: where it loses rsp or rbp, nothing is known of the stack from there on. Calls of it come back.

use crate::case::{
    Accepted, Broken, CALLED, CALLED_STACK, CALLER, ENTERED, End, From, How, NO_OPTIONS, PUSHED,
    RBP, Run, Wrong,
};
use crate::exits::WRONG_RETURN;
use crate::expect::{expect_accepted, expect_broken};
use machine_defs::{EdgeKind, Role};
use machine_model::Start;
use operation_defs::Op;
use ot_base::rules;
use stack_examples::lines::{Table, With};
use state_defs::{EndKind, State};
use table_defs::{Frame, Stop};

/// Nothing is known of the stack.
const LOST: State = State::Ended(EndKind::Undefined);

/// Called from outside at the second function.
const CALLED_AT_4: From = From {
    start: Start::AtEntry { entry: 4 },
    point: 4,
    rsp: 0x80F8,
    stack: CALLED_STACK,
};

/// The frame of its call, at 6, of five bytes, and the one below.
const CALLED_BY_G: &[Frame] = &[
    Frame {
        ra: 0x100B,
        cfa: 0x80F8,
        bp: RBP,
    },
    CALLER,
];

/// 53 48 8B 27 5B C3 E8 00 00 00 00 C3: f, which is loose, loads rsp and returns; and g, which calls it. The call comes back
/// from code that nothing follows.
const LOSES: Accepted = Accepted {
    name: "loose code that loses rsp, and a call of it that comes back",
    table: Table {
        rows: &[
            (0, 1, Op::Push, &[With::Loose]),
            (1, 3, Op::SpOther, &[With::Loose]),
            (4, 1, Op::Pop, &[With::Loose]),
            (5, 1, Op::Ret, &[With::Loose]),
            (
                6,
                5,
                Op::Call { rel: -11 },
                &[With::Of(1), With::Is(Role::CallIn { entry: 0 })],
            ),
            (11, 1, Op::Ret, &[With::Of(1)]),
        ],
        entries: &[0, 4],
        sites: &[],
    },
    states: &[
        Some(ENTERED),
        Some(PUSHED),
        Some(LOST),
        Some(LOST),
        Some(ENTERED),
        Some(ENTERED),
    ],
    runs: &[
        Run {
            from: CALLED,
            steps: &[
                (How::Next, 1, 0x80F0, &[CALLER]),
                (How::Loses(0x8080), 2, 0x8080, &[]),
                (How::Next, 3, 0x8088, &[]),
            ],
            refused: &[(WRONG_RETURN, 0), (How::Returns(&[]), 0)],
        },
        Run {
            from: CALLED_AT_4,
            steps: &[(How::CallsOut(&[]), 5, 0x80F8, &[CALLER])],
            refused: &[],
        },
        Run {
            from: CALLED_AT_4,
            steps: &[
                (How::Calls, 0, 0x80F0, CALLED_BY_G),
                (How::Next, 1, 0x80E8, CALLED_BY_G),
                (How::Loses(0x8080), 2, 0x8080, &[]),
                (How::Next, 3, 0x8088, &[]),
            ],
            refused: &[(WRONG_RETURN, 0), (How::Returns(&[]), 5)],
        },
    ],
};

/// The same, where f isn't loose. A call of it doesn't come back as one of code outside does.
const FOLLOWED: Broken = Broken {
    name: "a load of rsp in code that isn't loose",
    table: Table {
        rows: &[
            (0, 1, Op::Push, &[]),
            (1, 3, Op::SpOther, &[]),
            (4, 1, Op::Pop, &[]),
            (5, 1, Op::Ret, &[]),
            (
                6,
                5,
                Op::Call { rel: -11 },
                &[With::Of(1), With::Is(Role::CallIn { entry: 0 })],
            ),
            (11, 1, Op::Ret, &[With::Of(1)]),
        ],
        entries: &[0, 4],
        sites: &[],
    },
    options: NO_OPTIONS,
    warnings: &[(1, rules::UNSUPPORTED_SP_WRITE, 0, 0)],
    run: End::HasNoStep(CALLED_AT_4, How::CallsOut(&[]), 5),
};

/// 74 03 48 8B 27 90 C3: what one way has lost the other way still has.
const MEETS: Broken = Broken {
    name: "a lost stack that meets another one in loose code",
    table: Table {
        rows: &[
            (
                0,
                2,
                Op::Jcc {
                    rel: 3,
                    wide: false,
                },
                &[With::Loose, With::To(5, EdgeKind::Taken)],
            ),
            (2, 3, Op::SpOther, &[With::Loose]),
            (5, 1, Op::Nop, &[With::Loose]),
            (6, 1, Op::Ret, &[With::Loose]),
        ],
        entries: &[0],
        sites: &[],
    },
    options: NO_OPTIONS,
    warnings: &[(5, rules::STATE_MISMATCH, 8, 0)],
    run: End::IsWrong(
        CALLED,
        &[(How::Next, 1), (How::Loses(0x8080), 2)],
        Wrong::Walk(2, Stop::Outside),
    ),
};

/// 68 C3: a jump to another function isn't allowed where the stack is modified, in loose code neither.
const STILL_JUDGED: Broken = Broken {
    name: "a return of loose code that leaves a push on the stack",
    table: Table {
        rows: &[
            (0, 1, Op::Push, &[With::Loose]),
            (1, 1, Op::Ret, &[With::Loose]),
        ],
        entries: &[0],
        sites: &[],
    },
    options: NO_OPTIONS,
    warnings: &[(1, rules::MODIFIED_RETURN, 16, 0)],
    run: End::IsWrong(CALLED, &[(How::Next, 1), (WRONG_RETURN, 0)], Wrong::Wrecked),
};

#[test]
fn programs_are_accepted(rt: HostRuntime) {
    expect_accepted(&rt, rt.alloc(), &LOSES);
}

#[test]
fn programs_break_their_rules(rt: HostRuntime) {
    expect_broken(&rt, rt.alloc(), &FOLLOWED);
    expect_broken(&rt, rt.alloc(), &MEETS);
    expect_broken(&rt, rt.alloc(), &STILL_JUDGED);
}
