//! Programs that break no rule, with alternatives sites, in which each variant runs.

use crate::case::{
    Accepted, CALLED, CALLER, DEEPER, ENTERED, FRAMED, How, PUSHED, RBP, Run, SAVED,
};
use crate::expect::expect_accepted;
use machine_defs::{EdgeKind, Role};
use operation_defs::Op;
use stack_examples::lines::{Table, With};
use state_defs::HintState;
use table_defs::Frame;

/// The frame of the call at 1, of five bytes, behind a push.
const CALLED_AT_1: &[Frame] = &[
    Frame {
        ra: 0x1006,
        cfa: 0x80F0,
        bp: RBP,
    },
    CALLER,
];

/// 50 E8 02 00 00 00 58 C3 C3: push rax; a site of five bytes, a call of the function at 8 or a nop; pop
/// rax; ret; ret.
const TWO_VARIANTS: Accepted = Accepted {
    name: "two variants",
    table: Table {
        rows: &[
            (0, 1, Op::Push, &[]),
            (
                1,
                5,
                Op::Call { rel: 2 },
                &[With::Is(Role::CallIn { entry: 4 })],
            ),
            (6, 1, Op::Pop, &[]),
            (7, 1, Op::Ret, &[]),
            (8, 1, Op::Ret, &[With::Of(1)]),
            (0, 5, Op::Nop, &[With::RunsAt(1, 1)]),
        ],
        entries: &[0, 4],
        sites: &[(1, 5)],
    },
    states: &[
        Some(ENTERED),
        Some(PUSHED),
        Some(PUSHED),
        Some(ENTERED),
        Some(ENTERED),
        Some(PUSHED),
    ],
    runs: &[
        Run {
            from: CALLED,
            steps: &[
                (How::Next, 1, 0x80F0, &[CALLER]),
                (How::Calls, 4, 0x80E8, CALLED_AT_1),
                (How::Returns(&[]), 2, 0x80F0, &[CALLER]),
                (How::Next, 3, 0x80F8, &[CALLER]),
            ],
            refused: &[],
        },
        Run {
            from: CALLED,
            steps: &[
                (How::Next, 5, 0x80F0, &[CALLER]),
                (How::Next, 2, 0x80F0, &[CALLER]),
                (How::Next, 3, 0x80F8, &[CALLER]),
            ],
            refused: &[],
        },
    ],
};

/// 50 E9 04 00 00 00 58 C3 58 C3, and behind f, as code of no function, F6 05 xx xx xx xx 01 75 F5 EB F1:
/// push rax; a site of five bytes, a jump to 10 or a nop; pop rax; ret; and, at 8, pop rax; ret. At 10 a
/// test of a byte in memory; jne to 8; jmp to 6: the slow path of a test of the processor's features, which
/// comes back into the middle of the function that went there.
const SLOW_PATH: Accepted = Accepted {
    name: "slow path of no function",
    table: Table {
        rows: &[
            (0, 1, Op::Push, &[]),
            (
                1,
                5,
                Op::Jmp { rel: 4, wide: true },
                &[With::To(10, EdgeKind::Taken)],
            ),
            (6, 1, Op::Pop, &[]),
            (7, 1, Op::Ret, &[]),
            (8, 1, Op::Pop, &[]),
            (9, 1, Op::Ret, &[]),
            (10, 7, Op::Plain, &[With::OfNone]),
            (
                17,
                2,
                Op::Jcc {
                    rel: -11,
                    wide: false,
                },
                &[With::OfNone, With::To(8, EdgeKind::Taken)],
            ),
            (
                19,
                2,
                Op::Jmp {
                    rel: -15,
                    wide: false,
                },
                &[With::OfNone, With::To(6, EdgeKind::Taken)],
            ),
            (0, 5, Op::Nop, &[With::RunsAt(1, 1)]),
        ],
        entries: &[0],
        sites: &[(1, 5)],
    },
    states: &[
        Some(ENTERED),
        Some(PUSHED),
        Some(PUSHED),
        Some(ENTERED),
        Some(PUSHED),
        Some(ENTERED),
        Some(PUSHED),
        Some(PUSHED),
        Some(PUSHED),
        Some(PUSHED),
    ],
    runs: &[
        Run {
            from: CALLED,
            steps: &[
                (How::Next, 1, 0x80F0, &[CALLER]),
                (How::Taken, 6, 0x80F0, &[CALLER]),
                (How::Next, 7, 0x80F0, &[CALLER]),
                (How::Next, 8, 0x80F0, &[CALLER]),
                (How::Taken, 2, 0x80F0, &[CALLER]),
                (How::Next, 3, 0x80F8, &[CALLER]),
            ],
            refused: &[],
        },
        Run {
            from: CALLED,
            steps: &[
                (How::Next, 1, 0x80F0, &[CALLER]),
                (How::Taken, 6, 0x80F0, &[CALLER]),
                (How::Next, 7, 0x80F0, &[CALLER]),
                (How::Taken, 4, 0x80F0, &[CALLER]),
                (How::Next, 5, 0x80F8, &[CALLER]),
            ],
            refused: &[],
        },
        Run {
            from: CALLED,
            steps: &[
                (How::Next, 9, 0x80F0, &[CALLER]),
                (How::Next, 2, 0x80F0, &[CALLER]),
            ],
            refused: &[],
        },
    ],
};

/// 55 48 89 E5, a site of nine bytes, 90 90 48 83 C4 10 5D C3. The site is 48 83 EC 10 90 48 83 C4 10, or
/// 0F 1F 40 00 90 0F 1F 40 00; both have a SAVE at 8, with different depths and one row. The RESTORE at 14
/// means the first SAVE. So it is true behind neither variant: behind the first rsp has moved, and behind
/// the second another SAVE was passed, though rsp, rbp and the slot are what they were there.
const STRICT_RESTORE: Accepted = Accepted {
    name: "RESTORE behind two SAVEs",
    table: Table {
        rows: &[
            (0, 1, Op::PushBp, &[]),
            (1, 3, Op::LeaBpSp { by: 0 }, &[]),
            (4, 4, Op::AddSp { by: -16 }, &[]),
            (8, 1, Op::Nop, &[With::Hint(HintState::Save)]),
            (9, 4, Op::AddSp { by: 16 }, &[]),
            (13, 1, Op::Nop, &[]),
            (
                14,
                1,
                Op::Nop,
                &[With::Hint(HintState::Restore), With::SaveOf(3)],
            ),
            (15, 4, Op::AddSp { by: 16 }, &[]),
            (19, 1, Op::PopBp, &[]),
            (20, 1, Op::Ret, &[]),
            (0, 4, Op::Nop, &[With::RunsAt(1, 4)]),
            (
                4,
                1,
                Op::Nop,
                &[With::RunsAt(1, 8), With::Hint(HintState::Save)],
            ),
            (5, 4, Op::Nop, &[With::RunsAt(1, 9)]),
        ],
        entries: &[0],
        sites: &[(4, 9)],
    },
    states: &[
        Some(ENTERED),
        Some(SAVED),
        Some(FRAMED),
        Some(DEEPER),
        Some(DEEPER),
        Some(FRAMED),
        Some(DEEPER),
        Some(DEEPER),
        Some(FRAMED),
        Some(ENTERED),
        Some(FRAMED),
        Some(FRAMED),
        Some(FRAMED),
    ],
    runs: &[
        Run {
            from: CALLED,
            steps: &[
                (How::Next, 1, 0x80F0, &[CALLER]),
                (How::Next, 10, 0x80F0, &[CALLER]),
                (How::Next, 11, 0x80F0, &[CALLER]),
                (How::Next, 12, 0x80F0, &[CALLER]),
                (How::Next, 5, 0x80F0, &[CALLER]),
            ],
            refused: &[(How::Next, 6)],
        },
        Run {
            from: CALLED,
            steps: &[
                (How::Next, 1, 0x80F0, &[CALLER]),
                (How::Next, 2, 0x80F0, &[CALLER]),
                (How::Next, 3, 0x80E0, &[CALLER]),
                (How::Next, 4, 0x80E0, &[CALLER]),
                (How::Next, 5, 0x80F0, &[CALLER]),
            ],
            refused: &[(How::Next, 6)],
        },
    ],
};

#[test]
fn programs_are_accepted(rt: HostRuntime) {
    expect_accepted(&rt, rt.alloc(), &TWO_VARIANTS);
    expect_accepted(&rt, rt.alloc(), &SLOW_PATH);
    expect_accepted(&rt, rt.alloc(), &STRICT_RESTORE);
}
