//! Programs that break no rule, with calls and jumps from function to function.

use crate::case::{
    Accepted, CALLED, CALLER, END, ENDED, ENTERED, FRAMED, How, PUSHED, RBP, Run, SAVED,
};
use crate::expect::expect_accepted;
use machine_defs::{EdgeKind, Role};
use operation_defs::Op;
use program_model::Store;
use stack_examples::lines::{Table, With};
use state_defs::HintState;
use table_defs::Frame;

/// The frame of the call at 4, of five bytes, with 8 bytes of its caller's frame.
const CALLED_AT_4: &[Frame] = &[
    Frame {
        ra: 0x1009,
        cfa: 0x80F0,
        bp: RBP,
    },
    CALLER,
];

/// 48 83 EC 08 E8 03 00 00 00 50 58 C3 50 EB FE: f calls, as its last instruction, a function at 12 that
/// pushes and loops forever, so the call has no next instruction; behind f, g pushes, pops and returns.
/// The walk from the function called looks for f's row at the last byte of the call, since g begins at
/// the return address.
const CALL_THAT_NEVER_RETURNS: Accepted = Accepted {
    name: "call that never returns",
    table: Table {
        rows: &[
            (0, 4, Op::AddSp { by: -8 }, &[]),
            (
                4,
                5,
                Op::Call { rel: 3 },
                &[With::Is(Role::CallIn { entry: 5 })],
            ),
            (9, 1, Op::Push, &[With::Of(1)]),
            (10, 1, Op::Pop, &[With::Of(1)]),
            (11, 1, Op::Ret, &[With::Of(1)]),
            (12, 1, Op::Push, &[With::Of(2)]),
            (
                13,
                2,
                Op::Jmp {
                    rel: -2,
                    wide: false,
                },
                &[With::Of(2), With::To(13, EdgeKind::Taken)],
            ),
        ],
        entries: &[0, 2, 5],
        sites: &[],
    },
    states: &[
        Some(ENTERED),
        Some(PUSHED),
        Some(ENTERED),
        Some(PUSHED),
        Some(ENTERED),
        Some(ENTERED),
        Some(PUSHED),
    ],
    runs: &[Run {
        from: CALLED,
        steps: &[
            (How::Next, 1, 0x80F0, &[CALLER]),
            (How::Calls, 5, 0x80E8, CALLED_AT_4),
            (How::Next, 6, 0x80E0, CALLED_AT_4),
            (How::Taken, 6, 0x80E0, CALLED_AT_4),
        ],
        refused: &[],
    }],
};

/// A byte below the frames.
const BELOW: &[Store] = &[Store {
    at: 0x80E8,
    byte: 0x77,
}];

/// The frame of the indirect call at 4, of two bytes.
const CALLED_INDIRECTLY: &[Frame] = &[
    Frame {
        ra: 0x1006,
        cfa: 0x80F0,
        bp: RBP,
    },
    CALLER,
];

/// 48 83 EC 08 FF D0 48 83 C4 08 FF E0 E9 00 00 00 00: f calls anywhere, and jumps anywhere; g at 12 jumps to
/// code outside, which returns for it.
const CALLS_ANYWHERE: Accepted = Accepted {
    name: "calls anywhere",
    table: Table {
        rows: &[
            (0, 4, Op::AddSp { by: -8 }, &[]),
            (4, 2, Op::CallInd, &[With::Is(Role::CallAny)]),
            (6, 4, Op::AddSp { by: 8 }, &[]),
            (
                10,
                2,
                Op::JmpInd { table: None },
                &[With::Is(Role::JumpAny)],
            ),
            (
                12,
                5,
                Op::Jmp { rel: 0, wide: true },
                &[With::Of(1), With::Is(Role::JumpOut { sym: 7 })],
            ),
        ],
        entries: &[0, 4],
        sites: &[],
    },
    states: &[
        Some(ENTERED),
        Some(PUSHED),
        Some(PUSHED),
        Some(ENTERED),
        Some(ENTERED),
    ],
    runs: &[
        Run {
            from: CALLED,
            steps: &[
                (How::Next, 1, 0x80F0, &[CALLER]),
                (How::Calls, 4, 0x80E8, CALLED_INDIRECTLY),
                (How::Returns(BELOW), 2, 0x80F0, &[CALLER]),
                (How::Next, 3, 0x80F8, &[CALLER]),
                (How::TailCalls, 4, 0x80F8, &[CALLER]),
            ],
            refused: &[],
        },
        Run {
            from: CALLED,
            steps: &[
                (How::Next, 1, 0x80F0, &[CALLER]),
                (How::CallsOut(BELOW), 2, 0x80F0, &[CALLER]),
                (How::Next, 3, 0x80F8, &[CALLER]),
                (How::TailCalls, 0, 0x80F8, &[CALLER]),
            ],
            refused: &[],
        },
    ],
};

/// The frame of the call at 2, of five bytes, where rbp is 0.
const CALLED_AT_2: &[Frame] = &[Frame {
    ra: 0x1007,
    cfa: 0x8100,
    bp: 0,
}];

/// 31 ED E8 02 00 00 00 0F 0B 55 48 89 E5 5D C3: entry code of no function, where a hint ends the stack,
/// clears rbp and calls the function at 9, which sets up a frame pointer. A ud2 follows the call, so the
/// call comes back to a dead end.
const END_OF_THE_STACK: Accepted = Accepted {
    name: "end of the stack",
    table: Table {
        rows: &[
            (
                0,
                2,
                Op::BpOther,
                &[With::OfNone, With::Hint(HintState::Set(END))],
            ),
            (
                2,
                5,
                Op::Call { rel: 2 },
                &[With::OfNone, With::Is(Role::CallIn { entry: 3 })],
            ),
            (7, 2, Op::Ud2, &[With::OfNone]),
            (9, 1, Op::PushBp, &[]),
            (10, 3, Op::LeaBpSp { by: 0 }, &[]),
            (13, 1, Op::PopBp, &[]),
            (14, 1, Op::Ret, &[]),
        ],
        entries: &[3],
        sites: &[],
    },
    states: &[
        Some(END),
        Some(END),
        Some(END),
        Some(ENTERED),
        Some(SAVED),
        Some(FRAMED),
        Some(ENTERED),
    ],
    runs: &[Run {
        from: ENDED,
        steps: &[
            (How::WritesBp(0), 1, 0x8100, &[]),
            (How::Calls, 3, 0x80F8, CALLED_AT_2),
            (How::Next, 4, 0x80F0, CALLED_AT_2),
            (How::Next, 5, 0x80F0, CALLED_AT_2),
            (How::Next, 6, 0x80F8, CALLED_AT_2),
            (How::Returns(&[]), 2, 0x8100, &[]),
        ],
        refused: &[],
    }],
};

#[test]
fn programs_are_accepted(rt: HostRuntime) {
    expect_accepted(&rt, rt.alloc(), &CALL_THAT_NEVER_RETURNS);
    expect_accepted(&rt, rt.alloc(), &CALLS_ANYWHERE);
    expect_accepted(&rt, rt.alloc(), &END_OF_THE_STACK);
}
