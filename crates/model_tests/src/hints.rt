//! Programs with hints that break no rule.

use crate::case::{
    Accepted, CALLED, CALLED_STACK, CALLER, ENTERED, FRAMED, From, How, PUSHED, Run, SAVED,
};
use crate::expect::expect_accepted;
use machine_model::Start;
use operation_defs::Op;
use stack_examples::lines::{Table, With};
use state_defs::HintState;
use table_defs::Stop;

/// 55 48 89 E5 90 48 89 C5 48 89 C5 90 C9 C3: push rbp; mov rsp to rbp; a SAVE at a nop; rbp is written
/// twice; a RESTORE at a nop, where rbp has to be what it was; leave; ret.
const SAVE_AND_RESTORE: Accepted = Accepted {
    name: "SAVE and RESTORE",
    table: Table {
        rows: &[
            (0, 1, Op::PushBp, &[]),
            (1, 3, Op::LeaBpSp { by: 0 }, &[]),
            (4, 1, Op::Nop, &[With::Hint(HintState::Save)]),
            (5, 3, Op::BpOther, &[]),
            (8, 3, Op::BpOther, &[]),
            (
                11,
                1,
                Op::Nop,
                &[With::Hint(HintState::Restore), With::SaveOf(2)],
            ),
            (12, 1, Op::Leave, &[]),
            (13, 1, Op::Ret, &[]),
        ],
        entries: &[0],
        sites: &[],
    },
    states: &[
        Some(ENTERED),
        Some(SAVED),
        Some(FRAMED),
        Some(FRAMED),
        Some(SAVED),
        Some(FRAMED),
        Some(FRAMED),
        Some(ENTERED),
    ],
    runs: &[
        Run {
            from: CALLED,
            steps: &[
                (How::Next, 1, 0x80F0, &[CALLER]),
                (How::Next, 2, 0x80F0, &[CALLER]),
                (How::Next, 3, 0x80F0, &[CALLER]),
                (How::WritesBp(0x1234), 4, 0x80F0, &[CALLER]),
                (How::WritesBp(0x80F0), 5, 0x80F0, &[CALLER]),
                (How::Next, 6, 0x80F0, &[CALLER]),
                (How::Next, 7, 0x80F8, &[CALLER]),
            ],
            refused: &[],
        },
        Run {
            from: CALLED,
            steps: &[
                (How::Next, 1, 0x80F0, &[CALLER]),
                (How::Next, 2, 0x80F0, &[CALLER]),
                (How::Next, 3, 0x80F0, &[CALLER]),
                (How::WritesBp(0x1234), 4, 0x80F0, &[CALLER]),
            ],
            refused: &[(How::WritesBp(0x1234), 5)],
        },
    ],
};

/// Called from outside, at a hint; a word was pushed.
const TOLD_PUSHED: From = From {
    start: Start::AtCallHint,
    point: 0,
    rsp: 0x80F0,
    stack: CALLED_STACK,
};

/// 90 58 C3: code of no function, at which a hint tells that a word was pushed in a call frame.
const CALL_FRAME_BY_A_HINT: Accepted = Accepted {
    name: "call frame by a hint",
    table: Table {
        rows: &[
            (
                0,
                1,
                Op::Nop,
                &[With::OfNone, With::Hint(HintState::Set(PUSHED))],
            ),
            (1, 1, Op::Pop, &[With::OfNone]),
            (2, 1, Op::Ret, &[With::OfNone]),
        ],
        entries: &[],
        sites: &[],
    },
    states: &[Some(PUSHED), Some(PUSHED), Some(ENTERED)],
    runs: &[Run {
        from: TOLD_PUSHED,
        steps: &[
            (How::Next, 1, 0x80F0, &[CALLER]),
            (How::Next, 2, 0x80F8, &[CALLER]),
        ],
        refused: &[],
    }],
};

#[test]
fn programs_are_accepted(rt: HostRuntime) {
    expect_accepted(&rt, rt.alloc(), &SAVE_AND_RESTORE);
    expect_accepted(&rt, rt.alloc(), &CALL_FRAME_BY_A_HINT);
}
