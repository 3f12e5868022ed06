//! Rule 21: calls without a frame.

use super::case::{Example, FP, How, NEXT, NOTHING, Pair, RBP, UNSAFE, UNSAFE_IN_UNSAFE};
use super::expect::expect_pair;
use machine_defs::Role;
use machine_model::Promise;
use operation_defs::Op;
use ot_base::rules;
use stack_examples::lines::{Table, With};

/// 55 E8 02 00 00 00 5D C3 C3: rbp is saved, and not set up.
const NOT_SET_UP: Pair = Pair {
    name: "a call with rbp saved and not set up",
    options: FP,
    wrong: Example {
        table: Table {
            rows: &[
                (0, 1, Op::PushBp, &[]),
                (
                    1,
                    5,
                    Op::Call { rel: 2 },
                    &[With::Is(Role::CallIn { entry: 4 })],
                ),
                (6, 1, Op::PopBp, &[]),
                (7, 1, Op::Ret, &[]),
                (8, 1, Op::Ret, &[With::Of(1)]),
            ],
            entries: &[0, 4],
            sites: &[],
        },
        allowed: NOTHING,
        from: (0, 0x80F8, RBP, false, UNSAFE),
        steps: &[(NEXT, (1, 0x80F0, RBP, false, UNSAFE))],
    },
    warnings: &[(1, rules::CALL_WITHOUT_FRAME, 0)],
    broken: &[Promise::FramePointer],
    repaired: Example {
        table: Table {
            rows: &[
                (0, 1, Op::PushBp, &[]),
                (1, 3, Op::LeaBpSp { by: 0 }, &[]),
                (
                    4,
                    5,
                    Op::Call { rel: 2 },
                    &[With::Is(Role::CallIn { entry: 5 })],
                ),
                (9, 1, Op::PopBp, &[]),
                (10, 1, Op::Ret, &[]),
                (11, 1, Op::Ret, &[With::Of(1)]),
            ],
            entries: &[0, 5],
            sites: &[],
        },
        allowed: NOTHING,
        from: (0, 0x80F8, RBP, false, UNSAFE),
        steps: &[
            (NEXT, (1, 0x80F0, RBP, false, UNSAFE)),
            (NEXT, (2, 0x80F0, 0x80F0, false, UNSAFE)),
            (How::Calls, (5, 0x80E8, 0x80F0, false, UNSAFE_IN_UNSAFE)),
            (How::Returns, (3, 0x80F0, 0x80F0, false, UNSAFE)),
            (NEXT, (4, 0x80F8, RBP, false, UNSAFE)),
        ],
    },
};

/// 50 55 48 89 E5 E8 03 00 00 00 5D 58 C3 C3: rbp points at the caller's, with another word above it. Repaired, rbp is
/// pushed first.
const BELOW_A_WORD: Pair = Pair {
    name: "a call with the frame pointer below another word",
    options: FP,
    wrong: Example {
        table: Table {
            rows: &[
                (0, 1, Op::Push, &[]),
                (1, 1, Op::PushBp, &[]),
                (2, 3, Op::LeaBpSp { by: 0 }, &[]),
                (
                    5,
                    5,
                    Op::Call { rel: 3 },
                    &[With::Is(Role::CallIn { entry: 7 })],
                ),
                (10, 1, Op::PopBp, &[]),
                (11, 1, Op::Pop, &[]),
                (12, 1, Op::Ret, &[]),
                (13, 1, Op::Ret, &[With::Of(1)]),
            ],
            entries: &[0, 7],
            sites: &[],
        },
        allowed: NOTHING,
        from: (0, 0x80F8, RBP, false, UNSAFE),
        steps: &[
            (NEXT, (1, 0x80F0, RBP, false, UNSAFE)),
            (NEXT, (2, 0x80E8, RBP, false, UNSAFE)),
            (NEXT, (3, 0x80E8, 0x80E8, false, UNSAFE)),
        ],
    },
    warnings: &[(5, rules::CALL_WITHOUT_FRAME, 0)],
    broken: &[Promise::FramePointer],
    repaired: Example {
        table: Table {
            rows: &[
                (0, 1, Op::PushBp, &[]),
                (1, 3, Op::LeaBpSp { by: 0 }, &[]),
                (4, 1, Op::Push, &[]),
                (
                    5,
                    5,
                    Op::Call { rel: 3 },
                    &[With::Is(Role::CallIn { entry: 7 })],
                ),
                (10, 1, Op::Pop, &[]),
                (11, 1, Op::PopBp, &[]),
                (12, 1, Op::Ret, &[]),
                (13, 1, Op::Ret, &[With::Of(1)]),
            ],
            entries: &[0, 7],
            sites: &[],
        },
        allowed: NOTHING,
        from: (0, 0x80F8, RBP, false, UNSAFE),
        steps: &[
            (NEXT, (1, 0x80F0, RBP, false, UNSAFE)),
            (NEXT, (2, 0x80F0, 0x80F0, false, UNSAFE)),
            (NEXT, (3, 0x80E8, 0x80F0, false, UNSAFE)),
            (How::Calls, (7, 0x80E0, 0x80F0, false, UNSAFE_IN_UNSAFE)),
            (How::Returns, (4, 0x80E8, 0x80F0, false, UNSAFE)),
        ],
    },
};

/// 48 83 EC 10 48 89 2C 24 48 8D 6C 24 08 E8 09 00 00 00 48 8B 2C 24 48 83 C4 10 C3 C3: rbp points right below the return
/// address, and the caller's is saved 8 bytes below that. Repaired, it is stored at rsp + 8: 48 89 6C 24 08.
const SAVED_ELSEWHERE: Pair = Pair {
    name: "a call where rbp points at another word than the caller's rbp",
    options: FP,
    wrong: Example {
        table: Table {
            rows: &[
                (0, 4, Op::AddSp { by: -16 }, &[]),
                (4, 4, Op::StoreBp { at: 0 }, &[]),
                (8, 5, Op::LeaBpSp { by: 8 }, &[]),
                (
                    13,
                    5,
                    Op::Call { rel: 9 },
                    &[With::Is(Role::CallIn { entry: 7 })],
                ),
                (18, 4, Op::LoadBp { at: 0 }, &[]),
                (22, 4, Op::AddSp { by: 16 }, &[]),
                (26, 1, Op::Ret, &[]),
                (27, 1, Op::Ret, &[With::Of(1)]),
            ],
            entries: &[0, 7],
            sites: &[],
        },
        allowed: NOTHING,
        from: (0, 0x80F8, RBP, false, UNSAFE),
        steps: &[
            (NEXT, (1, 0x80E8, RBP, false, UNSAFE)),
            (NEXT, (2, 0x80E8, RBP, false, UNSAFE)),
            (NEXT, (3, 0x80E8, 0x80F0, false, UNSAFE)),
        ],
    },
    warnings: &[(13, rules::CALL_WITHOUT_FRAME, 0)],
    broken: &[Promise::FramePointer],
    repaired: Example {
        table: Table {
            rows: &[
                (0, 4, Op::AddSp { by: -16 }, &[]),
                (4, 5, Op::StoreBp { at: 8 }, &[]),
                (9, 5, Op::LeaBpSp { by: 8 }, &[]),
                (
                    14,
                    5,
                    Op::Call { rel: 10 },
                    &[With::Is(Role::CallIn { entry: 7 })],
                ),
                (19, 5, Op::LoadBp { at: 8 }, &[]),
                (24, 4, Op::AddSp { by: 16 }, &[]),
                (28, 1, Op::Ret, &[]),
                (29, 1, Op::Ret, &[With::Of(1)]),
            ],
            entries: &[0, 7],
            sites: &[],
        },
        allowed: NOTHING,
        from: (0, 0x80F8, RBP, false, UNSAFE),
        steps: &[
            (NEXT, (1, 0x80E8, RBP, false, UNSAFE)),
            (NEXT, (2, 0x80E8, RBP, false, UNSAFE)),
            (NEXT, (3, 0x80E8, 0x80F0, false, UNSAFE)),
            (How::Calls, (7, 0x80E0, 0x80F0, false, UNSAFE_IN_UNSAFE)),
            (How::Returns, (4, 0x80E8, 0x80F0, false, UNSAFE)),
            (NEXT, (5, 0x80E8, RBP, false, UNSAFE)),
        ],
    },
};

#[test]
fn repairs_keep_promises(rt: HostRuntime) {
    expect_pair(&rt, rt.alloc(), &NOT_SET_UP);
    expect_pair(&rt, rt.alloc(), &BELOW_A_WORD);
    expect_pair(&rt, rt.alloc(), &SAVED_ELSEWHERE);
}
