//! Rules 31 and 32: indirect branches, and returns.

use super::case::{
    Example, How, NEXT, NOTHING, Pair, RBP, RETHUNK, RETPOLINE, UNSAFE, UNSAFE_IN_UNSAFE,
};
use super::expect::expect_pair;
use machine_defs::{EdgeKind, Role};
use machine_model::{Allowed, Promise};
use operation_defs::Op;
use ot_base::rules;
use stack_examples::lines::{Table, With};

/// Point 1 is listed as safe, and points 1 and 2.
const SAFE_AT_1: Allowed<'static> = Allowed {
    safe_branches: &[1],
    before_user_space: &[],
    safe_names: &[],
    lacking_smap: &[],
};

const SAFE_AT_1_AND_2: Allowed<'static> = Allowed {
    safe_branches: &[1, 2],
    before_user_space: &[],
    safe_names: &[],
    lacking_smap: &[],
};

/// 90 FF D0 C3.
const CALL_TABLE: Table = Table {
    rows: &[
        (0, 1, Op::Nop, &[]),
        (1, 2, Op::CallInd, &[With::Is(Role::CallAny)]),
        (3, 1, Op::Ret, &[]),
    ],
    entries: &[0],
    sites: &[],
};

const CALL: Pair = Pair {
    name: "an indirect call",
    options: RETPOLINE,
    wrong: Example {
        table: CALL_TABLE,
        allowed: NOTHING,
        from: (0, 0x80F8, RBP, false, UNSAFE),
        steps: &[(NEXT, (1, 0x80F8, RBP, false, UNSAFE))],
    },
    warnings: &[(1, rules::INDIRECT_BRANCH, 0)],
    broken: &[Promise::SafeBranch],
    repaired: Example {
        table: CALL_TABLE,
        allowed: SAFE_AT_1,
        from: (0, 0x80F8, RBP, false, UNSAFE),
        steps: &[
            (NEXT, (1, 0x80F8, RBP, false, UNSAFE)),
            (How::CallsOut, (2, 0x80F8, RBP, false, UNSAFE)),
        ],
    },
};

/// 90 FF E0; and repaired, 90 E9, by a thunk that jumps as it does.
const JUMP: Pair = Pair {
    name: "an indirect jump, and one by a thunk",
    options: RETPOLINE,
    wrong: Example {
        table: Table {
            rows: &[
                (0, 1, Op::Nop, &[]),
                (1, 2, Op::JmpInd { table: None }, &[With::Is(Role::JumpAny)]),
            ],
            entries: &[0],
            sites: &[],
        },
        allowed: NOTHING,
        from: (0, 0x80F8, RBP, false, UNSAFE),
        steps: &[(NEXT, (1, 0x80F8, RBP, false, UNSAFE))],
    },
    warnings: &[(1, rules::INDIRECT_BRANCH, 0)],
    broken: &[Promise::SafeBranch],
    repaired: Example {
        table: Table {
            rows: &[
                (0, 1, Op::Nop, &[]),
                (
                    1,
                    5,
                    Op::Jmp { rel: 0, wide: true },
                    &[With::Is(Role::JumpAny)],
                ),
            ],
            entries: &[0],
            sites: &[],
        },
        allowed: NOTHING,
        from: (0, 0x80F8, RBP, false, UNSAFE),
        steps: &[
            (NEXT, (1, 0x80F8, RBP, false, UNSAFE)),
            (How::TailCalls, (0, 0x80F8, RBP, false, UNSAFE)),
        ],
    },
};

/// 90 FF 24 C5 00 00 00 00 C3.
const TABLE_JUMP_TABLE: Table = Table {
    rows: &[
        (0, 1, Op::Nop, &[]),
        (
            1,
            7,
            Op::JmpInd { table: Some(3) },
            &[With::To(8, EdgeKind::Table)],
        ),
        (8, 1, Op::Ret, &[]),
    ],
    entries: &[0],
    sites: &[],
};

const TABLE_JUMP: Pair = Pair {
    name: "a jump through a jump table",
    options: RETPOLINE,
    wrong: Example {
        table: TABLE_JUMP_TABLE,
        allowed: NOTHING,
        from: (0, 0x80F8, RBP, false, UNSAFE),
        steps: &[(NEXT, (1, 0x80F8, RBP, false, UNSAFE))],
    },
    warnings: &[(1, rules::INDIRECT_BRANCH, 0)],
    broken: &[Promise::SafeBranch],
    repaired: Example {
        table: TABLE_JUMP_TABLE,
        allowed: SAFE_AT_1,
        from: (0, 0x80F8, RBP, false, UNSAFE),
        steps: &[
            (NEXT, (1, 0x80F8, RBP, false, UNSAFE)),
            (How::Goes(EdgeKind::Table), (2, 0x80F8, RBP, false, UNSAFE)),
        ],
    },
};

/// E8 01 00 00 00 C3 C3: both returns are to be listed, and one is.
const RETURN_TABLE: Table = Table {
    rows: &[
        (
            0,
            5,
            Op::Call { rel: 1 },
            &[With::Is(Role::CallIn { entry: 2 })],
        ),
        (5, 1, Op::Ret, &[]),
        (6, 1, Op::Ret, &[With::Of(1)]),
    ],
    entries: &[0, 2],
    sites: &[],
};

const RETURN: Pair = Pair {
    name: "a return",
    options: RETHUNK,
    wrong: Example {
        table: RETURN_TABLE,
        allowed: SAFE_AT_1,
        from: (0, 0x80F8, RBP, false, UNSAFE),
        steps: &[(How::Calls, (2, 0x80F0, RBP, false, UNSAFE_IN_UNSAFE))],
    },
    warnings: &[(6, rules::NAKED_RETURN, 0)],
    broken: &[Promise::SafeReturn],
    repaired: Example {
        table: RETURN_TABLE,
        allowed: SAFE_AT_1_AND_2,
        from: (0, 0x80F8, RBP, false, UNSAFE),
        steps: &[
            (How::Calls, (2, 0x80F0, RBP, false, UNSAFE_IN_UNSAFE)),
            (How::Returns, (1, 0x80F8, RBP, false, UNSAFE)),
        ],
    },
};

/// The same, whose second return is repaired by a jump to the return thunk.
const RETURN_BY_THUNK: Pair = Pair {
    name: "a return, and one by the return thunk",
    options: RETHUNK,
    wrong: Example {
        table: RETURN_TABLE,
        allowed: SAFE_AT_1,
        from: (0, 0x80F8, RBP, false, UNSAFE),
        steps: &[(How::Calls, (2, 0x80F0, RBP, false, UNSAFE_IN_UNSAFE))],
    },
    warnings: &[(6, rules::NAKED_RETURN, 0)],
    broken: &[Promise::SafeReturn],
    repaired: Example {
        table: Table {
            rows: &[
                (
                    0,
                    5,
                    Op::Call { rel: 1 },
                    &[With::Is(Role::CallIn { entry: 2 })],
                ),
                (5, 1, Op::Ret, &[]),
                (
                    6,
                    5,
                    Op::Jmp { rel: 0, wide: true },
                    &[With::Of(1), With::Is(Role::Return)],
                ),
            ],
            entries: &[0, 2],
            sites: &[],
        },
        allowed: SAFE_AT_1,
        from: (0, 0x80F8, RBP, false, UNSAFE),
        steps: &[
            (How::Calls, (2, 0x80F0, RBP, false, UNSAFE_IN_UNSAFE)),
            (How::Returns, (1, 0x80F8, RBP, false, UNSAFE)),
        ],
    },
};

/// Both points' code runs before user space does.
const INITIAL: Allowed<'static> = Allowed {
    safe_branches: &[],
    before_user_space: &[1, 2],
    safe_names: &[],
    lacking_smap: &[],
};

const INITIAL_CALL: Pair = Pair {
    name: "an indirect call in code that runs before user space does",
    options: RETPOLINE,
    wrong: Example {
        table: CALL_TABLE,
        allowed: NOTHING,
        from: (0, 0x80F8, RBP, false, UNSAFE),
        steps: &[(NEXT, (1, 0x80F8, RBP, false, UNSAFE))],
    },
    warnings: &[(1, rules::INDIRECT_BRANCH, 0)],
    broken: &[Promise::SafeBranch],
    repaired: Example {
        table: CALL_TABLE,
        allowed: INITIAL,
        from: (0, 0x80F8, RBP, false, UNSAFE),
        steps: &[
            (NEXT, (1, 0x80F8, RBP, false, UNSAFE)),
            (How::CallsOut, (2, 0x80F8, RBP, false, UNSAFE)),
        ],
    },
};

#[test]
fn repairs_keep_promises(rt: HostRuntime) {
    expect_pair(&rt, rt.alloc(), &CALL);
    expect_pair(&rt, rt.alloc(), &JUMP);
    expect_pair(&rt, rt.alloc(), &TABLE_JUMP);
    expect_pair(&rt, rt.alloc(), &RETURN);
    expect_pair(&rt, rt.alloc(), &RETURN_BY_THUNK);
    expect_pair(&rt, rt.alloc(), &INITIAL_CALL);
}
