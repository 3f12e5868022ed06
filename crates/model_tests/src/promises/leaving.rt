//! Rules 42 and 43: functions that leave user access as they didn't find it.

use super::case::{Example, How, NEXT, NOTHING, Pair, RBP, SAFE, UACCESS, UNSAFE};
use super::expect::expect_pair;
use machine_defs::{EdgeKind, Role};
use machine_model::{Allowed, Promise};
use operation_defs::Op;
use ot_base::rules;
use stack_examples::lines::{Table, With};

/// 0F 01 CB C3; and repaired, 0F 01 CB 0F 01 CA C3.
const RETURN_WITH_ACCESS: Pair = Pair {
    name: "a return with user access on",
    options: UACCESS,
    wrong: Example {
        table: Table {
            rows: &[(0, 3, Op::Stac, &[]), (3, 1, Op::Ret, &[])],
            entries: &[0],
            sites: &[],
        },
        allowed: NOTHING,
        from: (0, 0x80F8, RBP, false, UNSAFE),
        steps: &[(NEXT, (1, 0x80F8, RBP, true, UNSAFE))],
    },
    warnings: &[(3, rules::RETURN_WITH_ACCESS, 0)],
    broken: &[Promise::LeavesAsFound],
    repaired: Example {
        table: Table {
            rows: &[
                (0, 3, Op::Stac, &[]),
                (3, 3, Op::Clac, &[]),
                (6, 1, Op::Ret, &[]),
            ],
            entries: &[0],
            sites: &[],
        },
        allowed: NOTHING,
        from: (0, 0x80F8, RBP, false, UNSAFE),
        steps: &[
            (NEXT, (1, 0x80F8, RBP, true, UNSAFE)),
            (NEXT, (2, 0x80F8, RBP, false, UNSAFE)),
        ],
    },
};

/// 0F 01 CB E9 00 00 00 00: the function outside is safe, and returns for this one.
const JUMP_WITH_ACCESS: Pair = Pair {
    name: "a jump outside with user access on",
    options: UACCESS,
    wrong: Example {
        table: Table {
            rows: &[
                (0, 3, Op::Stac, &[]),
                (
                    3,
                    5,
                    Op::Jmp { rel: 0, wide: true },
                    &[With::Is(Role::JumpOut { sym: 7 })],
                ),
            ],
            entries: &[0],
            sites: &[],
        },
        allowed: Allowed {
            safe_branches: &[],
            before_user_space: &[],
            safe_names: &[7],
            lacking_smap: &[],
        },
        from: (0, 0x80F8, RBP, false, UNSAFE),
        steps: &[(NEXT, (1, 0x80F8, RBP, true, UNSAFE))],
    },
    warnings: &[(3, rules::RETURN_WITH_ACCESS, 0)],
    broken: &[Promise::LeavesAsFound],
    repaired: Example {
        table: Table {
            rows: &[
                (0, 3, Op::Stac, &[]),
                (3, 3, Op::Clac, &[]),
                (
                    6,
                    5,
                    Op::Jmp { rel: 0, wide: true },
                    &[With::Is(Role::JumpOut { sym: 7 })],
                ),
            ],
            entries: &[0],
            sites: &[],
        },
        allowed: Allowed {
            safe_branches: &[],
            before_user_space: &[],
            safe_names: &[7],
            lacking_smap: &[],
        },
        from: (0, 0x80F8, RBP, false, UNSAFE),
        steps: &[
            (NEXT, (1, 0x80F8, RBP, true, UNSAFE)),
            (NEXT, (2, 0x80F8, RBP, false, UNSAFE)),
        ],
    },
};

/// 0F 01 CB EB 00 90 C3: g is safe, and keeps user access off where it was entered so.
const TAIL_CALL_WITH_ACCESS: Pair = Pair {
    name: "a tail call with user access on",
    options: UACCESS,
    wrong: Example {
        table: Table {
            rows: &[
                (0, 3, Op::Stac, &[]),
                (
                    3,
                    2,
                    Op::Jmp {
                        rel: 0,
                        wide: false,
                    },
                    &[With::To(5, EdgeKind::Sibling)],
                ),
                (5, 1, Op::Nop, &[With::Of(1)]),
                (6, 1, Op::Ret, &[With::Of(1)]),
            ],
            entries: &[0, 2],
            sites: &[],
        },
        allowed: Allowed {
            safe_branches: &[],
            before_user_space: &[],
            safe_names: &[1],
            lacking_smap: &[],
        },
        from: (0, 0x80F8, RBP, false, UNSAFE),
        steps: &[
            (NEXT, (1, 0x80F8, RBP, true, UNSAFE)),
            (How::TailCalls, (2, 0x80F8, RBP, true, SAFE)),
        ],
    },
    warnings: &[(3, rules::RETURN_WITH_ACCESS, 0)],
    broken: &[Promise::StaysOff],
    repaired: Example {
        table: Table {
            rows: &[
                (0, 3, Op::Stac, &[]),
                (3, 3, Op::Clac, &[]),
                (
                    6,
                    2,
                    Op::Jmp {
                        rel: 0,
                        wide: false,
                    },
                    &[With::To(8, EdgeKind::Sibling)],
                ),
                (8, 1, Op::Nop, &[With::Of(1)]),
                (9, 1, Op::Ret, &[With::Of(1)]),
            ],
            entries: &[0, 3],
            sites: &[],
        },
        allowed: Allowed {
            safe_branches: &[],
            before_user_space: &[],
            safe_names: &[1],
            lacking_smap: &[],
        },
        from: (0, 0x80F8, RBP, false, UNSAFE),
        steps: &[
            (NEXT, (1, 0x80F8, RBP, true, UNSAFE)),
            (NEXT, (2, 0x80F8, RBP, false, UNSAFE)),
            (How::TailCalls, (3, 0x80F8, RBP, false, SAFE)),
            (NEXT, (4, 0x80F8, RBP, false, SAFE)),
        ],
    },
};

/// 0F 01 CA C3: f is safe. User access is off there only where f turned it off, which breaks rule 46 besides.
const LEFT_WITHOUT_ACCESS: Pair = Pair {
    name: "a safe function that is left with user access off",
    options: UACCESS,
    wrong: Example {
        table: Table {
            rows: &[(0, 3, Op::Clac, &[]), (3, 1, Op::Ret, &[])],
            entries: &[0],
            sites: &[],
        },
        allowed: Allowed {
            safe_branches: &[],
            before_user_space: &[],
            safe_names: &[0],
            lacking_smap: &[],
        },
        from: (0, 0x80F8, RBP, true, SAFE),
        steps: &[(NEXT, (1, 0x80F8, RBP, false, SAFE))],
    },
    warnings: &[
        (0, rules::SAFE_FUNCTION_ACCESS_OFF, 0),
        (3, rules::RETURN_WITHOUT_ACCESS, 0),
    ],
    broken: &[Promise::LeavesAsFound],
    repaired: Example {
        table: Table {
            rows: &[(0, 3, Op::Nop, &[]), (3, 1, Op::Ret, &[])],
            entries: &[0],
            sites: &[],
        },
        allowed: Allowed {
            safe_branches: &[],
            before_user_space: &[],
            safe_names: &[0],
            lacking_smap: &[],
        },
        from: (0, 0x80F8, RBP, true, SAFE),
        steps: &[(NEXT, (1, 0x80F8, RBP, true, SAFE))],
    },
};

#[test]
fn repairs_keep_promises(rt: HostRuntime) {
    expect_pair(&rt, rt.alloc(), &RETURN_WITH_ACCESS);
    expect_pair(&rt, rt.alloc(), &JUMP_WITH_ACCESS);
    expect_pair(&rt, rt.alloc(), &TAIL_CALL_WITH_ACCESS);
    expect_pair(&rt, rt.alloc(), &LEFT_WITHOUT_ACCESS);
}
