//! Rules 44, 46 and 47: instructions that turn user access on or off, or may.

use super::case::{Example, How, NEXT, Pair, RBP, SAFE, SAFE_IN_UNSAFE, UACCESS, UNSAFE};
use super::expect::expect_pair;
use machine_defs::Role;
use machine_model::{Allowed, Promise};
use operation_defs::Op;
use ot_base::rules;
use stack_examples::lines::{Table, With};

/// E8 01 00 00 00 C3 0F 01 CB C3: g is safe, and f calls it with user access off, which g turns on.
const ON_IN_SAFE: Pair = Pair {
    name: "user access turned on in a safe function",
    options: UACCESS,
    wrong: Example {
        table: Table {
            rows: &[
                (
                    0,
                    5,
                    Op::Call { rel: 1 },
                    &[With::Is(Role::CallIn { entry: 2 })],
                ),
                (5, 1, Op::Ret, &[]),
                (6, 3, Op::Stac, &[With::Of(1)]),
                (9, 1, Op::Ret, &[With::Of(1)]),
            ],
            entries: &[0, 2],
            sites: &[],
        },
        allowed: Allowed {
            safe_branches: &[],
            before_user_space: &[],
            safe_names: &[1],
            lacking_smap: &[],
        },
        from: (0, 0x80F8, RBP, false, UNSAFE),
        steps: &[
            (How::Calls, (2, 0x80F0, RBP, false, SAFE_IN_UNSAFE)),
            (NEXT, (3, 0x80F0, RBP, true, SAFE_IN_UNSAFE)),
        ],
    },
    warnings: &[(6, rules::ACCESS_ON_TWICE, 0)],
    broken: &[Promise::StaysOff, Promise::LeavesAsFound],
    repaired: Example {
        table: Table {
            rows: &[
                (
                    0,
                    5,
                    Op::Call { rel: 1 },
                    &[With::Is(Role::CallIn { entry: 2 })],
                ),
                (5, 1, Op::Ret, &[]),
                (6, 3, Op::Nop, &[With::Of(1)]),
                (9, 1, Op::Ret, &[With::Of(1)]),
            ],
            entries: &[0, 2],
            sites: &[],
        },
        allowed: Allowed {
            safe_branches: &[],
            before_user_space: &[],
            safe_names: &[1],
            lacking_smap: &[],
        },
        from: (0, 0x80F8, RBP, false, UNSAFE),
        steps: &[
            (How::Calls, (2, 0x80F0, RBP, false, SAFE_IN_UNSAFE)),
            (NEXT, (3, 0x80F0, RBP, false, SAFE_IN_UNSAFE)),
            (How::Returns, (1, 0x80F8, RBP, false, UNSAFE)),
        ],
    },
};

/// E8 01 00 00 00 C3 0F 01 CA 0F 01 CB C3: g is safe, turns user access off and on again, and f calls it with user access
/// off.
const OFF_IN_SAFE: Pair = Pair {
    name: "user access turned off in a safe function",
    options: UACCESS,
    wrong: Example {
        table: Table {
            rows: &[
                (
                    0,
                    5,
                    Op::Call { rel: 1 },
                    &[With::Is(Role::CallIn { entry: 2 })],
                ),
                (5, 1, Op::Ret, &[]),
                (6, 3, Op::Clac, &[With::Of(1)]),
                (9, 3, Op::Stac, &[With::Of(1)]),
                (12, 1, Op::Ret, &[With::Of(1)]),
            ],
            entries: &[0, 2],
            sites: &[],
        },
        allowed: Allowed {
            safe_branches: &[],
            before_user_space: &[],
            safe_names: &[1],
            lacking_smap: &[],
        },
        from: (0, 0x80F8, RBP, false, UNSAFE),
        steps: &[
            (How::Calls, (2, 0x80F0, RBP, false, SAFE_IN_UNSAFE)),
            (NEXT, (3, 0x80F0, RBP, false, SAFE_IN_UNSAFE)),
            (NEXT, (4, 0x80F0, RBP, true, SAFE_IN_UNSAFE)),
        ],
    },
    warnings: &[(6, rules::SAFE_FUNCTION_ACCESS_OFF, 0)],
    broken: &[Promise::StaysOff, Promise::LeavesAsFound],
    repaired: Example {
        table: Table {
            rows: &[
                (
                    0,
                    5,
                    Op::Call { rel: 1 },
                    &[With::Is(Role::CallIn { entry: 2 })],
                ),
                (5, 1, Op::Ret, &[]),
                (6, 3, Op::Nop, &[With::Of(1)]),
                (9, 3, Op::Nop, &[With::Of(1)]),
                (12, 1, Op::Ret, &[With::Of(1)]),
            ],
            entries: &[0, 2],
            sites: &[],
        },
        allowed: Allowed {
            safe_branches: &[],
            before_user_space: &[],
            safe_names: &[1],
            lacking_smap: &[],
        },
        from: (0, 0x80F8, RBP, false, UNSAFE),
        steps: &[
            (How::Calls, (2, 0x80F0, RBP, false, SAFE_IN_UNSAFE)),
            (NEXT, (3, 0x80F0, RBP, false, SAFE_IN_UNSAFE)),
            (NEXT, (4, 0x80F0, RBP, false, SAFE_IN_UNSAFE)),
            (How::Returns, (1, 0x80F8, RBP, false, UNSAFE)),
        ],
    },
};

const SAFE_0: Allowed<'static> = Allowed {
    safe_branches: &[],
    before_user_space: &[],
    safe_names: &[0],
    lacking_smap: &[],
};

/// 9C 9D C3: f is safe, and called with user access on; the flags that are popped have it off. And repaired, 9C 58 C3, they
/// are popped elsewhere.
const POPF: Pair = Pair {
    name: "flags that are popped",
    options: UACCESS,
    wrong: Example {
        table: Table {
            rows: &[
                (0, 1, Op::Push, &[]),
                (1, 1, Op::Popf, &[]),
                (2, 1, Op::Ret, &[]),
            ],
            entries: &[0],
            sites: &[],
        },
        allowed: SAFE_0,
        from: (0, 0x80F8, RBP, true, SAFE),
        steps: &[
            (NEXT, (1, 0x80F0, RBP, true, SAFE)),
            (How::PopsFlags(false), (2, 0x80F8, RBP, false, SAFE)),
        ],
    },
    warnings: &[(1, rules::POPF_WITH_ACCESS_TRACKED, 0)],
    broken: &[Promise::LeavesAsFound],
    repaired: Example {
        table: Table {
            rows: &[
                (0, 1, Op::Push, &[]),
                (1, 1, Op::Pop, &[]),
                (2, 1, Op::Ret, &[]),
            ],
            entries: &[0],
            sites: &[],
        },
        allowed: SAFE_0,
        from: (0, 0x80F8, RBP, true, SAFE),
        steps: &[
            (NEXT, (1, 0x80F0, RBP, true, SAFE)),
            (NEXT, (2, 0x80F8, RBP, true, SAFE)),
        ],
    },
};

#[test]
fn repairs_keep_promises(rt: HostRuntime) {
    expect_pair(&rt, rt.alloc(), &ON_IN_SAFE);
    expect_pair(&rt, rt.alloc(), &OFF_IN_SAFE);
    expect_pair(&rt, rt.alloc(), &POPF);
}
