//! Rule 41: calls and jumps to functions that aren't safe, with user access on.

use super::case::{Example, How, NEXT, NOTHING, Pair, RBP, SAFE, SAFE_IN_UNSAFE, UACCESS, UNSAFE};
use super::expect::expect_pair;
use machine_defs::{EdgeKind, Role};
use machine_model::{Allowed, Promise};
use operation_defs::Op;
use ot_base::rules;
use stack_examples::lines::{Table, With};

/// 0F 01 CB E8 04 00 00 00 0F 01 CA C3 C3: f turns user access on, calls g, and turns it off.
const INSIDE_TABLE: Table = Table {
    rows: &[
        (0, 3, Op::Stac, &[]),
        (
            3,
            5,
            Op::Call { rel: 4 },
            &[With::Is(Role::CallIn { entry: 4 })],
        ),
        (8, 3, Op::Clac, &[]),
        (11, 1, Op::Ret, &[]),
        (12, 1, Op::Ret, &[With::Of(1)]),
    ],
    entries: &[0, 4],
    sites: &[],
};

const INSIDE: Pair = Pair {
    name: "a call of a function of the object",
    options: UACCESS,
    wrong: Example {
        table: INSIDE_TABLE,
        allowed: NOTHING,
        from: (0, 0x80F8, RBP, false, UNSAFE),
        steps: &[(NEXT, (1, 0x80F8, RBP, true, UNSAFE))],
    },
    warnings: &[(3, rules::CALL_WITH_ACCESS, 1)],
    broken: &[Promise::SafeTarget],
    repaired: Example {
        table: INSIDE_TABLE,
        allowed: Allowed {
            safe_branches: &[],
            before_user_space: &[],
            safe_names: &[1],
            lacking_smap: &[],
        },
        from: (0, 0x80F8, RBP, false, UNSAFE),
        steps: &[
            (NEXT, (1, 0x80F8, RBP, true, UNSAFE)),
            (How::Calls, (4, 0x80F0, RBP, true, SAFE_IN_UNSAFE)),
            (How::Returns, (2, 0x80F8, RBP, true, UNSAFE)),
            (NEXT, (3, 0x80F8, RBP, false, UNSAFE)),
        ],
    },
};

/// The same, where g is called by its weak symbol 6.
const WEAK_TABLE: Table = Table {
    rows: &[
        (0, 3, Op::Stac, &[]),
        (
            3,
            5,
            Op::Call { rel: 0 },
            &[With::Is(Role::CallEither { entry: 4, sym: 6 })],
        ),
        (8, 3, Op::Clac, &[]),
        (11, 1, Op::Ret, &[]),
        (12, 1, Op::Ret, &[With::Of(1)]),
    ],
    entries: &[0, 4],
    sites: &[],
};

/// The weak symbol is listed, and g isn't.
const WEAK_INSIDE: Pair = Pair {
    name: "a call of a weak symbol, and its function in the object",
    options: UACCESS,
    wrong: Example {
        table: WEAK_TABLE,
        allowed: Allowed {
            safe_branches: &[],
            before_user_space: &[],
            safe_names: &[6],
            lacking_smap: &[],
        },
        from: (0, 0x80F8, RBP, false, UNSAFE),
        steps: &[(NEXT, (1, 0x80F8, RBP, true, UNSAFE))],
    },
    warnings: &[(3, rules::CALL_WITH_ACCESS, 1)],
    broken: &[Promise::SafeTarget],
    repaired: Example {
        table: WEAK_TABLE,
        allowed: Allowed {
            safe_branches: &[],
            before_user_space: &[],
            safe_names: &[1, 6],
            lacking_smap: &[],
        },
        from: (0, 0x80F8, RBP, false, UNSAFE),
        steps: &[
            (NEXT, (1, 0x80F8, RBP, true, UNSAFE)),
            (How::Calls, (4, 0x80F0, RBP, true, SAFE_IN_UNSAFE)),
            (How::Returns, (2, 0x80F8, RBP, true, UNSAFE)),
            (NEXT, (3, 0x80F8, RBP, false, UNSAFE)),
        ],
    },
};

/// g is listed, and what another object has in its place isn't.
const WEAK_OUTSIDE: Pair = Pair {
    name: "a call of a weak symbol, and its function outside",
    options: UACCESS,
    wrong: Example {
        table: WEAK_TABLE,
        allowed: Allowed {
            safe_branches: &[],
            before_user_space: &[],
            safe_names: &[1],
            lacking_smap: &[],
        },
        from: (0, 0x80F8, RBP, false, UNSAFE),
        steps: &[(NEXT, (1, 0x80F8, RBP, true, UNSAFE))],
    },
    warnings: &[(3, rules::CALL_WITH_ACCESS, 6)],
    broken: &[Promise::SafeTarget],
    repaired: Example {
        table: WEAK_TABLE,
        allowed: Allowed {
            safe_branches: &[],
            before_user_space: &[],
            safe_names: &[1, 6],
            lacking_smap: &[],
        },
        from: (0, 0x80F8, RBP, false, UNSAFE),
        steps: &[
            (NEXT, (1, 0x80F8, RBP, true, UNSAFE)),
            (How::CallsOut, (2, 0x80F8, RBP, true, UNSAFE)),
            (NEXT, (3, 0x80F8, RBP, false, UNSAFE)),
        ],
    },
};

/// 0F 01 CB E8 00 00 00 00 0F 01 CA C3.
const OUTSIDE_TABLE: Table = Table {
    rows: &[
        (0, 3, Op::Stac, &[]),
        (
            3,
            5,
            Op::Call { rel: 0 },
            &[With::Is(Role::CallOut { sym: 7 })],
        ),
        (8, 3, Op::Clac, &[]),
        (11, 1, Op::Ret, &[]),
    ],
    entries: &[0],
    sites: &[],
};

const OUTSIDE: Pair = Pair {
    name: "a call of a symbol outside",
    options: UACCESS,
    wrong: Example {
        table: OUTSIDE_TABLE,
        allowed: NOTHING,
        from: (0, 0x80F8, RBP, false, UNSAFE),
        steps: &[(NEXT, (1, 0x80F8, RBP, true, UNSAFE))],
    },
    warnings: &[(3, rules::CALL_WITH_ACCESS, 7)],
    broken: &[Promise::SafeTarget],
    repaired: Example {
        table: OUTSIDE_TABLE,
        allowed: Allowed {
            safe_branches: &[],
            before_user_space: &[],
            safe_names: &[7],
            lacking_smap: &[],
        },
        from: (0, 0x80F8, RBP, false, UNSAFE),
        steps: &[
            (NEXT, (1, 0x80F8, RBP, true, UNSAFE)),
            (How::CallsOut, (2, 0x80F8, RBP, true, UNSAFE)),
            (NEXT, (3, 0x80F8, RBP, false, UNSAFE)),
        ],
    },
};

/// 0F 01 CB FF D0 0F 01 CA C3; and repaired, user access is turned off before the call.
const INDIRECT: Pair = Pair {
    name: "an indirect call",
    options: UACCESS,
    wrong: Example {
        table: Table {
            rows: &[
                (0, 3, Op::Stac, &[]),
                (3, 2, Op::CallInd, &[With::Is(Role::CallAny)]),
                (5, 3, Op::Clac, &[]),
                (8, 1, Op::Ret, &[]),
            ],
            entries: &[0],
            sites: &[],
        },
        allowed: NOTHING,
        from: (0, 0x80F8, RBP, false, UNSAFE),
        steps: &[(NEXT, (1, 0x80F8, RBP, true, UNSAFE))],
    },
    warnings: &[(3, rules::CALL_WITH_ACCESS, -1)],
    broken: &[Promise::SafeTarget],
    repaired: Example {
        table: Table {
            rows: &[
                (0, 3, Op::Stac, &[]),
                (3, 3, Op::Clac, &[]),
                (6, 2, Op::CallInd, &[With::Is(Role::CallAny)]),
                (8, 1, Op::Ret, &[]),
            ],
            entries: &[0],
            sites: &[],
        },
        allowed: NOTHING,
        from: (0, 0x80F8, RBP, false, UNSAFE),
        steps: &[
            (NEXT, (1, 0x80F8, RBP, true, UNSAFE)),
            (NEXT, (2, 0x80F8, RBP, false, UNSAFE)),
            (How::CallsOut, (3, 0x80F8, RBP, false, UNSAFE)),
        ],
    },
};

/// 90 EB 00 C3: f, which is safe, jumps to g.
const TAIL_CALL_TABLE: Table = Table {
    rows: &[
        (0, 1, Op::Nop, &[]),
        (
            1,
            2,
            Op::Jmp {
                rel: 0,
                wide: false,
            },
            &[With::To(3, EdgeKind::Sibling)],
        ),
        (3, 1, Op::Ret, &[With::Of(1)]),
    ],
    entries: &[0, 2],
    sites: &[],
};

const TAIL_CALL: Pair = Pair {
    name: "a tail call",
    options: UACCESS,
    wrong: Example {
        table: TAIL_CALL_TABLE,
        allowed: Allowed {
            safe_branches: &[],
            before_user_space: &[],
            safe_names: &[0],
            lacking_smap: &[],
        },
        from: (0, 0x80F8, RBP, true, SAFE),
        steps: &[(NEXT, (1, 0x80F8, RBP, true, SAFE))],
    },
    warnings: &[(1, rules::CALL_WITH_ACCESS, 1)],
    broken: &[Promise::SafeTailCall],
    repaired: Example {
        table: TAIL_CALL_TABLE,
        allowed: Allowed {
            safe_branches: &[],
            before_user_space: &[],
            safe_names: &[0, 1],
            lacking_smap: &[],
        },
        from: (0, 0x80F8, RBP, true, SAFE),
        steps: &[
            (NEXT, (1, 0x80F8, RBP, true, SAFE)),
            (How::TailCalls, (2, 0x80F8, RBP, true, SAFE)),
        ],
    },
};

/// 90 E9 00 00 00 00: f, which is safe, jumps outside.
const JUMP_OUTSIDE_TABLE: Table = Table {
    rows: &[
        (0, 1, Op::Nop, &[]),
        (
            1,
            5,
            Op::Jmp { rel: 0, wide: true },
            &[With::Is(Role::JumpOut { sym: 7 })],
        ),
    ],
    entries: &[0],
    sites: &[],
};

const JUMP_OUTSIDE: Pair = Pair {
    name: "a jump to a symbol outside",
    options: UACCESS,
    wrong: Example {
        table: JUMP_OUTSIDE_TABLE,
        allowed: Allowed {
            safe_branches: &[],
            before_user_space: &[],
            safe_names: &[0],
            lacking_smap: &[],
        },
        from: (0, 0x80F8, RBP, true, SAFE),
        steps: &[(NEXT, (1, 0x80F8, RBP, true, SAFE))],
    },
    warnings: &[(1, rules::CALL_WITH_ACCESS, 7)],
    broken: &[Promise::SafeTarget],
    repaired: Example {
        table: JUMP_OUTSIDE_TABLE,
        allowed: Allowed {
            safe_branches: &[],
            before_user_space: &[],
            safe_names: &[0, 7],
            lacking_smap: &[],
        },
        from: (0, 0x80F8, RBP, true, SAFE),
        steps: &[(NEXT, (1, 0x80F8, RBP, true, SAFE))],
    },
};

/// 90 FF E0.
const JUMP_ANYWHERE_TABLE: Table = Table {
    rows: &[
        (0, 1, Op::Nop, &[]),
        (1, 2, Op::JmpInd { table: None }, &[With::Is(Role::JumpAny)]),
    ],
    entries: &[0],
    sites: &[],
};

/// f is listed as safe; and repaired, it isn't, so that it is called with user access off.
const JUMP_ANYWHERE: Pair = Pair {
    name: "an indirect jump",
    options: UACCESS,
    wrong: Example {
        table: JUMP_ANYWHERE_TABLE,
        allowed: Allowed {
            safe_branches: &[],
            before_user_space: &[],
            safe_names: &[0],
            lacking_smap: &[],
        },
        from: (0, 0x80F8, RBP, true, SAFE),
        steps: &[(NEXT, (1, 0x80F8, RBP, true, SAFE))],
    },
    warnings: &[(1, rules::CALL_WITH_ACCESS, -1)],
    broken: &[Promise::SafeTarget],
    repaired: Example {
        table: JUMP_ANYWHERE_TABLE,
        allowed: NOTHING,
        from: (0, 0x80F8, RBP, false, UNSAFE),
        steps: &[
            (NEXT, (1, 0x80F8, RBP, false, UNSAFE)),
            (How::TailCalls, (0, 0x80F8, RBP, false, UNSAFE)),
        ],
    },
};

/// 0F 1F 00 E8 04 00 00 00 0F 1F 00 C3 C3, with replacements 0F 01 CB and 0F 01 CA for the two nops, which a processor
/// with SMAP has in their place.
const IN_SITES_TABLE: Table = Table {
    rows: &[
        (0, 3, Op::Nop, &[]),
        (
            3,
            5,
            Op::Call { rel: 4 },
            &[With::Is(Role::CallIn { entry: 4 })],
        ),
        (8, 3, Op::Nop, &[]),
        (11, 1, Op::Ret, &[]),
        (12, 1, Op::Ret, &[With::Of(1)]),
        (0, 3, Op::Stac, &[With::RunsAt(1, 0)]),
        (3, 3, Op::Clac, &[With::RunsAt(2, 8)]),
    ],
    entries: &[0, 4],
    sites: &[(0, 3), (8, 3)],
};

const IN_SITES: Pair = Pair {
    name: "a call between replacements that turn user access on and off",
    options: UACCESS,
    wrong: Example {
        table: IN_SITES_TABLE,
        allowed: Allowed {
            safe_branches: &[],
            before_user_space: &[],
            safe_names: &[],
            lacking_smap: &[0, 2],
        },
        from: (5, 0x80F8, RBP, false, UNSAFE),
        steps: &[(NEXT, (1, 0x80F8, RBP, true, UNSAFE))],
    },
    warnings: &[(3, rules::CALL_WITH_ACCESS, 1)],
    broken: &[Promise::SafeTarget],
    repaired: Example {
        table: IN_SITES_TABLE,
        allowed: Allowed {
            safe_branches: &[],
            before_user_space: &[],
            safe_names: &[1],
            lacking_smap: &[0, 2],
        },
        from: (5, 0x80F8, RBP, false, UNSAFE),
        steps: &[
            (NEXT, (1, 0x80F8, RBP, true, UNSAFE)),
            (How::Calls, (4, 0x80F0, RBP, true, SAFE_IN_UNSAFE)),
            (How::Returns, (6, 0x80F8, RBP, true, UNSAFE)),
            (NEXT, (3, 0x80F8, RBP, false, UNSAFE)),
        ],
    },
};

#[test]
fn repairs_keep_promises(rt: HostRuntime) {
    expect_pair(&rt, rt.alloc(), &INSIDE);
    expect_pair(&rt, rt.alloc(), &WEAK_INSIDE);
    expect_pair(&rt, rt.alloc(), &WEAK_OUTSIDE);
    expect_pair(&rt, rt.alloc(), &OUTSIDE);
    expect_pair(&rt, rt.alloc(), &INDIRECT);
    expect_pair(&rt, rt.alloc(), &TAIL_CALL);
    expect_pair(&rt, rt.alloc(), &JUMP_OUTSIDE);
    expect_pair(&rt, rt.alloc(), &JUMP_ANYWHERE);
    expect_pair(&rt, rt.alloc(), &IN_SITES);
}
