//! Programs that break a rule by which no run of them goes wrong.

use super::case::{
    Example, Harmless, How, NEXT, NOTHING, RBP, RETHUNK, RETPOLINE, SAFE, UACCESS, UNSAFE,
};
use super::expect::expect_harmless;
use crate::targets::JMP;
use machine_defs::{EdgeKind, Role};
use machine_model::Allowed;
use operation_defs::Op;
use ot_base::rules;
use stack_examples::lines::{Table, With};

/// 0F 01 CA C3: user access is off already.
const OFF_TWICE: Harmless = Harmless {
    name: "user access turned off twice",
    options: UACCESS,
    example: Example {
        table: Table {
            rows: &[(0, 3, Op::Clac, &[]), (3, 1, Op::Ret, &[])],
            entries: &[0],
            sites: &[],
        },
        allowed: NOTHING,
        from: (0, 0x80F8, RBP, false, UNSAFE),
        steps: &[(NEXT, (1, 0x80F8, RBP, false, UNSAFE))],
    },
    warnings: &[(0, rules::ACCESS_OFF_TWICE, 0)],
};

/// 0F 01 CB 0F 01 CB 0F 01 CA C3: user access is on already, since f isn't safe and turned it on.
const ON_TWICE: Harmless = Harmless {
    name: "user access turned on twice in a function that isn't safe",
    options: UACCESS,
    example: Example {
        table: Table {
            rows: &[
                (0, 3, Op::Stac, &[]),
                (3, 3, Op::Stac, &[]),
                (6, 3, Op::Clac, &[]),
                (9, 1, Op::Ret, &[]),
            ],
            entries: &[0],
            sites: &[],
        },
        allowed: NOTHING,
        from: (0, 0x80F8, RBP, false, UNSAFE),
        steps: &[
            (NEXT, (1, 0x80F8, RBP, true, UNSAFE)),
            (NEXT, (2, 0x80F8, RBP, true, UNSAFE)),
            (NEXT, (3, 0x80F8, RBP, false, UNSAFE)),
        ],
    },
    warnings: &[(3, rules::ACCESS_ON_TWICE, 0)],
};

/// 0F 01 CA 0F 01 CB C3: f is safe, and called with user access on, which it restores.
const OFF_AND_ON: Harmless = Harmless {
    name: "user access turned off and on in a safe function that was called with it on",
    options: UACCESS,
    example: Example {
        table: Table {
            rows: &[
                (0, 3, Op::Clac, &[]),
                (3, 3, Op::Stac, &[]),
                (6, 1, Op::Ret, &[]),
            ],
            entries: &[0],
            sites: &[],
        },
        allowed: Allowed {
            safe_branches: &[],
            before_user_space: &[],
            safe_names: &[0],
            lacking_smap: &[],
        },
        from: (0, 0x80F8, RBP, true, SAFE),
        steps: &[
            (NEXT, (1, 0x80F8, RBP, false, SAFE)),
            (NEXT, (2, 0x80F8, RBP, true, SAFE)),
        ],
    },
    warnings: &[(0, rules::SAFE_FUNCTION_ACCESS_OFF, 0)],
};

/// 9C 9D C3: user access is off, and flags that are popped keep it off.
const POPF_OFF: Harmless = Harmless {
    name: "flags that are popped with user access off",
    options: UACCESS,
    example: Example {
        table: Table {
            rows: &[
                (0, 1, Op::Push, &[]),
                (1, 1, Op::Popf, &[]),
                (2, 1, Op::Ret, &[]),
            ],
            entries: &[0],
            sites: &[],
        },
        allowed: NOTHING,
        from: (0, 0x80F8, RBP, false, UNSAFE),
        steps: &[
            (NEXT, (1, 0x80F0, RBP, false, UNSAFE)),
            (How::PopsFlags(true), (2, 0x80F8, RBP, false, UNSAFE)),
        ],
    },
    warnings: &[],
};

/// EB 01 C3 0F 01 CA EB F8: f jumps to code of no function, which turns user access off where it is off, and jumps back.
const OFF_IN_NONE: Harmless = Harmless {
    name: "user access turned off where it is off, in code of no function",
    options: UACCESS,
    example: Example {
        table: Table {
            rows: &[
                (0, 2, JMP, &[With::To(3, EdgeKind::Taken)]),
                (2, 1, Op::Ret, &[]),
                (3, 3, Op::Clac, &[With::OfNone]),
                (6, 2, JMP, &[With::OfNone, With::To(2, EdgeKind::Taken)]),
            ],
            entries: &[0],
            sites: &[],
        },
        allowed: NOTHING,
        from: (0, 0x80F8, RBP, false, UNSAFE),
        steps: &[
            (How::Goes(EdgeKind::Taken), (2, 0x80F8, RBP, false, UNSAFE)),
            (NEXT, (3, 0x80F8, RBP, false, UNSAFE)),
            (How::Goes(EdgeKind::Taken), (1, 0x80F8, RBP, false, UNSAFE)),
        ],
    },
    warnings: &[],
};

/// C3 FF E0: no run comes to the jump.
const UNREACHED_JUMP: Harmless = Harmless {
    name: "an indirect jump that isn't reached",
    options: RETPOLINE,
    example: Example {
        table: Table {
            rows: &[
                (0, 1, Op::Ret, &[]),
                (1, 2, Op::JmpInd { table: None }, &[With::Is(Role::JumpAny)]),
            ],
            entries: &[0],
            sites: &[],
        },
        allowed: NOTHING,
        from: (0, 0x80F8, RBP, false, UNSAFE),
        steps: &[],
    },
    warnings: &[(1, rules::INDIRECT_BRANCH, 0)],
};

/// FF E0 C3: no run comes to the return.
const UNREACHED_RETURN: Harmless = Harmless {
    name: "a return that isn't reached",
    options: RETHUNK,
    example: Example {
        table: Table {
            rows: &[
                (0, 2, Op::JmpInd { table: None }, &[With::Is(Role::JumpAny)]),
                (2, 1, Op::Ret, &[]),
            ],
            entries: &[0],
            sites: &[],
        },
        allowed: NOTHING,
        from: (0, 0x80F8, RBP, false, UNSAFE),
        steps: &[],
    },
    warnings: &[(2, rules::NAKED_RETURN, 0)],
};

#[test]
fn runs_keep_promises(rt: HostRuntime) {
    expect_harmless(&rt, rt.alloc(), &OFF_TWICE);
    expect_harmless(&rt, rt.alloc(), &ON_TWICE);
    expect_harmless(&rt, rt.alloc(), &OFF_AND_ON);
    expect_harmless(&rt, rt.alloc(), &POPF_OFF);
    expect_harmless(&rt, rt.alloc(), &OFF_IN_NONE);
    expect_harmless(&rt, rt.alloc(), &UNREACHED_JUMP);
    expect_harmless(&rt, rt.alloc(), &UNREACHED_RETURN);
}
