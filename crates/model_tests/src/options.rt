//! What options ask for. By these rules no run's stack goes wrong; runs that break what `--fp` promises of calls are in
//! `promises`.

use crate::case::{Broken, End};
use crate::expect::expect_broken;
use machine_defs::{EdgeKind, Role};
use operation_defs::Op;
use ot_base::{Options, rules};
use stack_examples::lines::{Table, With};

/// Unreachable instructions are asked for, frame pointers, or both.
pub const UNREACHABLE: Options = Options {
    fp: false,
    retpoline: false,
    rethunk: false,
    uaccess: false,
    unreachable: true,
    link: false,
    module: false,
};

/// Besides the first, the object is linked.
const LINKED: Options = Options {
    fp: false,
    retpoline: false,
    rethunk: false,
    uaccess: false,
    unreachable: true,
    link: true,
    module: false,
};

const FP: Options = Options {
    fp: true,
    retpoline: false,
    rethunk: false,
    uaccess: false,
    unreachable: false,
    link: false,
    module: false,
};

const BOTH: Options = Options {
    fp: true,
    retpoline: false,
    rethunk: false,
    uaccess: false,
    unreachable: true,
    link: false,
    module: false,
};

const UNREACHED_TABLE: Table = Table {
    rows: &[
        (0, 1, Op::Ret, &[]),
        (1, 1, Op::Nop, &[]),
        (2, 1, Op::Push, &[]),
        (3, 1, Op::Pop, &[]),
        (4, 1, Op::Ret, &[]),
        (5, 1, Op::Int3, &[]),
    ],
    entries: &[0],
    sites: &[],
};

const UNREACHED: Broken = Broken {
    name: "unreached instructions, of which the first is told, and nop and int3 are not",
    table: UNREACHED_TABLE,
    options: UNREACHABLE,
    warnings: &[(2, rules::UNREACHABLE_INSTRUCTION, 0, 0)],
    run: End::IsNotRun,
};

const UNREACHED_OF_NONE: Broken = Broken {
    name: "unreached instructions of no function, of which the first is told",
    table: Table {
        rows: &[
            (0, 1, Op::Nop, &[With::OfNone]),
            (1, 1, Op::Push, &[With::OfNone]),
            (2, 1, Op::Pop, &[With::OfNone]),
            (3, 1, Op::Ret, &[With::OfNone]),
        ],
        entries: &[],
        sites: &[],
    },
    options: UNREACHABLE,
    warnings: &[(1, rules::UNREACHABLE_INSTRUCTION, 0, 0)],
    run: End::IsNotRun,
};

const UNREACHED_IN_PATCHES: Broken = Broken {
    name: "instructions of no function to which control comes by patching alone",
    table: Table {
        rows: &[
            (0, 1, Op::Nop, &[With::OfNone, With::InPatches]),
            (1, 1, Op::Push, &[With::OfNone, With::InPatches]),
            (2, 1, Op::Ret, &[With::OfNone, With::InPatches]),
        ],
        entries: &[],
        sites: &[],
    },
    options: UNREACHABLE,
    warnings: &[],
    run: End::IsNotRun,
};

const UNREACHED_UNASKED: Broken = Broken {
    name: "unreached instructions, where they aren't asked for",
    options: FP,
    warnings: &[],
    table: UNREACHED_TABLE,
    run: End::IsNotRun,
};

const WITHOUT_FRAME_TABLE: Table = Table {
    rows: &[
        (
            0,
            5,
            Op::Call { rel: 0 },
            &[With::Is(Role::CallOut { sym: 7 })],
        ),
        (5, 1, Op::PushBp, &[]),
        (6, 3, Op::LeaBpSp { by: 0 }, &[]),
        (
            9,
            5,
            Op::Call { rel: 0 },
            &[With::Is(Role::CallOut { sym: 7 })],
        ),
        (14, 1, Op::PopBp, &[]),
        (15, 1, Op::Ret, &[]),
    ],
    entries: &[0],
    sites: &[],
};

const WITHOUT_FRAME: Broken = Broken {
    name: "a call without a frame, and one with a frame",
    table: WITHOUT_FRAME_TABLE,
    options: BOTH,
    warnings: &[(0, rules::CALL_WITHOUT_FRAME, 0, 0)],
    run: End::IsNotRun,
};

const WITHOUT_FRAME_UNASKED: Broken = Broken {
    name: "a call without a frame, where frames aren't asked for",
    options: UNREACHABLE,
    warnings: &[],
    table: WITHOUT_FRAME_TABLE,
    run: End::IsNotRun,
};

/// C3 53 5B C3 C3: between two functions stands code that no symbol covers.
const HOLE_TABLE: Table = Table {
    rows: &[
        (0, 1, Op::Ret, &[]),
        (1, 1, Op::Push, &[With::OfNone, With::Uncovered]),
        (2, 1, Op::Pop, &[With::OfNone, With::Uncovered]),
        (3, 1, Op::Ret, &[With::OfNone, With::Uncovered]),
        (4, 1, Op::Ret, &[With::Of(1)]),
    ],
    entries: &[0, 4],
    sites: &[],
};

const HOLE: Broken = Broken {
    name: "code that no symbol covers",
    table: HOLE_TABLE,
    options: UNREACHABLE,
    warnings: &[(1, rules::UNREACHABLE_INSTRUCTION, 0, 0)],
    run: End::IsNotRun,
};

const LINKED_HOLE: Broken = Broken {
    name: "a hole of an object that is linked",
    table: HOLE_TABLE,
    options: LINKED,
    warnings: &[],
    run: End::IsNotRun,
};

/// C3 EB 00 53 5B C3: such code jumps to a part of a function.
const PART_TABLE: Table = Table {
    rows: &[
        (0, 1, Op::Ret, &[]),
        (
            1,
            2,
            Op::Jmp {
                rel: 0,
                wide: false,
            },
            &[With::OfNone, With::Uncovered, With::To(3, EdgeKind::Taken)],
        ),
        (3, 1, Op::Push, &[With::OfPart(9)]),
        (4, 1, Op::Pop, &[With::OfPart(9)]),
        (5, 1, Op::Ret, &[With::OfPart(9)]),
    ],
    entries: &[0],
    sites: &[],
};

const PART: Broken = Broken {
    name: "a part of a function to which code jumps that no symbol covers",
    table: PART_TABLE,
    options: UNREACHABLE,
    warnings: &[
        (1, rules::UNREACHABLE_INSTRUCTION, 0, 0),
        (3, rules::UNREACHABLE_INSTRUCTION, 0, 0),
    ],
    run: End::IsNotRun,
};

const PART_OF_HOLE: Broken = Broken {
    name: "a part of a function to which a hole jumps",
    table: PART_TABLE,
    options: LINKED,
    warnings: &[],
    run: End::IsNotRun,
};

#[test]
fn programs_break_their_rules(rt: HostRuntime) {
    expect_broken(&rt, rt.alloc(), &UNREACHED);
    expect_broken(&rt, rt.alloc(), &UNREACHED_OF_NONE);
    expect_broken(&rt, rt.alloc(), &UNREACHED_IN_PATCHES);
    expect_broken(&rt, rt.alloc(), &UNREACHED_UNASKED);
    expect_broken(&rt, rt.alloc(), &WITHOUT_FRAME);
    expect_broken(&rt, rt.alloc(), &WITHOUT_FRAME_UNASKED);
    expect_broken(&rt, rt.alloc(), &HOLE);
    expect_broken(&rt, rt.alloc(), &LINKED_HOLE);
    expect_broken(&rt, rt.alloc(), &PART);
    expect_broken(&rt, rt.alloc(), &PART_OF_HOLE);
}
