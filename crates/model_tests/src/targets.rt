//! A wrong program for each rule of where control goes: exactly that rule warns of it, at this place with
//! these numbers, and a run of it goes wrong.

use crate::case::{Broken, CALLED, End, How, NO_OPTIONS, Wrong};
use crate::expect::expect_broken;
use machine_defs::{EdgeKind, Marks};
use machine_model::Wreck;
use operation_defs::Op;
use ot_base::rules;
use stack_examples::lines::{Table, With};
use table_defs::Stop;

pub const JMP: Op = Op::Jmp {
    rel: 0,
    wide: false,
};

/// What is wrong with where an instruction goes.
const BAD: Marks = Marks {
    bad: true,
    past_end: false,
    into_site: false,
    into_function: false,
    relocated: false,
};

pub const PAST_ITS_END: Marks = Marks {
    bad: false,
    past_end: true,
    into_site: false,
    into_function: false,
    relocated: false,
};

const INTO_A_SITE: Marks = Marks {
    bad: false,
    past_end: false,
    into_site: true,
    into_function: false,
    relocated: false,
};

pub const INTO_A_FUNCTION: Marks = Marks {
    bad: false,
    past_end: false,
    into_site: false,
    into_function: true,
    relocated: false,
};

const ON_A_NUMBER: Marks = Marks {
    bad: false,
    past_end: false,
    into_site: false,
    into_function: false,
    relocated: true,
};

const BAD_TARGET: Broken = Broken {
    name: "a jump to no place to go",
    table: Table {
        rows: &[(0, 1, Op::Push, &[]), (1, 2, JMP, &[With::Marks(BAD)])],
        entries: &[0],
        sites: &[],
    },
    options: NO_OPTIONS,
    warnings: &[(1, rules::BAD_BRANCH_TARGET, 0, 0)],
    run: End::IsWrong(
        CALLED,
        &[(How::Next, 1), (How::Wrecks(Wreck::BadTarget), 0)],
        Wrong::Wrecked,
    ),
};

const PAST_END: Broken = Broken {
    name: "a nop at the end of its section",
    table: Table {
        rows: &[
            (0, 1, Op::Push, &[]),
            (1, 1, Op::Nop, &[With::Marks(PAST_ITS_END)]),
        ],
        entries: &[0],
        sites: &[],
    },
    options: NO_OPTIONS,
    warnings: &[(1, rules::RUNS_OFF_SECTION, 0, 0)],
    run: End::IsWrong(
        CALLED,
        &[(How::Next, 1), (How::Wrecks(Wreck::PastEnd), 0)],
        Wrong::Wrecked,
    ),
};

const INTO_SITE: Broken = Broken {
    name: "a jump into a site",
    table: Table {
        rows: &[
            (0, 1, Op::Push, &[]),
            (1, 2, JMP, &[With::Marks(INTO_A_SITE)]),
        ],
        entries: &[0],
        sites: &[],
    },
    options: NO_OPTIONS,
    warnings: &[(1, rules::JUMP_INTO_SITE, 0, 0)],
    run: End::IsWrong(
        CALLED,
        &[(How::Next, 1), (How::Wrecks(Wreck::IntoSite), 0)],
        Wrong::Wrecked,
    ),
};

const INTO_FUNCTION: Broken = Broken {
    name: "a call of a place inside a function",
    table: Table {
        rows: &[
            (0, 1, Op::Push, &[]),
            (1, 5, Op::Call { rel: 1 }, &[With::Marks(INTO_A_FUNCTION)]),
        ],
        entries: &[0],
        sites: &[],
    },
    options: NO_OPTIONS,
    warnings: &[(1, rules::CALL_INTO_FUNCTION, 0, 0)],
    run: End::IsWrong(
        CALLED,
        &[(How::Next, 1), (How::Wrecks(Wreck::IntoFunction), 0)],
        Wrong::Wrecked,
    ),
};

/// The machine runs what is written, so no run goes wrong.
const RELOCATED: Broken = Broken {
    name: "a relocation on the number that is added to rsp",
    table: Table {
        rows: &[
            (0, 4, Op::AddSp { by: -8 }, &[]),
            (4, 4, Op::AddSp { by: 8 }, &[With::Marks(ON_A_NUMBER)]),
            (8, 1, Op::Ret, &[]),
        ],
        entries: &[0],
        sites: &[],
    },
    options: NO_OPTIONS,
    warnings: &[(4, rules::RELOCATED_STACK_OFFSET, 0, 0)],
    run: End::IsNotRun,
};

const FALLS_THROUGH: Broken = Broken {
    name: "a nop before a function that isn't checked",
    table: Table {
        rows: &[
            (0, 1, Op::Nop, &[]),
            (1, 1, Op::Ret, &[With::Of(1), With::Unchecked]),
        ],
        entries: &[0],
        sites: &[],
    },
    options: NO_OPTIONS,
    warnings: &[(0, rules::FALLS_THROUGH, 0, 0)],
    run: End::IsWrong(CALLED, &[(How::Next, 1)], Wrong::NotKept(1)),
};

const MISMATCH: Broken = Broken {
    name: "a branch around a push, to a return",
    table: Table {
        rows: &[
            (
                0,
                2,
                Op::Jcc {
                    rel: 1,
                    wide: false,
                },
                &[With::To(3, EdgeKind::Taken)],
            ),
            (2, 1, Op::Push, &[]),
            (3, 1, Op::Ret, &[]),
        ],
        entries: &[0],
        sites: &[],
    },
    options: NO_OPTIONS,
    warnings: &[(3, rules::STATE_MISMATCH, 8, 16)],
    run: End::IsWrong(
        CALLED,
        &[(How::Next, 1), (How::Next, 2)],
        Wrong::Walk(2, Stop::Outside),
    ),
};

#[test]
fn programs_break_their_rules(rt: HostRuntime) {
    expect_broken(&rt, rt.alloc(), &BAD_TARGET);
    expect_broken(&rt, rt.alloc(), &PAST_END);
    expect_broken(&rt, rt.alloc(), &INTO_SITE);
    expect_broken(&rt, rt.alloc(), &INTO_FUNCTION);
    expect_broken(&rt, rt.alloc(), &RELOCATED);
    expect_broken(&rt, rt.alloc(), &FALLS_THROUGH);
    expect_broken(&rt, rt.alloc(), &MISMATCH);
}
