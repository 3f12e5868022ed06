//! Wrong programs of sites and of RESTORE hints, and one of a function without a size.

use crate::case::{Broken, CALLED, CALLED_STACK, End, From, How, NO_OPTIONS, Wrong};
use crate::expect::expect_broken;
use machine_defs::Role;
use machine_model::Start;
use operation_defs::Op;
use ot_base::rules;
use stack_examples::lines::{Table, With};
use state_defs::HintState;
use table_defs::Stop;

/// Called from outside, where control stands at the first instruction of a replacement.
const CALLED_AT_3: From = From {
    start: Start::AtEntry { entry: 0 },
    point: 3,
    rsp: 0x80F8,
    stack: CALLED_STACK,
};

/// Push rax; pop rax, or two nops.
const VARIANTS: Broken = Broken {
    name: "variants with different rows",
    table: Table {
        rows: &[
            (0, 1, Op::Push, &[]),
            (1, 1, Op::Pop, &[]),
            (2, 1, Op::Ret, &[]),
            (0, 1, Op::Nop, &[With::RunsAt(1, 0)]),
            (1, 1, Op::Nop, &[With::RunsAt(1, 1)]),
        ],
        sites: &[(0, 2)],
        entries: &[0],
    },
    options: NO_OPTIONS,
    warnings: &[(0, rules::ALTERNATIVES_DISAGREE, 1, 0)],
    run: End::IsWrong(
        CALLED_AT_3,
        &[(How::Next, 4)],
        Wrong::Walk(4, Stop::Unreadable { addr: 0x8100 }),
    ),
};

/// A call, or instructions of which the last has another row at the call's last byte.
const CALL_IN_A_SITE: Broken = Broken {
    name: "another row at a call's last byte",
    table: Table {
        rows: &[
            (
                0,
                5,
                Op::Call { rel: 1 },
                &[With::Is(Role::CallIn { entry: 2 })],
            ),
            (5, 1, Op::Ret, &[]),
            (6, 1, Op::Ret, &[With::Of(1)]),
            (0, 1, Op::Nop, &[With::RunsAt(1, 0)]),
            (1, 1, Op::Push, &[With::RunsAt(1, 1)]),
            (2, 2, Op::Nop, &[With::RunsAt(1, 2)]),
            (4, 1, Op::Pop, &[With::RunsAt(1, 4)]),
        ],
        entries: &[0, 2],
        sites: &[(0, 5)],
    },
    options: NO_OPTIONS,
    warnings: &[(0, rules::ALTERNATIVES_DISAGREE, 4, 0)],
    run: End::IsWrong(
        CALLED,
        &[(How::Calls, 2)],
        Wrong::Walk(2, Stop::Unreadable { addr: 0x8100 }),
    ),
};

/// By this rule no run goes wrong.
const UNSIZED: Broken = Broken {
    name: "a function without a size",
    table: Table {
        rows: &[(0, 1, Op::Ret, &[With::WithoutSize])],
        entries: &[0],
        sites: &[],
    },
    options: NO_OPTIONS,
    warnings: &[(0, rules::FUNCTION_WITHOUT_SIZE, 0, 0)],
    run: End::IsNotRun,
};

/// Called from outside, where control stands at the replacement.
const CALLED_AT_2: From = From {
    start: Start::AtEntry { entry: 0 },
    point: 2,
    rsp: 0x80F8,
    stack: CALLED_STACK,
};

/// 90 C3: f is both bytes; a site at 0 of one byte, with the replacement 90; a RESTORE at 0, and no SAVE.
/// The nop there is never kept, but the replacement's nop is: a run starts there, where the site has no
/// row but the one that says that nothing is known.
const RESTORE_IN_A_SITE: Broken = Broken {
    name: "a RESTORE without a SAVE, in a site",
    table: Table {
        rows: &[
            (0, 1, Op::Nop, &[With::Hint(HintState::Restore)]),
            (1, 1, Op::Ret, &[]),
            (0, 1, Op::Nop, &[With::RunsAt(1, 0)]),
        ],
        sites: &[(0, 1)],
        entries: &[0],
    },
    options: NO_OPTIONS,
    warnings: &[(0, rules::RESTORE_WITHOUT_SAVE, 0, 0)],
    run: End::IsWrong(CALLED_AT_2, &[], Wrong::Walk(2, Stop::NoRow)),
};

/// No SAVE was passed before the RESTORE, so it is never true, and control doesn't come to it.
const RESTORE_BEHIND_A_NOP: Broken = Broken {
    name: "a RESTORE whose SAVE isn't reached",
    table: Table {
        rows: &[
            (0, 1, Op::Nop, &[]),
            (
                1,
                1,
                Op::Nop,
                &[With::Hint(HintState::Restore), With::SaveOf(3)],
            ),
            (2, 1, Op::Ret, &[]),
            (3, 1, Op::Nop, &[With::Of(1), With::Hint(HintState::Save)]),
            (4, 1, Op::Ret, &[With::Of(1)]),
        ],
        entries: &[0],
        sites: &[],
    },
    options: NO_OPTIONS,
    warnings: &[(1, rules::RESTORE_WITHOUT_SAVE, 0, 0)],
    run: End::HasNoStep(CALLED, How::Next, 1),
};

const RESTORE_AT_AN_ENTRY: Broken = Broken {
    name: "a RESTORE at an entry",
    table: Table {
        rows: &[
            (
                0,
                1,
                Op::Nop,
                &[With::Hint(HintState::Restore), With::SaveOf(0)],
            ),
            (1, 1, Op::Ret, &[]),
        ],
        entries: &[0],
        sites: &[],
    },
    options: NO_OPTIONS,
    warnings: &[(0, rules::RESTORE_WITHOUT_SAVE, 0, 0)],
    run: End::IsNone(CALLED),
};

#[test]
fn programs_break_their_rules(rt: HostRuntime) {
    expect_broken(&rt, rt.alloc(), &VARIANTS);
    expect_broken(&rt, rt.alloc(), &CALL_IN_A_SITE);
    expect_broken(&rt, rt.alloc(), &RESTORE_IN_A_SITE);
    expect_broken(&rt, rt.alloc(), &RESTORE_BEHIND_A_NOP);
    expect_broken(&rt, rt.alloc(), &RESTORE_AT_AN_ENTRY);
    expect_broken(&rt, rt.alloc(), &UNSIZED);
}
