//! What the rules 21 to 44 mean.

ghost use Rattle.std.specs.Prelude.{◌≡◌, map};
ghost use Rattle.explanations.specs.Entry.{entry_of};
ghost use Rattle.explanations.specs.Volumes.{rules_21_to_44};

use crate::row::Row;

const ROWS: [Row; 7] = [
    (
        "21",
        "call without frame",
        "\
rule 21: call without frame

With --fp. The call is made without a frame pointer set up: rbp saved right
below the return address, and pointing there. A walk by frame pointers would
pass by this function's caller. A call of __fentry__ is made before the frame,
and allowed.

In assembly put FRAME_BEGIN and FRAME_END (asm/frame.h) round the function. In
C build with -fno-omit-frame-pointer. Inline assembly that calls needs
ASM_CALL_CONSTRAINT among its outputs, or the compiler may move it in front of
`push %rbp; mov %rsp,%rbp`. Without --fp, for ORC tables, nothing is asked.
",
    ),
    (
        "31",
        "indirect branch",
        "\
rule 31: indirect branch

With --retpoline. An indirect call or jump stands here, reached or not, whose
place isn't listed as safe. A processor may be led to guess its target
(Spectre variant 2).

In C build with -mindirect-branch=thunk-extern (gcc) or
-mretpoline-external-thunk (clang), and with -fno-jump-tables, since a jump
through a table is one too. In assembly take CALL_NOSPEC and JMP_NOSPEC, which
go through __x86_indirect_thunk_*. Where the branch is safe as it is, as in
code that runs once at boot, put ANNOTATE_RETPOLINE_SAFE right in front of it
(`.discard.retpoline_safe`). In `.init.text`, which in a kernel runs before
user space does, this rule is looked for with --module alone.
",
    ),
    (
        "32",
        "naked return",
        "\
rule 32: naked return

With --rethunk. A return instruction stands here, reached or not, whose place
isn't listed as safe. A kernel that patches its returns (Retbleed, SRSO) would
miss it.

In C build with -mfunction-return=thunk-extern. In assembly write RET in place
of ret: it becomes a jump to __x86_return_thunk. Where a bare return is meant,
as in the thunk itself, put ANNOTATE_UNRET_SAFE right in front of it: it makes
an entry of `.discard.retpoline_safe`, which is what is looked at. In
`.init.text`, which in a kernel runs before user space does, this rule is
looked for with --module alone.
",
    ),
    (
        "41",
        "call to NAME with user access on",
        "\
rule 41: call to NAME with user access on

With --uaccess. Between STAC and CLAC, where the kernel may touch user memory,
a function is called or jumped to that isn't listed as safe there; of an
indirect call NAME is `indirect target`. It could sleep with user access on,
or be made to touch user memory that it wasn't meant to.

In C a region of user_access_begin() has a call: of a function that was not
inlined (make it __always_inline), of instrumentation (KASAN, KCOV, UBSAN), or
of an argument that is computed within unsafe_put_user(). Compute it before.
If the function is made for it, list it: `uaccess NAME` in a file that --names
gives. Then it and its parts are checked as safe functions (rules 43 and 46).
",
    ),
    (
        "42",
        "return with user access on",
        "\
rule 42: return with user access on

With --uaccess. A function that isn't listed as safe is left, by a return or a
jump to another function, with user access on: its caller would run with the
protection of user memory (SMAP) off.

On one path user_access_end(), CLAC in assembly, is missing: mostly the way
out through an error label, or through an exception's fixup (_ASM_EXTABLE),
which begins with user access as before the instruction that faulted.
",
    ),
    (
        "43",
        "return with user access off",
        "\
rule 43: return with user access off

With --uaccess. A function that is listed as safe (`uaccess NAME`) is left
with user access off. It is called with user access on, and its caller goes on
to touch user memory: the access would fault.

The function turns it off on the way, so rule 46 is told at that place: mend
that. If the function isn't called between STAC and CLAC after all, take its
name out of the names file. The names that are built in can't be taken out.
",
    ),
    (
        "44",
        "user access turned on twice",
        "\
rule 44: user access turned on twice

With --uaccess. STAC, user_access_begin(), is reached with user access on
already. The first CLAC then turns it off for both, and what is still to be
done between the two would fault.

Regions of user access don't nest: in C one begins within another, mostly
through a macro or an inlined function (within a region it has to be
unsafe_get_user(), not get_user()). A function that is listed as safe is
entered with user access on, and may not turn it on. Another way that comes
here without a CLAC shows it too.
",
    ),
];

/// The rows of this volume.
#[tactic(auto, unfolding(crate::specs::Volumes::rules_21_to_44))]
pub(crate) fn rows() -> &'static [Row]
    ensures { map entry_of result.now ≡ rules_21_to_44 }
{
    &ROWS
}
