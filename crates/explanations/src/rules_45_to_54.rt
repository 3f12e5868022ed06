//! What the rules 45 to 54 mean.

ghost use Rattle.std.specs.Prelude.{◌≡◌, map};
ghost use Rattle.explanations.specs.Entry.{entry_of};
ghost use Rattle.explanations.specs.Volumes.{rules_45_to_54};

use crate::row::Row;

const ROWS: [Row; 7] = [
    (
        "45",
        "user access turned off twice",
        "\
rule 45: user access turned off twice

With --uaccess. CLAC, user_access_end(), is reached with user access off, in a
function that isn't listed as safe. Nothing breaks by it, but one of the two
CLACs is needless, or stands on a way that was meant otherwise.

In C user_access_end() is called where user_access_begin() has failed or
wasn't called, mostly behind an error label that two ways lead to. A function
that is called between STAC and CLAC is to be listed (`uaccess NAME`, by
--names). Code of no function may turn off what is off.
",
    ),
    (
        "46",
        "safe function turns user access off",
        "\
rule 46: safe function turns user access off

With --uaccess. The function is listed as one that may be called with user
access on (`uaccess NAME`, or built in), and turns it off. It has to leave
user access as its caller has it; behind it, the caller's accesses would
fault.

Take the CLAC out, or don't list the function; a name that is built in can't
be taken out. It is a limit of this tool that a safe function may not turn
user access off for a while, not even where it turns it on again, and that
user_access_save() and user_access_restore() aren't followed (rule 47).
",
    ),
    (
        "47",
        "popf where user access is tracked",
        "\
rule 47: popf where user access is tracked

With --uaccess. The instruction pops the flags, and with them the one that
says whether user access is on (AC), from a word that isn't followed. What is
known of user access behind it might be wrong, so no popf may be reached with
user access on. Where access is off a popf leaves it off: it is taken that
flags which are loaded there were saved with access off.

In inline assembly that restores interrupt flags, test the saved flag and use
sti, as arch_local_irq_restore() does. user_access_restore() pops the flags on
purpose: that this isn't followed is a limit of this tool, and an object that
breaks the rule by it is to be checked without --uaccess.
",
    ),
    (
        "51",
        "call to NAME leaves noinstr code",
        "\
rule 51: call to NAME leaves noinstr code

With --noinstr. Code in .noinstr.text, .entry.text or .cpuidle.text runs where
tracing and sanitizers would break the kernel, and this call or jump leads
from it to code that may be instrumented, to the outside, or to a target that
isn't known (NAME is `indirect target` then).

In C make the callee noinstr or __always_inline, or call it elsewhere. In
assembly give it the section, as SYM_FUNC_START in `.section .noinstr.text`.
Limits of this tool: an object by itself doesn't tell what is outside of it,
so each call to the outside counts; and instrumentation_begin() and
instrumentation_end() aren't read, so calls between them are told too.
",
    ),
    (
        "52",
        "missing int3 after return",
        "\
rule 52: missing int3 after return

With --sls. Behind a return no INT3 stands, in its own section and variant. A
processor may run ahead past a return (straight-line speculation), into
whatever bytes follow; INT3 stops it.

In C build with -mharden-sls=all. In assembly write RET in place of ret
(asm/linkage.h), which puts the int3 behind it where the kernel is built so. A
return in a replacement of an alternatives site needs its INT3 within the
replacement.
",
    ),
    (
        "53",
        "missing int3 after indirect jump",
        "\
rule 53: missing int3 after indirect jump

With --sls. Behind an indirect jump no INT3 stands, in its own section and
variant. A processor may run ahead past the jump (straight-line speculation),
into whatever bytes follow; INT3 stops it.

In C build with -mharden-sls=all, which writes it behind jumps through a
register, memory or a table. In assembly write the int3 right behind
`jmp *%rax`, or take JMP_NOSPEC. Calls need none: control comes back behind
them.
",
    ),
    (
        "54",
        "address taken without endbr",
        "\
rule 54: address taken without endbr

With --ibt. Something takes the address of this function, so an indirect call
or jump may come to it, and its first instruction is no ENDBR. With indirect
branch tracking on the processor would raise an exception there. The place is
the function's start.

In C build with -fcf-protection=branch. In assembly SYM_FUNC_START writes the
endbr64; code that starts by hand needs ENDBR (asm/ibt.h). Every relocation
that names the start counts, in all sections that are in memory when the
program runs, so also tables that no indirect branch reads. It is a limit of
this tool that ANNOTATE_NOENDBR isn't read.
",
    ),
];

/// The rows of this volume.
#[tactic(auto, unfolding(crate::specs::Volumes::rules_45_to_54))]
pub(crate) fn rows() -> &'static [Row]
    ensures { map entry_of result.now ≡ rules_45_to_54 }
{
    &ROWS
}
