//! What the refusals from `names-file` to `not-placed` mean.

ghost use Rattle.std.specs.Prelude.{◌≡◌, map};
ghost use Rattle.explanations.specs.Entry.{entry_of};
ghost use Rattle.explanations.specs.Volumes.{refusals_n};

use crate::row::Row;

const ROWS: [Row; 11] = [
    (
        "names-file",
        "names file line N: bad word",
        "\
refused: names file line N: bad word

Line N of the names file, counted from 1, is wrong. With `bad word` its first
word is none of noreturn, uaccess, loose and switch; with `bad name` no single
name follows it: one blank, and then printable characters without blanks, up
to the line's end.

noreturn NAME says that the function never returns (rule 2), uaccess NAME that
it may be called with user access on (rule 41), loose NAME that its code is
checked as far as it can be followed, and switch NAME that it switches tasks
(rule 7 tells of both).

Mind blanks at the end, tabs, and ends of lines as CR LF. A comment has a line
of its own, which begins with #. share/linux.names is an example.
",
    ),
    (
        "no-function",
        "no function NAME",
        "\
refused: no function NAME

`show IN --function=NAME` lists the code of the functions of this name alone,
and IN has none with any code. A function is a symbol of type FUNC with a size
above 0 in a section of code; of several at one start the first one names it.

`nm -n IN` shows the names. Compilers add to them (`.isra.0`, `.constprop.0`,
`.part.0`), and call a part that is moved out `NAME.cold`: it is a function of
its own. Code under a label that no such symbol covers is of no function; look
for it in the listing of all code, `show IN`.
",
    ),
    (
        "no-section",
        "no section NAME",
        "\
refused: no section NAME

The command reads a section that the object doesn't have: `dump`, `unwind` and
`merge` want `.orc_unwind` and `.orc_unwind_ip`, `list` wants
`.retpoline_sites`, `.return_sites` and `.call_sites`, `cfa` wants
`.eh_frame`.

Make it first: `check IN OUT` adds the ORC tables, `sites IN OUT` the lists,
`cfi IN OUT` the call frame information; then read OUT.
",
    ),
    (
        "no-text",
        "section N: no text",
        "\
refused: section N: no text

A line `place N BASE` of the image or the layout names section N, and that is
no section with code (PROGBITS with EXECINSTR) of this object. In a merge, the
object is the file with number K that stands in front.

`readelf -SW` numbers the sections, and marks those with code by AX. Only
these need a place. The numbers are those of the object that is read, which
has more sections than the one that it was made from.
",
    ),
    (
        "not-a-boundary",
        "list N: entry M: not a boundary",
        "\
refused: list N: entry M: not a boundary

No instruction begins at the place that entry M of a list tells; of the lists
4 and 5, none ends there. M counts from 0 the entries of all sections of the
list's name. The lists are
  1: __jump_table (static branches)
  2: __ex_table (exceptions)
  3: .discard.unwind_hints
  4: .discard.reachable
  5: .discard.unreachable
  6: .discard.retpoline_safe
  7: .discard.intra_function_calls

A label stands within an instruction, or data in front of it is read as code,
so that the boundaries are others than was meant: `objdump -dr` shows them.
Annotations belong right in front of their instruction, but unreachable() and
what undoes it (the lists 4 and 5) right behind.
",
    ),
    (
        "not-a-call",
        "intra call N: not a call",
        "\
refused: intra call N: not a call

At place N of `.discard.intra_function_calls`, counted from 0, stands no call
by a displacement (opcode E8). ANNOTATE_INTRA_FUNCTION_CALL says of the
instruction right behind it that it is a call that stays in its function.

Put it directly in front of `call LABEL`, with nothing between, not before an
indirect call or a jump. In an alternatives site it belongs to the code in
which the call stands.
",
    ),
    (
        "not-a-function",
        "unchecked N: not a function",
        "\
refused: unchecked N: not a function

At place N of `.discard.func_stack_frame_non_standard` no function starts. N
counts from 0 the places there that lie in the code. Such a place says that
the function is not to be checked.

STACK_FRAME_NON_STANDARD(f) takes a function's name, and f has to be a symbol
of type FUNC with a size: in assembly by SYM_FUNC_START and SYM_FUNC_END. A
label of SYM_CODE_START is no function; such code is checked from its hints on
alone.
",
    ),
    (
        "not-a-site",
        "static branch N: not a site",
        "\
refused: static branch N: not a site

At the code of entry N of `__jump_table`, counted from 0 over all sections of
that name, stands neither a nop nor a jump by a displacement. A static branch
is switched by writing one of the two over the other.

In C static_branch_likely() and its kin make both together. In assembly, or in
an asm goto of one's own, the label of the entry doesn't stand right in front
of the nop or jmp.
",
    ),
    (
        "not-an-object",
        "not an x86-64 relocatable file at byte N",
        "\
refused: not an x86-64 relocatable file at byte N

The file isn't an object that the assembler or `ld -r` writes: ELF, 64 bits,
little-endian, type REL, machine x86-64. N is the offset of the first field of
the file header that is wrong; 16 is the type (a program or a library), 18 the
machine, and 0 to 6 that it is no such ELF file at all. With
`file needs N bytes, has M` it ends before a header or the table of section
headers does.

Give the object itself, no archive (.a), no LLVM bitcode (an object of an LTO
build), no program and no kernel image. A file that is too short is cut, or
wasn't written to its end.
",
    ),
    (
        "not-ended",
        "file K section N: not ended",
        "\
refused: file K section N: not ended

The rows of section N of file K of the layout don't end with a row of zeros at
the section's size. Without it the last row would hold for whatever lies
behind the section in the merged table.

`check` writes that row, as Linux's objtool does. The tables were made by
another tool, or the section has grown since: make them anew.
",
    ),
    (
        "not-placed",
        "section N: not placed",
        "\
refused: section N: not placed

Section N has rows in the ORC tables, and no line `place N BASE` says where it
lies. Each section that has rows needs one, also where no frame of the stack
lies in it. In a merge, the object is the file with number K that stands in
front.

`readelf -SW` numbers the sections; those that have rows are among those with
code (AX), and `dump` prints their names with each row.
",
    ),
];

/// The rows of this volume.
#[tactic(auto, unfolding(crate::specs::Volumes::refusals_n))]
pub(crate) fn rows() -> &'static [Row]
    ensures { map entry_of result.now ≡ refusals_n }
{
    &ROWS
}
