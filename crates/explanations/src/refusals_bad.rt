//! What the refusals from `bad-bits` to `bad-table` mean.

ghost use Rattle.std.specs.Prelude.{◌≡◌, map};
ghost use Rattle.explanations.specs.Entry.{entry_of};
ghost use Rattle.explanations.specs.Volumes.{refusals_bad};

use crate::row::Row;

const ROWS: [Row; 11] = [
    (
        "bad-bits",
        "row N: bad bits",
        "\
refused: row N: bad bits

Row N of `.orc_unwind`, counted from 0, has a register or a kind that the
format of Linux 6.6 doesn't number, or one of its bits 12 to 15 is set. What
it means isn't known, so no row is told.

The table is of another kernel, whose rows have other bits, or the section
isn't what `check` or a kernel's objtool wrote. Make the tables anew, by
`check`, from the object as the compiler wrote it.
",
    ),
    (
        "bad-function",
        "symbol N: bad function",
        "\
refused: symbol N: bad function

The function of symbol N (as `readelf -s` numbers it) leaves its section, or
starts where no instruction begins, or starts inside the code of an
alternatives site.

In assembly the symbol's label or its size is wrong: `.size` behind the next
label, a label within an instruction or in front of data that code runs on to,
or SYM_FUNC_START between the labels of ALTERNATIVE(). If the code in front of
it holds data, instructions are read across the start: data belongs into
another section. Compiled code shows it only where a tool has changed it.
",
    ),
    (
        "bad-length",
        "section NAME: bad length N",
        "\
refused: section NAME: bad length N

The section has N bytes, and that is no whole number of entries: those of
`.orc_unwind` have six bytes, those of `.orc_unwind_ip` and of the site lists
(`.retpoline_sites`, `.return_sites`, `.call_sites`) four.

The section isn't what `check` or `sites` writes, or was cut. Make the tables
anew from the object as the compiler wrote it.
",
    ),
    (
        "bad-link",
        "section N: bad link",
        "\
refused: section N: bad link

Section N names by its fields sh_link and sh_info other sections than its type
asks for. A symbol table has to name its string table and how many symbols are
local, SYMTAB_SHNDX the symbol table, with an entry for each symbol, RELA the
symbol table and the section that it is for, of which each has one RELA at
most, and GROUP the symbol table and one of its symbols.

The file is damaged, or was made by a tool that doesn't keep to the gABI. Look
at it by `readelf -SW`, and make the object anew.
",
    ),
    (
        "bad-name",
        "section N: bad name",
        "\
refused: section N: bad name

The name of section N doesn't begin within the table of section names; with
`symbol N: bad name`, that of symbol N doesn't within the string table of the
symbols.

The file is damaged, or a tool has cut a string table. Make the object anew;
`readelf -SsW` shows what there is.
",
    ),
    (
        "bad-operation",
        "bad operation at N",
        "\
refused: bad operation at N

The instruction at byte N of `.eh_frame` is none of those that `cfi` writes:
an advance by a number of bytes, a rule for the frame's top from rsp or rbp,
rules for the return address and for rbp, and nothing. Or it goes on past the
section's end.

`cfa` reads the call frame information that this tool writes, and no other. A
compiler's own says more: read it by `readelf --debug-dump=frames`. Build with
-fno-asynchronous-unwind-tables, then use `cfi`.
",
    ),
    (
        "bad-record",
        "frame record at N: bad record",
        "\
refused: frame record at N: bad record

The record at byte N of `.eh_frame` isn't of the form that `cfi` writes: one
CIE with the augmentation zR first, an FDE for each text section that has
rows, in ascending order and of the section's size, and four zero bytes.

`cfa` reads the call frame information that this tool writes, and no other. A
compiler's own says more: read it by `readelf --debug-dump=frames`. Build with
-fno-asynchronous-unwind-tables, then use `cfi`.
",
    ),
    (
        "bad-relocation",
        "section N: bad relocation M",
        "\
refused: section N: bad relocation M

Entry M of section N, of relocations, names a symbol that isn't there, or its
field doesn't lie within the section that it is for. The second is asked of
the types R_X86_64_64, PC32, PLT32, 32 and 32S.

The file is damaged, or a tool has cut a section and left its relocations as
they were. `readelf -rW` shows the entry. Make the object anew.
",
    ),
    (
        "bad-slot",
        "row N: bad slot: WHY",
        "\
refused: row N: bad slot: WHY

The place of a row, N of `.orc_unwind_ip`, isn't told as it has to be; with
`section NAME: slot N: WHY` that of a slot of a site list. WHY is the first of
these that holds:
  NoReloc: it has no relocation, or the last one has more than one.
  Kind: its relocation isn't R_X86_64_PC32.
  Offset: the relocation isn't at the slot's four bytes.
  Symbol: its symbol isn't the section symbol of a text section.
  Range: the place lies before the section or behind its end.
  NotZero: the four bytes aren't zero.

The tables were written by another tool, which may name functions in place of
sections, or sorted, or linked: a linked image has no relocations. Make them
anew, by `check` or `sites`, from the object as the compiler wrote it.
",
    ),
    (
        "bad-symbol",
        "symbol N: bad symbol",
        "\
refused: symbol N: bad symbol

Symbol N names a section that isn't there, or it is local and stands behind
the local ones (sh_info of the symbol table says how many there are), or it
isn't and stands among them.

The file is damaged, or a tool has changed symbols and not the table's header.
`readelf -sW` shows the symbol. Make the object anew.
",
    ),
    (
        "bad-table",
        "section N: bad table",
        "\
refused: section N: bad table

The header of section N contradicts its type: symbols and relocations have
entries of 24 bytes, SYMTAB_SHNDX of 4, which have to divide the section; a
string table ends in a zero byte; header 0 has the type NULL. There is at most
one symbol table and one SYMTAB_SHNDX.

Sections of the type REL aren't read, which assemblers for x86-64 don't write,
nor are compressed ones among symbols, names and relocations. Else the file is
damaged: look at it by `readelf -SW`, and make the object anew.
",
    ),
];

/// The rows of this volume.
#[tactic(auto, unfolding(crate::specs::Volumes::refusals_bad))]
pub(crate) fn rows() -> &'static [Row]
    ensures { map entry_of result.now ≡ refusals_bad }
{
    &ROWS
}
