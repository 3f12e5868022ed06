//! What the refusals from `opcode` to `wraps` mean.

ghost use Rattle.std.specs.Prelude.{◌≡◌, map};
ghost use Rattle.explanations.specs.Entry.{entry_of};
ghost use Rattle.explanations.specs.Volumes.{refusals_o_to_z};

use crate::row::Row;

const ROWS: [Row; 9] = [
    (
        "opcode",
        "PLACE: opcode outside the map: HEX",
        "\
refused: PLACE: opcode outside the map: HEX

At PLACE the bytes HEX begin no instruction that is read; without the last of
them they could. Each text section is read from its first byte to the last, so
one such place keeps the object from being checked.

Try --all-opcodes: without it vector instructions (SSE, AVX), those of virtual
machines and newer system instructions are outside of the map. docs/OPCODES.md
has what stays out even then: APX, XOP, MPX, 3DNow! and others. Else the bytes
are data in a text section, a jump table or a string, which belongs into
.rodata; or the prefixes don't go with the opcode, such as 66 before a push, a
pop or a near branch. `objdump -d` shows what it may be.
",
    ),
    (
        "orc-section",
        "section N is an ORC section",
        "\
refused: section N is an ORC section

The object has a section `.orc_unwind`, `.orc_unwind_ip` or
`.rela.orc_unwind_ip` already, so `check` adds none: a second table would
contradict the first.

Give the object as the compiler wrote it, not one that went through `check` or
a kernel's objtool, or take the sections out:
`objcopy -R .orc_unwind -R .orc_unwind_ip -R .rela.orc_unwind_ip`.
",
    ),
    (
        "outside-the-file",
        "section N: outside the file",
        "\
refused: section N: outside the file

The bytes of section N leave the file, or begin within the file header; or
they are relocations and share a byte with another section.

The file is cut, which is the usual case, or its section headers are damaged.
Make the object anew; compare its size with what `readelf -SW` says.
",
    ),
    (
        "overlaps",
        "section N: overlaps M",
        "\
refused: section N: overlaps M

Two sections of one object share an address where the image or the layout lays
them; with `file K section N: overlaps file J section M` two sections of two
files. A return address there would belong to both.

Look at the BASEs: a section takes as many bytes from its BASE on as
`readelf -SW` has as its size, in hexadecimal. All text sections count for
which a place is given, also those without rows.
",
    ),
    (
        "rows-and-places",
        "N rows, M places",
        "\
refused: N rows, M places

`.orc_unwind` has N rows, and `.orc_unwind_ip` M places, one of which belongs
to each row. So nothing says which row holds where.

One of the sections was cut or taken from another object. Make the tables anew
from the object as the compiler wrote it, by `check`.
",
    ),
    (
        "site-list",
        "section N is a site list",
        "\
refused: section N is a site list

The object has a section `.retpoline_sites`, `.return_sites` or `.call_sites`,
or its relocations, already, so `sites` adds none: a kernel would patch by
both.

Give the object as the compiler wrote it, or take the sections out by
`objcopy -R NAME -R .relaNAME`, NAME being each of them. `list` prints what is
there.
",
    ),
    (
        "table",
        "table: bad at byte N",
        "\
refused: table: bad at byte N

The file isn't a merged table as `merge` writes it. N is the offset of the
first thing that is wrong: below 8, the file begins otherwise; the file's
length, it is shorter than its head of 16 bytes; 8, the number of rows doesn't
give the file's length, or is above 4,000,000; beyond, an address that is
below the one before it, or a row whose fields aren't in order.

`find` reads such a table alone, and neither an object (see `dump`) nor the
tables of a linked kernel. Make it by `merge LAYOUT OUT`.
",
    ),
    (
        "too-many",
        "too many sections: N",
        "\
refused: too many sections: N

There is more of something than is read or written: 262,144 sections,
4,194,304 symbols and 16,777,216 bytes of text in an object, those that are
added counted too (three sections by `check`, six by `sites`, two by `cfi`,
and a symbol for each section that needs one); 1,024 files in a layout and
4,000,000 rows in a merged table. N is how many there are, or would be.

Check the objects before `ld -r` makes one of them, and merge fewer at a time.
Building without -ffunction-sections makes fewer sections.
",
    ),
    (
        "wraps",
        "section N: wraps",
        "\
refused: section N: wraps

The image or the layout lays section N so high that the address behind it
passes 2^64. In a merge, the object is the file with number K that stands in
front.

Look at BASE: it is to have 1 to 16 lower-case hexadecimal digits, and a
kernel address begins with ffffffff. The section's size is in `readelf -SW`.
",
    ),
];

/// The rows of this volume.
#[tactic(auto, unfolding(crate::specs::Volumes::refusals_o_to_z))]
pub(crate) fn rows() -> &'static [Row]
    ensures { map entry_of result.now ≡ refusals_o_to_z }
{
    &ROWS
}
