//! What the refusals from `frame-relocation` to `missing` mean.

ghost use Rattle.std.specs.Prelude.{◌≡◌, map};
ghost use Rattle.explanations.specs.Entry.{entry_of};
ghost use Rattle.explanations.specs.Volumes.{refusals_f_to_m};

use crate::row::Row;

const ROWS: [Row; 8] = [
    (
        "frame-relocation",
        "bad relocation at N",
        "\
refused: bad relocation at N

At byte N of `.eh_frame` there isn't exactly the one relocation that belongs
there: R_X86_64_PC32 on the section symbol of an FDE's section, with addend 0,
at the FDE's address, and none anywhere else.

`cfa` reads the call frame information that this tool writes, and no other;
compilers take another addend for each function, and so does linking
(`ld -r`): read the object that `cfi` wrote.
",
    ),
    (
        "frame-section",
        "section N is a frame section",
        "\
refused: section N is a frame section

The object has a section `.eh_frame`, or `.rela.eh_frame`, already, so `cfi`
adds none: two would contradict each other.

Compilers write it unless they are told not to: build with
-fno-asynchronous-unwind-tables, as the kernel does. In assembly leave the
directives .cfi_* out. Or take the section out of the object:
`objcopy -R .eh_frame -R .rela.eh_frame`.
",
    ),
    (
        "image-line",
        "image line N: bad word",
        "\
refused: image line N: bad word

Line N of the image, counted from 1, is wrong; the words behind it say how:
  bad word: it begins with none of regs, place and mem.
  bad number: it has too many words or too few, or one isn't the number or the
    bytes that belong there. Numbers have 1 to 16 lower-case hexadecimal
    digits without 0x, the section's number is decimal.
  repeated: there is a `regs`, or a `place` of this section, already.
  wraps: the memory passes the last address.
  overlaps: an earlier line has a byte at one of its addresses.
  no regs: no line has the registers; it is told of the line behind the last.

The lines are `regs IP SP BP`, `place N BASE` and `mem ADDR BYTES`, with
single blanks between the words. Empty lines and those that begin with # say
nothing.
",
    ),
    (
        "instruction-cut",
        "PLACE: instruction cut after N bytes",
        "\
refused: PLACE: instruction cut after N bytes

At PLACE the section has N bytes more, and they begin an instruction that
would need further ones. Text sections are read from their first byte to the
last, instruction by instruction, so all of it has to be code.

Mostly the section ends in data, or code was cut. Data in a text section may
be read as instructions of any length before that: `objdump -d` shows from
where on the two differ. Put data into .rodata, and pad code with nop or int3.
",
    ),
    (
        "instruction-too-long",
        "PLACE: instruction too long",
        "\
refused: PLACE: instruction too long

The 15 bytes at PLACE begin an instruction and don't end it, and no processor
takes more. Mostly they are prefixes: data in a text section, such as a table
of 66 or F0 bytes, is read as code.

Put data into another section (.rodata). Padding by long runs of prefixes is
to be nops of at most 15 bytes each, as the assembler's .align and .p2align
write them.
",
    ),
    (
        "layout-line",
        "layout line N: Word",
        "\
refused: layout line N: Word

Line N of the layout, counted from 1, is wrong; the word behind it says how:
  Word: it begins with neither file nor place.
  Number: the name, a number or how many words there are is wrong, or a place
    stands before the first file.
  Repeated: there is a place of this section of the file already.

The lines are `file NAME` and `place N BASE`, with single blanks between the
words: N is the section's decimal number, as `readelf -S` has it, and BASE 1
to 16 lower-case hexadecimal digits without 0x. Empty lines and those that
begin with # say nothing.
",
    ),
    (
        "longer",
        "NAME is longer than N bytes",
        "\
refused: NAME is longer than N bytes

The file has more bytes than are read: 67,108,864 (64 MiB) of an object, a
names file or a merged table, 16,777,216 (16 MiB) of an image or a layout.

Look whether NAME is what was meant, and no archive or whole kernel: objects
are checked one by one, as the compiler writes them, before they are linked.
Debugging information makes most of a large object: `objcopy -g` takes it out.
",
    ),
    (
        "missing",
        "NAME is missing",
        "\
refused: NAME is missing

No file has the name NAME, seen from where the program runs. In NAME a blank
or another byte that isn't printable stands as a backslash and two hexadecimal
digits. With `file K: ` in front it is a name that line `file NAME` of a
layout gives, the one with number K, counted from 0.

Nothing was written. If there is a file and it can't be read, the line is
`file fault: NAME` and the status 4.
",
    ),
];

/// The rows of this volume.
#[tactic(auto, unfolding(crate::specs::Volumes::refusals_f_to_m))]
pub(crate) fn rows() -> &'static [Row]
    ensures { map entry_of result.now ≡ refusals_f_to_m }
{
    &ROWS
}
