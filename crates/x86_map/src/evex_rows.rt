//! The opcodes behind EVEX.

ghost use Rattle.std.specs.Prelude.{◌≡◌, map};
ghost use Rattle.x86_map.specs.Extension.{row_of};
ghost use Rattle.x86_map.specs.EvexRows.{evex_0F, evex_0F_38, evex_0F_3A, evex_5, evex_6};

use crate::extension::OpcodeRange;
use crate::words::{form, immediate, operand, prefixes, row, written};

/// Map 1.
static EVEX_0F_ROWS: [OpcodeRange; 31] = [
    // VMOVUPS to VMOVHPS; VMOVAPS; VCVTSI2SS; VMOVNTPS; VCVT and VCVTT to a register; VUCOMIS, VCOMIS
    row!(0x10..=0x12, E, no_imm, nothing, any),
    row!(0x13, M, no_imm, nothing, any),
    row!(0x14..=0x16, E, no_imm, nothing, any),
    row!(0x17, M, no_imm, nothing, any),
    row!(0x28..=0x2A, E, no_imm, nothing, any),
    row!(0x2B, M, no_imm, nothing, any),
    row!(0x2C..=0x2D, E, no_imm, Gv, with_F3_no_66),
    row!(0x2C..=0x2D, E, no_imm, Gv, with_F2_no_66),
    row!(0x2E..=0x2F, E, no_imm, nothing, any),
    // VSQRT; VAND to VMAX; VPUNPCK to VMOVDQA; VPSHUF; groups 12, 13 and 14; VPCMPEQ
    row!(0x51, E, no_imm, nothing, any),
    row!(0x54..=0x6F, E, no_imm, nothing, any),
    row!(0x70, E, Ib, nothing, any),
    row!(0x71..=0x73, E, Ib, nothing, with_66),
    row!(0x74..=0x76, E, no_imm, nothing, with_66),
    // VCVT and VCVTT of unsigned numbers, and to a register; VCVTUSI2SS and kin; VMOVD and VMOVQ to a register; VMOVQ; VMOVDQA
    row!(0x78..=0x79, E, no_imm, nothing, no_F2_F3),
    row!(0x78..=0x79, E, no_imm, Gv, with_F3_no_66),
    row!(0x78..=0x79, E, no_imm, Gv, with_F2_no_66),
    row!(0x7A..=0x7B, E, no_imm, nothing, any),
    row!(0x7E, E, no_imm, Ev, with_66),
    row!(0x7E, E, no_imm, nothing, with_F3_no_66),
    row!(0x7F, E, no_imm, nothing, any),
    // VCMP; VPINSRW; VPEXTRW; VSHUF; VPSRL to VMOVQ; VPSUB to VPADD; VMOVNTDQ
    row!(0xC2, E, Ib, nothing, any),
    row!(0xC4, E, Ib, nothing, with_66),
    row!(0xC5, R, Ib, Gv, with_66),
    row!(0xC6, E, Ib, nothing, no_F2_F3),
    row!(0xD1..=0xD6, E, no_imm, nothing, with_66),
    row!(0xD8..=0xE6, E, no_imm, nothing, any),
    row!(0xE7, M, no_imm, nothing, with_66),
    row!(0xE8..=0xEF, E, no_imm, nothing, with_66),
    row!(0xF1..=0xF6, E, no_imm, nothing, with_66),
    row!(0xF8..=0xFE, E, no_imm, nothing, with_66),
];

/// Map 2.
static EVEX_0F_38_ROWS: [OpcodeRange; 32] = [
    // VPSHUFB, VPMADDUBSW, VPMULHRSW, VPERMILPS, VPERMILPD; VPSRLVW to VPERMPS; VBROADCAST, VPABS; VPMOV; VPMULDQ to VPACKUSDW, VSCALEF
    row!(0x00, E, no_imm, nothing, any),
    row!(0x04, E, no_imm, nothing, any),
    row!(0x0B..=0x0D, E, no_imm, nothing, any),
    row!(0x10..=0x16, E, no_imm, nothing, any),
    row!(0x18..=0x1F, E, no_imm, nothing, any),
    row!(0x20..=0x29, E, no_imm, nothing, any),
    row!(0x2A, E, no_imm, nothing, any),
    row!(0x2B..=0x2D, E, no_imm, nothing, any),
    // VPMOV; VPERMD, VPCMPGTQ, VPMIN, VPMAX, VPMULL; VGETEXP, VPLZCNT, variable shifts; VRCP14, VRSQRT14
    row!(0x30..=0x40, E, no_imm, nothing, any),
    row!(0x42..=0x47, E, no_imm, nothing, any),
    row!(0x4C..=0x4F, E, no_imm, nothing, any),
    // VNNI, VPOPCNT; VPBROADCAST, VBROADCASTI; VPEXPAND, VPCOMPRESS, VPBLENDM; VP2INTERSECT; VPSHLDV, VPSHRDV; VPERMI2, VPBROADCAST from a register, VPERMT2
    row!(0x50..=0x55, E, no_imm, nothing, any),
    row!(0x58..=0x5B, E, no_imm, nothing, any),
    row!(0x62..=0x66, E, no_imm, nothing, any),
    row!(0x68, E, no_imm, nothing, any),
    row!(0x70..=0x73, E, no_imm, nothing, any),
    row!(0x75..=0x7F, E, no_imm, nothing, any),
    // VPMULTISHIFTQB; VEXPAND, VPEXPAND, VCOMPRESS, VPCOMPRESS, VPERM, VPSHUFBITQMB; gathers; FMA; scatters; FMA
    row!(0x83, E, no_imm, nothing, any),
    row!(0x88..=0x8B, E, no_imm, nothing, any),
    row!(0x8D, E, no_imm, nothing, any),
    row!(0x8F, E, no_imm, nothing, any),
    row!(0x90..=0x93, M, no_imm, nothing, any),
    row!(0x96..=0x9F, E, no_imm, nothing, any),
    row!(0xA0..=0xA3, M, no_imm, nothing, any),
    row!(0xA6..=0xAF, E, no_imm, nothing, any),
    row!(0xB4..=0xBF, E, no_imm, nothing, any),
    // VPCONFLICT; prefetches of gathers and scatters; VEXP2, VRCP28, VRSQRT28; VGF2P8MULB; VAESENC to VAESDECLAST
    row!(0xC4, E, no_imm, nothing, any),
    row!(0xC6..=0xC7, M, no_imm, nothing, any),
    row!(0xC8, E, no_imm, nothing, any),
    row!(0xCA..=0xCD, E, no_imm, nothing, any),
    row!(0xCF, E, no_imm, nothing, any),
    row!(0xDC..=0xDF, E, no_imm, nothing, any),
];

/// Map 3.
static EVEX_0F_3A_ROWS: [OpcodeRange; 18] = [
    // VPERMQ, VPERMPD, VALIGN; VPERMILPS, VPERMILPD; VRNDSCALE; VPALIGNR; VPEXTRB, VPEXTRW, VPEXTRD, VPEXTRQ, VEXTRACTPS
    row!(0x00..=0x01, E, Ib, nothing, any),
    row!(0x03..=0x05, E, Ib, nothing, any),
    row!(0x08..=0x0B, E, Ib, nothing, any),
    row!(0x0F, E, Ib, nothing, any),
    row!(0x14..=0x17, E, Ib, Ev, with_66),
    // VINSERTF, VEXTRACTF; VCVTPS2PH to VPCMP; VPINSR, VINSERTPS; VSHUFF, VPTERNLOG, VGETMANT; VINSERTI, VEXTRACTI, VPCMP; VDBPSADBW, VSHUFI, VPCLMULQDQ
    row!(0x18..=0x1B, E, Ib, nothing, any),
    row!(0x1D..=0x1F, E, Ib, nothing, any),
    row!(0x20..=0x23, E, Ib, nothing, any),
    row!(0x25..=0x27, E, Ib, nothing, any),
    row!(0x38..=0x3B, E, Ib, nothing, any),
    row!(0x3E..=0x3F, E, Ib, nothing, any),
    row!(0x42..=0x44, E, Ib, nothing, any),
    // VRANGE, VFIXUPIMM, VREDUCE; VFPCLASS; VPSHLD, VPSHRD; VCMPPH, VCMPSH; VGF2P8AFFINE
    row!(0x50..=0x51, E, Ib, nothing, any),
    row!(0x54..=0x57, E, Ib, nothing, any),
    row!(0x66..=0x67, E, Ib, nothing, any),
    row!(0x70..=0x73, E, Ib, nothing, any),
    row!(0xC2, E, Ib, nothing, any),
    row!(0xCE..=0xCF, E, Ib, nothing, any),
];

/// Map 5.
static EVEX_5_ROWS: [OpcodeRange; 12] = [
    // VMOVSH; VCVTSS2SH, VCVTPS2PHX; VCVTSI2SH; VCVT and VCVTT to a register; VUCOMISH, VCOMISH; VSQRT; VADD to VMAX; VMOVW from a register
    row!(0x10..=0x11, E, no_imm, nothing, with_F3_no_66),
    row!(0x1D, E, no_imm, nothing, no_F2_F3),
    row!(0x2A, E, no_imm, nothing, with_F3_no_66),
    row!(0x2C..=0x2D, E, no_imm, Gv, with_F3_no_66),
    row!(0x2E..=0x2F, E, no_imm, nothing, no_66_F2_F3),
    row!(0x51, E, no_imm, nothing, any),
    row!(0x58..=0x5F, E, no_imm, nothing, any),
    row!(0x6E, E, no_imm, nothing, with_66),
    // VCVT and VCVTT of unsigned numbers, and to a register; VCVTUSI2SH and kin; VMOVW to a register
    row!(0x78..=0x79, E, no_imm, nothing, no_F2_F3),
    row!(0x78..=0x79, E, no_imm, Gv, with_F3_no_66),
    row!(0x7A..=0x7D, E, no_imm, nothing, any),
    row!(0x7E, E, no_imm, Ev, with_66),
];

/// Map 6.
static EVEX_6_ROWS: [OpcodeRange; 11] = [
    // VCVTSH2SS, VCVTPH2PSX; VSCALEF; VGETEXP; VRCP, VRSQRT; complex products; FMA; complex products
    row!(0x13, E, no_imm, nothing, any),
    row!(0x2C..=0x2D, E, no_imm, nothing, with_66),
    row!(0x42..=0x43, E, no_imm, nothing, with_66),
    row!(0x4C..=0x4F, E, no_imm, nothing, with_66),
    row!(0x56..=0x57, E, no_imm, nothing, with_F3_no_66),
    row!(0x56..=0x57, E, no_imm, nothing, with_F2_no_66),
    row!(0x96..=0x9F, E, no_imm, nothing, with_66),
    row!(0xA6..=0xAF, E, no_imm, nothing, with_66),
    row!(0xB6..=0xBF, E, no_imm, nothing, with_66),
    row!(0xD6..=0xD7, E, no_imm, nothing, with_F3_no_66),
    row!(0xD6..=0xD7, E, no_imm, nothing, with_F2_no_66),
];

/// The opcodes of EVEX, map 1.
pub(crate) fn evex_0f() -> &'static [OpcodeRange]
    ensures { map row_of result.now ≡ evex_0F }
{
    &EVEX_0F_ROWS
}

/// The opcodes of EVEX, map 2.
pub(crate) fn evex_0f_38() -> &'static [OpcodeRange]
    ensures { map row_of result.now ≡ evex_0F_38 }
{
    &EVEX_0F_38_ROWS
}

/// The opcodes of EVEX, map 3.
pub(crate) fn evex_0f_3a() -> &'static [OpcodeRange]
    ensures { map row_of result.now ≡ evex_0F_3A }
{
    &EVEX_0F_3A_ROWS
}

/// The opcodes of EVEX, map 5.
pub(crate) fn evex_5() -> &'static [OpcodeRange]
    ensures { map row_of result.now ≡ evex_5 }
{
    &EVEX_5_ROWS
}

/// The opcodes of EVEX, map 6.
pub(crate) fn evex_6() -> &'static [OpcodeRange]
    ensures { map row_of result.now ≡ evex_6 }
{
    &EVEX_6_ROWS
}
