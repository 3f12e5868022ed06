//! How long an instruction is likely to be, by tables of opcodes. It is a guess: no contract says anything of it.

/// What an opcode's last byte tells of the length.
#[derive(Clone, Copy)]
struct Tail {
    /// Whether it is a prefix, and no opcode.
    is_prefix: bool,
    /// How many bytes it has with the immediate.
    len: u8,
    /// All bits where a ModRM byte follows, and else none.
    modrm: u8,
    /// How many bytes the immediate has besides where the reg field of ModRM is 0 or 1.
    test: u8,
}

/// An opcode alone.
const OP: Tail = Tail {
    is_prefix: false,
    len: 1,
    modrm: 0,
    test: 0,
};

/// A prefix.
const PRE: Tail = Tail {
    is_prefix: true,
    ..OP
};

/// An opcode with an immediate of so many bytes.
const OP_1: Tail = Tail { len: 2, ..OP };

const OP_2: Tail = Tail { len: 3, ..OP };

const OP_3: Tail = Tail { len: 4, ..OP };

const OP_4: Tail = Tail { len: 5, ..OP };

const OP_8: Tail = Tail { len: 9, ..OP };

/// An opcode with ModRM.
const RM: Tail = Tail { modrm: 0xFF, ..OP };

/// An opcode with ModRM and an immediate of so many bytes. Of 38 and 3A, behind 0F, the last bytes of the opcode count as such.
const RM_1: Tail = Tail { len: 2, ..RM };

const RM_2: Tail = Tail { len: 3, ..RM };

const RM_4: Tail = Tail { len: 5, ..RM };

/// Group 3: TEST of an immediate of so many bytes, and NOT to IDIV without.
const T_1: Tail = Tail { test: 1, ..RM };

const T_4: Tail = Tail { test: 4, ..RM };

/// C5, C4 and 62, with the one, two or three bytes more of VEX or EVEX, an opcode and ModRM. What follows is left out of account.
const VEX_2: Tail = Tail { len: 4, ..OP };

const VEX_3: Tail = Tail { len: 5, ..OP };

const EVEX: Tail = Tail { len: 6, ..OP };

/// Prefixes, and opcodes of one byte.
static ONE_BYTE: [Tail; 256] = [
    RM, RM, RM, RM, OP_1, OP_4, OP, OP, // 00
    RM, RM, RM, RM, OP_1, OP_4, OP, OP, // 08
    RM, RM, RM, RM, OP_1, OP_4, OP, OP, // 10
    RM, RM, RM, RM, OP_1, OP_4, OP, OP, // 18
    RM, RM, RM, RM, OP_1, OP_4, PRE, OP, // 20
    RM, RM, RM, RM, OP_1, OP_4, PRE, OP, // 28
    RM, RM, RM, RM, OP_1, OP_4, PRE, OP, // 30
    RM, RM, RM, RM, OP_1, OP_4, PRE, OP, // 38
    PRE, PRE, PRE, PRE, PRE, PRE, PRE, PRE, // 40
    PRE, PRE, PRE, PRE, PRE, PRE, PRE, PRE, // 48
    OP, OP, OP, OP, OP, OP, OP, OP, // 50
    OP, OP, OP, OP, OP, OP, OP, OP, // 58
    OP, OP, EVEX, RM, PRE, PRE, PRE, PRE, // 60
    OP_4, RM_4, OP_1, RM_1, OP, OP, OP, OP, // 68
    OP_1, OP_1, OP_1, OP_1, OP_1, OP_1, OP_1, OP_1, // 70
    OP_1, OP_1, OP_1, OP_1, OP_1, OP_1, OP_1, OP_1, // 78
    RM_1, RM_4, RM_1, RM_1, RM, RM, RM, RM, // 80
    RM, RM, RM, RM, RM, RM, RM, RM, // 88
    OP, OP, OP, OP, OP, OP, OP, OP, // 90
    OP, OP, OP, OP, OP, OP, OP, OP, // 98
    OP_8, OP_8, OP_8, OP_8, OP, OP, OP, OP, // A0
    OP_1, OP_4, OP, OP, OP, OP, OP, OP, // A8
    OP_1, OP_1, OP_1, OP_1, OP_1, OP_1, OP_1, OP_1, // B0
    OP_4, OP_4, OP_4, OP_4, OP_4, OP_4, OP_4, OP_4, // B8
    RM_1, RM_1, OP_2, OP, VEX_3, VEX_2, RM_1, RM_4, // C0
    OP_3, OP, OP_2, OP, OP, OP_1, OP, OP, // C8
    RM, RM, RM, RM, OP, OP, OP, OP, // D0
    RM, RM, RM, RM, RM, RM, RM, RM, // D8
    OP_1, OP_1, OP_1, OP_1, OP_1, OP_1, OP_1, OP_1, // E0
    OP_4, OP_4, OP, OP_1, OP, OP, OP, OP, // E8
    PRE, OP, PRE, PRE, OP, OP, T_1, T_4, // F0
    OP, OP, OP, OP, OP, OP, RM, RM, // F8
];

/// The second bytes of opcodes behind 0F.
static TWO_BYTE: [Tail; 256] = [
    RM, RM, RM, RM, OP, OP, OP, OP, // 00
    OP, OP, OP, OP, RM, RM, OP, RM_1, // 08
    RM, RM, RM, RM, RM, RM, RM, RM, // 10
    RM, RM, RM, RM, RM, RM, RM, RM, // 18
    RM, RM, RM, RM, RM, RM, RM, RM, // 20
    RM, RM, RM, RM, RM, RM, RM, RM, // 28
    OP, OP, OP, OP, OP, OP, OP, OP, // 30
    RM_1, RM, RM_2, RM, RM, RM, RM, RM, // 38
    RM, RM, RM, RM, RM, RM, RM, RM, // 40
    RM, RM, RM, RM, RM, RM, RM, RM, // 48
    RM, RM, RM, RM, RM, RM, RM, RM, // 50
    RM, RM, RM, RM, RM, RM, RM, RM, // 58
    RM, RM, RM, RM, RM, RM, RM, RM, // 60
    RM, RM, RM, RM, RM, RM, RM, RM, // 68
    RM_1, RM_1, RM_1, RM_1, RM, RM, RM, OP, // 70
    RM, RM, RM, RM, RM, RM, RM, RM, // 78
    OP_4, OP_4, OP_4, OP_4, OP_4, OP_4, OP_4, OP_4, // 80
    OP_4, OP_4, OP_4, OP_4, OP_4, OP_4, OP_4, OP_4, // 88
    RM, RM, RM, RM, RM, RM, RM, RM, // 90
    RM, RM, RM, RM, RM, RM, RM, RM, // 98
    OP, OP, OP, RM, RM_1, RM, RM, RM, // A0
    OP, OP, OP, RM, RM_1, RM, RM, RM, // A8
    RM, RM, RM, RM, RM, RM, RM, RM, // B0
    RM, RM, RM_1, RM, RM, RM, RM, RM, // B8
    RM, RM, RM_1, RM, RM_1, RM_1, RM_1, RM, // C0
    OP, OP, OP, OP, OP, OP, OP, OP, // C8
    RM, RM, RM, RM, RM, RM, RM, RM, // D0
    RM, RM, RM, RM, RM, RM, RM, RM, // D8
    RM, RM, RM, RM, RM, RM, RM, RM, // E0
    RM, RM, RM, RM, RM, RM, RM, RM, // E8
    RM, RM, RM, RM, RM, RM, RM, RM, // F0
    RM, RM, RM, RM, RM, RM, RM, RM, // F8
];

/// ModRM without its reg field, where a SIB follows, and a displacement behind it if its base is 5.
const SIB_ALONE: u8 = 0x04;

/// How many bytes ModRM, SIB and the displacement have together, where the base of the SIB isn't 5.
static OPERAND: [u8; 256] = [
    1, 1, 1, 1, 2, 5, 1, 1, // 00
    1, 1, 1, 1, 2, 5, 1, 1, // 08
    1, 1, 1, 1, 2, 5, 1, 1, // 10
    1, 1, 1, 1, 2, 5, 1, 1, // 18
    1, 1, 1, 1, 2, 5, 1, 1, // 20
    1, 1, 1, 1, 2, 5, 1, 1, // 28
    1, 1, 1, 1, 2, 5, 1, 1, // 30
    1, 1, 1, 1, 2, 5, 1, 1, // 38
    2, 2, 2, 2, 3, 2, 2, 2, // 40
    2, 2, 2, 2, 3, 2, 2, 2, // 48
    2, 2, 2, 2, 3, 2, 2, 2, // 50
    2, 2, 2, 2, 3, 2, 2, 2, // 58
    2, 2, 2, 2, 3, 2, 2, 2, // 60
    2, 2, 2, 2, 3, 2, 2, 2, // 68
    2, 2, 2, 2, 3, 2, 2, 2, // 70
    2, 2, 2, 2, 3, 2, 2, 2, // 78
    5, 5, 5, 5, 6, 5, 5, 5, // 80
    5, 5, 5, 5, 6, 5, 5, 5, // 88
    5, 5, 5, 5, 6, 5, 5, 5, // 90
    5, 5, 5, 5, 6, 5, 5, 5, // 98
    5, 5, 5, 5, 6, 5, 5, 5, // A0
    5, 5, 5, 5, 6, 5, 5, 5, // A8
    5, 5, 5, 5, 6, 5, 5, 5, // B0
    5, 5, 5, 5, 6, 5, 5, 5, // B8
    1, 1, 1, 1, 1, 1, 1, 1, // C0
    1, 1, 1, 1, 1, 1, 1, 1, // C8
    1, 1, 1, 1, 1, 1, 1, 1, // D0
    1, 1, 1, 1, 1, 1, 1, 1, // D8
    1, 1, 1, 1, 1, 1, 1, 1, // E0
    1, 1, 1, 1, 1, 1, 1, 1, // E8
    1, 1, 1, 1, 1, 1, 1, 1, // F0
    1, 1, 1, 1, 1, 1, 1, 1, // F8
];

/// What a byte is that begins an instruction, or stands behind a prefix.
#[inline(always)]
fn one_byte(byte: u64) -> Tail {
    ONE_BYTE[(byte & 0xFF) as usize]
}

/// What the last byte of an opcode is.
#[inline(always)]
fn tail_of(is_escaped: bool, byte: u64) -> Tail {
    let table = if is_escaped { &TWO_BYTE } else { &ONE_BYTE };
    table[(byte & 0xFF) as usize]
}

/// How many bytes the instruction is likely to have whose first eight are these, the first of them lowest. Prefixes but the
/// first two, and those that change an immediate, are left out of account.
#[inline(always)]
pub(crate) fn likely_len(first: u64) -> u8 {
    let is_one = one_byte(first).is_prefix;
    let are_two = is_one & one_byte(first >> 8).is_prefix;
    let prefixes = u8::from(is_one) + u8::from(are_two);
    let opcode = first.wrapping_shr(8 * u32::from(prefixes));
    let is_escaped = opcode & 0xFF == 0x0F;
    let escape = u8::from(is_escaped);
    let opcode = opcode.wrapping_shr(8 * u32::from(escape));
    let tail = tail_of(is_escaped, opcode);
    let modrm = ((opcode >> 8) & 0xFF) as u8;
    let operand = OPERAND[modrm as usize] & tail.modrm;
    let len = prefixes
        .wrapping_add(escape)
        .wrapping_add(tail.len)
        .wrapping_add(operand);
    if tail.test == 0 && modrm & 0xC7 != SIB_ALONE {
        return len;
    }
    len.wrapping_add(rest_of(tail, opcode))
}

/// How many bytes it has besides, where the last byte of its opcode, of which this is the tail, is the lowest here.
#[inline(never)]
fn rest_of(tail: Tail, opcode: u64) -> u8 {
    let modrm = ((opcode >> 8) & 0xFF) as u8;
    let immediate = if modrm & 0x30 == 0 { tail.test } else { 0 };
    if tail.modrm != 0 && modrm & 0xC7 == SIB_ALONE && (opcode >> 16) & 7 == 5 {
        immediate.wrapping_add(4)
    } else {
        immediate
    }
}
