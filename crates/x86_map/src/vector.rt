ghost use Rattle.std.specs.Prelude.{◌≡◌, ◌<◌, ◌≤◌};
ghost use Rattle.x86_map.specs.Vector.{
  has_bit,
  vector_w,
  vector_r,
  vector_x,
  vector_b,
  vvvv_byte,
  vvvv,
  pp,
  vex_number,
  evex_number,
  is_evex_second,
  number_of,
};

/// VEX or EVEX: the bytes behind C5, behind C4 or behind 62 (SDM, volume 2, sections 2.3 and 2.7). The bits R, X and B and the
/// field vvvv are inverted in them.
#[derive(Clone, Copy, PartialEq, Eq)]
pub enum Vector {
    /// C5: R vvvv L pp.
    Vex2(u8),
    /// C4: R X B mmmmm, and W vvvv L pp.
    Vex3(u8, u8),
    /// 62: R X B R' 0 mmm, W vvvv 1 pp, and z L' L b V' aaa.
    Evex(u8, u8, u8),
}

impl Vector {
    /// W: the operand has 64 bits.
    pub(crate) fn w(self) -> bool
        ensures { result ≡ vector_w self }
    {
        match self {
            Vector::Vex2(_) => false,
            Vector::Vex3(_, b) | Vector::Evex(_, b, _) => has_bit(128, b),
        }
    }

    /// R: extends the reg field of ModRM.
    pub(crate) fn r(self) -> bool
        ensures { result ≡ vector_r self }
    {
        match self {
            Vector::Vex2(a) | Vector::Vex3(a, _) | Vector::Evex(a, _, _) => !has_bit(128, a),
        }
    }

    /// X: extends the index field of SIB.
    pub(crate) fn x(self) -> bool
        ensures { result ≡ vector_x self }
    {
        match self {
            Vector::Vex2(_) => false,
            Vector::Vex3(a, _) | Vector::Evex(a, _, _) => !has_bit(64, a),
        }
    }

    /// B: extends the rm field of ModRM, or the base field of SIB.
    pub(crate) fn b(self) -> bool
        ensures { result ≡ vector_b self }
    {
        match self {
            Vector::Vex2(_) => false,
            Vector::Vex3(a, _) | Vector::Evex(a, _, _) => !has_bit(32, a),
        }
    }

    fn vvvv_byte(self) -> u8
        ensures { result ≡ vvvv_byte self }
    {
        match self {
            Vector::Vex2(a) => a,
            Vector::Vex3(_, b) | Vector::Evex(_, b, _) => b,
        }
    }

    /// The register that vvvv names.
    pub(crate) fn vvvv(self) -> u8
        ensures { result ≡ vvvv self }
    {
        15 - self.vvvv_byte() / 8 % 16
    }

    /// What stands in the place of a prefix: 1 for 66, 2 for F3, 3 for F2.
    pub(crate) fn pp(self) -> u8
        ensures { result ≡ pp self }
    {
        self.vvvv_byte() % 4
    }

    /// The number of the map that follows, 0 where the bytes name none.
    pub fn number(self) -> u8
        ensures is { result ≡ number_of self }
        ensures last { result < 13 }
    {
        match self {
            Vector::Vex2(_) => 5,
            Vector::Vex3(a, _) => vex_number(a),
            Vector::Evex(a, b, _) => if is_evex_second(b) { evex_number(a) } else { 0 },
        }
    }
}

fn has_bit(weight: u8, byte: u8) -> bool
    requires { 0 < weight }
    ensures { result ≡ has_bit weight byte }
{
    byte / weight % 2 == 1
}

/// The number of the map that the byte behind C4 names, 0 where it names none.
pub fn vex_number(a: u8) -> u8
    ensures is { result ≡ vex_number a }
    ensures last { result < 8 }
{
    match a % 32 {
        1..=3 => a % 32 + 4,
        _ => 0,
    }
}

/// The number of the map that the byte behind 62 names, 0 where it names none.
pub fn evex_number(a: u8) -> u8
    ensures is { result ≡ evex_number a }
    ensures last { result < 13 }
{
    match a % 16 {
        1..=3 => a % 16 + 7,
        5..=6 => a % 16 + 6,
        _ => 0,
    }
}

/// Whether the second byte behind 62 has the 1 that it has to.
pub fn is_evex_second(b: u8) -> bool
    ensures { result ≡ is_evex_second b }
{
    has_bit(4, b)
}
