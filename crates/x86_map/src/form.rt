ghost use Rattle.std.specs.Prelude.{◌≡◌};
ghost use Rattle.x86_map.specs.Form.{
  allows,
  accepts,
  is_in_mode,
  is_from_to,
  takes,
  has_modrm,
  imm_len,
  shape_of,
  look_form,
};

use crate::prefixes::Prefixes;
use crate::shape::{Look, Shape, Written};

/// What the mod field of a ModRM byte may be.
#[derive(Clone, Copy)]
pub enum Mode {
    /// Memory or a register (E in appendix A).
    Either,
    /// Memory alone: mod 0, 1 or 2 (M).
    Memory,
    /// A register alone: mod 3 (R).
    Register,
}

/// Which ModRM bytes follow an opcode.
#[derive(Clone, Copy)]
pub enum Operand {
    /// No ModRM byte follows.
    NoModrm,
    /// Those of this mode with a reg field from `first` to `last` (/digit in the SDM).
    Digits { mode: Mode, first: u8, last: u8 },
    /// The bytes from `first` to `last`.
    Bytes { first: u8, last: u8 },
}

/// The immediate, by the SDM's letters; a relative displacement counts as one.
#[derive(Clone, Copy)]
pub enum Immediate {
    /// None.
    NoImmediate,
    /// One byte.
    Ib,
    /// Two bytes.
    Iw,
    /// Two bytes and one more, of ENTER.
    IwIb,
    /// Two bytes under 66 without REX.W, else four.
    Iz,
    /// Eight bytes under REX.W, else as Iz.
    Iv,
    /// The eight bytes of an address.
    Moffs,
}

/// Whether a prefix may stand before an opcode.
#[derive(Clone, Copy)]
pub enum PrefixUse {
    /// It may.
    Allowed,
    /// It has to.
    Required,
    /// It may not.
    Forbidden,
}

/// Which prefixes may stand before an opcode. All others may: F0, the segment overrides, REX.W, REX.R and REX.X.
#[derive(Clone, Copy)]
pub struct PrefixUses {
    /// Of 66, as of F3 and F2 also told by the pp of VEX and EVEX.
    pub of_66: PrefixUse,
    /// Of 67.
    pub of_67: PrefixUse,
    /// Of F3.
    pub of_f3: PrefixUse,
    /// Of F2.
    pub of_f2: PrefixUse,
    /// Of REX.B, or the B of VEX and EVEX.
    pub of_rex_b: PrefixUse,
}

/// The form of the instructions that an opcode begins.
#[derive(Clone, Copy)]
pub struct Form {
    /// Which ModRM bytes follow.
    pub operand: Operand,
    /// The immediate.
    pub immediate: Immediate,
    /// Which register is written.
    pub written: Written,
    /// Under which prefixes.
    pub prefixes: PrefixUses,
}

impl PrefixUse {
    fn allows(self, present: bool) -> bool
        ensures { result ≡ allows self present }
    {
        match self {
            PrefixUse::Allowed => true,
            PrefixUse::Required => present,
            PrefixUse::Forbidden => !present,
        }
    }
}

impl PrefixUses {
    /// Most forms allow any prefix.
    #[inline(always)]
    fn accept(&self, p: &Prefixes) -> bool
        ensures { result ≡ accepts self.now p.now }
    {
        match self {
            PrefixUses {
                of_66: PrefixUse::Allowed,
                of_67: PrefixUse::Allowed,
                of_f3: PrefixUse::Allowed,
                of_f2: PrefixUse::Allowed,
                of_rex_b: PrefixUse::Allowed,
            } => true,
            _ => self.accept_each(p),
        }
    }

    #[inline(never)]
    fn accept_each(&self, p: &Prefixes) -> bool
        ensures { result ≡ accepts self.now p.now }
    {
        self.of_66.allows(p.under_66())
            && self.of_67.allows(p.has_67)
            && self.of_f3.allows(p.under_f3())
            && self.of_f2.allows(p.under_f2())
            && self.of_rex_b.allows(p.rex_b())
    }
}

impl Mode {
    /// Whether the mod field of a ModRM byte may be this.
    fn includes(self, modrm_mod: u8) -> bool
        ensures { result ≡ is_in_mode self modrm_mod }
    {
        match self {
            Mode::Either => true,
            Mode::Memory => modrm_mod < 3,
            Mode::Register => modrm_mod == 3,
        }
    }
}

impl Operand {
    fn has_modrm(self) -> bool
        ensures { result ≡ has_modrm self }
    {
        match self {
            Operand::NoModrm => false,
            Operand::Digits { .. } | Operand::Bytes { .. } => true,
        }
    }

    fn takes(self, modrm: u8) -> bool
        ensures { result ≡ takes self modrm }
    {
        match self {
            Operand::NoModrm => false,
            Operand::Digits { mode, first, last } => {
                let reg = modrm / 8 % 8;
                mode.includes(modrm / 64) && first <= reg && reg <= last
            }
            Operand::Bytes { first, last } => first <= modrm && modrm <= last,
        }
    }
}

impl Immediate {
    fn len(self, p: &Prefixes) -> u8
        ensures { result ≡ imm_len self p.now }
    {
        match self {
            Immediate::NoImmediate => 0,
            Immediate::Ib => 1,
            Immediate::Iw => 2,
            Immediate::IwIb => 3,
            Immediate::Iz => if p.under_66() && !p.rex_w() { 2 } else { 4 },
            Immediate::Iv if p.rex_w() => 8,
            Immediate::Iv => if p.under_66() { 2 } else { 4 },
            Immediate::Moffs => 8,
        }
    }
}

impl Form {
    #[inline(always)]
    fn shape(&self, p: &Prefixes) -> Shape
        ensures { result ≡ shape_of self.now p.now }
    {
        Shape {
            modrm: self.operand.has_modrm(),
            imm: self.immediate.len(p),
            written: self.written,
        }
    }

    /// What this form says of the prefixes, and of a ModRM byte where one is given.
    #[tactic(auto, unfolding(crate::specs::Form::look_form))]
    #[inline(always)]
    pub(crate) fn look(&self, p: &Prefixes, modrm: Option<u8>) -> Look
        ensures { result ≡ look_form self.now p.now modrm }
    {
        if !self.prefixes.accept(p) {
            return Look::Refused;
        }
        match modrm {
            None if self.operand.has_modrm() => Look::NeedModrm,
            None => Look::Fits(self.shape(p)),
            Some(modrm) if self.operand.takes(modrm) => Look::Fits(self.shape(p)),
            Some(_) => Look::Refused,
        }
    }
}
