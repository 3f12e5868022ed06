//! How a rule is told.

use crate::rule::{CfaReg, CfaRule, PlacedRule};
use ot_base::{Names, PlaceText};
use std::fmt;

/// The register's name.
impl fmt::Display for CfaReg {
    ghost use Rattle.std.specs.Prelude.{Some};
    ghost use Rattle.eh_frame.specs.Texts.{register_name};

    ghost output = { λ reg. Some (register_name reg) };

    fn fmt<W: fmt::Write>(&self, f: &mut fmt::Formatter<W>) -> fmt::Result {
        match *self {
            CfaReg::Rsp => write!(f, "rsp"),
            CfaReg::Rbp => write!(f, "rbp"),
        }
    }
}

/// A number with its sign, also before 0.
#[derive(Clone, Copy)]
struct Signed(i64);

impl fmt::Display for Signed {
    ghost use Rattle.std.specs.Prelude.{Some};
    ghost use Rattle.ot_base.specs.PlaceText.{with_sign};

    ghost output = { λ n. Some (with_sign n.0) };

    fn fmt<W: fmt::Write>(&self, f: &mut fmt::Formatter<W>) -> fmt::Result {
        let number = self.0;
        if number < 0 {
            write!(f, "{number}")
        } else {
            write!(f, "+{number}")
        }
    }
}

/// Where the caller's rbp is: `same`, or `cfa` and an offset.
#[derive(Clone, Copy)]
struct SavedRbp(Option<i64>);

impl fmt::Display for SavedRbp {
    ghost use Rattle.std.specs.Prelude.{Some};
    ghost use Rattle.eh_frame.specs.Texts.{saved_text};

    ghost output = { λ s. Some (saved_text s.0) };

    fn fmt<W: fmt::Write>(&self, f: &mut fmt::Formatter<W>) -> fmt::Result {
        match self.0 {
            None => write!(f, "same"),
            Some(off) => write!(f, "cfa{}", Signed(off)),
        }
    }
}

/// The rule in words: `undefined`, or such as `cfa rsp+16 bp cfa-16` and `cfa rsp+8 bp same`; numbers are decimal.
impl fmt::Display for CfaRule {
    ghost use Rattle.std.specs.Prelude.{Some};
    ghost use Rattle.eh_frame.specs.Texts.{rule_text};

    ghost output = { λ rule. Some (rule_text rule) };

    fn fmt<W: fmt::Write>(&self, f: &mut fmt::Formatter<W>) -> fmt::Result {
        match *self {
            CfaRule::Undefined => write!(f, "undefined"),
            CfaRule::Cfa { reg, off, bp } => {
                let by = Signed(off);
                let saved = SavedRbp(bp);
                write!(f, "cfa {reg}{by} bp {saved}")
            }
        }
    }
}

/// The line of a rule: its place, and what it says.
#[derive(Drop)]
pub struct RuleLine<'a, N> {
    /// Where the names of sections are.
    pub names: &'a N,
    /// The rule, at its place.
    pub placed: PlacedRule,
}

impl<N: Names> fmt::Display for RuleLine<'_, N> {
    ghost use Rattle.std.specs.Prelude.{Some};
    ghost use Rattle.eh_frame.specs.Texts.{rule_line};

    ghost output = { λ l. Some (rule_line (N.section_names l.names.now l.placed.place.sec) l.placed) };

    fn fmt<W: fmt::Write>(&self, f: &mut fmt::Formatter<W>) -> fmt::Result {
        let PlacedRule { place, rule } = self.placed;
        let at = PlaceText {
            section: self.names.section_name(place.sec),
            off: place.off,
        };
        writeln!(f, "{at}: {rule}")
    }
}
