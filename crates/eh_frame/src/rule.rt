//! Rules by which the frame of a place is found.

use ot_base::Place;

/// The register from which the canonical frame address is counted.
#[derive(Clone, Copy, PartialEq, Eq)]
pub enum CfaReg {
    /// rsp, DWARF's register 7.
    Rsp,
    /// rbp, DWARF's register 6.
    Rbp,
}

/// How the caller's frame is found at a place.
#[derive(Clone, Copy, PartialEq, Eq)]
pub enum CfaRule {
    /// The return address isn't known: there is no caller's frame to find.
    Undefined,
    /// The canonical frame address is a register and an offset, and the return address lies in the word right below it.
    Cfa {
        /// The register.
        reg: CfaReg,
        /// Bytes that are added to it.
        off: i64,
        /// Where the caller's rbp is: in the word at the canonical frame address and so many bytes, or still in rbp.
        bp: Option<i64>,
    },
}

/// A rule and the place from which on it holds.
#[derive(Clone, Copy, PartialEq, Eq)]
pub struct PlacedRule {
    /// The first place that has the rule.
    pub place: Place,
    /// The rule.
    pub rule: CfaRule,
}
