ghost use Rattle.std.specs.Prelude.{◌≡◌, ◌++◌, Some, OnOk, OnErr};
ghost use Rattle.ot_base.specs.WarningText.{fixed_text, warning_line};

use crate::memory::NoMemory;
use crate::names::Names;
use crate::rules;
use crate::text::places::{Escaped, PlaceText};
use crate::warning::Warning;
use std::fmt;

fn fixed_text(rule: u8) -> &'static str
    ensures { result.now ≡ fixed_text rule }
{
    match rule {
        rules::BAD_BRANCH_TARGET => "bad branch target",
        rules::FALLS_THROUGH => "falls into another function",
        rules::RUNS_OFF_SECTION => "runs off the section",
        rules::UNSUPPORTED_SP_WRITE => "unsupported write of rsp",
        rules::BP_NOT_SAVED => "rbp written before it is saved",
        rules::STACK_POINTER_LOST => "stack pointer lost",
        rules::SAVED_SLOT_DROPPED => "saved slot dropped",
        rules::JUMP_INTO_SITE => "jump into an alternative site",
        rules::UNREACHABLE_INSTRUCTION => "unreachable instruction",
        rules::EXIT_NOT_ALLOWED => "return or context switch not allowed here",
        rules::CALL_INTO_FUNCTION => "call into the middle of a function",
        rules::FUNCTION_WITHOUT_SIZE => "function without size",
        rules::RESTORE_WITHOUT_SAVE => "restore without save",
        rules::RELOCATED_STACK_OFFSET => "relocated stack offset",
        rules::CALL_WITHOUT_FRAME => "call without frame",
        rules::INDIRECT_BRANCH => "indirect branch",
        rules::NAKED_RETURN => "naked return",
        rules::RETURN_WITH_ACCESS => "return with user access on",
        rules::RETURN_WITHOUT_ACCESS => "return with user access off",
        rules::ACCESS_ON_TWICE => "user access turned on twice",
        rules::ACCESS_OFF_TWICE => "user access turned off twice",
        rules::SAFE_FUNCTION_ACCESS_OFF => "safe function turns user access off",
        rules::POPF_WITH_ACCESS_TRACKED => "popf where user access is tracked",
        rules::RETURN_WITHOUT_INT3 => "missing int3 after return",
        rules::JUMP_WITHOUT_INT3 => "missing int3 after indirect jump",
        rules::TAKEN_WITHOUT_ENDBR => "address taken without endbr",
        _ => "",
    }
}

/// What a rule says of its numbers, under the names of symbols.
#[derive(Drop)]
struct RuleText<'a, N> {
    names: &'a N,
    rule: u8,
    a: i64,
    b: i64,
}

impl<N: Names> fmt::Display for RuleText<'_, N> {
    ghost use Rattle.ot_base.specs.WarningText.{rule_text};

    ghost output = { λ t. Some (rule_text (N.symbol_names t.names.now) t.rule t.a t.b) };

    #[tactic(auto, unfolding(crate::specs::WarningText::rule_text))]
    fn fmt<W: fmt::Write>(&self, f: &mut fmt::Formatter<W>) -> fmt::Result {
        let a = self.a;
        match self.rule {
            rules::STATE_MISMATCH => write!(f, "stack state mismatch: kept {a}, found {}", self.b),
            rules::MODIFIED_RETURN => write!(f, "return with modified stack: depth {a}"),
            rules::MODIFIED_SIBLING_CALL => write!(
                f,
                "sibling call with modified stack: depth {a}"
            ),
            rules::OFFSET_OUT_OF_RANGE => write!(f, "offset out of range: {a}"),
            rules::ALTERNATIVES_DISAGREE => write!(f, "alternatives disagree at offset {a}"),
            rules::CALL_WITH_ACCESS => {
                let callee = Callee {
                    names: self.names,
                    number: a,
                };
                write!(f, "call to {callee} with user access on")
            }
            rules::CALL_LEAVES_NOINSTR => {
                let callee = Callee {
                    names: self.names,
                    number: a,
                };
                write!(f, "call to {callee} leaves noinstr code")
            }
            rule => f.write_str(fixed_text(rule)),
        }
    }
}

/// What is called: a symbol by its number, or -1 for an indirect target.
#[derive(Drop)]
struct Callee<'a, N> {
    names: &'a N,
    number: i64,
}

impl<N: Names> fmt::Display for Callee<'_, N> {
    ghost use Rattle.ot_base.specs.WarningText.{callee_text};

    ghost output = { λ c. Some (callee_text (N.symbol_names c.names.now) c.number) };

    fn fmt<W: fmt::Write>(&self, f: &mut fmt::Formatter<W>) -> fmt::Result {
        match u32::try_from(self.number) {
            Ok(symbol) => write!(f, "{}", Escaped(self.names.symbol_name(symbol))),
            Err(_) if self.number == -1 => write!(f, "indirect target"),
            Err(_) => Ok(()),
        }
    }
}

/// A broken rule and what it says: `rule N: TEXT`.
#[derive(Drop)]
struct WarningWords<'a, N> {
    names: &'a N,
    warning: Warning,
}

impl<N: Names> fmt::Display for WarningWords<'_, N> {
    ghost use Rattle.ot_base.specs.WarningText.{warning_words};

    ghost output = { λ t. Some (warning_words (N.symbol_names t.names.now) t.warning) };

    #[tactic(auto, unfolding(crate::specs::WarningText::warning_words))]
    fn fmt<W: fmt::Write>(&self, f: &mut fmt::Formatter<W>) -> fmt::Result {
        let rule = self.warning.rule;
        let said = RuleText {
            names: self.names,
            rule,
            a: self.warning.a,
            b: self.warning.b,
        };
        write!(f, "rule {rule}: {said}")
    }
}

/// The line of a warning: its place, its rule, and what the rule says.
#[derive(Drop)]
pub struct WarningLine<'a, N> {
    /// Where the names of sections and symbols are.
    pub names: &'a N,
    /// The warning.
    pub warning: Warning,
}

impl<N: Names> fmt::Display for WarningLine<'_, N> {
    ghost use Rattle.ot_base.specs.WarningText.{warning_line};

    ghost output = { λ l. Some (warning_line (N.section_names l.names.now) (N.symbol_names l.names.now) l.warning) };

    #[tactic(auto, unfolding(crate::specs::WarningText::warning_line))]
    fn fmt<W: fmt::Write>(&self, f: &mut fmt::Formatter<W>) -> fmt::Result {
        let place = self.warning.place;
        let at = PlaceText {
            section: self.names.section_name(place.sec),
            off: place.off,
        };
        let said = WarningWords {
            names: self.names,
            warning: self.warning,
        };
        writeln!(f, "{at}: {said}")
    }
}

/// Appends the line of a warning.
pub fn warning_text<N: Names>(
    names: &N,
    warning: &Warning,
    into: &mut Vec<u8>,
) -> Result<(), NoMemory>
    ensures ok { OnOk result (into.new.items ≡ into.old.items
        ++ warning_line (N.section_names names.now) (N.symbol_names names.now) warning.now) }
    ensures err { OnErr result (into.new.items ≡ into.old.items) }
{
    let alloc = *into.allocator();
    let line = WarningLine {
        names,
        warning: *warning,
    };
    let text = format!(in alloc; "{line}")?;
    into.extend_from_slice(text.as_bytes())?;
    Ok(())
}
