ghost use Rattle.std.specs.Prelude.{IsTrue, List, Bool};
ghost use Rattle.machine_defs.specs.Step.{Wrecks};
ghost use Rattle.machine_model.specs.Standing.{standing_of};
ghost use Rattle.program_model.specs.Program.{program_of};

use crate::choice::Wreck;
use crate::interrupts::misses_iret;
use crate::leaving::ends_run;
use crate::returns::misses_return;
use crate::standing::Standing;
use operation_defs::Op;
use program_model::{Program, may_go_back};

/// Whether it returns with a wrong stack, where no run ends.
fn may_return_wrongly(p: &Program, s: &Standing) -> bool
    ensures { (set : List Bool) → IsTrue result → Wrecks (program_of p.now set) (standing_of s.now) }
{
    may_go_back(p, p.role(s.point)) && !ends_run(p, s) && misses_return(&s.core)
}

/// Whether it runs off its section: code of no function does so only where the stack hasn't ended.
fn may_run_off(p: &Program, s: &Standing) -> bool
    ensures { (set : List Bool) → IsTrue result → Wrecks (program_of p.now set) (standing_of s.now) }
{
    p.marks(s.point).past_end && (p.owner(s.point).is_some() || s.ended.is_none())
}

/// Whether the stack may be wrecked in this way: it returns with a wrong stack, or goes where there is
/// nothing to go to.
pub fn may_wreck(p: &Program, s: &Standing, wreck: Wreck) -> bool
    ensures { (set : List Bool) → IsTrue result → Wrecks (program_of p.now set) (standing_of s.now) }
{
    let marks = p.marks(s.point);
    match (wreck, p.insn(s.point).op) {
        (Wreck::WrongReturn, _) => may_return_wrongly(p, s),
        (Wreck::WrongIret, Op::Iret) => s.ended.is_none() && misses_iret(&s.core),
        (Wreck::WrongIret, _) => false,
        (Wreck::DropsBytes, Op::RetImm) => true,
        (Wreck::DropsBytes, _) => false,
        (Wreck::BadTarget, _) => marks.bad,
        (Wreck::IntoSite, _) => marks.into_site,
        (Wreck::IntoFunction, _) => marks.into_function,
        (Wreck::PastEnd, _) => may_run_off(p, s),
    }
}
