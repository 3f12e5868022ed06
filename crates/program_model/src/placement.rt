//! Where a program's sections are placed in memory: one range for each.

ghost use Rattle.std.specs.Prelude.{◌≡◌, ◌+◌, IfSome, List, Bool};
ghost use Rattle.machine_defs.specs.Machine.{point_address, return_address};
ghost use Rattle.program_model.specs.Placement.{bases_of};
ghost use Rattle.program_model.specs.Program.{program_of};

use crate::program::Program;
use ot_base::Place;
use table_defs::Range;

/// The address at which a section begins, 0 where it has no range.
fn base_of(placement: &[Range], sec: u32) -> u64
    ensures { result ≡ bases_of placement.now sec }
{
    match placement {
        [] => 0,
        [range, others @ ..] => {
            if range.sec == sec {
                range.base
            } else {
                base_of(others, sec)
            }
        }
    }
}

/// The address of a place; none where its section isn't placed.
pub fn address_of(placement: &[Range], place: Place) -> Option<u64> {
    let range = placement.iter().find(|range| range.sec == place.sec)?;
    range.base.checked_add(place.off)
}

/// The address of a point, where it has 64 bits.
pub fn point_address(p: &Program, placement: &[Range], q: u32) -> Option<u64>
    ensures { (set : List Bool) → IfSome result (λ address. address ≡ point_address (program_of p.now set) (bases_of placement.now) q) }
{
    let place = p.address(q);
    base_of(placement, place.sec).checked_add(place.off)
}

/// A sum, where it has 64 bits.
fn sum(address: u64, len: u8) -> Option<u64>
    ensures { IfSome result (λ end. end ≡ address + len) }
{
    address.checked_add(u64::from(len))
}

/// The address right behind its instruction, to which a call returns, where it has 64 bits.
pub fn return_address(p: &Program, placement: &[Range], q: u32) -> Option<u64>
    ensures { (set : List Bool) → IfSome result (λ address. address ≡ return_address (program_of p.now set) (bases_of placement.now) q) }
{
    match point_address(p, placement, q) {
        None => None,
        Some(address) => sum(address, p.insn(q).len),
    }
}

/// Whether a placed section has a byte at the address.
pub fn is_inside(placement: &[Range], address: u64) -> bool {
    placement.iter().any(|range| {
        let end = u128::from(range.base) + u128::from(range.size);
        range.base <= address && u128::from(address) < end
    })
}
