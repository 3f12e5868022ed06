ghost use Rattle.std.specs.Prelude.{◌≡◌, ◌↔◌, ◌<◌, ◌++◌, ℕ, IsTrue};
ghost use Rattle.x86_map.specs.OpcodeMap.{
  base_forms,
  added_forms,
  look_forms,
  look,
  stands,
  stands_in,
  stands_added,
  AcceptsSome,
};
ghost use Rattle.x86_map.specs.Apart.{FormsAreApart};

use crate::extension::{extension_rows, look_ranges};
use crate::form::Form;
use crate::map::Map;
use crate::one_byte::one_byte;
use crate::prefixes::Prefixes;
use crate::shape::Look;
use crate::three_byte::three_byte;
use crate::two_byte::two_byte;

fn base_forms(number: u8, opcode: u8) -> &'static [Form]
    ensures { result.now ≡ base_forms number opcode }
{
    match number {
        1 => one_byte(opcode),
        2 => two_byte(opcode),
        3 => three_byte(opcode),
        _ => &[],
    }
}

#[inline(always)]
fn look_among(forms: &[Form], p: &Prefixes, modrm: Option<u8>) -> Look
    ensures { result ≡ look_forms forms.now p.now modrm }
{
    for form in forms {
        match form.look(p, modrm) {
            Look::Refused => {}
            found => return found,
        }
    }
    Look::Refused
}

#[tactic(auto, unfolding(crate::specs::OpcodeMap::added_forms))]
#[inline(never)]
fn look_added(p: &Prefixes, number: u8, opcode: u8, modrm: Option<u8>) -> Look
    ensures { result ≡ look_forms (added_forms p.now.map number opcode) p.now modrm }
{
    match p.map {
        Map::Base => Look::Refused,
        Map::Whole => look_ranges(extension_rows(number), opcode, p, modrm),
    }
}

#[tactic(auto, using(crate::proofs::Looks::look_append))]
#[inline(always)]
fn look_forms(p: &Prefixes, number: u8, opcode: u8, modrm: Option<u8>) -> Look
    ensures { result ≡ look_forms (base_forms number opcode ++ added_forms p.now.map number opcode) p.now modrm }
{
    match look_among(base_forms(number, opcode), p, modrm) {
        Look::Refused => look_added(p, number, opcode, modrm),
        found => found,
    }
}

/// What the opcode map says of the prefixes and an opcode, and of a ModRM byte where one is given. `number` is 1 for the
/// one-byte opcodes, 2 for those behind 0F, 3 for those behind 0F 38, 4 for those behind 0F 3A, 5 to 7 for the maps 1 to 3 of VEX, and 8
/// to 12 for the maps 1, 2, 3, 5 and 6 of EVEX.
#[tactic(auto, unfolding(crate::specs::OpcodeMap::look))]
#[inline(always)]
pub fn lookup(p: &Prefixes, number: u8, opcode: u8, modrm: Option<u8>) -> Look
    ensures { result ≡ look p.now number opcode modrm }
{
    if !p.lead_to(number) {
        return Look::Refused;
    }
    look_forms(p, number, opcode, modrm)
}

fn stands_added(p: &Prefixes, number: u8) -> bool
    ensures { result ≡ stands_added p.now.map p.now number }
{
    match p.map {
        Map::Base => false,
        Map::Whole => match number {
            4 => !p.under_f2() && !p.under_f3(),
            7 => p.under_66() || p.under_f2(),
            _ => true,
        },
    }
}

fn stands_in(p: &Prefixes, number: u8) -> bool
    ensures { result ≡ stands_in p.now number }
{
    match number {
        1 => true,
        2 => !(p.under_f2() && p.under_66()),
        3 => !p.under_f3() || !(p.under_66() || p.under_f2()),
        _ => stands_added(p, number),
    }
}

fn stands(p: &Prefixes, number: u8) -> bool
    ensures { result ≡ stands p.now number }
{
    p.lead_to(number) && stands_in(p, number)
}

/// Whether some opcode of the map stands with the prefixes. None may: behind 0F with 66 and F2, behind 0F 38 with F3 and
/// one of them, behind 0F 3A with F2 or F3, and in map 3 of VEX with a pp other than those of 66 and F2.
pub fn accepts_some(p: Prefixes, number: u8) -> bool
    requires first { 0 < number }
    requires last { number < 13 }
    ensures some { IsTrue result ↔ AcceptsSome p number }
    ensures test { result ≡ stands p number }
{
    stands(&p, number)
}

/// The rows of the map are a set: no two forms of an opcode fit the same prefixes and the same ModRM byte, or none, so
/// their order says nothing.
pub fn forms_are_apart()
    ensures { FormsAreApart }
{}
