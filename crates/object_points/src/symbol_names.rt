//! What the names of symbols say.

ghost use Rattle.std.specs.Prelude.{◌≡◌, ◌<◌, ℕ, length};
ghost use Rattle.machine_defs.specs.declared.flow.Role.TheVariants.{CallIn};
ghost use Rattle.flow_defs.specs.Code.{points_of_object};
ghost use Rattle.flow_defs.specs.Program.{calls_fentry_by, is_fentry as is_fentry_symbol, is_fentry_function as is_fentry_function_of, never_returns_by};
ghost use Rattle.symbols_relocs.specs.Functions.{starts_at};

use crate::PointPlaces;
use elf_objects::Object;
use machine_defs::Role;
use ot_base::{Lists, Names, Place};

/// Whether the name of a symbol is listed as one that never returns.
pub fn never_returns(object: &Object<'_>, lists: &Lists, sym: u32) -> bool
    ensures { result ≡ never_returns_by object.now lists.now sym }
{
    lists.never_returns(object.symbol_name(sym))
}

/// Whether the name of a symbol is `__fentry__`.
fn is_fentry(object: &Object<'_>, sym: u32) -> bool
    ensures { result ≡ is_fentry_symbol object.now sym }
{
    object.symbol_name(sym) == b"__fentry__".as_slice()
}

/// Whether the name of the function that starts at a place is `__fentry__`.
fn starts_fentry(places: &PointPlaces<'_, '_, '_>, place: Place) -> bool
    ensures { result ≡ is_fentry_function_of places.now (starts_at places.now.elf place) }
{
    let index = places.linked().index();
    match index.starts_at(place) {
        Some(function) => is_fentry(index.object(), index.functions()[function as usize].sym),
        None => false,
    }
}

/// Whether a point with this role calls `__fentry__`, be it outside or a function of the object.
pub fn calls_fentry(places: &PointPlaces<'_, '_, '_>, role: Role) -> bool
    requires { (entry : ℕ) → role ≡ CallIn entry → entry < length (points_of_object places.now) }
    ensures { result ≡ calls_fentry_by places.now role }
{
    match role {
        Role::CallOut { sym } | Role::CallEither { sym, .. } => {
            is_fentry(places.linked().object(), sym)
        }
        Role::CallIn { entry } => starts_fentry(places, places.point(entry).place),
        _ => false,
    }
}
