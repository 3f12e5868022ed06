//! The texts of places and points.

ghost use Rattle.std.specs.Prelude.{◌≡◌, ◌++◌, ◌<◌, OnErr, OnOk, length};
ghost use Rattle.elf_objects.specs.Contents.{section_at, symbol_at};
ghost use Rattle.machine_defs.specs.Program.{Program};
ghost use Rattle.program_graph.specs.Tells.{Tells};
ghost use Rattle.code_listing.specs.Points.{point_text, variant_words};

use elf_objects::Object;
use ot_base::{Escaped, Names, NoMemory, Place, PlaceText};
use program_graph::Graph;
use std::fmt;

/// A place, with its section's name.
pub(crate) fn place_text<'o>(object: &'o Object<'_>, place: Place) -> PlaceText<'o>
    ensures section { result.section.now ≡ (section_at object.now place.sec).name }
    ensures off { result.off ≡ place.off }
{
    PlaceText {
        section: object.section_name(place.sec),
        off: place.off,
    }
}

/// The name of a symbol.
pub(crate) fn symbol_text<'o>(object: &'o Object<'_>, sym: u32) -> Escaped<'o>
    ensures { result.0.now ≡ (symbol_at object.now sym).name }
{
    Escaped(object.symbol_name(sym))
}

/// Which replacement a point is of, where it is of one.
#[derive(Clone, Copy)]
pub(crate) struct VariantWords(pub(crate) u32);

impl fmt::Display for VariantWords {
    ghost use Rattle.std.specs.Prelude.{Some};

    ghost output = { λ v. Some (variant_words v.0) };

    fn fmt<W: fmt::Write>(&self, f: &mut fmt::Formatter<W>) -> fmt::Result {
        match self.0 {
            0 => Ok(()),
            variant => write!(f, " variant {variant}"),
        }
    }
}

/// A point: where its bytes stand, and which replacement it is of.
#[derive(Clone, Copy)]
pub(crate) struct PointText<'a> {
    pub(crate) place: PlaceText<'a>,
    pub(crate) variant: VariantWords,
}

impl fmt::Display for PointText<'_> {
    ghost use Rattle.std.specs.Prelude.{Some};
    ghost use Rattle.ot_base.specs.PlaceText.{place_text};

    ghost output = { λ p. Some (place_text p.place.section.now p.place.off ++ variant_words p.variant.0) };

    fn fmt<W: fmt::Write>(&self, f: &mut fmt::Formatter<W>) -> fmt::Result {
        let PointText { place, variant } = *self;
        write!(f, "{place}{variant}")
    }
}

/// A point of a graph.
pub(crate) fn point_of<'o>(object: &'o Object<'_>, graph: &Graph, n: u32) -> PointText<'o>
    requires { n < length graph.now.parts.points.items }
    ensures section { (p : Program) → Tells p graph.now.parts → result.place.section.now ≡ (section_at object.now (p.place n).sec).name }
    ensures off { (p : Program) → Tells p graph.now.parts → result.place.off ≡ (p.place n).off }
    ensures variant { (p : Program) → Tells p graph.now.parts → result.variant.0 ≡ p.variant n }
{
    PointText {
        place: place_text(object, graph.place(n)),
        variant: VariantWords(graph.variant(n)),
    }
}

/// Appends a point: the place where its bytes stand, and ` variant K` where it is one of the K-th replacement.
///
/// # Errors
///
/// [`NoMemory`] where memory was wanted and not there; then nothing is appended.
#[tactic(auto, unfolding(crate::specs::Points::point_text))]
pub fn push_point(
    object: &Object<'_>,
    graph: &Graph,
    n: u32,
    into: &mut Vec<u8>,
) -> Result<(), NoMemory>
    requires { n < length graph.now.parts.points.items }
    ensures ok { (p : Program) → Tells p graph.now.parts → OnOk result (into.new.items ≡ into.old.items ++ point_text object.now p n) }
    ensures err { OnErr result (into.new.items ≡ into.old.items) }
{
    let alloc = *into.allocator();
    let point = point_of(object, graph, n);
    let text = format!(in alloc; "{point}")?;
    into.extend_from_slice(text.as_bytes())?;
    Ok(())
}
