//! What holds of the ORC sections of every object.

ghost use Rattle.orc_bytes.specs.Laws.{BodiesAreHeld, OneListFits, RelocsReadBack};

/// At most one list of rows fits an object's ORC sections.
pub fn rows_are_determined()
    ensures { OneListFits }
{}

/// Relocations that were written are read again.
pub fn relocs_read_back()
    ensures { RelocsReadBack }
{}

/// The bodies that `encode` gives make ORC sections of these rows.
pub fn bodies_are_held()
    ensures { BodiesAreHeld }
{}
