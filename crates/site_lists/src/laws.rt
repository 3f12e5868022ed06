//! What holds of the site lists of every object.

ghost use Rattle.site_lists.specs.Laws.{BodiesAreHeld, OneChoiceFits};

/// At most one choice of lists fits an object's sections.
pub fn lists_are_determined()
    ensures { OneChoiceFits }
{}

/// The bodies that `encode` gives make a section that holds these places.
pub fn bodies_are_held()
    ensures { BodiesAreHeld }
{}
