//! A law of the definitions, as the contract of a function that does nothing.

ghost use Rattle.gx_contain.specs.Laws.{Containment};

/// No vertex of a solid is outside another exactly where each point in the one is in the other.
pub fn containment()
    ensures { Containment }
{}
