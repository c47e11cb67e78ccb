//! A law of the definitions, as the contract of a function that does nothing.

ghost use Rattle.gx_place.specs.Laws.{PlacedSolids};

/// The faces of placed vertices are the placed faces, and they are the placed solid.
pub fn placed_solids()
    ensures { PlacedSolids }
{}
