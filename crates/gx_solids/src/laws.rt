//! A law of the definitions, as the contract of a function that does nothing.

ghost use Rattle.gx_shapes.specs.Laws.{FacesAreTheSolid};

/// For each kind, a point is in, or inside, the solid exactly where it is so by the faces of the vertices; what bounds
/// the vertices bounds each point in the solid; what is inside is strictly within the extent.
pub fn faces_are_the_solid()
    ensures { FacesAreTheSolid }
{}
