//! A law of the definitions, as the contract of a function that does nothing.

ghost use Rattle.gx_convex.specs.Laws.{FacesAreTheSolid};

/// A solid's points are those of the faces of its vertices; what bounds its vertices bounds its points; and what is
/// inside it is strictly within the extent of its vertices.
pub fn faces_are_the_solid()
    ensures { FacesAreTheSolid }
{}
