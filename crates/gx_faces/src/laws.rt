//! A law of the definitions, as the contract of a function that does nothing.

ghost use Rattle.gx_faces.specs.Closed.{ClosedFacesAreAll};

/// Faces that hang together by their edges, with no edge open, are all faces.
pub fn closed_faces_are_all()
    ensures { ClosedFacesAreAll }
{}
