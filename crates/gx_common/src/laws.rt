//! Laws of the definitions, as the contracts of functions that do nothing.

ghost use Rattle.gx_common.specs.Laws.{Alternatives, SolidsApart, PointsShow};

/// Either a candidate plane is between two lists of vertices that aren't coplanar, or for each face of either a candidate
/// point is strictly inside it; the latter exactly where some point is strictly inside all faces of both.
pub fn alternatives()
    ensures { Alternatives }
{}

/// The insides of two solids meet exactly where no candidate is between their vertices; one that is, is between all their points.
pub fn solids_apart()
    ensures { SolidsApart }
{}

/// The common points of two solids show that their insides meet: each is in both, each face of either has one of them strictly
/// inside it, and their mean is inside both.
pub fn points_show()
    ensures { PointsShow }
{}
