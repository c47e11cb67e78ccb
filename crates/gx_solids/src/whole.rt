//! The faults of a whole figure.

ghost use Rattle.std.specs.Prelude.{◌≡◌, ◌∷◌, [], not, All};
ghost use Rattle.gx_num.specs.Vector.{IsWithin};
ghost use Rattle.gx_plane.specs.Plane.{reach};
ghost use Rattle.gx_convex.specs.Points.{distinct};
ghost use Rattle.gx_polygon.specs.Polygon as polygon;
ghost use Rattle.gx_shapes.specs.Solid.{first_true, vertices_of};
ghost use Rattle.gx_shapes.specs.Accepted.{IsFigure};
ghost use Rattle.gx_solids.specs.Whole as spec;

use gx_facets::facets_fault;
use gx_hull::Hull;
use gx_num::V3;
use gx_polygon::{is_convex, is_straight};
use gx_shapes::Figure;
use gx_table::FaultName;

/// The fault of an extrusion's polygon.
pub fn polygon_fault(figure: &Figure) -> Option<FaultName>
    requires { IsFigure figure.now }
    ensures { result ≡ spec.polygon_fault figure.now }
{
    match figure {
        Figure::Extruded(polygon, ..) => corners_fault(polygon.as_slice()),
        _ => None,
    }
}

fn corners_fault(corners: &[V3]) -> Option<FaultName>
    requires { All (IsWithin reach) corners.now }
    ensures { result ≡ first_true ((polygon.is_straight corners.now, FaultName.Flat) ∷ (not (polygon.is_convex corners.now), FaultName.NotConvex) ∷ []) }
{
    if is_straight(corners) {
        return Some(FaultName::Flat);
    }
    if !is_convex(corners) {
        return Some(FaultName::NotConvex);
    }
    None
}

/// The fault of a tessellation's facets, whose vertices have this hull.
pub fn facet_fault(figure: &Figure, hull: &Hull) -> Option<FaultName>
    requires values { IsFigure figure.now }
    requires hull { hull.now ≡ distinct (vertices_of figure.now) }
    ensures { result ≡ spec.facet_fault figure.now }
{
    match figure {
        Figure::Tessellated(facets) => facets_fault(facets.as_slice(), hull),
        _ => None,
    }
}
