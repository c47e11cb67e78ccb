ghost use Rattle.std.specs.Prelude.{◌≡◌, unsigned_abs, All};
ghost use Rattle.std.specs.List.{list_all};
ghost use Rattle.gx_num.specs.declared.vector.TheConstants.{M};
ghost use Rattle.gx_num.specs.Vector.{IsWithin};
ghost use Rattle.gx_plane.specs.Plane.{reach};
ghost use Rattle.gx_convex.specs.Points.{distinct};
ghost use Rattle.gx_shapes.specs.Tessellation.{tessellation_vertices, is_planar as is_planar_facet, is_outer as is_outer_facet, is_covered as is_covered_by};
ghost use Rattle.gx_shapes.specs.Solid.{first_true, facet_faults};
ghost use Rattle.gx_facets.specs.Facets.{EachCorner};

use crate::edges::are_joined;
use crate::facet::{covers, is_outer, is_planar};
use gx_hull::Hull;
use gx_num::V3;
use gx_plane::Plane;
use gx_shapes::Facet;
use gx_table::FaultName;

/// The first fault of facets whose corners have this hull: `NotPlanar`, `NotConvex`, `MissingFace` or `OpenEdge`.
pub fn facets_fault(facets: &[Facet], hull: &Hull) -> Option<FaultName>
    requires within { All (IsWithin (unsigned_abs M)) (tessellation_vertices facets.now) }
    requires hull { hull.now ≡ distinct (tessellation_vertices facets.now) }
    ensures { result ≡ first_true (facet_faults facets.now hull.now) }
{
    if !are_planar(facets) {
        return Some(FaultName::NotPlanar);
    }
    if !are_outer(facets, hull.vertices()) {
        return Some(FaultName::NotConvex);
    }
    if !are_covered(facets, hull.faces()) {
        return Some(FaultName::MissingFace);
    }
    if !are_joined(facets, hull.vertices()) {
        return Some(FaultName::OpenEdge);
    }
    None
}

fn are_planar(facets: &[Facet]) -> bool
    requires { All (EachCorner (IsWithin reach)) facets.now }
    ensures { result ≡ list_all is_planar_facet facets.now }
{
    facets.iter().all(is_planar)
}

fn are_outer(facets: &[Facet], points: &[V3]) -> bool
    requires facets { All (EachCorner (IsWithin reach)) facets.now }
    requires points { All (IsWithin reach) points.now }
    ensures { result ≡ list_all (is_outer_facet points.now) facets.now }
{
    facets.iter().all(|facet| is_outer(facet, points))
}

fn are_covered(facets: &[Facet], faces: &[Plane]) -> bool
    requires { All (EachCorner (IsWithin reach)) facets.now }
    ensures { result ≡ list_all (is_covered_by facets.now) faces.now }
{
    faces.iter().all(|face| is_covered(facets, face))
}

// The face is in some facet's plane.
fn is_covered(facets: &[Facet], face: &Plane) -> bool
    requires { All (EachCorner (IsWithin reach)) facets.now }
    ensures { result ≡ is_covered_by facets.now face.now }
{
    facets.iter().any(|facet| covers(face, facet))
}
