ghost use Rattle.std.specs.Prelude.{◌≡◌, ◌<ℤ◌, ◌++◌, pos, neg_ℤ, unsigned_abs, map, All, OnOk, IfOk};
ghost use Rattle.gx_num.specs.declared.vector.TheConstants.{M};
ghost use Rattle.gx_num.specs.Vector.{IsWithin};
ghost use Rattle.gx_shapes.specs.Space.{point as point_spec};
ghost use Rattle.gx_shapes.specs.Straight as straight;
ghost use Rattle.gx_shapes.specs.Extrusion as extrusion;
ghost use Rattle.gx_shapes.specs.Tessellation.{corners_of, tessellation_vertices};
ghost use Rattle.gx_shapes.specs.Solid.{vertices_of};
ghost use Rattle.gx_shapes.specs.Accepted.{IsFigure};

use crate::sections::corner;
use gx_num::V3;
use gx_shapes::{Facet, Figure, Section};
use std::alloc::{AllocError, Global};

/// The vertices, repeated ones too.
pub fn vertices(alloc: Global, figure: &Figure) -> Result<Vec<V3>, AllocError>
    requires { IsFigure figure.now }
    ensures { IfOk result (λ points. points.items ≡ vertices_of figure.now) }
{
    match figure {
        Figure::Cuboid(x, y, z) => frustum(alloc, *x, *x, *y, *y, *z),
        Figure::Trd(x1, x2, y1, y2, z) => frustum(alloc, *x1, *x2, *y1, *y2, *z),
        Figure::Tet(a, b, c, d) => Vec::from_slice(alloc, &[*a, *b, *c, *d]),
        Figure::Extruded(polygon, low, high) => extruded(alloc, polygon.as_slice(), *low, *high),
        Figure::Tessellated(facets) => tessellated(alloc, facets.as_slice()),
    }
}

// The corners at -z, and then those at z.
fn frustum(alloc: Global, x1: i64, x2: i64, y1: i64, y2: i64, z: i64) -> Result<Vec<V3>, AllocError>
    requires first { IsWithin (unsigned_abs M) (point_spec x1 y1 (neg_ℤ z)) }
    requires second { IsWithin (unsigned_abs M) (point_spec x2 y2 z) }
    ensures { IfOk result (λ points. points.items ≡ straight.frustum x1 x2 y1 y2 z) }
{
    Vec::from_slice(
        alloc,
        &[
            point(-x1, -y1, -z),
            point(x1, -y1, -z),
            point(-x1, y1, -z),
            point(x1, y1, -z),
            point(-x2, -y2, z),
            point(x2, -y2, z),
            point(-x2, y2, z),
            point(x2, y2, z),
        ],
    )
}

fn point(x: i64, y: i64, z: i64) -> V3
    ensures { result ≡ point_spec x y z }
{
    V3 { x, y, z }
}

// The corners in the lower section, and then those in the upper one.
fn extruded(
    alloc: Global,
    corners: &[V3],
    low: Section,
    high: Section,
) -> Result<Vec<V3>, AllocError>
    requires low { pos 0 <ℤ low.scale.den }
    requires high { pos 0 <ℤ high.scale.den }
    requires within { All (IsWithin (unsigned_abs M)) (extrusion.extrusion_vertices low high corners.now) }
    ensures { IfOk result (λ points. points.items ≡ extrusion.extrusion_vertices low high corners.now) }
{
    let mut points = Vec::new(alloc);
    push_section(&mut points, corners, low)?;
    push_section(&mut points, corners, high)?;
    Ok(points)
}

fn push_section(points: &mut Vec<V3>, corners: &[V3], section: Section) -> Result<(), AllocError>
    requires positive { pos 0 <ℤ section.scale.den }
    requires within { All (IsWithin (unsigned_abs M)) (map (extrusion.corner section) corners.now) }
    ensures { OnOk result (points.new.items ≡ points.old.items ++ map (extrusion.corner section) corners.now) }
{
    for c in corners {
        points.push(corner(section, *c))?;
    }
    Ok(())
}

// The corners of each facet.
fn tessellated(alloc: Global, facets: &[Facet]) -> Result<Vec<V3>, AllocError>
    ensures { IfOk result (λ points. points.items ≡ tessellation_vertices facets.now) }
{
    let mut points = Vec::new(alloc);
    for facet in facets {
        push_facet(&mut points, *facet)?;
    }
    Ok(points)
}

fn push_facet(points: &mut Vec<V3>, facet: Facet) -> Result<(), AllocError>
    ensures { OnOk result (points.new.items ≡ points.old.items ++ corners_of facet) }
{
    points.push(facet.a)?;
    points.push(facet.b)?;
    points.push(facet.c)?;
    if let Some(d) = facet.d {
        points.push(d)?;
    }
    Ok(())
}
