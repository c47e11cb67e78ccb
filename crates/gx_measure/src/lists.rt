//! Lists of values of solids.

ghost use Rattle.std.specs.Prelude.{◌≤◌, unsigned_abs};

use crate::hulls::square;
use crate::random::Random;
use gx_num::V3;
use gx_shapes::SolidKind;
use std::alloc::{AllocError, Global};

/// Values that make a solid of this kind; of the last two kinds one with so many vertices.
pub fn accepted(
    alloc: Global,
    random: &mut Random,
    kind: SolidKind,
    vertices: u8,
) -> Result<Vec<i64>, AllocError> {
    let (x, y, z) = (random.length(), random.length(), random.length());
    match kind {
        SolidKind::Cuboid => Vec::from_slice(alloc, &[x, y, z]),
        SolidKind::Trd => Vec::from_slice(alloc, &[x, y, y, x, z]),
        SolidKind::Tet => Vec::from_slice(alloc, &[0, 0, 0, x, 0, 0, -y, y, 0, x, -z, z]),
        SolidKind::Extruded => extruded(alloc, &polygon(alloc, vertices / 2)?, z),
        SolidKind::Tessellated => {
            tessellated(alloc, &facets(alloc, vertices.saturating_sub(2), z)?)
        }
    }
}

/// Values of a polygon with 16 corners, the last of which is a dent.
pub fn dented(alloc: Global, random: &mut Random) -> Result<Vec<i64>, AllocError> {
    let mut corners = polygon(alloc, 15)?;
    corners.push(V3 { x: 0, y: 15, z: 0 })?;
    extruded(alloc, &corners, random.length())
}

/// Values of 3276 facets, the first of which comes 3217 times.
pub fn repeated(alloc: Global, random: &mut Random) -> Result<Vec<i64>, AllocError> {
    let facets = facets(alloc, 30, random.length())?;
    let mut all = Vec::new(alloc);
    if let Some(first) = facets.first() {
        all.resize(3216, *first)?;
    }
    all.extend_from_slice(&facets)?;
    tessellated(alloc, &all)
}

// Values of the extrusion from -z to z, where it is twice as large.
fn extruded(alloc: Global, corners: &[V3], z: i64) -> Result<Vec<i64>, AllocError>
    requires { unsigned_abs z ≤ 601 }
{
    let mut values = Vec::from_slice(alloc, &[corners.len() as i64])?;
    for c in corners {
        values.extend_from_slice(&[c.x, c.y])?;
    }
    values.extend_from_slice(&[2, -z, 0, 0, 1, 1, z, z, -z, 2, 1])?;
    Ok(values)
}

fn tessellated(alloc: Global, facets: &[[V3; 3]]) -> Result<Vec<i64>, AllocError> {
    let mut values = Vec::from_slice(alloc, &[facets.len() as i64])?;
    for [a, b, c] in facets {
        values.extend_from_slice(&[3, a.x, a.y, a.z, b.x, b.y, b.z, c.x, c.y, c.z])?;
    }
    Ok(values)
}

// The facets of two pyramids on a polygon, whose apexes are z over and under a point inside it.
fn facets(alloc: Global, corners: u8, z: i64) -> Result<Vec<[V3; 3]>, AllocError>
    requires { unsigned_abs z ≤ 601 }
{
    let y = i64::from(corners);
    let (top, bottom) = (V3 { x: 0, y, z }, V3 { x: 0, y, z: -z });
    let corners = polygon(alloc, corners)?;
    let mut facets = Vec::new(alloc);
    let Some(&last) = corners.last() else {
        return Ok(facets);
    };
    let mut from = last;
    for &to in &corners {
        facets.push([top, from, to])?;
        facets.push([bottom, to, from])?;
        from = to;
    }
    Ok(facets)
}

// Corners of a convex polygon on the parabola y = x * x; with n corners, n at least 3, (0, n) is inside.
fn polygon(alloc: Global, count: u8) -> Result<Vec<V3>, AllocError> {
    let mut corners = Vec::new(alloc);
    for i in 0..count {
        let x = 2 * i64::from(i) - i64::from(count) + 1;
        corners.push(V3 {
            x,
            y: square(x),
            z: 0,
        })?;
    }
    Ok(corners)
}
