//! Hulls of points, and the planes between them. The points lie on a paraboloid, so that each is a vertex.

ghost use Rattle.std.specs.Prelude.{◌≤◌, unsigned_abs, All, IfOk};
ghost use Rattle.gx_num.specs.declared.vector.TheConstants.{M};
ghost use Rattle.gx_num.specs.Vector.{IsWithin};

use crate::random::Random;
use gx_hull::Hull;
use gx_num::V3;
use gx_plane::first_triple_between;
use std::alloc::{AllocError, Global};

/// The faces of so many hulls.
pub fn faces(alloc: Global, random: &mut Random, count: u64, vertices: u8) -> Option<u64> {
    let mut faces = 0u64;
    for _ in 0..count {
        let hull = hull(alloc, random, vertices)?;
        faces = faces.saturating_add(hull.faces().len() as u64);
    }
    Some(faces)
}

/// How many pairs of so many hulls have a plane between them.
pub fn planes(alloc: Global, random: &mut Random, count: u64, vertices: u8) -> Option<u64> {
    let mut hulls = Vec::new(alloc);
    for _ in 0..count {
        hulls.push(hull(alloc, random, vertices)?).ok()?;
    }
    let mut planes = 0u64;
    for (i, a) in hulls.iter().enumerate() {
        for b in &hulls[i + 1..] {
            if first_triple_between(a.vertices(), b.vertices()).is_some() {
                planes = planes.saturating_add(1);
            }
        }
    }
    Some(planes)
}

fn hull(alloc: Global, random: &mut Random, vertices: u8) -> Option<Hull> {
    Hull::new(alloc, points(alloc, random, vertices).ok()?).ok()
}

// Points on a paraboloid that stands somewhere.
fn points(alloc: Global, random: &mut Random, count: u8) -> Result<Vec<V3>, AllocError>
    ensures { IfOk result (λ points. All (IsWithin (unsigned_abs M)) points.items) }
{
    let foot = V3 {
        x: random.number(),
        y: random.number(),
        z: random.number(),
    };
    let mut points = Vec::new(alloc);
    for _ in 0..count {
        points.push(point(foot, random.number(), random.number()))?;
    }
    Ok(points)
}

fn point(foot: V3, x: i64, y: i64) -> V3
    requires foot { IsWithin 300 foot }
    requires x { unsigned_abs x ≤ 300 }
    requires y { unsigned_abs y ≤ 300 }
    ensures { IsWithin (unsigned_abs M) result }
{
    V3 {
        x: foot.x + x,
        y: foot.y + y,
        z: foot.z + square(x) + square(y),
    }
}

pub fn square(x: i64) -> i64
    requires { unsigned_abs x ≤ 600 }
    ensures { unsigned_abs result ≤ 360000 }
{
    x * x
}
