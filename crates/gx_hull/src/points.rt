ghost use Rattle.std.specs.Prelude.{◌≡◌, ◌≤◌, length, All, IfOk, IfErr};
ghost use Rattle.std.specs.Int.{int_min, int_max};
ghost use Rattle.std.specs.List.{list_any};
ghost use Rattle.gx_num.specs.Vector.{IsWithin};
ghost use Rattle.gx_plane.specs.Plane.{reach};
ghost use Rattle.gx_convex.specs.Points.{distinct as distinct_of};
ghost use Rattle.gx_num.specs.Vector.{is_same as is_same_point};
ghost use Rattle.gx_convex.specs.Extent.{lower as lower_of, upper as upper_of, extent_of};
ghost use Rattle.gx_hull.specs.Hull.{hull_of, IsHullCause};

use crate::HullFault;
use gx_num::{Extent, V3};
use std::alloc::Global;

const MAX_VERTICES: usize = 32;

/// Each point once, at its first place; `Vertices` where there are more than 32.
pub fn distinct(alloc: Global, points: &[V3]) -> Result<Vec<V3>, HullFault>
    requires { All (IsWithin reach) points.now }
    ensures ok { IfOk result (λ kept. kept.items ≡ distinct_of points.now) }
    ensures within { IfOk result (λ kept. All (IsWithin reach) kept.items) }
    ensures few { IfOk result (λ kept. length kept.items ≤ 32) }
    ensures err { IfErr result (IsHullCause (hull_of points.now)) }
{
    let mut kept = Vec::new(alloc);
    for &p in points {
        if !is_among(p, &kept) {
            if kept.len() == MAX_VERTICES {
                return Err(HullFault::Vertices);
            }
            kept.push(p)?;
        }
    }
    Ok(kept)
}

fn is_among(p: V3, points: &[V3]) -> bool
    ensures { result ≡ list_any (is_same_point p) points.now }
{
    points.iter().any(|&q| p == q)
}

/// The least and the greatest coordinates of points; of none it is the origin.
pub fn extent(points: &[V3]) -> Extent
    ensures { result ≡ extent_of points.now }
{
    let Some((&first, rest)) = points.split_first() else {
        let origin = V3 { x: 0, y: 0, z: 0 };
        return Extent {
            low: origin,
            high: origin,
        };
    };
    Extent {
        low: rest.iter().fold(first, |low, &p| lower(low, p)),
        high: rest.iter().fold(first, |high, &p| upper(high, p)),
    }
}

fn lower(a: V3, b: V3) -> V3
    ensures { result ≡ lower_of a b }
{
    V3 {
        x: least(a.x, b.x),
        y: least(a.y, b.y),
        z: least(a.z, b.z),
    }
}

fn upper(a: V3, b: V3) -> V3
    ensures { result ≡ upper_of a b }
{
    V3 {
        x: greatest(a.x, b.x),
        y: greatest(a.y, b.y),
        z: greatest(a.z, b.z),
    }
}

fn least(a: i64, b: i64) -> i64
    ensures { result ≡ int_min a b }
{
    a.min(b)
}

fn greatest(a: i64, b: i64) -> i64
    ensures { result ≡ int_max a b }
{
    a.max(b)
}
