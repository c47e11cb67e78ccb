ghost use Rattle.std.specs.Prelude.{◌≡◌, true, All, Contains, IfSome};
ghost use Rattle.gx_num.specs.Vector.{IsWithin};
ghost use Rattle.gx_plane.specs.Plane.{reach};
ghost use Rattle.gx_convex.specs.Faces.{faces_of};
ghost use Rattle.gx_faces.specs.Steps.{joins};

use crate::edge::joins;
use crate::turn::{along, normal};
use gx_num::V3;
use gx_plane::Plane;

/// A face to begin with, if it is found: through the point with the least coordinates, and two next to it.
pub fn first_face(points: &[V3]) -> Option<Plane>
    requires within { All (IsWithin reach) points.now }
    ensures { IfSome result (Contains (faces_of points.now)) }
{
    let p = least(points)?;
    let q = second(p, points)?;
    let start = beside(p, q, points)?;
    let left = tangent(p, q, start, points);
    if let Some(face) = Plane::supporting(p, q, left, points) {
        return Some(face);
    }
    let right = tangent(q, p, start, points);
    Plane::supporting(p, q, right, points)
}

/// The other face with an edge of this one, if it is found.
pub fn neighbour(face: &Plane, p: V3, q: V3, points: &[V3]) -> Option<Plane>
    requires within { All (IsWithin reach) points.now }
    requires first { Contains points.now p }
    requires second { Contains points.now q }
    ensures { IfSome result (λ other. Contains (faces_of points.now) other × (joins face.now p q other ≡ true)) }
{
    let start = off(face, points)?;
    let r = tangent(q, p, start, points);
    let other = Plane::supporting(p, q, r, points)?;
    if joins(face, p, q, &other) {
        Some(other)
    } else {
        None
    }
}

fn least(points: &[V3]) -> Option<V3>
    ensures { IfSome result (Contains points.now) }
{
    let mut least = *points.first()?;
    for &s in points {
        if (s.x, s.y, s.z) < (least.x, least.y, least.z) {
            least = s;
        }
    }
    Some(least)
}

// With no point at one side, seen along z from p.
fn second(p: V3, points: &[V3]) -> Option<V3>
    requires within { All (IsWithin reach) points.now }
    requires first { Contains points.now p }
    ensures { IfSome result (Contains points.now) }
{
    let mut found = None;
    for &s in points {
        if s.x == p.x && s.y == p.y {
            continue;
        }
        match found {
            None => found = Some(s),
            Some(q) => {
                if normal(p, q, s).z > 0 {
                    found = Some(s);
                }
            }
        }
    }
    found
}

// The first point that isn't on one line with p and q.
fn beside(p: V3, q: V3, points: &[V3]) -> Option<V3>
    requires within { All (IsWithin reach) points.now }
    requires first { Contains points.now p }
    requires second { Contains points.now q }
    ensures { IfSome result (Contains points.now) }
{
    points
        .iter()
        .copied()
        .find(|&s| normal(p, q, s) != V3 { x: 0, y: 0, z: 0 })
}

// The first point that isn't on the face.
fn off(face: &Plane, points: &[V3]) -> Option<V3>
    requires within { All (IsWithin reach) points.now }
    ensures { IfSome result (Contains points.now) }
{
    points.iter().copied().find(|&s| face.side(s) != 0)
}

// The last in turn about p and q.
fn tangent(p: V3, q: V3, start: V3, points: &[V3]) -> V3
    requires within { All (IsWithin reach) points.now }
    requires first { Contains points.now p }
    requires second { Contains points.now q }
    requires start { Contains points.now start }
    ensures { Contains points.now result }
{
    let mut r = start;
    let mut n = normal(p, q, r);
    for &s in points {
        if along(n, p, s) > 0 {
            r = s;
            n = normal(p, q, r);
        }
    }
    r
}
