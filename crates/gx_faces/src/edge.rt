ghost use Rattle.std.specs.Prelude.{◌≡◌, pos, int_le, All};
ghost use Rattle.std.specs.List.{list_all, list_any};
ghost use Rattle.gx_num.specs.Vector.{IsWithin, is_same as is_same_point};
ghost use Rattle.gx_plane.specs.Plane.{reach};
ghost use Rattle.gx_faces.specs.Closed.{turn_of};
ghost use Rattle.gx_faces.specs.Steps.{joins as joins_both, is_on as is_on_plane};

use crate::turn::turn;
use gx_num::V3;
use gx_plane::Plane;

/// None of the points is at the right of the way from p to q.
pub fn is_edge(face: &Plane, p: V3, q: V3, points: &[V3]) -> bool
    requires first { IsWithin reach p }
    requires second { IsWithin reach q }
    requires points { All (IsWithin reach) points.now }
    ensures { result ≡ list_all (λ r. int_le (pos 0) (turn_of face.now p q r)) points.now }
{
    points.iter().all(|&r| turn(face.n(), p, q, r) >= 0)
}

/// One of the planes, another than the face, is through both points.
pub fn is_joined(face: &Plane, p: V3, q: V3, planes: &[Plane]) -> bool
    requires first { IsWithin reach p }
    requires second { IsWithin reach q }
    ensures { result ≡ list_any (joins_both face.now p q) planes.now }
{
    planes.iter().rev().any(|other| joins(face, p, q, other))
}

/// The other plane is through both points.
pub fn joins(face: &Plane, p: V3, q: V3, other: &Plane) -> bool
    requires first { IsWithin reach p }
    requires second { IsWithin reach q }
    ensures { result ≡ joins_both face.now p q other.now }
{
    other != face && (is_on(other, p) && is_on(other, q))
}

pub fn is_on(plane: &Plane, p: V3) -> bool
    requires { IsWithin reach p }
    ensures { result ≡ is_on_plane plane.now p }
{
    plane.side(p) == 0
}

pub fn is_same(p: V3, q: V3) -> bool
    ensures { result ≡ is_same_point p q }
{
    p == q
}
