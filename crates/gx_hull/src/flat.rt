ghost use Rattle.std.specs.Prelude.{◌≡◌, All};
ghost use Rattle.std.specs.List.{list_all};
ghost use Rattle.gx_num.specs.Vector.{IsWithin};
ghost use Rattle.gx_plane.specs.Plane.{reach};
ghost use Rattle.gx_convex.specs.Points.{is_coplanar as is_coplanar_with, are_coplanar as are_coplanar_points};

use gx_num::V3;
use gx_plane::{Triples, determinant};

/// All points are in one plane.
pub fn are_coplanar(points: &[V3]) -> bool
    requires { All (IsWithin reach) points.now }
    ensures { result ≡ are_coplanar_points points.now }
{
    for (a, b, c) in Triples::new(points, &[]) {
        if !are_with(a, b, c, points) {
            return false;
        }
    }
    true
}

// All points are in the plane of three, or these are on one line.
fn are_with(a: V3, b: V3, c: V3, points: &[V3]) -> bool
    requires first { IsWithin reach a }
    requires second { IsWithin reach b }
    requires third { IsWithin reach c }
    requires within { All (IsWithin reach) points.now }
    ensures { result ≡ list_all (is_coplanar_with a b c) points.now }
{
    points.iter().all(|&p| is_with(a, b, c, p))
}

fn is_with(a: V3, b: V3, c: V3, p: V3) -> bool
    requires first { IsWithin reach a }
    requires second { IsWithin reach b }
    requires third { IsWithin reach c }
    requires fourth { IsWithin reach p }
    ensures { result ≡ is_coplanar_with a b c p }
{
    determinant(a, b, c, p) == 0
}
