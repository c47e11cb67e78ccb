ghost use Rattle.std.specs.Prelude.{◌≡◌, ◌*◌};
ghost use Rattle.gx_num.specs.Vector.{IsWithin, dot_of, cross_of, difference_of};
ghost use Rattle.gx_plane.specs.Plane.{reach, normal_reach, normal_of};

use gx_num::V3;

pub fn difference(p: V3, q: V3) -> V3
    requires first { IsWithin reach p }
    requires second { IsWithin reach q }
    ensures value { result ≡ difference_of p q }
    ensures within { IsWithin (2 * reach) result }
{
    p.sub(q)
}

fn cross(p: V3, q: V3) -> V3
    requires first { IsWithin (2 * reach) p }
    requires second { IsWithin (2 * reach) q }
    ensures value { result ≡ cross_of p q }
    ensures within { IsWithin normal_reach result }
{
    p.cross(q)
}

/// Orthogonal to the plane of three points.
pub fn normal(p: V3, q: V3, r: V3) -> V3
    requires first { IsWithin reach p }
    requires second { IsWithin reach q }
    requires third { IsWithin reach r }
    ensures value { result ≡ normal_of p q r }
    ensures within { IsWithin normal_reach result }
{
    cross(difference(q, p), difference(r, p))
}

/// How far the way from p to q turns left to r, seen from where n points.
pub fn turn(n: V3, p: V3, q: V3, r: V3) -> i128
    requires normal { IsWithin normal_reach n }
    requires first { IsWithin reach p }
    requires second { IsWithin reach q }
    requires third { IsWithin reach r }
    ensures { result ≡ dot_of n (cross_of (difference_of q p) (difference_of r p)) }
{
    n.dot(normal(p, q, r))
}

/// How far s is along n from p.
pub fn along(n: V3, p: V3, s: V3) -> i128
    requires normal { IsWithin normal_reach n }
    requires first { IsWithin reach p }
    requires second { IsWithin reach s }
{
    n.dot(difference(s, p))
}
