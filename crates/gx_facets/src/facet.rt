ghost use Rattle.std.specs.Prelude.{◌≡◌, ◌≤◌, ◌*◌, ◌^◌, [], ◌∷◌, pos, int_le, unsigned_abs, All};
ghost use Rattle.std.specs.List.{list_all};
ghost use Rattle.std.specs.Ordering.{int_eq};
ghost use Rattle.gx_num.specs.Vector.{IsWithin, dot_of, cross_of, difference_of};
ghost use Rattle.gx_plane.specs.Plane.{reach, normal_reach, normal_of, plane_from, side_of, is_zero as is_zero_vector, supports as supports_points};
ghost use Rattle.gx_polygon.specs.Around.{around};
ghost use Rattle.gx_shapes.specs.Tessellation.{fourth, corners_of, inward, is_planar as is_planar_facet, is_outer as is_outer_facet, turns_well as turns_well_facet, covers as covers_face};
ghost use Rattle.gx_facets.specs.Facets.{EachCorner};

use gx_num::V3;
use gx_plane::Plane;
use gx_shapes::Facet;

/// There is a normal, and all corners are on the plane.
pub fn is_planar(facet: &Facet) -> bool
    requires { EachCorner (IsWithin reach) facet.now }
    ensures { result ≡ is_planar_facet facet.now }
{
    let n = normal(facet);
    !is_zero(n) && has_fourth_on(facet, n)
}

/// No point is beyond the facet, and it has no turn the other way.
pub fn is_outer(facet: &Facet, points: &[V3]) -> bool
    requires facet { EachCorner (IsWithin reach) facet.now }
    requires points { All (IsWithin reach) points.now }
    ensures { result ≡ is_outer_facet points.now facet.now }
{
    let n = normal(facet);
    supports(n, facet.a, points) && all_turn_well(facet, n)
}

/// The face is in the facet's plane.
pub fn covers(face: &Plane, facet: &Facet) -> bool
    requires { EachCorner (IsWithin reach) facet.now }
    ensures { result ≡ covers_face face.now facet.now }
{
    // A plane is made only where the corners are on the face: most facets are elsewhere.
    is_on(face, facet)
        && Plane::through(facet.a, facet.b, facet.c).is_some_and(|plane| plane == *face)
}

fn is_on(face: &Plane, facet: &Facet) -> bool
    requires { EachCorner (IsWithin reach) facet.now }
    ensures { result ≡ list_all (λ p. int_eq (side_of face.now p) (pos 0)) (facet.now.a ∷ facet.now.b ∷ facet.now.c ∷ []) }
{
    face.side(facet.a) == 0 && face.side(facet.b) == 0 && face.side(facet.c) == 0
}

// The fourth corner, if there is one, is on the plane of the others.
fn has_fourth_on(facet: &Facet, n: V3) -> bool
    requires facet { EachCorner (IsWithin reach) facet.now }
    requires within { IsWithin normal_reach n }
    requires normal { n ≡ normal_of facet.now.a facet.now.b facet.now.c }
    ensures { result ≡ list_all (λ p. int_eq (side_of (inward facet.now) p) (pos 0)) (fourth facet.now.d) }
{
    match facet.d {
        None => true,
        Some(d) => side(n, facet.a, d) == 0,
    }
}

// No point is beyond the plane through a with this normal.
fn supports(n: V3, a: V3, points: &[V3]) -> bool
    requires normal { IsWithin normal_reach n }
    requires first { IsWithin reach a }
    requires points { All (IsWithin reach) points.now }
    ensures { result ≡ supports_points (plane_from n a) points.now }
{
    points.iter().all(|&p| side(n, a, p) <= 0)
}

// An edge and the one after it turn no other way than the facet.
fn all_turn_well(facet: &Facet, n: V3) -> bool
    requires facet { EachCorner (IsWithin reach) facet.now }
    requires within { IsWithin normal_reach n }
    requires normal { n ≡ normal_of facet.now.a facet.now.b facet.now.c }
    ensures { result ≡ list_all (turns_well_facet (inward facet.now)) (around (around (corners_of facet.now))) }
{
    let Facet { a, b, c, d } = *facet;
    match d {
        None => turns_well(n, a, b, c) && turns_well(n, b, c, a) && turns_well(n, c, a, b),
        Some(d) => {
            turns_well(n, a, b, c)
                && turns_well(n, b, c, d)
                && turns_well(n, c, d, a)
                && turns_well(n, d, a, b)
        }
    }
}

fn turns_well(n: V3, p: V3, q: V3, r: V3) -> bool
    requires normal { IsWithin normal_reach n }
    requires first { IsWithin reach p }
    requires second { IsWithin reach q }
    requires third { IsWithin reach r }
    ensures { result ≡ int_le (pos 0) (dot_of n (cross_of (difference_of q p) (difference_of r q))) }
{
    n.dot(cross(difference(q, p), difference(r, q))) >= 0
}

// Orthogonal to the facet, outward.
fn normal(facet: &Facet) -> V3
    requires { EachCorner (IsWithin reach) facet.now }
    ensures value { result ≡ normal_of facet.now.a facet.now.b facet.now.c }
    ensures within { IsWithin normal_reach result }
{
    cross(difference(facet.b, facet.a), difference(facet.c, facet.a))
}

fn is_zero(v: V3) -> bool
    ensures { result ≡ is_zero_vector v }
{
    v.x == 0 && v.y == 0 && v.z == 0
}

// How far the point is beyond the plane through a with this normal, times the normal's length.
fn side(n: V3, a: V3, p: V3) -> i128
    requires normal { IsWithin normal_reach n }
    requires first { IsWithin reach a }
    requires second { IsWithin reach p }
    ensures value { result ≡ side_of (plane_from n a) p }
    ensures within { unsigned_abs result ≤ 2 ^ 124 }
{
    n.dot(difference(p, a))
}

fn difference(p: V3, q: V3) -> V3
    requires first { IsWithin reach p }
    requires second { IsWithin reach q }
    ensures value { result ≡ difference_of p q }
    ensures within { IsWithin (2 * reach) result }
{
    p.sub(q)
}

fn cross(p: V3, q: V3) -> V3
    requires first { IsWithin (2 * reach) p }
    requires second { IsWithin (2 * reach) q }
    ensures value { result ≡ cross_of p q }
    ensures within { IsWithin normal_reach result }
{
    p.cross(q)
}
