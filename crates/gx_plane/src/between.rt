ghost use Rattle.std.specs.Prelude.{◌≡◌, ◌≤◌, ◌++◌, unsigned_abs, find, All};
ghost use Rattle.gx_num.specs.Vector.{IsWithin};
ghost use Rattle.gx_plane.specs.Plane.{reach, normal_reach, offset_reach, plane_through};
ghost use Rattle.gx_plane.specs.Between.{is_between, both_ways, candidates};

use crate::plane::{opposite, with_normal};
use crate::raw_plane::RawPlane;
use crate::{Plane, Triples};
use gx_num::V3;

/// The first plane through three of the points that has all of `a` on one side and all of `b` on the other: the triples in
/// lexicographic order, in `a` and then `b`, and for each the plane with its normal along `(q - p) x (r - p)`, then flipped.
pub fn first_triple_between(a: &[V3], b: &[V3]) -> Option<Plane>
    requires within { All (IsWithin reach) a.now }
    requires others_within { All (IsWithin reach) b.now }
    ensures { result ≡ find (is_between a.now b.now) (candidates (a.now ++ b.now)) }
{
    for (p, q, r) in Triples::new(a, b) {
        if let Some(plane) = first_of_three(p, q, r, a, b) {
            return Some(plane);
        }
    }
    None
}

/// The plane through three points if it is between, else the same plane flipped if that is.
#[inline(always)]
pub fn first_of_three(p: V3, q: V3, r: V3, a: &[V3], b: &[V3]) -> Option<Plane>
    requires first { IsWithin reach p }
    requires second { IsWithin reach q }
    requires third { IsWithin reach r }
    requires within { All (IsWithin reach) a.now }
    requires others_within { All (IsWithin reach) b.now }
    ensures { result ≡ find (is_between a.now b.now) (both_ways (plane_through p q r)) }
{
    // By the signs of determinants: only a plane that is found gets a primitive normal.
    let plane = RawPlane::through(p, q, r);
    let on_a = plane.senses(a);
    if on_a.are_refuted() {
        return None;
    }
    let between = on_a.with_others(plane.senses(b));
    if between.forward {
        return with_normal(plane.n(), p);
    }
    if between.backward {
        return with_normal(opposite(plane.n()), p);
    }
    None
}
