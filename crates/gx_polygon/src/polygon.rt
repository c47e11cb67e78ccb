ghost use Rattle.std.specs.Prelude.{◌≡◌, pos, int_le, not, map, All};
ghost use Rattle.std.specs.List.{list_all};
ghost use Rattle.std.specs.Ordering.{int_eq};
ghost use Rattle.gx_num.specs.Vector.{IsWithin, is_same};
ghost use Rattle.gx_plane.specs.Plane.{reach};
ghost use Rattle.gx_polygon.specs.Around.{around};
ghost use Rattle.gx_polygon.specs.Polygon as spec;

use crate::edges::Edges;
use gx_num::V3;
use gx_plane::Triples;

/// All corners are on one line.
pub fn is_straight(corners: &[V3]) -> bool
    requires { All (IsWithin reach) corners.now }
    ensures { result ≡ spec.is_straight corners.now }
{
    Triples::new(corners, &[]).all(|(a, b, c)| are_in_line(a, b, c))
}

/// No corner comes twice, and the corners go round a convex polygon, one way or the other.
pub fn is_convex(corners: &[V3]) -> bool
    requires { All (IsWithin reach) corners.now }
    ensures { result ≡ spec.is_convex corners.now }
{
    are_distinct(corners) && (are_left(corners) || are_right(corners))
}

fn are_distinct(corners: &[V3]) -> bool
    ensures { result ≡ spec.are_distinct corners.now }
{
    let mut rest = corners;
    while let Some((&first, others)) = rest.split_first() {
        if !is_apart(first, others) {
            return false;
        }
        rest = others;
    }
    true
}

fn is_apart(p: V3, others: &[V3]) -> bool
    ensures { result ≡ list_all (λ q. not (is_same p q)) others.now }
{
    others.iter().all(|&q| p != q)
}

// No corner is on the right of an edge.
fn are_left(corners: &[V3]) -> bool
    requires { All (IsWithin reach) corners.now }
    ensures { result ≡ spec.are_left (around corners.now) corners.now }
{
    Edges::new(corners).all(|(a, b)| has_left(a, b, corners))
}

// No corner is on the left of an edge.
fn are_right(corners: &[V3]) -> bool
    requires { All (IsWithin reach) corners.now }
    ensures { result ≡ spec.are_left (map (λ e. (e.1, e.0)) (around corners.now)) corners.now }
{
    Edges::new(corners).all(|(a, b)| has_left(b, a, corners))
}

// No corner is on the right of the line from a to b.
fn has_left(a: V3, b: V3, corners: &[V3]) -> bool
    requires from { IsWithin reach a }
    requires to { IsWithin reach b }
    requires corners { All (IsWithin reach) corners.now }
    ensures { result ≡ list_all (λ p. int_le (pos 0) (spec.turn a b p)) corners.now }
{
    corners.iter().all(|&p| turn(a, b, p) >= 0)
}

fn are_in_line(a: V3, b: V3, c: V3) -> bool
    requires first { IsWithin reach a }
    requires second { IsWithin reach b }
    requires third { IsWithin reach c }
    ensures { result ≡ int_eq (spec.turn a b c) (pos 0) }
{
    turn(a, b, c) == 0
}

// How far c is to the left of the line from a to b, times the length from a to b.
fn turn(a: V3, b: V3, c: V3) -> i64
    requires first { IsWithin reach a }
    requires second { IsWithin reach b }
    requires third { IsWithin reach c }
    ensures { result ≡ spec.turn a b c }
{
    b.sub(a).cross(c.sub(a)).z
}
