ghost use Rattle.std.specs.Prelude.{◌≡◌, ◌<◌, ◌≤◌, ◌*◌, ◌<ℤ◌, pos, unsigned_abs, int_div, find, All};
ghost use Rattle.gx_num.specs.Vector.{IsWithin, dot_of, difference_of, opposite_of};
ghost use Rattle.gx_plane.specs.Plane.{reach, normal_reach, offset_reach, divisor_of, primitive, IsPrimitive, IsPlane, side_of, supports, flipped, normal_of, plane_with, plane_through, unit_along, plane_along};
ghost use Rattle.gx_plane.specs.Between.{both_ways};

use crate::between::first_of_three;
use gx_num::{V3, gcd};
use std::marker::Model;

/// A plane: the points p with n . p = e. The normal is not zero, and its components have no common divisor above 1.
#[derive(Clone, Copy, Debug, PartialEq, Eq)]
pub struct Plane {
    n: V3,
    e: i128,
}

impl Model for Plane {
    ghost use Rattle.gx_num.specs.Space.{HalfSpace};
    ghost use Rattle.gx_plane.specs.Plane.{IsPlane};

    ghost Value = { HalfSpace };

    ghost view = { λ p. record { n = p.n; e = p.e } };

    ghost invariant = { λ p. IsPlane (record { n = p.n; e = p.e }) };

    ghost inverse = { λ h. record { n = h.n; e = h.e } };
}

impl Plane {
    /// The plane with this normal and this e, which are in lowest terms and fit.
    pub fn from_parts(n: V3, e: i128) -> Plane
        requires { IsPlane (record { n = n; e = e }) }
        ensures { result ≡ record { n = n; e = e } }
    {
        Plane { n, e }
    }

    pub fn n(&self) -> V3
        ensures value { result ≡ self.now.n }
        ensures primitive { IsPrimitive result }
        ensures within { IsWithin normal_reach result }
    {
        self.n
    }

    pub fn e(&self) -> i128
        ensures value { result ≡ self.now.e }
        ensures within { unsigned_abs result ≤ offset_reach }
    {
        self.e
    }

    /// The plane of three points, with a normal along `(b - a) x (c - a)`; None where they are collinear.
    pub fn through(a: V3, b: V3, c: V3) -> Option<Plane>
        requires first { IsWithin reach a }
        requires second { IsWithin reach b }
        requires third { IsWithin reach c }
        ensures { result ≡ plane_through a b c }
    {
        with_normal(normal(a, b, c), a)
    }

    /// The plane of three points, or else the same plane flipped, that no point is beyond. None where each has a point
    /// beyond it, and where the three are collinear.
    pub fn supporting(a: V3, b: V3, c: V3, points: &[V3]) -> Option<Plane>
        requires first { IsWithin reach a }
        requires second { IsWithin reach b }
        requires third { IsWithin reach c }
        requires within { All (IsWithin reach) points.now }
        ensures { result ≡ find (λ h. supports h points.now) (both_ways (plane_through a b c)) }
    {
        first_of_three(a, b, c, points, &[])
    }

    /// The same plane with the opposite normal.
    pub fn flip(self) -> Plane
        ensures { result ≡ flipped self }
    {
        Plane {
            n: opposite(self.n),
            e: -self.e,
        }
    }

    /// The plane through a coordinate of an axis, of 0, 1 and 2, with the normal along the axis or against it.
    pub fn along(axis: u8, positive: bool, at: i64) -> Plane
        requires axis { axis < 3 }
        requires within { unsigned_abs at ≤ reach }
        ensures { result ≡ plane_along axis positive at }
    {
        let plane = Plane {
            n: unit(axis),
            e: i128::from(at),
        };
        if positive { plane } else { plane.flip() }
    }

    /// `n . p - e`: above 0 beyond the plane.
    pub fn side(&self, p: V3) -> i128
        requires { IsWithin reach p }
        ensures value { result ≡ side_of self.now p }
        ensures within { unsigned_abs result ≤ 2 * offset_reach }
    {
        product(self.n, p) - self.e
    }

    /// No point is beyond the plane.
    pub fn supports(&self, points: &[V3]) -> bool
        requires { All (IsWithin reach) points.now }
        ensures { result ≡ supports self.now points.now }
    {
        points.iter().all(|&p| self.side(p) <= 0)
    }
}

/// Above 0 where `p` is beyond the plane of the other three points, and 0 where all four are in one plane: six times the
/// volume between them.
pub fn determinant(a: V3, b: V3, c: V3, p: V3) -> i128
    requires first { IsWithin reach a }
    requires second { IsWithin reach b }
    requires third { IsWithin reach c }
    requires point { IsWithin reach p }
    ensures value { result ≡ dot_of (normal_of a b c) (difference_of p a) }
    ensures within { unsigned_abs result ≤ 2 * offset_reach }
{
    normal(a, b, c).dot(difference(p, a))
}

/// The plane through a point with a normal along this one; None where that is zero.
pub fn with_normal(normal: V3, a: V3) -> Option<Plane>
    requires normal { IsWithin normal_reach normal }
    requires point { IsWithin reach a }
    ensures { result ≡ plane_with normal a }
{
    let divisor = divisor(normal);
    if divisor == 0 {
        return None;
    }
    let n = divided(normal, signed(divisor));
    Some(Plane {
        n,
        e: product(n, a),
    })
}

fn unit(axis: u8) -> V3
    requires { axis < 3 }
    ensures { result ≡ unit_along axis }
{
    match axis {
        0 => V3 { x: 1, y: 0, z: 0 },
        1 => V3 { x: 0, y: 1, z: 0 },
        _ => V3 { x: 0, y: 0, z: 1 },
    }
}

fn difference(a: V3, b: V3) -> V3
    requires first { IsWithin reach a }
    requires second { IsWithin reach b }
    ensures value { result ≡ difference_of a b }
    ensures within { IsWithin (2 * reach) result }
{
    a.sub(b)
}

/// Orthogonal to the plane of three points.
pub fn normal(a: V3, b: V3, c: V3) -> V3
    requires first { IsWithin reach a }
    requires second { IsWithin reach b }
    requires third { IsWithin reach c }
    ensures value { result ≡ normal_of a b c }
    ensures within { IsWithin normal_reach result }
{
    difference(b, a).cross(difference(c, a))
}

/// The opposite normal.
pub fn opposite(n: V3) -> V3
    requires { IsWithin normal_reach n }
    ensures value { result ≡ opposite_of n }
    ensures within { IsWithin normal_reach result }
{
    n.neg()
}

/// The scalar product of a plane's normal and a point.
pub fn product(n: V3, p: V3) -> i128
    requires normal { IsWithin normal_reach n }
    requires point { IsWithin reach p }
    ensures value { result ≡ dot_of n p }
    ensures within { unsigned_abs result ≤ offset_reach }
{
    n.dot(p)
}

fn magnitude(a: i64) -> u128
    ensures { result ≡ unsigned_abs a }
{
    u128::from(a.unsigned_abs())
}

fn divisor(v: V3) -> u128
    ensures { result ≡ divisor_of v }
{
    gcd(magnitude(v.x), gcd(magnitude(v.y), magnitude(v.z)))
}

// A divisor as a number with a sign.
fn signed(divisor: u128) -> i64
    requires { divisor ≤ normal_reach }
    ensures { result ≡ pos divisor }
{
    divisor as i64
}

fn quotient(a: i64, b: i64) -> i64
    requires within { unsigned_abs a ≤ normal_reach }
    requires positive { pos 0 <ℤ b }
    ensures { result ≡ int_div a b }
{
    a / b
}

fn divided(v: V3, d: i64) -> V3
    requires within { IsWithin normal_reach v }
    requires is_divisor { d ≡ pos (divisor_of v) }
    requires positive { 0 < divisor_of v }
    ensures { result ≡ primitive v }
{
    V3 {
        x: quotient(v.x, d),
        y: quotient(v.y, d),
        z: quotient(v.z, d),
    }
}
