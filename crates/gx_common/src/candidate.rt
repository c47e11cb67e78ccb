ghost use Rattle.std.specs.Prelude.{◌≡◌, ◌≤◌, ◌<◌, ◌^◌, ◌*◌, ◌<ℤ◌, ◌+ℤ◌, ◌*ℤ◌, pos, unsigned_abs, IsTrue};
ghost use Rattle.std.specs.Ordering.{int_cmp};
ghost use Rattle.gx_num.specs.Vector.{IsWithin, is_same};
ghost use Rattle.gx_num.specs.Space.{normal_dot};
ghost use Rattle.gx_num.specs.Vector4.{lowest4};
ghost use Rattle.gx_plane.specs.Plane.{reach, offset_reach};
ghost use Rattle.gx_common.specs.Common.{point_of, mixed, is_strict as is_strict_at};

use crate::sum::cmp_sum;
use gx_num::{Hp, V3};
use gx_plane::Plane;
use std::cmp::Ordering;
use std::marker::Model;

/// A point of a segment: (k p + l q) / (k + l). It is told by products on which side of a plane it is, without its coordinates.
/// Contracts see the point.
#[derive(Drop)]
pub struct Candidate {
    p: V3,
    q: V3,
    k: u128,
    l: u128,
}

impl Model for Candidate {
    ghost use Rattle.std.specs.Prelude.{◌≤◌, ◌<◌, ◌*◌};
    ghost use Rattle.gx_num.specs.Vector.{IsWithin};
    ghost use Rattle.gx_num.specs.Vector4.{Vec4};
    ghost use Rattle.gx_plane.specs.Plane.{reach, offset_reach};
    ghost use Rattle.gx_common.specs.Common.{mixed};

    ghost Value = { Vec4 };

    ghost view = { λ c. mixed c.k c.p c.l c.q };

    ghost invariant = { λ c. IsWithin reach c.p × IsWithin reach c.q × (0 < c.k) × (c.k ≤ 2 * offset_reach) × (c.l ≤ 2 * offset_reach) };
}

impl Candidate {
    /// A vertex.
    pub fn vertex(p: V3) -> Candidate
        requires { IsWithin reach p }
        ensures { result ≡ point_of p }
    {
        Candidate {
            p,
            q: p,
            k: 1,
            l: 0,
        }
    }

    /// Where the segment of `p` and `q` meets a plane against which these are their sides.
    pub fn crossing(p: V3, q: V3, side: i128, other_side: i128) -> Candidate
        requires first { IsWithin reach p }
        requires second { IsWithin reach q }
        requires side { unsigned_abs side ≤ 2 * offset_reach }
        requires other_side { unsigned_abs other_side ≤ 2 * offset_reach }
        requires apart { (side *ℤ other_side) <ℤ pos 0 }
        ensures { result ≡ mixed (unsigned_abs other_side) p (unsigned_abs side) q }
    {
        Candidate {
            p,
            q,
            k: other_side.unsigned_abs(),
            l: side.unsigned_abs(),
        }
    }

    /// An equal candidate.
    pub fn copy(&self) -> Candidate
        ensures { result ≡ self.now }
    {
        Candidate {
            p: self.p,
            q: self.q,
            k: self.k,
            l: self.l,
        }
    }

    /// Of the same two vertices with the same weights.
    pub fn is_copy(&self, other: &Candidate) -> bool
        ensures { IsTrue result → self.now ≡ other.now }
    {
        if self.k != other.k {
            return false;
        }
        if self.l != other.l {
            return false;
        }
        if !is_same_vertex(self.p, other.p) {
            return false;
        }
        is_same_vertex(self.q, other.q)
    }

    /// Strictly inside a face.
    pub fn is_strict(&self, face: &Plane) -> bool
        ensures { result ≡ is_strict_at face.now self.now }
    {
        self.level(face).is_lt()
    }

    // How far the point is beyond a face, against 0.
    fn level(&self, face: &Plane) -> Ordering
        ensures { result ≡ int_cmp (normal_dot face.now self.now) (face.now.e *ℤ self.now.w) }
    {
        cmp_sum(self.k, face.side(self.p), self.l, face.side(self.q))
    }

    /// The point in lowest terms.
    pub fn point(&self) -> Hp
        ensures { result ≡ lowest4 self.now }
    {
        Hp::new(
            coordinate(self.k, self.p.x, self.l, self.q.x),
            coordinate(self.k, self.p.y, self.l, self.q.y),
            coordinate(self.k, self.p.z, self.l, self.q.z),
            weight(self.k, self.l),
        )
    }
}

fn is_same_vertex(p: V3, q: V3) -> bool
    ensures { result ≡ is_same p q }
{
    p == q
}

// k p + l q
fn coordinate(k: u128, p: i64, l: u128, q: i64) -> i128
    requires k { k ≤ 2 * offset_reach }
    requires l { l ≤ 2 * offset_reach }
    requires p { unsigned_abs p ≤ reach }
    requires q { unsigned_abs q ≤ reach }
    ensures value { result ≡ pos k *ℤ p +ℤ pos l *ℤ q }
    ensures bound { unsigned_abs result < 2 ^ 126 }
{
    plus(times(k, p), times(l, q))
}

// k + l
fn weight(k: u128, l: u128) -> i128
    requires positive { 0 < k }
    requires k { k ≤ 2 * offset_reach }
    requires l { l ≤ 2 * offset_reach }
    ensures value { result ≡ pos k +ℤ pos l }
    ensures positive { pos 0 <ℤ result }
    ensures bound { unsigned_abs result < 2 ^ 126 }
{
    (k + l) as i128
}

fn times(k: u128, p: i64) -> i128
    requires k { k ≤ 2 * offset_reach }
    requires p { unsigned_abs p ≤ reach }
    ensures value { result ≡ pos k *ℤ p }
    ensures bound { unsigned_abs result ≤ 2 ^ 110 }
{
    (k as i128) * i128::from(p)
}

fn plus(a: i128, b: i128) -> i128
    requires first { unsigned_abs a ≤ 2 ^ 110 }
    requires second { unsigned_abs b ≤ 2 ^ 110 }
    ensures value { result ≡ a +ℤ b }
    ensures bound { unsigned_abs result < 2 ^ 126 }
{
    a + b
}
