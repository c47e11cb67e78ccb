ghost use Rattle.std.specs.Prelude.{◌≡◌, ◌≤◌, ◌*◌, pos, int_le, unsigned_abs, All};
ghost use Rattle.std.specs.List.{list_all};
ghost use Rattle.gx_num.specs.Vector.{IsWithin};
ghost use Rattle.gx_plane.specs.Plane.{reach, offset_reach, side_of, supports, flipped, normal_of, plane_from};

use crate::plane::{normal, product};
use crate::senses::Senses;
use gx_num::V3;
use std::marker::Model;

/// A plane of three points as their determinants give it: its normal is not made primitive, and is zero where they are
/// collinear. A point's side of it is the determinant of the three and the point.
#[derive(Clone, Copy)]
pub struct RawPlane {
    n: V3,
    e: i128,
}

impl Model for RawPlane {
    ghost use Rattle.std.specs.Prelude.{◌≤◌, unsigned_abs};
    ghost use Rattle.gx_num.specs.Vector.{IsWithin};
    ghost use Rattle.gx_num.specs.Space.{HalfSpace};
    ghost use Rattle.gx_plane.specs.Plane.{normal_reach, offset_reach};

    ghost Value = { HalfSpace };

    ghost view = { λ p. record { n = p.n; e = p.e } };

    ghost invariant = { λ p. IsWithin normal_reach p.n × (unsigned_abs p.e ≤ offset_reach) };

    ghost inverse = { λ h. record { n = h.n; e = h.e } };
}

impl RawPlane {
    pub fn through(a: V3, b: V3, c: V3) -> RawPlane
        requires first { IsWithin reach a }
        requires second { IsWithin reach b }
        requires third { IsWithin reach c }
        ensures { result ≡ plane_from (normal_of a b c) a }
    {
        let n = normal(a, b, c);
        RawPlane {
            n,
            e: product(n, a),
        }
    }

    pub fn n(self) -> V3
        ensures { result ≡ self.n }
    {
        self.n
    }

    /// `n . p - e`
    pub fn side(self, p: V3) -> i128
        requires { IsWithin reach p }
        ensures value { result ≡ side_of self p }
        ensures within { unsigned_abs result ≤ 2 * offset_reach }
    {
        product(self.n, p) - self.e
    }

    /// The senses in which it has no point beyond it.
    #[inline(always)]
    pub fn senses(self, points: &[V3]) -> Senses
        requires { All (IsWithin reach) points.now }
        ensures forward { result.forward ≡ supports self points.now }
        ensures backward { result.backward ≡ supports (flipped self) points.now }
    {
        // The first point that isn't in the plane refutes one sense, and the rest are looked at for the other alone.
        let mut rest = points;
        'points: while let Some((&p, others)) = rest.split_first() {
            let side = self.side(p);
            if side > 0 {
                return Senses {
                    forward: false,
                    backward: self.has_none_before(others),
                };
            }
            if side < 0 {
                return Senses {
                    forward: self.has_none_beyond(others),
                    backward: false,
                };
            }
            rest = others;
        }
        Senses {
            forward: true,
            backward: true,
        }
    }

    fn has_none_beyond(self, points: &[V3]) -> bool
        requires { All (IsWithin reach) points.now }
        ensures { result ≡ supports self points.now }
    {
        points.iter().all(|&p| self.side(p) <= 0)
    }

    fn has_none_before(self, points: &[V3]) -> bool
        requires { All (IsWithin reach) points.now }
        ensures { result ≡ list_all (λ p. int_le (pos 0) (side_of self p)) points.now }
    {
        points.iter().all(|&p| self.side(p) >= 0)
    }
}
