//! Corners of a polygon in a section of an extrusion.

ghost use Rattle.std.specs.Prelude.{◌≡◌, ◌≤◌, ◌<ℤ◌, ◌^◌, ◌+ℤ◌, ◌*ℤ◌, pos, unsigned_abs, int_div, int_rem, nat_le};
ghost use Rattle.std.specs.Ordering.{int_eq};
ghost use Rattle.gx_num.specs.declared.vector.TheConstants.{M};
ghost use Rattle.gx_num.specs.Vector.{IsWithin};
ghost use Rattle.gx_shapes.specs.Extrusion as spec;
ghost use Rattle.gx_shapes.specs.Figure.{is_near as is_near_spec, are_near as are_near_spec};

use gx_num::{M, V3};
use gx_shapes::{Scale, Section};

/// All corners times the scale are whole.
pub fn are_whole(scale: Scale, corners: &[V3]) -> bool
    requires { pos 0 <ℤ scale.den }
    ensures { result ≡ spec.are_whole scale corners.now }
{
    corners
        .iter()
        .all(|c| is_whole(scale, c.x) && is_whole(scale, c.y))
}

/// All corners in the section are at most M in magnitude.
pub fn are_near(section: Section, corners: &[V3]) -> bool
    requires { pos 0 <ℤ section.scale.den }
    ensures { result ≡ are_near_spec section corners.now }
{
    corners.iter().all(|c| is_near(section, *c))
}

/// A corner in the section.
pub fn corner(section: Section, c: V3) -> V3
    requires positive { pos 0 <ℤ section.scale.den }
    requires near { IsWithin (unsigned_abs M) (spec.corner section c) }
    ensures { result ≡ spec.corner section c }
{
    V3 {
        x: placed(section.x, section.scale, c.x),
        y: placed(section.y, section.scale, c.y),
        z: section.z,
    }
}

fn placed(offset: i64, scale: Scale, k: i64) -> i64
    requires positive { pos 0 <ℤ scale.den }
    requires near { unsigned_abs (offset +ℤ spec.scaled scale k) ≤ unsigned_abs M }
    ensures { result ≡ offset +ℤ spec.scaled scale k }
{
    moved(offset, scale, k) as i64
}

fn is_near(section: Section, c: V3) -> bool
    requires { pos 0 <ℤ section.scale.den }
    ensures { result ≡ is_near_spec (spec.corner section c) }
{
    is_within(moved(section.x, section.scale, c.x))
        && is_within(moved(section.y, section.scale, c.y))
}

fn is_within(k: i128) -> bool
    ensures { result ≡ nat_le (unsigned_abs k) (unsigned_abs M) }
{
    k.unsigned_abs() <= u128::from(M.unsigned_abs())
}

fn is_whole(scale: Scale, k: i64) -> bool
    requires { pos 0 <ℤ scale.den }
    ensures { result ≡ spec.is_whole scale k }
{
    divides(i128::from(scale.den), product(scale.num, k))
}

// k times the scale, moved.
fn moved(offset: i64, scale: Scale, k: i64) -> i128
    requires { pos 0 <ℤ scale.den }
    ensures { result ≡ offset +ℤ spec.scaled scale k }
{
    sum(
        offset,
        quotient(product(scale.num, k), i128::from(scale.den)),
    )
}

fn product(a: i64, b: i64) -> i128
    ensures value { result ≡ a *ℤ b }
    ensures bound { unsigned_abs result ≤ 2 ^ 126 }
{
    i128::from(a) * i128::from(b)
}

fn divides(under: i128, over: i128) -> bool
    requires { pos 0 <ℤ under }
    ensures { result ≡ int_eq (int_rem over under) (pos 0) }
{
    over % under == 0
}

fn quotient(over: i128, under: i128) -> i128
    requires under { pos 0 <ℤ under }
    requires over { unsigned_abs over ≤ 2 ^ 126 }
    ensures value { result ≡ int_div over under }
    ensures bound { unsigned_abs result ≤ 2 ^ 126 }
{
    over / under
}

fn sum(a: i64, b: i128) -> i128
    requires { unsigned_abs b ≤ 2 ^ 126 }
    ensures { result ≡ a +ℤ b }
{
    i128::from(a) + b
}
