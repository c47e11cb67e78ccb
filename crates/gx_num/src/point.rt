ghost use Rattle.std.specs.Prelude.{◌≡◌, ◌<◌, ◌^◌, ◌<ℤ◌, pos, int_div, unsigned_abs};
ghost use Rattle.gx_num.specs.Vector4.{Vec4, divisor_of4, quotient4, lowest4, IsLowestPoint};

use crate::gcd;
use std::marker::Model;

/// The point (x/w, y/w, z/w): four whole numbers in lowest terms, w above 0. Contracts see the four numbers.
#[derive(Clone, Copy, Debug, PartialEq, Eq)]
pub struct Hp {
    x: i128,
    y: i128,
    z: i128,
    w: i128,
}

impl Model for Hp {
    ghost use Rattle.gx_num.specs.Vector4.{Vec4, IsLowestPoint};

    ghost Value = { Vec4 };

    ghost view = { λ p. record { x = p.x; y = p.y; z = p.z; w = p.w } };

    ghost invariant = { λ p. IsLowestPoint (record { x = p.x; y = p.y; z = p.z; w = p.w }) };

    ghost inverse = { λ v. record { x = v.x; y = v.y; z = v.z; w = v.w } };
}

impl Hp {
    /// The point (x/w, y/w, z/w), with the four numbers divided by their common divisor. `w` is above 0.
    pub fn new(x: i128, y: i128, z: i128, w: i128) -> Hp
        requires positive { pos 0 <ℤ w }
        requires x { unsigned_abs x < 2 ^ 126 }
        requires y { unsigned_abs y < 2 ^ 126 }
        requires z { unsigned_abs z < 2 ^ 126 }
        requires w { unsigned_abs w < 2 ^ 126 }
        ensures value { result ≡ lowest4 (record { x = x; y = y; z = z; w = w }) }
        ensures lowest { IsLowestPoint result }
    {
        let divisor = divisor(x, y, z, w);
        Hp {
            x: quotient(x, divisor),
            y: quotient(y, divisor),
            z: quotient(z, divisor),
            w: quotient(w, divisor),
        }
    }

    pub fn x(&self) -> i128
        ensures { result ≡ self.now.x }
    {
        self.x
    }

    pub fn y(&self) -> i128
        ensures { result ≡ self.now.y }
    {
        self.y
    }

    pub fn z(&self) -> i128
        ensures { result ≡ self.now.z }
    {
        self.z
    }

    pub fn w(&self) -> i128
        ensures value { result ≡ self.now.w }
        ensures lowest { IsLowestPoint self.now }
    {
        self.w
    }
}

fn divisor(x: i128, y: i128, z: i128, w: i128) -> u128
    requires positive { pos 0 <ℤ w }
    requires small { unsigned_abs w < 2 ^ 126 }
    ensures value { result ≡ divisor_of4 (record { x = x; y = y; z = z; w = w }) }
    ensures positive { 0 < result }
    ensures small { result < 2 ^ 126 }
{
    let last = gcd(z.unsigned_abs(), w.unsigned_abs());
    gcd(x.unsigned_abs(), gcd(y.unsigned_abs(), last))
}

fn quotient(a: i128, divisor: u128) -> i128
    requires positive { 0 < divisor }
    requires small { divisor < 2 ^ 126 }
    ensures { result ≡ int_div a (pos divisor) }
{
    a / divisor as i128
}
