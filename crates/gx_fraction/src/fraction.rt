ghost use Rattle.std.specs.Prelude.{◌≡◌, ◌<◌, ◌^◌, ◌<ℤ◌, ◌*ℤ◌, pos, neg_ℤ, if◌then◌else◌, unsigned_abs};
ghost use Rattle.gx_num.specs.Number.{IsLowest};
ghost use Rattle.gx_fraction.specs.Fraction.{IsEqual, lowest, opposite, compare, greater, smaller};

use gx_num::{cmp_products, gcd};
use std::cmp::Ordering;
use std::marker::Model;

/// A fraction in lowest terms. Contracts see its numerator, with the sign, and its denominator, above 0.
#[derive(Clone, Copy, Debug, PartialEq, Eq)]
pub struct Frac {
    num: i128,
    den: u128,
}

impl Model for Frac {
    ghost use Rattle.std.specs.Prelude.{◌<◌, ◌^◌, unsigned_abs};
    ghost use Rattle.gx_fraction.specs.Fraction.{Fraction, IsNormal};

    ghost Value = { Fraction };

    ghost view = { λ f. record { num = f.num; den = f.den } };

    ghost invariant = { λ f. IsNormal (record { num = f.num; den = f.den }) };

    ghost inverse = { λ v. record { num = v.num; den = v.den } };
}

impl Frac {
    /// num/den in lowest terms. `den` is above 0.
    pub fn new(num: i128, den: i128) -> Frac
        requires positive { pos 0 <ℤ den }
        requires num { unsigned_abs num < 2 ^ 126 }
        requires den { unsigned_abs den < 2 ^ 126 }
        ensures value { result ≡ lowest num (unsigned_abs den) }
        ensures lowest { IsLowest (unsigned_abs result.num) result.den }
        ensures equal { IsEqual result (record { num = num; den = unsigned_abs den }) }
    {
        let magnitude = num.unsigned_abs();
        let whole = den.unsigned_abs();
        let divisor = gcd(magnitude, whole);
        Frac {
            num: with_sign(magnitude / divisor, num < 0),
            den: whole / divisor,
        }
    }

    pub fn num(&self) -> i128
        ensures { result ≡ self.now.num }
    {
        self.num
    }

    pub fn den(&self) -> i128
        ensures { result ≡ pos self.now.den }
    {
        self.den as i128
    }

    /// The opposite.
    pub fn neg(self) -> Frac
        ensures { result ≡ opposite self }
    {
        Frac {
            num: -self.num,
            den: self.den,
        }
    }

    /// The order of fractions, for every two of them: no product is formed.
    pub fn cmp(&self, o: &Frac) -> Ordering
        ensures { result ≡ compare self.now o.now }
    {
        match (self.num < 0, o.num < 0) {
            (false, true) => Ordering::Greater,
            (true, false) => Ordering::Less,
            (false, false) => cmp_products(
                self.num.unsigned_abs(),
                o.den,
                o.num.unsigned_abs(),
                self.den,
            ),
            (true, true) => cmp_products(
                o.num.unsigned_abs(),
                self.den,
                self.num.unsigned_abs(),
                o.den,
            ),
        }
    }

    pub fn max(self, o: Frac) -> Frac
        ensures { result ≡ greater self o }
    {
        if self.cmp(&o).is_lt() { o } else { self }
    }

    pub fn min(self, o: Frac) -> Frac
        ensures { result ≡ smaller self o }
    {
        if self.cmp(&o).is_gt() { o } else { self }
    }
}

fn with_sign(magnitude: u128, negative: bool) -> i128
    requires { magnitude < 2 ^ 126 }
    ensures { result ≡ (if negative then neg_ℤ (pos magnitude) else pos magnitude) }
{
    if negative {
        -(magnitude as i128)
    } else {
        magnitude as i128
    }
}
