ghost use Rattle.std.specs.Prelude.{◌≡◌, ◌<◌, ◌^◌, unsigned_abs};
ghost use Rattle.gx_clip.specs.Parameter.{is_below, lesser, greater, IsLowestForm};

use gx_fraction::Frac;
use gx_num::cmp_products;
use std::marker::Model;

/// A parameter num/den of a ray, in any terms.
#[derive(Clone, Copy)]
pub struct Parameter {
    num: u128,
    den: u128,
}

impl Model for Parameter {
    ghost use Rattle.gx_num.specs.Ray.{RayParameter};
    ghost use Rattle.gx_clip.specs.Parameter.{IsHeld};

    ghost Value = { RayParameter };

    ghost view = { λ t. record { num = t.num; den = t.den } };

    ghost invariant = { λ t. IsHeld (record { num = t.num; den = t.den }) };

    ghost inverse = { λ t. record { num = t.num; den = t.den } };
}

impl Parameter {
    pub fn zero() -> Parameter
        ensures { result ≡ record { num = 0; den = 1 } }
    {
        Parameter { num: 0, den: 1 }
    }

    /// The quotient of two numbers of one sign.
    pub fn quotient(num: i128, den: i128) -> Parameter
        requires num { unsigned_abs num < 2 ^ 126 }
        requires den { unsigned_abs den < 2 ^ 126 }
        requires nonzero { 0 < unsigned_abs den }
        ensures { result ≡ record { num = unsigned_abs num; den = unsigned_abs den } }
    {
        Parameter {
            num: num.unsigned_abs(),
            den: den.unsigned_abs(),
        }
    }

    pub fn is_below(self, o: Parameter) -> bool
        ensures { result ≡ is_below self o }
    {
        cmp_products(self.num, o.den, o.num, self.den).is_lt()
    }

    pub fn min(self, o: Parameter) -> Parameter
        ensures { result ≡ lesser self o }
    {
        if o.is_below(self) { o } else { self }
    }

    pub fn max(self, o: Parameter) -> Parameter
        ensures { result ≡ greater self o }
    {
        if self.is_below(o) { o } else { self }
    }

    /// In lowest terms.
    pub fn lowest(self) -> Frac
        ensures { IsLowestForm self result }
    {
        Frac::new(self.num as i128, self.den as i128)
    }
}
