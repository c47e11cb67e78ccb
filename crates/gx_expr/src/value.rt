ghost use Rattle.std.specs.Prelude.{◌≡◌, ◌<◌, ◌≤◌, ◌^◌, ◌≢◌, pos, unsigned_abs, ◌<ℤ◌, ◌+ℤ◌, ◌-ℤ◌, ◌*ℤ◌};
ghost use Rattle.gx_expr.specs.Quantity.{IsNarrow};

use crate::ExprFault;
use crate::product::times;
use gx_fraction::Frac;
use std::marker::Model;

/// The value of an expression: a fraction, with a mark where it is a length and one where it is an angle. A length
/// is in millimetres, an angle in degrees. Contracts see a `Quantity`.
#[derive(Clone, Copy, Debug, PartialEq, Eq)]
pub struct Value {
    number: Frac,
    length: bool,
    angle: bool,
}

impl Model for Value {
    ghost use Rattle.gx_expr.specs.Quantity.{IsNarrow, Quantity};

    ghost Value = { Quantity };

    ghost view = { λ v. record { number = v.number; length = v.length; angle = v.angle } };

    ghost invariant = { λ v. IsNarrow v.number };

    ghost inverse = { λ w. record { number = w.number; length = w.length; angle = w.angle } };
}

// The greatest numerator and denominator, 2^62.
const MAX_WIDTH: u128 = 4611686018427387904;

#[tactic(auto, using(crate::proofs::Casts::small))]
impl Value {
    ghost use Rattle.gx_expr.specs.Quantity.{ratio, ratio_of, reduced as reduced_to, sum_of, difference_of, product_of, quotient_of, opposite_of};

    /// num/den with these marks. `DivideByZero` where `den` is 0, else `TooWide` where in lowest terms the numerator's
    /// magnitude or the denominator is above 2^62.
    pub fn new(num: i128, den: i128, length: bool, angle: bool) -> Result<Value, ExprFault>
        requires num { unsigned_abs num < 2 ^ 126 }
        requires den { unsigned_abs den < 2 ^ 126 }
        ensures { result ≡ ratio num den length angle }
    {
        if den == 0 {
            return Err(ExprFault::DivideByZero);
        }
        let number = Value::reduced(num, den);
        if number.num().unsigned_abs() > MAX_WIDTH {
            return Err(ExprFault::TooWide);
        }
        if number.den().unsigned_abs() > MAX_WIDTH {
            return Err(ExprFault::TooWide);
        }
        Ok(Value {
            number,
            length,
            angle,
        })
    }

    // num/den in lowest terms, with the sign above.
    fn reduced(num: i128, den: i128) -> Frac
        requires divisor { den ≢ pos 0 }
        requires num { unsigned_abs num < 2 ^ 126 }
        requires den { unsigned_abs den < 2 ^ 126 }
        ensures { result ≡ reduced_to num den }
    {
        if den < 0 {
            Frac::new(-num, -den)
        } else {
            Frac::new(num, den)
        }
    }

    /// The fraction, without the marks.
    pub fn number(&self) -> Frac
        ensures value { result ≡ self.now.number }
        ensures kept { IsNarrow result }
    {
        self.number
    }

    /// The numerator, with the sign.
    pub fn num(&self) -> i128
        ensures value { result ≡ self.now.number.num }
        ensures bound { unsigned_abs result ≤ 2 ^ 62 }
    {
        self.number.num()
    }

    /// The denominator, above 0.
    pub fn den(&self) -> i128
        ensures value { result ≡ pos self.now.number.den }
        ensures positive { pos 0 <ℤ result }
        ensures bound { unsigned_abs result ≤ 2 ^ 62 }
    {
        self.number.den()
    }

    /// Whether it is a length.
    pub fn length(&self) -> bool
        ensures { result ≡ self.now.length }
    {
        self.length
    }

    /// Whether it is an angle.
    pub fn angle(&self) -> bool
        ensures { result ≡ self.now.angle }
    {
        self.angle
    }

    /// The sum, or `TooWide`.
    pub fn add(&self, o: &Value) -> Result<Value, ExprFault>
        ensures { result ≡ sum_of self.now o.now }
    {
        let num = times(self.num(), o.den()) + times(o.num(), self.den());
        self.combined(o, num, times(self.den(), o.den()))
    }

    /// The difference, or `TooWide`.
    pub fn sub(&self, o: &Value) -> Result<Value, ExprFault>
        ensures { result ≡ difference_of self.now o.now }
    {
        let num = times(self.num(), o.den()) - times(o.num(), self.den());
        self.combined(o, num, times(self.den(), o.den()))
    }

    /// The product, or `TooWide`.
    pub fn mul(&self, o: &Value) -> Result<Value, ExprFault>
        ensures { result ≡ product_of self.now o.now }
    {
        let num = times(self.num(), o.num());
        self.combined(o, num, times(self.den(), o.den()))
    }

    /// The quotient. `DivideByZero` where `o` is 0, else it may be `TooWide`.
    pub fn div(&self, o: &Value) -> Result<Value, ExprFault>
        ensures { result ≡ quotient_of self.now o.now }
    {
        let num = times(self.num(), o.den());
        self.combined(o, num, times(o.num(), self.den()))
    }

    /// The opposite, which is as wide as the value.
    pub fn neg(&self) -> Value
        ensures { result ≡ opposite_of self.now }
    {
        Value {
            number: self.number.neg(),
            length: self.length,
            angle: self.angle,
        }
    }

    // num/den with a mark where one of the two has it.
    fn combined(&self, o: &Value, num: i128, den: i128) -> Result<Value, ExprFault>
        requires num { unsigned_abs num < 2 ^ 126 }
        requires den { unsigned_abs den < 2 ^ 126 }
        ensures { result ≡ ratio_of num den self.now o.now }
    {
        Value::new(num, den, self.length | o.length, self.angle | o.angle)
    }
}
