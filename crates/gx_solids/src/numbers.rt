ghost use Rattle.std.specs.Prelude.{◌≡◌, ◌<◌, ◌+◌, ◌-◌, ◌^◌, length};
ghost use Rattle.gx_form.specs.Form.{Exactly};
ghost use Rattle.gx_shapes.specs.Numbers as spec;

use crate::Values;
use gx_form::Fault;
use gx_num::M;
use gx_shapes::Scale;
use gx_table::FaultName;
use std::marker::Model;

// The greatest magnitude in a scale.
const MAX_MAGNITUDE: u64 = 1 << 62;

/// The values of a solid in a list, which are read from the left.
#[derive(Drop)]
pub struct Numbers<'a> {
    left: &'a [i64],
    count: u32,
}

impl<'a> Model for Numbers<'a> {
    ghost use Rattle.std.specs.Prelude.{◌<◌, ◌+◌, ◌-◌, ◌^◌, length};
    ghost use Rattle.gx_shapes.specs.Numbers as spec;

    ghost Value = { spec.Numbers };

    ghost view = { λ n. record { count = n.count; left = n.left.now } };

    ghost invariant = { λ n. n.count + length n.left.now < 2 ^ 32 - 1 };
}

impl<'a> Numbers<'a> {
    pub fn new(numbers: &'a [i64]) -> Numbers<'a>
        requires { length numbers.now < 2 ^ 32 - 1 }
        ensures { result ≡ spec.start numbers.now }
    {
        Numbers {
            left: numbers,
            count: 0,
        }
    }

    /// No number is left.
    pub fn end(&self) -> Result<(), Fault>
        ensures { Exactly (spec.end self.now) result self.now }
    {
        if !self.left.is_empty() {
            return Err(self.missing());
        }
        Ok(())
    }

    fn number(&mut self) -> Result<i64, Fault>
        ensures { Exactly (spec.number self.old) result self.new }
    {
        match self.left {
            [number, left @ ..] => {
                let number = *number;
                self.count += 1;
                self.left = left;
                Ok(number)
            }
            [] => Err(self.missing()),
        }
    }

    fn pair(&mut self) -> Result<Scale, Fault>
        ensures { Exactly (spec.pair self.old) result self.new }
    {
        match self.left {
            [num, den, left @ ..] => {
                let scale = Scale {
                    num: *num,
                    den: *den,
                };
                self.count += 1;
                self.left = left;
                Ok(scale)
            }
            _ => Err(self.missing()),
        }
    }

    // The fault of a list that ends too early or too late.
    fn missing(&self) -> Fault
        ensures { result ≡ record { place = self.now.count + 1; name = FaultName.Words } }
    {
        Fault {
            place: self.count + 1,
            name: FaultName::Words,
        }
    }
}

impl<'a> Values for Numbers<'a> {
    ghost use Rattle.gx_shapes.specs.Numbers as spec;

    ghost source = { spec.numbers };

    fn length(&mut self) -> Result<i64, Fault> {
        let n = self.number()?;
        if n.unsigned_abs() > M.unsigned_abs() {
            return Err(self.fault(FaultName::TooFar));
        }
        Ok(n)
    }

    fn whole(&mut self, low: i64, high: i64, range: FaultName) -> Result<i64, Fault> {
        let n = self.number()?;
        if low <= n && n <= high {
            return Ok(n);
        }
        Err(self.fault(range))
    }

    fn scale(&mut self) -> Result<Scale, Fault> {
        let s = self.pair()?;
        if s.num.unsigned_abs() <= MAX_MAGNITUDE
            && 0 < s.den
            && s.den.unsigned_abs() <= MAX_MAGNITUDE
        {
            return Ok(s);
        }
        Err(self.fault(FaultName::Scale))
    }

    fn fault(&self, name: FaultName) -> Fault {
        Fault {
            place: self.count,
            name,
        }
    }
}
