ghost use Rattle.std.specs.Prelude.{◌<◌, ◌≤◌, ◌^◌};

use crate::shift::{longer, lowered, raised};
use crate::{ExprFault, Value};

// Digits without the zeros before the first other one: without the zeros at the end how many they are, and their value
// where they are at most 18; and how many zeros the end has.
#[derive(Clone, Copy)]
pub struct Digits {
    value: u64,
    count: usize,
    zeros: usize,
    pub ghost narrow: { count ≤ 18 → value < 10 ^ count },
}

impl Digits {
    ghost use Rattle.std.specs.Prelude.{ℕ, List, [], ◌∷◌, ◌++◌, ◌≡◌, ◌+◌, ◌-◌, EachIndex, slice_index, IsTrue};
    ghost use Rattle.std.specs.Char.{is_ascii_digit};
    ghost use Rattle.gx_expr.specs.Digits.{IsDigitsOf, value_kept};
    ghost use Rattle.gx_expr.specs.Eval.{trimmed};

    // The digits before a point and those after it.
    pub fn of(whole: &[u8], fraction: &[u8]) -> Digits
        requires whole { EachIndex whole.now (λ k. IsTrue (is_ascii_digit (slice_index whole.now k))) }
        requires fraction { EachIndex fraction.now (λ k. IsTrue (is_ascii_digit (slice_index fraction.now k))) }
        ensures { IsDigitsOf (trimmed (whole.now ++ fraction.now)) result }
    {
        let mut digits = Digits {
            value: 0,
            count: 0,
            zeros: 0,
        };
        for digit in whole.iter().chain(fraction).copied() {
            digits.push(digit);
        }
        digits
    }

    // One more digit at the end.
    fn push(&mut self, digit: u8)
        requires digit { IsTrue (is_ascii_digit digit) }
        requires room { self.old.count + self.old.zeros < 2 ^ 64 - 1 }
        ensures { (digits : List ℕ) → IsDigitsOf (trimmed digits) self.old → IsDigitsOf (trimmed (digits ++ digit ∷ [])) self.new }
    {
        if digit == 48 {
            if self.count > 0 {
                self.zeros += 1;
            }
            return;
        }
        let more = self.zeros + 1;
        *self = Digits {
            value: longer(self.value, self.count, more, digit),
            count: self.count + more,
            zeros: 0,
        };
    }

    // The value of the digits, times 10^(up - down).
    pub fn value_at(&self, up: u128, down: u128) -> Result<Value, ExprFault>
        requires { up < 2 ^ 127 }
        ensures { result ≡ value_kept self.now up down }
    {
        if self.count == 0 {
            return Value::new(0, 1, false, false);
        }
        if self.count > 18 {
            return Err(ExprFault::TooWide);
        }
        let up = up + self.zeros as u128;
        if up >= down {
            raised(self.value, up - down)
        } else {
            lowered(self.value, down - up)
        }
    }
}
