ghost use Rattle.std.specs.Prelude.{◌≡◌, ◌<◌, ◌≤◌, ◌^◌, ◌*◌, ◌+◌, ◌-◌, IsTrue};
ghost use Rattle.std.specs.Char.{is_ascii_digit};
ghost use Rattle.gx_expr.specs.Digits.{raised_to, lowered_to};

use crate::{ExprFault, Value};

// n * 10^k, or `TooWide`.
#[tactic(auto, using(crate::proofs::Numbers::shift_small))]
pub fn raised(n: u64, k: u128) -> Result<Value, ExprFault>
    requires { n < 10 ^ 18 }
    ensures { result ≡ raised_to n k }
{
    if k > 18 {
        return Err(ExprFault::TooWide);
    }
    Value::new((n as u128 * 10u128.pow(k as u32)) as i128, 1, false, false)
}

// n / 10^k, or `TooWide`.
pub fn lowered(n: u64, k: u128) -> Result<Value, ExprFault>
    requires { n < 10 ^ 18 }
    ensures { result ≡ lowered_to n k }
{
    if k > 18 {
        return Err(ExprFault::TooWide);
    }
    Value::new(n as i128, 10i128.pow(k as u32), false, false)
}

// A value of `count` digits after which `more - 1` zeros and the digit were read, where there are at most 18 digits.
#[tactic(auto, using(crate::proofs::Numbers::more_digits, crate::proofs::Numbers::digit_range))]
pub fn longer(value: u64, count: usize, more: usize, digit: u8) -> u64
    requires narrow { count ≤ 18 → value < 10 ^ count }
    requires more { 0 < more }
    requires room { count + more < 2 ^ 64 }
    requires digit { IsTrue (is_ascii_digit digit) }
    ensures value { count + more ≤ 18 → result ≡ value * 10 ^ more + (digit - 48) }
    ensures narrow { count + more ≤ 18 → result < 10 ^ (count + more) }
{
    if count + more > 18 {
        return 0;
    }
    value * 10u64.pow(more as u32) + (digit - 48) as u64
}
