ghost use Rattle.std.specs.Prelude.{◌≡◌, drop, EachIndex, slice_index, IsTrue};
ghost use Rattle.gx_expr.specs.Token.{fraction_at, decimal_at};
ghost use Rattle.std.specs.Char.{is_ascii_digit};
ghost use Rattle.gx_expr.specs.Eval.{value_of_decimal};

use crate::cursor::{Class, Cursor};
use crate::digits::Digits;
use crate::exponent::exponent;
use crate::{ExprFault, Value};

// The number that is next.
pub fn number(text: &mut Cursor) -> Result<Value, ExprFault>
    ensures value { result ≡ value_of_decimal (decimal_at text.old).what }
    ensures rest { text.new ≡ drop (decimal_at text.old).size text.old }
{
    let whole = text.run(Class::Digit);
    let fraction = fraction(text);
    let exponent = exponent(text);
    let digits = Digits::of(whole, fraction);
    let places = fraction.len() as u128;
    if exponent.negative {
        digits.value_at(0, places + exponent.size)
    } else {
        digits.value_at(exponent.size, places)
    }
}

// The digits after a point, if there is one.
fn fraction<'a>(text: &mut Cursor<'a>) -> &'a [u8]
    ensures what { result.now ≡ (fraction_at text.old).what }
    ensures rest { text.new ≡ drop (fraction_at text.old).size text.old }
    ensures digits { EachIndex result.now (λ k. IsTrue (is_ascii_digit (slice_index result.now k))) }
{
    if text.take(b'.') {
        text.run(Class::Digit)
    } else {
        &[]
    }
}
