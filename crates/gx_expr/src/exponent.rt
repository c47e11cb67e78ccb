ghost use Rattle.std.specs.Prelude.{◌≡◌, min, drop, EachIndex, slice_index, IsTrue};
ghost use Rattle.gx_expr.specs.Token.{exponent_at, sign_at, value_of_digits};
ghost use Rattle.std.specs.Char.{is_ascii_digit};
ghost use Rattle.gx_expr.specs.Digits.{IsPower, HasMark};

use crate::cursor::{Class, Cursor};

// A power of ten: its sign, and its magnitude up to `MAX_SIZE`.
#[derive(Clone, Copy)]
pub struct Power {
    pub negative: bool,
    pub size: u128,
}

// The greatest magnitude that is told from others, 2^100: the length of a text is far below.
pub const MAX_SIZE: u128 = 1267650600228229401496703205376;

// The exponent that is next, if there is one.
pub fn exponent(text: &mut Cursor) -> Power
    ensures power { IsPower (exponent_at text.old) result }
    ensures rest { text.new ≡ drop (exponent_at text.old).size text.old }
{
    let mut ahead = Cursor::new(text.left());
    let none = Power {
        negative: false,
        size: 0,
    };
    if !mark(&mut ahead) {
        return none;
    }
    let negative = minus(&mut ahead);
    let digits = ahead.run(Class::Digit);
    if digits.is_empty() {
        return none;
    }
    *text = ahead;
    Power {
        negative,
        size: size_of(digits),
    }
}

// Passes `e` or `E`.
fn mark(text: &mut Cursor) -> bool
    ensures { HasMark text.old text.new result }
{
    text.take(b'e') || text.take(b'E')
}

// Passes the sign, if there is one: whether it is `-`.
fn minus(text: &mut Cursor) -> bool
    ensures what { result ≡ (sign_at text.old).what }
    ensures rest { text.new ≡ drop (sign_at text.old).size text.old }
{
    if text.take(b'-') {
        return true;
    }
    text.take(b'+');
    false
}

// The magnitude that digits make, up to `MAX_SIZE`.
fn size_of(digits: &[u8]) -> u128
    requires { EachIndex digits.now (λ k. IsTrue (is_ascii_digit (slice_index digits.now k))) }
    ensures { result ≡ min MAX_SIZE (value_of_digits digits.now) }
{
    let mut size: u128 = 0;
    for digit in digits {
        size = MAX_SIZE.min(10 * size + (digit - 48) as u128);
    }
    size
}
