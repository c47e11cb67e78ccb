ghost use Rattle.std.specs.Prelude.{◌≡◌};
ghost use Rattle.gx_expr.specs.Eval.{of_two, sum_operation, product_operation};
ghost use Rattle.gx_expr.specs.Descent.{IsSumSign, IsProductSign, IsSumEnd, IsSigned, flipped, signed};

use crate::cursor::Cursor;
use crate::{ExprFault, Value};

// What stands between two terms, or before a primary.
#[derive(Clone, Copy)]
pub enum SumSign {
    Plus,
    Minus,
}

// What stands between two factors.
#[derive(Clone, Copy)]
pub enum ProductSign {
    Times,
    Over,
}

// The `+` or `-` that is next, which is passed.
pub fn sum_sign(text: &mut Cursor) -> Option<SumSign>
    ensures { IsSumSign text.old text.new result }
{
    if text.take(b'+') {
        return Some(SumSign::Plus);
    }
    if text.take(b'-') {
        return Some(SumSign::Minus);
    }
    None
}

// The `*` or `/` that is next, which is passed.
pub fn product_sign(text: &mut Cursor) -> Option<ProductSign>
    ensures { IsProductSign text.old text.new result }
{
    if text.take(b'*') {
        return Some(ProductSign::Times);
    }
    if text.take(b'/') {
        return Some(ProductSign::Over);
    }
    None
}

// Passes the signs before a primary: whether the minus signs among them are odd in number.
#[tactic(auto, using(crate::proofs::Descent::signs_none, crate::proofs::Descent::signs_more))]
pub fn signs(text: &mut Cursor) -> bool
    ensures signs { IsSigned text.old text.new result }
    ensures end { IsSumEnd text.new }
{
    let mut negative = false;
    while let Some(sign) = sum_sign(text) {
        negative = flip(negative, sign);
    }
    negative
}

// Whether the signs are a minus in all, with one more.
fn flip(negative: bool, sign: SumSign) -> bool
    ensures { result ≡ flipped sign negative }
{
    match sign {
        SumSign::Plus => negative,
        SumSign::Minus => !negative,
    }
}

// The opposite of what has one.
pub fn opposite_if(negative: bool, a: Result<Value, ExprFault>) -> Result<Value, ExprFault>
    ensures { result ≡ signed negative a }
{
    a.map(|a| if negative { a.neg() } else { a })
}

impl SumSign {
    // The sum or the difference: the left one's fault, else the right one's, else what the operation gives.
    pub fn join(
        self,
        a: Result<Value, ExprFault>,
        b: Result<Value, ExprFault>,
    ) -> Result<Value, ExprFault>
        ensures { result ≡ of_two (sum_operation self) a b }
    {
        let a = a?;
        let b = b?;
        match self {
            SumSign::Plus => a.add(&b),
            SumSign::Minus => a.sub(&b),
        }
    }
}

impl ProductSign {
    // The product or the quotient, likewise.
    pub fn join(
        self,
        a: Result<Value, ExprFault>,
        b: Result<Value, ExprFault>,
    ) -> Result<Value, ExprFault>
        ensures { result ≡ of_two (product_operation self) a b }
    {
        let (a, b) = (a?, b?);
        match self {
            ProductSign::Times => a.mul(&b),
            ProductSign::Over => a.div(&b),
        }
    }
}
