ghost use Rattle.std.specs.Prelude.{◌≡◌, IfSome};
ghost use Rattle.gx_expr.specs.Eval.{value_of_word};
ghost use Rattle.gx_expr.specs.Descent.{Reads, anywhere, after, alone, IsSumEnd, IsProductEnd};

use crate::cursor::Cursor;
use crate::leaf::leaf;
use crate::operator::{opposite_if, product_sign, signs, sum_sign};
use crate::plain::plain_number;
use crate::{ExprFault, Params, Value};

/// The value of a word, where its names have the values of `params`. `Syntax` where it is no expression; else the
/// first fault in evaluation, operands before their operator and left before right. Takes no memory.
#[tactic(auto, using(crate::proofs::Casts::small, crate::proofs::Descent::word_none, crate::proofs::Descent::word_whole, crate::proofs::Descent::word_more))]
pub fn eval(params: &Params, word: &[u8]) -> Result<Value, ExprFault>
    ensures { result ≡ value_of_word params.now word.now }
{
    if let Some(number) = plain_number(word) {
        return Value::new(number, 1, false, false);
    }
    let mut text = Cursor::new(word);
    let Some(value) = expr(params, &mut text, 0) else {
        return Err(ExprFault::Syntax);
    };
    if text.is_empty() {
        value
    } else {
        Err(ExprFault::Syntax)
    }
}

// The most parentheses that may be open at one place.
const MAX_OPEN: usize = 64;

// Terms with signs between them, where `depth` parentheses are open; the value may be a fault.
#[cycle(descent)]
#[tactic(auto, using(crate::proofs::Descent::expr_first, crate::proofs::Descent::expr_more, crate::proofs::Descent::expr_none))]
fn expr(params: &Params, text: &mut Cursor, depth: usize) -> Option<Result<Value, ExprFault>>
    ensures read { Reads alone depth params.now text.old text.new result }
    ensures sums { IfSome result (λ _. IsSumEnd text.new) }
    ensures products { IfSome result (λ _. IsProductEnd text.new) }
{
    let mut value = term(params, text, depth)?;
    while let Some(sign) = sum_sign(text) {
        let next = term(params, text, depth)?;
        value = sign.join(value, next);
    }
    Some(value)
}

// Factors with signs between them.
#[cycle(descent)]
#[tactic(auto, using(crate::proofs::Descent::term_first, crate::proofs::Descent::term_more, crate::proofs::Descent::term_none))]
fn term(params: &Params, text: &mut Cursor, depth: usize) -> Option<Result<Value, ExprFault>>
    ensures read { Reads after depth params.now text.old text.new result }
    ensures products { IfSome result (λ _. IsProductEnd text.new) }
{
    let mut value = factor(params, text, depth)?;
    while let Some(sign) = product_sign(text) {
        let next = factor(params, text, depth)?;
        value = sign.join(value, next);
    }
    Some(value)
}

// A primary with its signs.
#[cycle(descent)]
#[tactic(auto, using(crate::proofs::Descent::factor_reads, crate::proofs::Descent::factor_none))]
fn factor(params: &Params, text: &mut Cursor, depth: usize) -> Option<Result<Value, ExprFault>>
    ensures { Reads anywhere depth params.now text.old text.new result }
{
    let negative = signs(text);
    let value = primary(params, text, depth)?;
    Some(opposite_if(negative, value))
}

// A leaf, or an expression in parentheses.
#[cycle(descent)]
#[tactic(auto, using(crate::proofs::Descent::parentheses, crate::proofs::Descent::parentheses_none, crate::proofs::Descent::parentheses_open, crate::proofs::Descent::parentheses_many))]
fn primary(params: &Params, text: &mut Cursor, depth: usize) -> Option<Result<Value, ExprFault>>
    requires { IsSumEnd text.old }
    ensures { Reads anywhere depth params.now text.old text.new result }
{
    if !text.take(b'(') {
        return leaf(params, text);
    }
    if depth >= MAX_OPEN {
        return None;
    }
    let value = expr(params, text, depth + 1)?;
    if text.take(b')') { Some(value) } else { None }
}
