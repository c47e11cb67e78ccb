ghost use Rattle.std.specs.Prelude.{ℕ, ◌≡◌, false};
ghost use Rattle.gx_expr.specs.Eval.{found};
ghost use Rattle.gx_expr.specs.Param.{value_of_name};
ghost use Rattle.gx_expr.specs.Descent.{Reads, anywhere, begins, IsSumEnd};

use crate::cursor::{Class, Cursor};
use crate::decimal::number;
use crate::unit::unit_value;
use crate::{ExprFault, Params, Value};

// A number, a name or a unit.
#[tactic(auto, using(crate::proofs::Leaves::name_read, crate::proofs::Leaves::name_none, crate::proofs::Leaves::number_read, crate::proofs::Leaves::unit_none))]
pub fn leaf(params: &Params, text: &mut Cursor) -> Option<Result<Value, ExprFault>>
    requires end { IsSumEnd text.old }
    requires opening { begins 40 text.old ≡ false }
    ensures { (open_count : ℕ) → Reads anywhere open_count params.now text.old text.new result }
{
    if text.take(b'$') {
        let name = text.run(Class::NameByte);
        if name.is_empty() {
            return None;
        }
        return Some(named(params, name));
    }
    if text.begins_number() {
        return Some(number(text));
    }
    let word = text.run(Class::Letter);
    if word.is_empty() {
        return None;
    }
    Some(unit_value(word))
}

// The value of a parameter.
fn named(params: &Params, name: &[u8]) -> Result<Value, ExprFault>
    ensures { result ≡ found ExprFault.UnknownParam (λ w. w) (value_of_name params.now name.now) }
{
    params.get(name).ok_or(ExprFault::UnknownParam)
}
