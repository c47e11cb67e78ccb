ghost use Rattle.std.specs.Prelude.{◌≡◌, ◌*ℤ◌, ◌<ℤ◌, ◌≤◌, ◌^◌, pos, unsigned_abs, IfOk};
ghost use Rattle.gx_num.specs.declared.vector.TheConstants.{M};
ghost use Rattle.gx_expr.specs.Convert.{whole_quotient, whole_ratio, steps, count, quarters};

use crate::product::times;
use crate::{Grid, StepFault, UnitKind, Value, WholeFault};
use gx_num::M;

/// The number of steps of the grid that a length is. `UnitKind` where the value is an angle, else `OffGrid` where it
/// is no whole multiple of the step, else `TooFar` where it is more than M steps in magnitude. A value without a mark
/// is a length in millimetres.
#[tactic(auto, unfolding(crate::specs::Convert::steps))]
pub fn to_steps(value: &Value, grid: &Grid) -> Result<i64, StepFault>
    ensures value { result ≡ steps value.now grid.now }
    ensures within { IfOk result (λ n. unsigned_abs n ≤ unsigned_abs M) }
{
    if value.angle() {
        return Err(StepFault::UnitKind);
    }
    let size = grid.size();
    let steps = ratio(value, size.num(), size.den()).ok_or(StepFault::OffGrid)?;
    if steps.unsigned_abs() > u128::from(M.unsigned_abs()) {
        return Err(StepFault::TooFar);
    }
    Ok(steps as i64)
}

/// The whole number from `low` to `high` that a value without a mark is. `UnitKind` where it has a mark, else `Range`
/// where it isn't whole or isn't in the range.
pub fn to_whole(value: &Value, low: i64, high: i64) -> Result<i64, WholeFault>
    ensures { result ≡ count value.now low high }
{
    if value.length() {
        return Err(WholeFault::UnitKind);
    }
    if value.angle() {
        return Err(WholeFault::UnitKind);
    }
    let whole = ratio(value, 1, 1).ok_or(WholeFault::Range)?;
    if whole < i128::from(low) {
        return Err(WholeFault::Range);
    }
    if whole > i128::from(high) {
        return Err(WholeFault::Range);
    }
    Ok(whole as i64)
}

/// The quarter turns, from 0 to 3, that an angle is: None where it is no whole multiple of 90 degrees, an error where
/// the value is a length. A value without a mark is an angle in degrees.
pub fn to_quarters(value: &Value) -> Result<Option<u8>, UnitKind>
    ensures { result ≡ quarters value.now }
{
    if value.length() {
        return Err(UnitKind);
    }
    Ok(ratio(value, 90, 1).map(|turns| turns.rem_euclid(4) as u8))
}

// How often num/den goes into the value, where that is a whole number.
#[tactic(auto, using(crate::proofs::Casts::small, crate::proofs::Casts::positive_times, crate::proofs::Casts::own_magnitude))]
fn ratio(value: &Value, num: i128, den: i128) -> Option<i128>
    requires positive { pos 0 <ℤ num }
    requires num { unsigned_abs num ≤ 2 ^ 62 }
    requires whole { pos 0 <ℤ den }
    requires den { unsigned_abs den ≤ 2 ^ 62 }
    ensures { result ≡ whole_ratio value.now.number (record { num = num; den = unsigned_abs den }) }
{
    quotient(times(value.num(), den), times(num, value.den()))
}

fn quotient(over: i128, under: i128) -> Option<i128>
    requires positive { pos 0 <ℤ under }
    ensures { result ≡ whole_quotient over under }
{
    if over % under == 0 {
        Some(over / under)
    } else {
        None
    }
}
