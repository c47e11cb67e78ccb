ghost use Rattle.std.specs.Prelude.{◌≡◌, ◌≤ℤ◌, pos, negsuc, IfOk};
ghost use Rattle.gx_form.specs.Form.{Exactly, Reads};
ghost use Rattle.gx_decl.specs.Turns as spec;
ghost use Rattle.gx_decl.specs.Range.{IsInRange};

use crate::declaration::Declaration;
use crate::words::{Words, whole};
use gx_expr::WholeFault;
use gx_form::{Fault, Refusal};
use gx_rotation::{Rotation, RotationFault, from_angles3, from_angles6, from_matrix9};
use gx_table::FaultName;

/// `:ROTM` NAME and 3, 6 or 9 values.
pub fn rotm(words: &mut Words<'_>) -> Result<Declaration, Refusal>
    ensures reads { Reads (spec.rotm words.old) result words.new }
    ensures range { IfOk result IsInRange }
{
    let name = words.name()?;
    let rotation = values(words)?;
    Ok(Declaration::Turn { name, rotation })
}

fn values(words: &mut Words<'_>) -> Result<Rotation, Fault>
    ensures { Exactly (spec.values words.old) result words.new }
{
    match words.left() {
        0..=3 => angles3(words),
        4..=6 => angles6(words),
        _ => matrix9(words),
    }
}

fn angles3(words: &mut Words<'_>) -> Result<Rotation, Fault>
    ensures { Exactly (spec.angles3 words.old) result words.new }
{
    let angles = [words.quarters()?, words.quarters()?, words.quarters()?];
    words.end()?;
    turned(words, from_angles3(angles))
}

fn angles6(words: &mut Words<'_>) -> Result<Rotation, Fault>
    ensures { Exactly (spec.angles6 words.old) result words.new }
{
    let angles = [
        words.quarters()?,
        words.quarters()?,
        words.quarters()?,
        words.quarters()?,
        words.quarters()?,
        words.quarters()?,
    ];
    words.end()?;
    turned(words, from_angles6(angles))
}

fn matrix9(words: &mut Words<'_>) -> Result<Rotation, Fault>
    ensures { Exactly (spec.matrix9 words.old) result words.new }
{
    let entries = [
        entry(words)?,
        entry(words)?,
        entry(words)?,
        entry(words)?,
        entry(words)?,
        entry(words)?,
        entry(words)?,
        entry(words)?,
        entry(words)?,
    ];
    words.end()?;
    turned(words, from_matrix9(entries))
}

// An entry of a matrix, where it is -1, 0 or 1.
fn entry(words: &mut Words<'_>) -> Result<Option<i8>, Fault>
    ensures { Exactly (spec.entry words.old) result words.new }
{
    let value = words.expression()?;
    match whole(&value, -1, 1) {
        Ok(number) => Ok(Some(number as i8)),
        Err(WholeFault::UnitKind) => Err(words.last_fault(FaultName::UnitKind)),
        Err(WholeFault::Range) => Ok(None),
    }
}

// A fault of the values stands at the value's word, of which the first is word 3.
fn turned(
    words: &mut Words<'_>,
    rotation: Result<Rotation, RotationFault>,
) -> Result<Rotation, Fault>
    ensures { Exactly (spec.turned rotation words.old) result words.new }
{
    match rotation {
        Ok(rotation) => Ok(rotation),
        Err(RotationFault::NotAxis(place)) => Err(Fault {
            place: u32::from(place) + 3,
            name: FaultName::NotAxis,
        }),
        Err(RotationFault::Mirror) => Err(Fault {
            place: 3,
            name: FaultName::Mirror,
        }),
    }
}
