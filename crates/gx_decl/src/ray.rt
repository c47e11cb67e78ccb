ghost use Rattle.std.specs.Prelude.{◌≡◌, IfOk, unsigned_abs};
ghost use Rattle.gx_num.specs.Vector.{IsWithin};
ghost use Rattle.gx_num.specs.declared.vector.TheConstants.{M};
ghost use Rattle.gx_form.specs.Form.{Exactly, Reads};
ghost use Rattle.gx_decl.specs.Lines as spec;
ghost use Rattle.gx_decl.specs.Range.{IsInRange};

use crate::declaration::Declaration;
use crate::words::Words;
use gx_form::{Fault, Refusal};
use gx_num::{Ray, V3};
use gx_table::FaultName;

/// `:RAY` X Y Z DX DY DZ.
pub fn ray(words: &mut Words<'_>) -> Result<Declaration, Refusal>
    ensures reads { Reads (spec.ray words.old) result words.new }
    ensures range { IfOk result IsInRange }
{
    let o = vector(words)?;
    let d = vector(words)?;
    words.end()?;
    if is_zero(d) {
        return Err(Refusal::At(Fault {
            place: 5,
            name: FaultName::Direction,
        }));
    }
    Ok(Declaration::Trace { ray: Ray { o, d } })
}

/// Three lengths.
pub fn vector(words: &mut Words<'_>) -> Result<V3, Fault>
    ensures reads { Exactly (spec.vector words.old) result words.new }
    ensures within { IfOk result (IsWithin (unsigned_abs M)) }
{
    Ok(V3 {
        x: words.steps()?,
        y: words.steps()?,
        z: words.steps()?,
    })
}

fn is_zero(v: V3) -> bool
    ensures { result ≡ spec.is_zero v }
{
    v.x == 0 && v.y == 0 && v.z == 0
}
