ghost use Rattle.std.specs.Prelude.{◌≡◌};
ghost use Rattle.std.specs.Option.{option_map};
ghost use Rattle.gx_expr.specs.Unit.{value_of, value_of_unit, unit_in};

use crate::{ExprFault, Value};
use gx_table::{Entry, entry};

// A unit's name, its value as a fraction of millimetres or degrees, and whether it is an angle.
#[derive(Clone, Copy)]
pub struct Unit {
    pub name: Entry,
    pub num: u32,
    pub den: u32,
    pub angle: bool,
}

macro_rules! unit {
    ($name:literal, $num:literal, $den:literal, $angle:literal) => {
        Unit {
            name: entry!($name, 0),
            num: $num,
            den: $den,
            angle: $angle,
        }
    };
}

const UNITS: [Unit; 15] = [
    unit!(b"mm", 1, 1, false),
    unit!(b"millimeter", 1, 1, false),
    unit!(b"cm", 10, 1, false),
    unit!(b"centimeter", 10, 1, false),
    unit!(b"m", 1000, 1, false),
    unit!(b"meter", 1000, 1, false),
    unit!(b"km", 1000000, 1, false),
    unit!(b"kilometer", 1000000, 1, false),
    unit!(b"um", 1, 1000, false),
    unit!(b"micrometer", 1, 1000, false),
    unit!(b"nm", 1, 1000000, false),
    unit!(b"nanometer", 1, 1000000, false),
    unit!(b"angstrom", 1, 10000000, false),
    unit!(b"deg", 1, 1, true),
    unit!(b"degree", 1, 1, true),
];

#[tactic(auto, using(crate::proofs::Casts::small))]
impl Unit {
    fn value(&self) -> Result<Value, ExprFault>
        ensures { result ≡ value_of self.now }
    {
        Value::new(
            i128::from(self.num),
            i128::from(self.den),
            !self.angle,
            self.angle,
        )
    }
}

// A word's length or angle.
pub fn unit_value(word: &[u8]) -> Result<Value, ExprFault>
    ensures { result ≡ value_of_unit word.now }
{
    value_in(&UNITS, word).unwrap_or(Err(ExprFault::UnknownUnit))
}

// The value of the unit of this name, in any case of its letters.
fn value_in<const N: usize>(units: &[Unit; N], word: &[u8]) -> Option<Result<Value, ExprFault>>
    ensures { result ≡ option_map value_of (unit_in units.now word.now) }
{
    let unit = units.iter().find(|unit| unit.name.same(word))?;
    Some(unit.value())
}
