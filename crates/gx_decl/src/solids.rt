ghost use Rattle.std.specs.Prelude.{◌≡◌, ◌≤◌, ◌<ℤ◌, ◌^◌, pos, unsigned_abs, IfOk, IsTrue};
ghost use Rattle.gx_text.specs.Names.{is_name_of};
ghost use Rattle.gx_form.specs.Form.{Exactly, Reads};
ghost use Rattle.gx_shapes.specs.Accepted.{IsFigure, IsSolid};
ghost use Rattle.gx_shapes.specs.Figure.{figure_in};
ghost use Rattle.gx_shapes.specs.Solid.{kind_of as kind_of_figure};
ghost use Rattle.gx_decl.specs.Solids as spec;
ghost use Rattle.gx_decl.specs.Range.{IsInRange, IsName};

use crate::declaration::Declaration;
use crate::words::Words;
use gx_expr::Value;
use gx_form::{Fault, Refusal};
use gx_hull::Solid;
use gx_shapes::{Figure, Scale, SolidFault, SolidKind};
use gx_solids::{Values, read_figure, seal};
use gx_table::{Entry, FaultName, entry};
use gx_text::Name;

/// `:SOLID` NAME KIND values.
pub fn solid(words: &mut Words<'_>) -> Result<Declaration, Refusal>
    ensures reads { Reads (spec.solid words.old) result words.new }
    ensures range { IfOk result IsInRange }
{
    let name = words.name()?;
    let kind = kind(words)?;
    let figure = figure(words, kind)?;
    words.end()?;
    let solid = made(words, figure)?;
    Ok(Declaration::Solid { name, solid })
}

/// `:VOLU` NAME, and a solid's name or a solid by the number of words after it.
pub fn volume(words: &mut Words<'_>) -> Result<Declaration, Refusal>
    ensures reads { Reads (spec.volume words.old) result words.new }
    ensures range { IfOk result IsInRange }
{
    let name = words.name()?;
    if words.left() == 2 {
        of_name(words, name)
    } else {
        of_kind(words, name)
    }
}

// SOLIDNAME MATERIAL.
fn of_name(words: &mut Words<'_>, name: Name) -> Result<Declaration, Refusal>
    requires { IsName name }
    ensures reads { Reads (spec.of_name name words.old) result words.new }
    ensures range { IfOk result IsInRange }
{
    let solid = words.name()?;
    let material = words.name()?;
    words.end()?;
    Ok(Declaration::Named {
        name,
        solid,
        material,
    })
}

// KIND values MATERIAL.
fn of_kind(words: &mut Words<'_>, name: Name) -> Result<Declaration, Refusal>
    requires { IsName name }
    ensures reads { Reads (spec.of_kind name words.old) result words.new }
    ensures range { IfOk result IsInRange }
{
    let kind = kind(words)?;
    let figure = figure(words, kind)?;
    let material = words.name()?;
    words.end()?;
    let solid = made(words, figure)?;
    Ok(Declaration::Volume {
        name,
        solid,
        material,
    })
}

// ---- kinds

const KINDS: [Entry; 5] = [
    entry!(b"BOX", 0),
    entry!(b"TRD", 1),
    entry!(b"TET", 2),
    entry!(b"EXTRUDED", 3),
    entry!(b"TESSELLATED", 4),
];

fn kind(words: &mut Words<'_>) -> Result<SolidKind, Fault>
    ensures { Exactly (spec.kind words.old) result words.new }
{
    let number = words.row(&KINDS, FaultName::SolidKind)?;
    Ok(kind_of(number))
}

fn kind_of(number: u8) -> SolidKind
    ensures { result ≡ spec.kind_of number }
{
    match number {
        0 => SolidKind::Cuboid,
        1 => SolidKind::Trd,
        2 => SolidKind::Tet,
        3 => SolidKind::Extruded,
        _ => SolidKind::Tessellated,
    }
}

// ---- values

impl<'a> Values for Words<'a> {
    ghost use Rattle.gx_decl.specs.Solids as spec;

    ghost source = { spec.of_words };

    fn length(&mut self) -> Result<i64, Fault> {
        self.steps()
    }

    fn whole(&mut self, low: i64, high: i64, range: FaultName) -> Result<i64, Fault> {
        self.number(low, high, range)
    }

    fn scale(&mut self) -> Result<Scale, Fault> {
        let value = self.expression()?;
        scale_of(self, &value)
    }

    fn fault(&self, name: FaultName) -> Fault {
        self.last_fault(name)
    }
}

fn scale_of(words: &Words<'_>, value: &Value) -> Result<Scale, Fault>
    ensures reads { Exactly (spec.scale_of value.now words.now) result words.now }
    ensures positive { IfOk result (λ scale. pos 0 <ℤ scale.den) }
{
    if value.length() || value.angle() {
        return Err(words.last_fault(FaultName::UnitKind));
    }
    Ok(Scale {
        num: value.num() as i64,
        den: value.den() as i64,
    })
}

fn figure(words: &mut Words<'_>, kind: SolidKind) -> Result<Figure, Refusal>
    ensures reads { Reads (figure_in spec.of_words kind words.old) result words.new }
    ensures figure { IfOk result IsFigure }
{
    read_figure(words.alloc(), kind, words)
}

// The fault of a whole solid stands at its kind.
fn made(words: &mut Words<'_>, figure: Figure) -> Result<Solid, Refusal>
    requires { IsFigure figure }
    ensures reads { Reads (spec.made figure words.old) result words.new }
    ensures solid { IfOk result IsSolid }
{
    match seal(words.alloc(), figure) {
        Ok(solid) => Ok(solid),
        Err(SolidFault::At(_, name) | SolidFault::Whole(name)) => Err(Refusal::At(Fault {
            place: 3,
            name,
        })),
        Err(SolidFault::NoMemory) => Err(Refusal::NoMemory),
    }
}
