//! Lines on a grid of 1 mm where d is 10, with what they declare or their first fault, worked out by hand.
use crate::{Declaration, Form, decl};
use gx_expr::{Grid, Params, Value};
use gx_form::Refusal;
use gx_num::V3;
use gx_table::fault_text;
use gx_text::{Line, LineError, Lines, Name};
use std::alloc::Global;
use std::process::Abort;
use std::test::Fail;

// A value that takes long to be shown dropped, as a line or a declaration, is owned by functions with one way out.

fn millimetre() -> Result<Grid, Fail> {
    let one = Value::new(1, 1, true, false)?;
    Ok(Grid::new(&one).ok_or("a grid")?)
}

fn finished(last: Result<Option<Line>, LineError>) -> Option<Line> {
    match last {
        Ok(line) => line,
        Err(_) => None,
    }
}

// The one line of a text, where it has no fault: a fault is told at the end again.
fn line_of(alloc: Global, text: &[u8]) -> Option<Line> {
    let mut lines = Lines::new(alloc);
    let _taken = lines.take(text).is_ok();
    finished(lines.finish())
}

// d is 10.
fn parameters(alloc: Global, ten: Value) -> Option<Params> {
    let mut params = Params::new(alloc);
    if params.define(b"d", ten).is_ok() {
        Some(params)
    } else {
        None
    }
}

fn push_name(text: &mut String, name: &Name) -> Result<(), Fail> {
    text.push_str(" ")?;
    text.push_str(str::from_utf8(name.bytes())?)?;
    Ok(())
}

fn push_point(alloc: Global, text: &mut String, v: V3) -> Result<(), Fail> {
    text.push_str(&format!(in alloc; " {} {} {}", v.x, v.y, v.z)?)?;
    Ok(())
}

fn push_row(
    alloc: Global,
    text: &mut String,
    count: u32,
    step: i64,
    offset: i64,
) -> Result<(), Fail> {
    text.push_str(&format!(in alloc; " {count} {step} {offset}")?)?;
    Ok(())
}

// The numbers of a form, rows one by one.
fn push_form(alloc: Global, text: &mut String, form: Form) -> Result<(), Fail> {
    match form {
        Form::Single { copy, offset } => {
            text.push_str(&format!(in alloc; " single {copy}")?)?;
            push_point(alloc, text, offset)
        }
        Form::Replica { axis, count, width } => {
            text.push_str(&format!(in alloc; " replica {axis} {count} {width}")?)?;
            Ok(())
        }
        Form::Linear {
            axis,
            count,
            step,
            offset,
        } => {
            text.push_str(&format!(in alloc; " linear {axis}")?)?;
            push_row(alloc, text, count, step, offset)
        }
        Form::Square {
            plane,
            first_count,
            second_count,
            first_step,
            second_step,
            first_offset,
            second_offset,
        } => {
            text.push_str(&format!(in alloc; " square {plane}")?)?;
            push_row(alloc, text, first_count, first_step, first_offset)?;
            push_row(alloc, text, second_count, second_step, second_offset)
        }
    }
}

fn push_names(text: &mut String, what: &str, first: &Name, second: &Name) -> Result<(), Fail> {
    text.push_str(what)?;
    push_name(text, first)?;
    push_name(text, second)
}

fn push(alloc: Global, text: &mut String, declaration: &Declaration) -> Result<(), Fail> {
    match declaration {
        Declaration::Param { name, value } => {
            text.push_str("param")?;
            push_name(text, name)?;
            text.push_str(&format!(in alloc; " {}/{}", value.num(), value.den())?)?;
            Ok(())
        }
        Declaration::Solid { name, solid } => {
            text.push_str(&format!(in alloc; "{:?}", solid.kind())?)?;
            push_name(text, name)
        }
        Declaration::Volume {
            name,
            solid,
            material,
        } => {
            text.push_str(&format!(in alloc; "{:?} ", solid.kind())?)?;
            push_names(text, "volume", name, material)
        }
        Declaration::Named {
            name,
            solid,
            material,
        } => {
            push_names(text, "volume", name, solid)?;
            push_name(text, material)
        }
        Declaration::Place {
            volume,
            mother,
            rotation,
            form,
        } => {
            push_names(text, "place", volume, mother)?;
            if let Some(rotation) = rotation {
                push_name(text, rotation)?;
            }
            push_form(alloc, text, *form)
        }
        Declaration::Turn { name, rotation } => {
            text.push_str(&format!(in alloc; "turn {}", rotation.index())?)?;
            push_name(text, name)
        }
        Declaration::Trace { ray } => {
            text.push_str("trace")?;
            push_point(alloc, text, ray.o)?;
            push_point(alloc, text, ray.d)
        }
        Declaration::Passed => {
            text.push_str("passed")?;
            Ok(())
        }
    }
}

fn described(alloc: Global, declaration: &Declaration) -> Result<String, Fail> {
    let mut text = String::new(alloc);
    push(alloc, &mut text, declaration)?;
    Ok(text)
}

fn told(alloc: Global, answer: Result<Declaration, Refusal>) -> Result<String, Fail> {
    match answer {
        Ok(declaration) => described(alloc, &declaration),
        Err(Refusal::At(fault)) => {
            Ok(format!(in alloc; "{} {}", fault.place, fault_text(fault.name))?)
        }
        Err(Refusal::NoMemory) => Err("no memory".into()),
    }
}

fn declared(alloc: Global, params: &Params, grid: &Grid, text: &[u8]) -> Result<String, Fail> {
    match line_of(alloc, text) {
        Some(line) => told(alloc, decl(alloc, &line, params, grid)),
        None => Err("no line".into()),
    }
}

fn answer(alloc: Global, text: &[u8]) -> Result<String, Fail> {
    let grid = millimetre()?;
    match parameters(alloc, Value::new(10, 1, false, false)?) {
        Some(params) => declared(alloc, &params, &grid, text),
        None => Err("no memory".into()),
    }
}

// Each row is a line and its answer.
fn check(rt: &impl Abort, alloc: Global, table: &str) -> Result<(), Fail> {
    for row in table.lines() {
        let Some((line, wanted)) = row.split_once(" -> ") else {
            return Err("no row".into());
        };
        let found = answer(alloc, line.as_bytes())?;
        assert!(rt; found.as_str() == wanted, "{line}: {}", found.as_str());
    }
    Ok(())
}

#[test]
fn tags_and_parameters(rt: HostRuntime) -> Result<(), Fail> {
    let table = ":FIELD x -> 1 Tag
world -> 1 Tag
:MATE anything $ :goes -> passed
:colour slab 1. 0. 0. -> passed
:CHECK_OVERLAPS -> passed
:P a_1 $d*2 -> param a_1 20/1
:P -> 2 Words
:P a.b 1 -> 2 Name
:P a 1/0 -> 3 DivideByZero
:P a 1 2 -> 4 Words
:RAY 1 -2 3 0 0 4 -> trace 1 -2 3 0 0 4
:RAY 1 2 3 0 0 0 -> 5 Direction
:RAY 1 2 3 0 0 0 0 -> 8 Words";
    check(&rt, rt.alloc(), table)
}

#[test]
fn solids_and_volumes(rt: HostRuntime) -> Result<(), Fail> {
    let table = ":volu world box 1.*cm $d 1 Air -> Cuboid volume world Air
:SOLID s TRD 1 2 1 2 5 -> Trd s
:SOLID $s BOX 1 1 1 -> 2 Name
:SOLID s CONS 1 2 3 -> 3 SolidKind
:SOLID s TRD 0 0 1 1 5 -> 5 Half
:SOLID s TET 0 0 0 1 0 0 0 1 0 1 1 0 -> 3 Flat
:SOLID s TET 0 0 0 1 0 0 0 1 0 1 1 0 5 -> 16 Words
:VOLU v BOX 1 0 1 Air -> 5 Half
:VOLU v BOX 0 x 1 Air -> 4 Half
:VOLU world BOX 1 1 1 -> 7 Words
:VOLU world BOX 10 1 -> 6 Words
:VOLU a sol Air -> volume a sol Air
:VOLU a sol -> 3 SolidKind
:VOLU a :sol Air -> 3 Name
:VOLU v EXTRUDED 4 -10 -10 10 -10 10 10 -10 10 2 -5 0 0 1 5 0 0 1/2 Air -> Extruded volume v Air
:SOLID s EXTRUDED 2 0 -> 4 Count
:SOLID s EXTRUDED 17 0 -> 4 Vertices
:SOLID s EXTRUDED 3 0 0 1 0 2 0 2 0 0 0 1 1 0 0 1 -> 3 Flat
:SOLID s EXTRUDED 3 0 0 1 0 0 1 2 0 0 0 1*mm -> 15 UnitKind
:SOLID s TESSELLATED 4 3 0 0 0 0 4 0 4 0 0 3 0 0 0 4 0 0 0 0 4 3 0 0 0 0 0 4 0 4 0 3 4 0 0 0 4 0 0 0 4 -> Tessellated s
:SOLID s TESSELLATED 1 5 -> 5 Count";
    check(&rt, rt.alloc(), table)
}

#[test]
fn placements(rt: HostRuntime) -> Result<(), Fail> {
    let table = ":PLACE b 1 world r0 -5 0 $d -> place b world r0 single 1 -5 0 10
:PLACE b 1*mm world r0 0 0 0 -> 3 UnitKind
:PLACE b 2147483648 world r0 0 0 0 -> 3 Copies
:PLACE b 1 world r0 0 0 1/2 -> 8 OffGrid
:REPL cell world X 5 4 -> place cell world replica 0 5 4
:REPL cell world Z 5 4 0 -> place cell world replica 2 5 4
:REPL cell world R 5 4 -> 4 Axis
:REPL cell world X 4097 4 -> 5 Copies
:REPL cell world X 5 4 1 -> 7 Copies
:REPL cell world X 5 4 1/3 -> 7 OffGrid
:REPL cell world X 5 4 0 0 -> 8 Words
:PLACE_PARAM slab 1 module LINEAR_X R00 5 20 -40 -> place slab module R00 linear 0 5 20 -40
:PLACE_PARAM a 1 b CIRCLE_X r 2 1 0 -> 5 Axis
:PLACE_PARAM a 1 b LINEAR_X r 3 16777216 0 -> 8 TooFar
:PLACE_PARAM a 1 b LINEAR_X r 3 16777216 0 0 -> 10 Words
:PLACE_PARAM a 1 b square_xz r 2 3 20 30 -4 -5 -> place a b r square 1 2 20 -4 3 30 -5
:PLACE_PARAM a 1 b SQUARE_XY r 64 65 1 1 0 0 -> 8 Copies
:PLACE_PARAM a 1 b SQUARE_XY r 3 3 16777216 16777216 0 0 -> 9 TooFar
:PLACE_PARAM a 1 b SQUARE_XY r 3 3 1 16777216 0 0 -> 10 TooFar";
    check(&rt, rt.alloc(), table)
}

// Number 10 takes x to y and y to -x.
#[test]
fn rotations(rt: HostRuntime) -> Result<(), Fail> {
    let table = ":ROTM r 0 0 90 -> turn 10 r
:ROTM r 90 0 90 90 0 0 -> turn 0 r
:ROTM r 0 -1 0 1 0 0 0 0 1 -> turn 10 r
:ROTM r 0 0 45 -> 5 NotAxis
:ROTM r 0 0 1*mm -> 5 UnitKind
:ROTM r 0 0 -> 5 Words
:ROTM r 1 0 0 0 1 0 0 0 -1 -> 3 Mirror
:ROTM r 1 0 0 0 1 0 0 0 2 -> 11 NotAxis
:ROTM r 1 0 0 0 1 0 0 0 1*deg -> 11 UnitKind
:ROTM r 1 0 0 0 1 0 0 0 1 0 -> 12 Words";
    check(&rt, rt.alloc(), table)
}
