ghost use Rattle.std.specs.Prelude.{◌≡◌, ◌≤◌, ◌<◌, ◌*◌, IfOk, IsTrue};
ghost use Rattle.gx_form.specs.Form.{Exactly, Reads};
ghost use Rattle.gx_decl.specs.Placements as spec;
ghost use Rattle.gx_decl.specs.Range.{IsInRange, IsForm, IsNear, IsCount, IsGiven, IsRow};

use crate::declaration::{Declaration, Form};
use crate::ray::vector;
use crate::words::Words;
use gx_form::{Fault, Refusal};
use gx_param::reaches;
use gx_table::{Entry, FaultName, entry};

const AXES: [Entry; 3] = [entry!(b"X", 0), entry!(b"Y", 1), entry!(b"Z", 2)];

const ROW_KINDS: [Entry; 6] = [
    entry!(b"LINEAR_X", 0),
    entry!(b"LINEAR_Y", 1),
    entry!(b"LINEAR_Z", 2),
    entry!(b"SQUARE_XY", 3),
    entry!(b"SQUARE_XZ", 4),
    entry!(b"SQUARE_YZ", 5),
];

// ---- `:PLACE`

/// `:PLACE` VOL COPY MOTHER ROT X Y Z.
pub fn place(words: &mut Words<'_>) -> Result<Declaration, Refusal>
    ensures reads { Reads (spec.place words.old) result words.new }
    ensures range { IfOk result IsInRange }
{
    let volume = words.name()?;
    let copy = copy_number(words)?;
    let mother = words.name()?;
    let rotation = words.name()?;
    let offset = vector(words)?;
    words.end()?;
    Ok(Declaration::Place {
        volume,
        mother,
        rotation: Some(rotation),
        form: Form::Single { copy, offset },
    })
}

fn copy_number(words: &mut Words<'_>) -> Result<i32, Fault>
    ensures { Exactly (spec.copy_number words.old) result words.new }
{
    let number = words.number(-2147483648, 2147483647, FaultName::Copies)?;
    Ok(number as i32)
}

// ---- `:REPL`

/// `:REPL` VOL MOTHER AXIS N WIDTH [OFFSET].
pub fn repl(words: &mut Words<'_>) -> Result<Declaration, Refusal>
    ensures reads { Reads (spec.repl words.old) result words.new }
    ensures range { IfOk result IsInRange }
{
    let volume = words.name()?;
    let mother = words.name()?;
    let axis = axis(words)?;
    let count = copies(words)?;
    let width = words.steps()?;
    offset_if_any(words)?;
    words.end()?;
    Ok(Declaration::Place {
        volume,
        mother,
        rotation: None,
        form: Form::Replica { axis, count, width },
    })
}

fn axis(words: &mut Words<'_>) -> Result<u8, Fault>
    ensures reads { Exactly (spec.axis words.old) result words.new }
    ensures below { IfOk result (λ axis. axis < 3) }
{
    words.row(&AXES, FaultName::Axis)
}

fn copies(words: &mut Words<'_>) -> Result<u32, Fault>
    ensures reads { Exactly (spec.copies words.old) result words.new }
    ensures count { IfOk result IsCount }
{
    let count = words.number(1, 4096, FaultName::Copies)?;
    Ok(count as u32)
}

fn offset_if_any(words: &mut Words<'_>) -> Result<(), Fault>
    ensures { Exactly (spec.offset_if_any words.old) result words.new }
{
    if words.left() == 0 {
        return Ok(());
    }
    zero_offset(words)
}

fn zero_offset(words: &mut Words<'_>) -> Result<(), Fault>
    ensures { Exactly (spec.zero_offset words.old) result words.new }
{
    if words.steps()? != 0 {
        return Err(words.last_fault(FaultName::Copies));
    }
    Ok(())
}

// ---- `:PLACE_PARAM`

/// `:PLACE_PARAM` VOL COPY MOTHER, a kind of row, ROT and what the kind wants.
pub fn place_param(words: &mut Words<'_>) -> Result<Declaration, Refusal>
    ensures reads { Reads (spec.place_param words.old) result words.new }
    ensures range { IfOk result IsInRange }
{
    let volume = words.name()?;
    copy_number(words)?;
    let mother = words.name()?;
    let kind = row_kind(words)?;
    let rotation = words.name()?;
    let form = rows(words, kind)?;
    Ok(Declaration::Place {
        volume,
        mother,
        rotation: Some(rotation),
        form,
    })
}

fn row_kind(words: &mut Words<'_>) -> Result<u8, Fault>
    ensures reads { Exactly (spec.row_kind words.old) result words.new }
    ensures below { IfOk result (λ kind. kind < 6) }
{
    words.row(&ROW_KINDS, FaultName::Axis)
}

fn rows(words: &mut Words<'_>, kind: u8) -> Result<Form, Fault>
    requires { kind < 6 }
    ensures reads { Exactly (spec.rows kind words.old) result words.new }
    ensures form { IfOk result IsForm }
{
    if kind < 3 {
        linear(words, kind)
    } else {
        square(words, kind - 3)
    }
}

// How many copies, and where.
#[derive(Clone, Copy)]
struct Row {
    count: u32,
    step: i64,
    offset: i64,
}

// N STEP OFFSET.
fn linear(words: &mut Words<'_>, axis: u8) -> Result<Form, Fault>
    requires { axis < 3 }
    ensures reads { Exactly (spec.linear axis words.old) result words.new }
    ensures form { IfOk result IsForm }
{
    let row = one_row(words)?;
    words.end()?;
    reaches_at(words, 8, row)?;
    Ok(Form::Linear {
        axis,
        count: row.count,
        step: row.step,
        offset: row.offset,
    })
}

// N1 N2 STEP1 STEP2 OFFSET1 OFFSET2.
fn square(words: &mut Words<'_>, plane: u8) -> Result<Form, Fault>
    requires { plane < 3 }
    ensures reads { Exactly (spec.square plane words.old) result words.new }
    ensures form { IfOk result IsForm }
{
    let (first, second) = two_rows(words)?;
    words.end()?;
    reaches_at(words, 9, first)?;
    reaches_at(words, 10, second)?;
    Ok(Form::Square {
        plane,
        first_count: first.count,
        second_count: second.count,
        first_step: first.step,
        second_step: second.step,
        first_offset: first.offset,
        second_offset: second.offset,
    })
}

fn one_row(words: &mut Words<'_>) -> Result<Row, Fault>
    ensures reads { Exactly (spec.one_row words.old) result words.new }
    ensures given { IfOk result IsGiven }
{
    Ok(Row {
        count: copies(words)?,
        step: words.steps()?,
        offset: words.steps()?,
    })
}

fn two_rows(words: &mut Words<'_>) -> Result<(Row, Row), Fault>
    ensures reads { Exactly (spec.two_rows words.old) result words.new }
    ensures first { IfOk result (λ rows. IsGiven rows.0) }
    ensures second { IfOk result (λ rows. IsGiven rows.1) }
    ensures few { IfOk result (λ rows. rows.0.count * rows.1.count ≤ 4096) }
{
    let first_count = copies(words)?;
    let second_count = rows_of(words, first_count)?;
    let first_step = words.steps()?;
    let second_step = words.steps()?;
    let first = Row {
        count: first_count,
        step: first_step,
        offset: words.steps()?,
    };
    let second = Row {
        count: second_count,
        step: second_step,
        offset: words.steps()?,
    };
    Ok((first, second))
}

// How many rows of so many copies.
fn rows_of(words: &mut Words<'_>, first_count: u32) -> Result<u32, Fault>
    requires { IsCount first_count }
    ensures reads { Exactly (spec.rows_of first_count words.old) result words.new }
    ensures count { IfOk result IsCount }
    ensures few { IfOk result (λ n. first_count * n ≤ 4096) }
{
    let second_count = copies(words)?;
    if first_count * second_count > 4096 {
        return Err(words.last_fault(FaultName::Copies));
    }
    Ok(second_count)
}

// A row that doesn't reach is a fault at the word of its step.
fn reaches_at(words: &mut Words<'_>, place: u32, row: Row) -> Result<(), Fault>
    requires { IsGiven row }
    ensures reads { Exactly (spec.reaches_at place row words.old) result words.new }
    ensures row { IfOk result (λ _. IsRow row.count row.step row.offset) }
{
    if !does_reach(row.count, row.step, row.offset) {
        return Err(Fault {
            place,
            name: FaultName::TooFar,
        });
    }
    Ok(())
}

fn does_reach(count: u32, step: i64, offset: i64) -> bool
    requires count { IsCount count }
    requires step { IsNear step }
    requires offset { IsNear offset }
    ensures value { result ≡ spec.does_reach count step offset }
    ensures row { IsTrue result → IsRow count step offset }
{
    reaches(count, step, offset)
}
