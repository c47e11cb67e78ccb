//! Lines fed one by one, with what they declare together worked out by hand.
use crate::{Gathered, Parts, ReadError, TextFault};
use gx_expr::{Grid, Value};
use gx_table::FaultName;
use gx_text::{Line, Lines};
use std::alloc::Global;
use std::process::Abort;
use std::test::Fail;

// A value that takes long to be shown dropped, as what is gathered, is owned by functions with one way out.

fn millimetre() -> Result<Grid, Fail> {
    let one = Value::new(1, 1, true, false)?;
    Ok(Grid::new(&one).ok_or("a grid")?)
}

fn take(gathered: &mut Gathered, line: Option<Line>) -> Result<(), ReadError> {
    match line {
        Some(line) => gathered.take(&line),
        None => Ok(()),
    }
}

fn fed(gathered: &mut Gathered, lines: &mut Lines, text: &[u8]) -> Result<(), ReadError> {
    for byte in text {
        match lines.push(*byte) {
            Ok(line) => take(gathered, line)?,
            Err(error) => return Err(error.into()),
        }
    }
    Ok(())
}

// What a text declares: whether there are solids s and t and a rotation r, the numbers of the volumes s and t, and how many
// lines of volumes and placements and how many rays there are.
#[derive(Clone, Copy, Debug, PartialEq, Eq)]
struct Found {
    solids: (bool, bool),
    turn: bool,
    volumes: (Option<u32>, Option<u32>),
    items: usize,
    rays: u32,
}

fn declared(parts: &Parts) -> Found {
    Found {
        solids: (
            parts.solids.get(b"s").is_some(),
            parts.solids.get(b"t").is_some(),
        ),
        turn: parts.turns.get(b"r").is_some(),
        volumes: (parts.volumes.number(b"s"), parts.volumes.number(b"t")),
        items: parts.items.len(),
        rays: parts.rays.count(),
    }
}

// The fault of a text, or None where memory is wanting.
fn fault(error: ReadError) -> Option<TextFault> {
    match error {
        ReadError::Text(fault) => Some(fault),
        ReadError::NoMemory => None,
    }
}

// What a text declares up to its first fault.
fn gathered(alloc: Global, grid: Grid, text: &[u8]) -> (Found, Result<(), Option<TextFault>>) {
    let mut gathered = Gathered::new(alloc, grid);
    let mut lines = Lines::new(alloc);
    let fed = fed(&mut gathered, &mut lines, text);
    (declared(&gathered.into_parts()), fed.map_err(fault))
}

#[test]
fn lines_are_gathered(rt: HostRuntime) -> Result<(), Fail> {
    let text =
        b":P a 1\n:P a 2/2\n:MATE x\n:SOLID s BOX 1 2 3\n:ROTM r 0 0 0\n:VOLU s s Air\n:PLACE s 1 t r 0 0 0\n:VOLU t BOX $a 1 1 Air\n:RAY 0 0 0 1 0 0\n";
    let (found, fed) = gathered(rt.alloc(), millimetre()?, text);
    assert_eq!(rt; fed, Ok(()));
    let wanted = Found {
        solids: (true, false),
        turn: true,
        volumes: (Some(0), Some(1)),
        items: 3,
        rays: 1,
    };
    assert_eq!(rt; found, wanted);
    Ok(())
}

fn check_fault(
    rt: &impl Abort,
    alloc: Global,
    text: &[u8],
    first: (u32, u32, FaultName),
) -> Result<(), Fail> {
    let (line, word, name) = first;
    let (_, fed) = gathered(alloc, millimetre()?, text);
    assert_eq!(rt; fed, Err(Some(TextFault { line, word, name })));
    Ok(())
}

#[test]
fn lines_that_cannot_stand_together(rt: HostRuntime) -> Result<(), Fail> {
    let cases = [
        (b":P a 1\n:P a 2\n".as_slice(), (2, 2, FaultName::Twice)),
        (
            b":SOLID s BOX 1 1 1\n\n:SOLID s BOX 1 1 1\n",
            (3, 2, FaultName::Twice),
        ),
        (b":ROTM r 0 0 0\n:ROTM r 0 0 0\n", (2, 2, FaultName::Twice)),
        (
            b":VOLU v s Air\n:VOLU v BOX 1 1 1 Air\n",
            (2, 2, FaultName::Twice),
        ),
        (b":P a 1\n:P b $c\n", (2, 3, FaultName::UnknownParam)),
        (b":P a \x7f\n", (1, 6, FaultName::NotAscii)),
    ];
    for (text, first) in cases {
        check_fault(&rt, rt.alloc(), text, first)?;
    }
    Ok(())
}

// 4096 volumes and one of this name.
fn volumes(alloc: Global, last: &str) -> Result<String, Fail> {
    let mut text = String::new(alloc);
    for i in 0..4096u32 {
        text.push_str(&format!(in alloc; ":VOLU v{i} s Air\n")?)?;
    }
    text.push_str(&format!(in alloc; ":VOLU {last} s Air\n")?)?;
    Ok(text)
}

// One more than 4096 volumes; where its name is there too, that is told.
#[test]
fn volumes_have_a_most(rt: HostRuntime) -> Result<(), Fail> {
    let cases = [
        ("v4096", (4097, 1, FaultName::TooMany)),
        ("v7", (4097, 2, FaultName::Twice)),
    ];
    for (last, first) in cases {
        let text = volumes(rt.alloc(), last)?;
        check_fault(&rt, rt.alloc(), text.as_bytes(), first)?;
    }
    Ok(())
}
