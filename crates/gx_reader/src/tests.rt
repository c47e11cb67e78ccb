use crate::Reader;
use gx_expr::{Grid, Value};
use gx_gather::{Rays, ReadError, TextFault};
use gx_link::Input;
use gx_num::V3;
use gx_table::FaultName::{
    Cycle, Direction, DivideByZero, Flat, Half, LongText, Mirror, Name, NoRotation, NoSolid,
    NoVolume, NoWorld, NotAscii, NotAxis, OffGrid, ReplicaFill, SolidKind, Syntax, Tag, TooFar,
    TooWide, Twice, TwoWorlds, UnitKind, UnknownParam, UnknownUnit, Words,
};
use gx_tree::{Hierarchy, Placement};
use std::alloc::Global;
use std::test::Fail;

// A value that takes long to be shown dropped, as a reader or an input, is owned by functions with one way out.

fn millimetre() -> Result<Grid, Fail> {
    let step = Value::new(1, 1, true, false)?;
    Ok(Grid::new(&step).ok_or("a grid")?)
}

// Whether memory sufficed for a text that comes in pieces of so many bytes.
fn fed(reader: &mut Reader, text: &[u8], most: usize) -> bool {
    for piece in text.chunks(most.max(1)) {
        if reader.feed(piece).is_err() {
            return false;
        }
    }
    true
}

// Where memory was wanting, the reader tells it at its end again.
fn read(alloc: Global, grid: Grid, text: &[u8], most: usize) -> Result<Input, ReadError> {
    let mut reader = Reader::new(alloc, grid);
    let _sufficed = fed(&mut reader, text, most);
    reader.finish()
}

fn fault(answer: Result<Input, ReadError>) -> Option<TextFault> {
    match answer {
        Err(ReadError::Text(fault)) => Some(fault),
        _ => None,
    }
}

fn first_fault(alloc: Global, text: &[u8], most: usize) -> Result<Option<TextFault>, Fail> {
    let grid = millimetre()?;
    Ok(fault(read(alloc, grid, text, most)))
}

fn push_points(alloc: Global, text: &mut String, a: V3, b: V3) -> Result<(), Fail> {
    let points = format!(in alloc; " {}:{}:{} {}:{}:{}", a.x, a.y, a.z, b.x, b.y, b.z)?;
    text.push_str(&points)?;
    Ok(())
}

fn push_world(alloc: Global, text: &mut String, tree: &Hierarchy) -> Result<(), Fail> {
    let world = tree.world();
    text.push_str(str::from_utf8(tree.name(world))?)?;
    text.push_str(" ")?;
    text.push_str(str::from_utf8(tree.material(world))?)?;
    let extent = tree.solid(world).hull().extent();
    push_points(alloc, text, extent.low, extent.high)
}

fn push_placement(alloc: Global, text: &mut String, placement: &Placement) -> Result<(), Fail> {
    if let Placement::Single {
        volume,
        copy,
        rotation,
        offset,
    } = placement
    {
        let turn = rotation.index();
        text.push_str(&format!(in alloc; "; single {volume} {copy} {turn}")?)?;
        push_points(alloc, text, *offset, *offset)?;
    }
    Ok(())
}

fn push_placements(alloc: Global, text: &mut String, tree: &Hierarchy) -> Result<(), Fail> {
    for placement in tree.placements(tree.world()) {
        push_placement(alloc, text, placement)?;
    }
    Ok(())
}

fn push_rays(alloc: Global, text: &mut String, rays: &Rays) -> Result<(), Fail> {
    for k in 0..rays.count() {
        let ray = rays.ray(k);
        text.push_str("; ray")?;
        push_points(alloc, text, ray.o, ray.d)?;
    }
    Ok(())
}

// The world's name, material and extent, how many volumes there are, the world's placements and the rays.
fn described(alloc: Global, input: &Input) -> Result<String, Fail> {
    let mut text = String::new(alloc);
    push_world(alloc, &mut text, &input.tree)?;
    text.push_str(&format!(in alloc; "; {} volumes", input.tree.count())?)?;
    push_placements(alloc, &mut text, &input.tree)?;
    push_rays(alloc, &mut text, &input.rays)?;
    Ok(text)
}

fn told(alloc: Global, answer: Result<Input, ReadError>) -> Result<String, Fail> {
    match answer {
        Ok(input) => described(alloc, &input),
        Err(_) => Err("a fault".into()),
    }
}

// By hand: 2 cm are 20 steps of 1 mm, and 1 m is 1000. Tags and kinds are found in any case; rays may come first. An offset
// is written twice.
#[test]
fn a_text_gives_a_hierarchy_and_rays(rt: HostRuntime) -> Result<(), Fail> {
    let text =
        b":P half 2*cm // of x\n:RAY -50 0 7 1 0 0\n:Volu hall box $half 30 16777216 Air\r\n:MATE Lead 82 1/0\n\t:SOLID s BOX 1 2 3\n:ROTM r 0 0 90\n:PLACE bar -3 hall r 4 5 6\n:VOLU bar s Lead\n:RAY 1*m -2 3 $half/5 0 -16777216";
    let grid = millimetre()?;
    let found = told(rt.alloc(), read(rt.alloc(), grid, text, 7))?;
    let wanted =
        "hall Air -20:-30:-16777216 20:30:16777216; 2 volumes; single 1 -3 10 4:5:6 4:5:6; ray -50:0:7 1:0:0; ray 1000:-2:3 4:0:-16777216";
    assert_eq!(rt; found.as_str(), wanted);
    Ok(())
}

// By hand: the line, the word, and what is wrong there.
#[test]
fn each_text_has_its_first_fault(rt: HostRuntime) -> Result<(), Fail> {
    let alloc = rt.alloc();
    let cases = [
        // a line, word by word
        (":FIELD x\n:VOLU world BOX 1 1 1 Air", 1, 1, Tag),
        ("world", 1, 1, Tag),
        (":VOLU world CONS 10 10 10 Air", 1, 3, SolidKind),
        (":VOLU world BOX 10 10 10", 1, 7, Words),
        (":VOLU world BOX 10 1", 1, 6, Words),
        (":VOLU world BOX 10 10 10 Air more", 1, 8, Words),
        (":VOLU wo$ld BOX 1/0 10 10 Air", 1, 2, Name),
        (":VOLU world BOX 10 10 10 :Air", 1, 7, Name),
        (":VOLU w BOX 1 1 1 Air\n:RAY 1 1 1 0 -0 0", 2, 5, Direction),
        (":P a-b 1", 1, 2, Name),
        (":P a 5mm", 1, 3, Syntax),
        (":P a $b\n:P b 1", 1, 3, UnknownParam),
        (":P a 3*rad", 1, 3, UnknownUnit),
        (":VOLU w BOX 1 1/0 x Air", 1, 5, DivideByZero),
        (":VOLU w BOX 1e19 1 1 Air", 1, 4, TooWide),
        (":VOLU w BOX 1 1 3*deg Air", 1, 6, UnitKind),
        (":P d 10\n:VOLU world BOX $d/3 10 10 Air", 2, 4, OffGrid),
        (":VOLU world BOX 16777217 1 1 Air", 1, 4, TooFar),
        (":VOLU v BOX 0 x 1 Air", 1, 4, Half),
        (":SOLID s TRD 0 0 1 1 5", 1, 5, Half),
        (":SOLID s TET 0 0 0 1 0 0 0 1 0 1 1 0", 1, 3, Flat),
        (":ROTM r 0 0 45", 1, 5, NotAxis),
        (":ROTM r 1 0 0 0 1 0 0 0 -1", 1, 3, Mirror),
        (":VOLU world BOX 10 10 10 Air\r ", 1, 29, NotAscii),
        (":P \u{b5} 1", 1, 4, NotAscii),
        ("\n:P a 1/0\n:P \u{b5} 1", 2, 3, DivideByZero),
        // lines together
        (":P a 1\n:P a 2", 2, 2, Twice),
        (":P a 1\n:P a 1*mm", 2, 2, Twice),
        (":VOLU a BOX 1 1 1 Air\n:VOLU a BOX 1 1 1 Air", 2, 2, Twice),
        // names, after all lines
        (":VOLU w s Air", 1, 3, NoSolid),
        (
            ":ROTM r0 0 0 0\n:VOLU w BOX 1 1 1 Air\n:PLACE b 1 w r0 0 0 0",
            3,
            2,
            NoVolume,
        ),
        (
            ":VOLU w BOX 1 1 1 Air\n:PLACE w 1 w r 0 0 0",
            2,
            5,
            NoRotation,
        ),
        (":PLACE b 1 w r 0 0 0\n:P a 1/0", 2, 3, DivideByZero),
        // the hierarchy
        ("", 0, 0, NoWorld),
        (":P a 1 // nothing", 0, 0, NoWorld),
        (
            ":ROTM r0 0 0 0\n:VOLU a BOX 1 1 1 Air\n:PLACE a 1 a r0 0 0 0",
            2,
            2,
            Cycle,
        ),
        (
            ":VOLU a BOX 1 1 1 Air\n:VOLU b BOX 1 1 1 Air",
            2,
            2,
            TwoWorlds,
        ),
        (
            ":VOLU w BOX 10 10 10 Air\n:VOLU c BOX 2 10 10 Lead\n:REPL c w X 5 6",
            3,
            1,
            ReplicaFill,
        ),
    ];
    for (text, line, word, name) in cases {
        let first = TextFault { line, word, name };
        for most in [1usize, 7, 1000] {
            let found = first_fault(alloc, text.as_bytes(), most)?;
            assert_eq!(rt; found, Some(first), "{text:?}, {most} bytes at once");
        }
    }
    Ok(())
}

// Whether memory sufficed for a piece that comes so often.
fn fed_often(reader: &mut Reader, piece: &[u8], count: u32) -> bool {
    for _ in 0..count {
        if reader.feed(piece).is_err() {
            return false;
        }
    }
    true
}

// The first fault of a first piece, a second so often, and a last.
fn fault_of_pieces(
    alloc: Global,
    grid: Grid,
    pieces: (&[u8], &[u8], &[u8]),
    count: u32,
) -> Option<TextFault> {
    let mut reader = Reader::new(alloc, grid);
    let _first = fed_often(&mut reader, pieces.0, 1);
    let _more = fed_often(&mut reader, pieces.1, count);
    let _last = fed_often(&mut reader, pieces.2, 1);
    fault(reader.finish())
}

// By hand: 2^26 - 1 bytes are 1023 pieces of 65,536 and one of 65,535. A text's length is judged before its lines.
#[test]
fn a_text_has_a_most(rt: HostRuntime) -> Result<(), Fail> {
    let alloc = rt.alloc();
    let long = TextFault {
        line: 0,
        word: 0,
        name: LongText,
    };
    let none = TextFault {
        line: 1,
        word: 1,
        name: Tag,
    };
    let lines = vec![in alloc; b'\n'; 65536]?;
    let last = lines.get(1..).ok_or("a line")?;
    for (more, first) in [(b"x".as_slice(), none), (b"xx".as_slice(), long)] {
        let grid = millimetre()?;
        let found = fault_of_pieces(alloc, grid, (more, &lines, last), 1023);
        assert_eq!(rt; found, Some(first));
    }
    Ok(())
}
