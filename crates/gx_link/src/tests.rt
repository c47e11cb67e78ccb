//! Texts on a grid of 1 mm, with the volumes that they make or their first fault, worked out by hand.
use crate::{Input, input_from};
use gx_expr::{Grid, Value};
use gx_gather::{Gathered, ReadError};
use gx_table::fault_text;
use gx_text::{Line, LineError, Lines};
use gx_tree::Hierarchy;
use std::alloc::Global;
use std::process::Abort;
use std::test::Fail;

// A value that takes long to be shown dropped, as what is gathered or a hierarchy, is owned by functions with one way out.

fn millimetre() -> Result<Grid, Fail> {
    let one = Value::new(1, 1, true, false)?;
    Ok(Grid::new(&one).ok_or("a grid")?)
}

fn take(gathered: &mut Gathered, line: Option<Line>) -> bool {
    match line {
        Some(line) => gathered.take(&line).is_ok(),
        None => true,
    }
}

// Whether the lines are without a fault.
fn fed(gathered: &mut Gathered, lines: &mut Lines, text: &[u8]) -> bool {
    for byte in text {
        match lines.push(*byte) {
            Ok(line) => {
                if !take(gathered, line) {
                    return false;
                }
            }
            Err(_) => return false,
        }
    }
    true
}

fn ended(gathered: &mut Gathered, last: Result<Option<Line>, LineError>) -> bool {
    match last {
        Ok(line) => take(gathered, line),
        Err(_) => false,
    }
}

// What a text makes, none of whose lines has a fault.
fn read(alloc: Global, grid: Grid, text: &[u8]) -> Result<Input, ReadError> {
    let mut gathered = Gathered::new(alloc, grid);
    let mut lines = Lines::new(alloc);
    let fed = fed(&mut gathered, &mut lines, text);
    let ended = ended(&mut gathered, lines.finish());
    if fed && ended {
        input_from(alloc, gathered)
    } else {
        Err(ReadError::NoMemory)
    }
}

// The name, the material and the daughters of a volume.
fn push_volume(alloc: Global, text: &mut String, tree: &Hierarchy, v: u32) -> Result<(), Fail> {
    if v < tree.count() {
        text.push_str(str::from_utf8(tree.name(v))?)?;
        text.push_str(" ")?;
        text.push_str(str::from_utf8(tree.material(v))?)?;
        for k in 0..tree.instances(v) {
            let daughter = tree.instance(v, k);
            text.push_str(&format!(in alloc; " {}:{}", daughter.volume, daughter.copy)?)?;
        }
        text.push_str("; ")?;
    }
    Ok(())
}

fn counts(alloc: Global, input: &Input) -> Result<String, Fail> {
    let world = input.tree.world();
    Ok(format!(in alloc; "{} volumes, world {world}", input.tree.count())?)
}

fn described(alloc: Global, input: &Input) -> Result<String, Fail> {
    let mut text = String::new(alloc);
    for v in 0..input.tree.count() {
        push_volume(alloc, &mut text, &input.tree, v)?;
    }
    let world = input.tree.world();
    text.push_str(&format!(in alloc; "world {world}, rays {}", input.rays.count())?)?;
    Ok(text)
}

fn told(alloc: Global, answer: Result<Input, ReadError>, whole: bool) -> Result<String, Fail> {
    match answer {
        Ok(input) => {
            if whole {
                described(alloc, &input)
            } else {
                counts(alloc, &input)
            }
        }
        Err(ReadError::Text(fault)) => {
            let name = fault_text(fault.name);
            Ok(format!(in alloc; "fault {} {} {name}", fault.line, fault.word)?)
        }
        Err(ReadError::NoMemory) => Err("no memory".into()),
    }
}

fn answer(alloc: Global, text: &[u8]) -> Result<String, Fail> {
    let grid = millimetre()?;
    told(alloc, read(alloc, grid, text), true)
}

// The same, and of a hierarchy only how many volumes it has and which is the world.
fn counted(alloc: Global, text: &[u8]) -> Result<String, Fail> {
    let grid = millimetre()?;
    told(alloc, read(alloc, grid, text), false)
}

fn check(rt: &impl Abort, alloc: Global, rows: &[(&str, &str)]) -> Result<(), Fail> {
    for (text, wanted) in rows {
        let answer = answer(alloc, text.as_bytes())?;
        assert_eq!(rt; answer.as_str(), *wanted, "{text}");
    }
    Ok(())
}

// Names are resolved once all lines are read, so a line may stand before those that it names.
#[test]
fn names(rt: HostRuntime) -> Result<(), Fail> {
    let rows = [
        (
            ":PLACE b 7 world r0 1 0 0\n:VOLU b block Lead\n:VOLU world BOX 9 9 9 Air\n:SOLID block BOX 1 1 1\n:ROTM r0 0 0 0\n:RAY 0 0 0 1 0 0",
            "b Lead; world Air 0:7; world 1, rays 1",
        ),
        (
            ":VOLU world block Air\n:PLACE b 1 c r0 0 0 0",
            "fault 1 3 NoSolid",
        ),
        // A volume's name isn't a solid's, nor the other way round.
        (
            ":VOLU world BOX 1 1 1 Air\n:VOLU b world Air",
            "fault 2 3 NoSolid",
        ),
        (
            ":ROTM r0 0 0 0\n:VOLU world BOX 1 1 1 Air\n:PLACE b 1 world r0 0 0 0",
            "fault 3 2 NoVolume",
        ),
        (
            ":VOLU world BOX 1 1 1 Air\n:PLACE world 1 b r1 0 0 0",
            "fault 2 4 NoVolume",
        ),
        (
            ":VOLU world BOX 1 1 1 Air\n:PLACE world 1 world r1 0 0 0",
            "fault 2 5 NoRotation",
        ),
        (
            ":VOLU world BOX 1 1 1 Air\n:REPL b c X 1 2",
            "fault 2 2 NoVolume",
        ),
        (
            ":VOLU world BOX 1 1 1 Air\n:REPL world c X 1 2",
            "fault 2 3 NoVolume",
        ),
        (
            ":VOLU world BOX 1 1 1 Air\n:PLACE_PARAM world 1 c LINEAR_X r1 1 0 0",
            "fault 2 4 NoVolume",
        ),
        (
            ":VOLU world BOX 1 1 1 Air\n:PLACE_PARAM world 1 world LINEAR_X r1 1 0 0",
            "fault 2 6 NoRotation",
        ),
        // Each placement goes into its mother, in the order of the lines.
        (
            ":ROTM r0 0 0 0\n:VOLU a BOX 9 9 9 Air\n:VOLU b BOX 4 4 4 Lead\n:VOLU c BOX 1 1 1 Wax\n:PLACE c 5 b r0 0 0 0\n:PLACE b 3 a r0 0 0 0\n:PLACE_PARAM c 1 b LINEAR_X r0 2 1 0\n:PLACE c 4 a r0 0 0 0",
            "a Air 1:3 2:4; b Lead 2:5 2:0 2:1; c Wax; world 0, rays 0",
        ),
    ];
    check(&rt, rt.alloc(), &rows)
}

#[test]
fn faults_of_the_hierarchy(rt: HostRuntime) -> Result<(), Fail> {
    let rows = [
        ("", "fault 0 0 NoWorld"),
        (
            ":ROTM r0 0 0 0\n:VOLU a BOX 1 1 1 Air\n:PLACE a 1 a r0 0 0 0",
            "fault 2 2 Cycle",
        ),
        (
            ":VOLU a BOX 1 1 1 Air\n// a second world\n:VOLU b BOX 1 1 1 Air",
            "fault 3 2 TwoWorlds",
        ),
        (
            ":VOLU world BOX 10 10 10 Air\n:VOLU cell BOX 2 10 10 Lead\n:REPL cell world X 5 4",
            "world Air 1:0 1:1 1:2 1:3 1:4; cell Lead; world 0, rays 0",
        ),
        (
            ":VOLU world BOX 10 10 10 Air\n:VOLU cell BOX 2 10 10 Lead\n:REPL cell world X 5 6",
            "fault 3 1 ReplicaFill",
        ),
        // The replica is the second of its mother, and the third of all.
        (
            ":ROTM r0 0 0 0\n:VOLU world BOX 9 9 9 Air\n:VOLU a BOX 4 4 4 Air\n:VOLU b BOX 2 4 4 Air\n:PLACE a 1 world r0 0 0 0\n:PLACE b 1 a r0 0 0 0\n:REPL b a X 2 4",
            "fault 7 1 ReplicaMixed",
        ),
        (
            ":ROTM r0 0 0 0\n:VOLU world BOX 9 9 9 Air\n:VOLU a TRD 4 4 4 4 4 Air\n:VOLU b BOX 2 4 4 Air\n:PLACE a 1 world r0 0 0 0\n:REPL b a X 2 4",
            "fault 6 1 ReplicaSolid",
        ),
    ];
    check(&rt, rt.alloc(), &rows)
}

// So many volumes, each but the first placed in the one before.
fn chain(alloc: Global, count: u32) -> Result<String, Fail> {
    let mut text = String::new(alloc);
    for k in 0..count {
        text.push_str(&format!(in alloc; ":VOLU v{k} BOX 1 1 1 Air\n")?)?;
    }
    text.push_str(":ROTM r0 0 0 0\n")?;
    for k in 1..count {
        text.push_str(&format!(in alloc; ":PLACE v{k} 1 v{} r0 0 0 0\n", k - 1)?)?;
    }
    Ok(text)
}

#[test]
fn a_chain_of_33_placements_is_too_deep(rt: HostRuntime) -> Result<(), Fail> {
    let alloc = rt.alloc();
    for (count, wanted) in [(34, "fault 34 2 TooDeep"), (33, "33 volumes, world 0")] {
        let text = chain(alloc, count)?;
        assert_eq!(rt; counted(alloc, text.as_bytes())?.as_str(), wanted);
    }
    Ok(())
}

// So many mothers with 4096 daughters each, on the lines from 3 on.
fn mothers(alloc: Global, count: u32) -> Result<String, Fail> {
    let mut text = String::new(alloc);
    text.push_str(":ROTM r0 0 0 0\n:VOLU d BOX 1 1 1 Air\n")?;
    for k in 0..count {
        text.push_str(&format!(in alloc; ":VOLU m{k} BOX 1 1 1 Air\n")?)?;
        text.push_str(&format!(in alloc; ":PLACE_PARAM d 1 m{k} SQUARE_XY r0 64 64 0 0 0 0\n")?)?;
    }
    Ok(text)
}

// So many mothers, and then these lines.
fn mothers_and(alloc: Global, count: u32, more: &str) -> Result<String, Fail> {
    let mut text = mothers(alloc, count)?;
    text.push_str(more)?;
    Ok(text)
}

#[test]
fn too_many_daughters(rt: HostRuntime) -> Result<(), Fail> {
    let alloc = rt.alloc();
    let rows = [
        (1, "", "2 volumes, world 1"),
        // The 4097th of one mother. Another mother's daughters don't count.
        (
            1,
            ":VOLU n BOX 1 1 1 Air\n:PLACE m0 1 n r0 0 0 0\n:PLACE d 1 m0 r0 0 0 0\n",
            "fault 7 1 TooMany",
        ),
        // 16 mothers have 65536 daughters, which are judged before worlds are; one more anywhere is too many.
        (16, "", "fault 5 2 TwoWorlds"),
        (
            16,
            ":VOLU n BOX 1 1 1 Air\n:PLACE m0 1 n r0 0 0 0\n",
            "fault 36 1 TooMany",
        ),
    ];
    for (count, more, wanted) in rows {
        let text = mothers_and(alloc, count, more)?;
        assert_eq!(rt; counted(alloc, text.as_bytes())?.as_str(), wanted, "{more}");
    }
    Ok(())
}
