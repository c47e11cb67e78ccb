//! Runs over sources and sinks in memory, with outputs worked out by hand, and one call of each public function below.
use crate::{Status, counted, exit_code};
use gx_fraction::Frac;
use gx_gather::{ReadError, TextFault};
use gx_io::{MemSink, MemSource};
use gx_num::{V3, cmp_products, gcd, sign};
use gx_table::FaultName;
use gx_text::{LineError, LineFault, Lines, Name, is_name};
use std::alloc::Global;
use std::cmp::Ordering;
use std::marker::Brand;
use std::process::Abort;
use std::sync::ledger::Blank;
use std::test::Fail;

const TRACE: [&str; 2] = ["trace", "--grid=1*mm"];

const WORLD: &str = ":VOLU world BOX 10 10 10 Air\n";

// What a run is given, and what it must write.
#[derive(Clone, Copy)]
struct Case<'a> {
    words: &'a [&'a str],
    text: &'a [u8],
    status: Status,
    output: &'a str,
}

fn strings(alloc: Global, words: &[&str]) -> Result<Vec<String>, Fail> {
    let mut all = Vec::new(alloc);
    for word in words {
        all.push(String::from_str(alloc, word)?)?;
    }
    Ok(all)
}

// What a run answers, and whether it writes that. It owns the devices, so it has one way out.
fn outcome(
    alloc: Global,
    words: &[String],
    source: MemSource,
    sink: MemSink,
    output: &[u8],
) -> (Status, bool) {
    let mut source = source;
    let mut sink = sink;
    let status = counted::<_, _, Brand, Brand>(
        alloc,
        words,
        &mut source,
        &mut sink,
        Blank::new(1),
        Blank::new(1),
    );
    (status, sink.written() == output)
}

fn joined(alloc: Global, first: &str, second: &str) -> Result<Vec<u8>, Fail> {
    let mut all = Vec::from_slice(alloc, first.as_bytes())?;
    all.extend_from_slice(second.as_bytes())?;
    Ok(all)
}

fn ran(alloc: Global, case: &Case<'_>, most: usize) -> Result<(Status, bool), Fail> {
    let most = most.max(1);
    let words = strings(alloc, case.words)?;
    let bytes = Vec::from_slice(alloc, case.text)?;
    let sink = MemSink::new(alloc, 4096, most, Vec::new(alloc))?;
    let source = MemSource::new(bytes, most, Vec::new(alloc));
    Ok(outcome(alloc, &words, source, sink, case.output.as_bytes()))
}

// However the bytes come and go, the output is the same.
fn check(rt: &impl Abort, alloc: Global, case: &Case<'_>) -> Result<(), Fail> {
    for most in [1usize, 7, 1 << 20] {
        let (status, same) = ran(alloc, case, most)?;
        assert!(rt;
            status == case.status,
            "status {status:?}, wanted {:?}",
            case.output
        );
        assert!(rt; same, "wanted {:?}", case.output);
    }
    Ok(())
}

// The same of a text that begins with these volumes.
fn check_pair(
    rt: &impl Abort,
    alloc: Global,
    words: &[&str],
    rest: &str,
    answer: (Status, &str),
) -> Result<(), Fail> {
    let text = joined(alloc, PAIR, rest)?;
    let (status, output) = answer;
    let case = Case {
        words,
        text: &text,
        status,
        output,
    };
    check(rt, alloc, &case)
}

#[test]
fn each_ray_has_its_report(rt: HostRuntime) -> Result<(), Fail> {
    let alloc = rt.alloc();
    // From outside through the box; away from it; from inside, with a fraction; inside a face; along an edge;
    // askew, and two rays; with a comment, a tab and a CR; no ray.
    let rays = [
        (":RAY -20 0 0 1 0 0\n", "ray 1\n10 30 world\n"),
        (":RAY -20 0 0 -1 0 0\n", "ray 1\n"),
        (":RAY 0 0 0 3 0 0\n", "ray 1\n0 10/3 world\n"),
        (":RAY 10 -20 0 0 1 0\n", "ray 1\n"),
        (":RAY -30 -10 10 1 0 0\n", "ray 1\n"),
        (
            ":RAY -20 -11 0 2 3 1\n:RAY 0 0 -000020 0 0 7",
            "ray 1\n5 7 world\nray 2\n10/7 30/7 world\n",
        ),
        (
            "// a comment in µm\n\t:RAY -20 0 0 1 0 0 // and its end\r\n",
            "ray 1\n10 30 world\n",
        ),
        ("", ""),
    ];
    for (text, output) in rays {
        let text = joined(alloc, WORLD, text)?;
        let case = Case {
            words: &TRACE,
            text: &text,
            status: Status::Clean,
            output,
        };
        check(&rt, alloc, &case)?;
    }
    Ok(())
}

#[test]
fn a_fault_of_the_text_is_a_line(rt: HostRuntime) -> Result<(), Fail> {
    let alloc = rt.alloc();
    let texts = [
        ("", "fault 0 0 NoWorld\n"),
        (
            ":P d 10\n:VOLU world BOX $d/3 10 10 Air\n:RAY -20 0 0 1 0 0",
            "fault 2 4 OffGrid\n",
        ),
        (":VOLU world BOX 10 1", "fault 1 6 Words\n"),
        (
            ":VOLU world EXTRUDED 4 -10 -10 10 -10 10 10 -10 10 2 -5 0 0 1 5 0 0 1/3 Air",
            "fault 1 21 Scale\n",
        ),
        (
            ":VOLU w TESSELLATED 4 3 0 0 0 0 4 0 4 0 0 3 0 0 0 4 0 0 0 0 4 3 0 0 0 0 0 4 0 4 0 3 4 0 0 2 2 0 0 0 4 Air",
            "fault 1 3 OpenEdge\n",
        ),
        (
            ":ROTM r0 0 0 0\n:VOLU a BOX 1 1 1 Air\n:PLACE a 1 a r0 0 0 0",
            "fault 2 2 Cycle\n",
        ),
    ];
    for (text, output) in texts {
        let case = Case {
            words: &TRACE,
            text: text.as_bytes(),
            status: Status::TextFault,
            output,
        };
        check(&rt, alloc, &case)?;
    }
    Ok(())
}

// What a line or a text may have at most.
#[test]
fn lines_and_texts_have_their_limits(rt: HostRuntime) -> Result<(), Fail> {
    let alloc = rt.alloc();
    for (length, status, output) in [
        (65536usize, Status::Clean, "ray 1\n10 30 world\n"),
        (65537, Status::TextFault, "fault 1 0 LongLine\n"),
    ] {
        check_comment(&rt, alloc, length, status, output)?;
    }
    for (text, status, output) in [
        (
            b":P \xb5 1".as_slice(),
            Status::TextFault,
            "fault 1 4 NotAscii\n",
        ),
        (b"// \xb5\n:VOLU w BOX 1 1 1 Air", Status::Clean, ""),
    ] {
        let case = Case {
            words: &TRACE,
            text,
            status,
            output,
        };
        check(&rt, alloc, &case)?;
    }
    // a text's length is judged before its lines
    assert_eq!(rt;
        long_text(alloc, b"fault 0 0 LongText\n")?,
        (Status::TextFault, true)
    );
    Ok(())
}

// A line of a comment, so long, before a world and a ray.
fn check_comment(
    rt: &impl Abort,
    alloc: Global,
    length: usize,
    status: Status,
    output: &str,
) -> Result<(), Fail> {
    let mut text = vec![in alloc; b'/'; length]?;
    text.push(b'\n')?;
    text.extend_from_slice(WORLD.as_bytes())?;
    text.extend_from_slice(b":RAY -20 0 0 1 0 0")?;
    let case = Case {
        words: &TRACE,
        text: &text,
        status,
        output,
    };
    check(rt, alloc, &case)
}

fn long_text(alloc: Global, output: &[u8]) -> Result<(Status, bool), Fail> {
    let words = strings(alloc, &TRACE)?;
    let long = vec![in alloc; b'/'; 67108865]?;
    let sink = MemSink::new(alloc, 100, 100, Vec::new(alloc))?;
    let source = MemSource::new(long, 1 << 20, Vec::new(alloc));
    Ok(outcome(alloc, &words, source, sink, output))
}

// Solids with other faces than a box's. The half-width of the first at z is 6 + z/20; the points of the others have
// x, y and z above 0 and x + y + z below 4.
#[test]
fn a_world_is_traced_by_its_faces(rt: HostRuntime) -> Result<(), Fail> {
    let alloc = rt.alloc();
    let texts = [
        (
            ":VOLU world TRD 4 8 4 8 40 Air\n:RAY 5 0 -50 0 0 1\n:RAY -50 0 0 1 0 0\n:RAY 9 0 0 0 0 1",
            "ray 1\n30 90 world\nray 2\n44 56 world\nray 3\n",
        ),
        (
            ":VOLU t TRD 0 8 8 0 8 Air\n:RAY 1 0 -20 0 0 1",
            "ray 1\n14 28 t\n",
        ),
        (
            ":VOLU t TET 0 0 0 4 0 0 0 4 0 0 0 4 Air\n:RAY 1 1 -5 0 0 1\n:RAY 1 1 0 1 0 0\n:RAY -1 -1 -1 2 2 2",
            "ray 1\n5 7 t\nray 2\nray 3\n1/2 7/6 t\n",
        ),
        (
            ":VOLU t TET 0 0 0 0 4 0 4 0 0 0 0 4 Air\n:RAY 1 1 -5 0 0 1",
            "ray 1\n5 7 t\n",
        ),
        (
            ":VOLU t TESSELLATED 4 3 0 0 0 0 4 0 4 0 0 3 0 0 0 4 0 0 0 0 4 3 0 0 0 0 0 4 0 4 0 3 4 0 0 0 4 0 0 0 4 Air\n:RAY 1 1 -5 0 0 1",
            "ray 1\n5 7 t\n",
        ),
        (
            ":VOLU world EXTRUDED 4 -10 -10 10 -10 10 10 -10 10 2 -5 0 0 1 5 0 0 1/2 Air\n:RAY -20 0 0 1 0 0",
            "ray 1\n25/2 55/2 world\n",
        ),
        (
            ":RAY -20 0 0 1 0 0\n:volu world s Air\n:Solid s Box 10 10 10",
            "ray 1\n10 30 world\n",
        ),
    ];
    for (text, output) in texts {
        let case = Case {
            words: &TRACE,
            text: text.as_bytes(),
            status: Status::Clean,
            output,
        };
        check(&rt, alloc, &case)?;
    }
    Ok(())
}

const PAIR: &str = ":ROTM r0 0 0 0\n:VOLU world BOX 20 20 20 Air\n:VOLU b BOX 5 5 5 Lead\n";

// Two boxes that touch, along a ray and in the face between them; one that is touched at a corner; replicas; a copied slab in
// a turned module, on the default grid; and where the geometry isn't clean, the first verdict that says so.
#[test]
fn each_ray_has_its_rows(rt: HostRuntime) -> Result<(), Fail> {
    let alloc = rt.alloc();
    for (rest, answer) in [
        (
            ":PLACE b 1 world r0 -5 0 0\n:PLACE b 2 world r0 5 0 0\n:RAY -30 0 0 1 0 0\n:RAY 0 -30 0 0 1 0",
            (
                Status::Clean,
                "ray 1\n10 20 world\n20 30 world b@0:1\n30 40 world b@1:2\n40 50 world\nray 2\n10 50 world\n",
            ),
        ),
        (
            ":PLACE b 1 world r0 0 0 0\n:RAY -5 15 -5 1 -1 1",
            (Status::Clean, "ray 1\n0 25 world\n"),
        ),
        (
            ":PLACE b 1 world r0 0 0 0\n:PLACE b 2 world r0 9 0 0\n:RAY -30 0 0 1 0 0",
            (
                Status::Refuted,
                "overlap world b@0:1 b@1:2 5:-5:5:1 5:5:-5:1 5:-5:-5:1 4:-5:-5:1\n",
            ),
        ),
    ] {
        check_pair(&rt, alloc, &TRACE, rest, answer)?;
    }
    let module =
        b"// barrel module\n:P thick 2.*cm\n:MATE Lead 82 207.19 11.35\n:ROTM R00 0. 0. 0.\n:ROTM R90 0. 0. 90.*deg\n:VOLU hall BOX 2.*m 2.*m 3.*m Air\n:VOLU module BOX 50.*cm 40.*cm 1.*m Iron\n:VOLU slab BOX $thick/2 40.*cm 1.*m Lead\n:COLOUR slab 1. 0. 0.\n:PLACE module 1 hall R90 0. 0. 50.*cm\n:PLACE_PARAM slab 1 module LINEAR_X R00 5 20.*cm -40.*cm\n:RAY 0 -300.*cm 50.*cm 0 1.*cm 0".as_slice();
    let all = [
        (
            TRACE.as_slice(),
            b":VOLU world BOX 10 10 10 Air\n:VOLU cell BOX 2 10 10 Lead\n:REPL cell world X 5 4\n:RAY -20 0 0 1 0 0".as_slice(),
            Status::Clean,
            "ray 1\n10 14 world cell@0:0\n14 18 world cell@1:1\n18 22 world cell@2:2\n22 26 world cell@3:3\n26 30 world cell@4:4\n",
        ),
        (
            &["trace"],
            module,
            Status::Clean,
            "ray 1\n100 250 hall\n250 259 hall module@0:1\n259 261 hall module@0:1 slab@4:4\n261 279 hall module@0:1\n279 281 hall module@0:1 slab@3:3\n281 299 hall module@0:1\n299 301 hall module@0:1 slab@2:2\n301 319 hall module@0:1\n319 321 hall module@0:1 slab@1:1\n321 339 hall module@0:1\n339 341 hall module@0:1 slab@0:0\n341 350 hall module@0:1\n350 500 hall\n",
        ),
    ];
    for (words, text, status, output) in all {
        let case = Case {
            words,
            text,
            status,
            output,
        };
        check(&rt, alloc, &case)?;
    }
    Ok(())
}

// Two boxes that touch, and two that overlap; two tetrahedra that no plane of a face parts; a solid turned out of its mother; two
// bars of which neither has a corner in the other; a world alone.
#[test]
fn each_daughter_and_each_pair_has_its_verdict(rt: HostRuntime) -> Result<(), Fail> {
    let alloc = rt.alloc();
    let check_all = ["check", "--grid=1*mm"].as_slice();
    let brief = ["check", "--grid=1*mm", "--brief"].as_slice();
    let touching = ":PLACE b 1 world r0 -5 0 0\n:PLACE b 2 world r0 5 0 0\n:RAY -30 0 0 1 0 0";
    for (words, rest, answer) in [
        (
            check_all,
            touching,
            (
                Status::Clean,
                "in world b@0:1\nin world b@1:2\napart world b@0:1 b@1:2 1 0 0 0\nchecked 2 daughters 1 pairs 0 refuted\n",
            ),
        ),
        (
            brief,
            touching,
            (Status::Clean, "checked 2 daughters 1 pairs 0 refuted\n"),
        ),
        (
            brief,
            ":PLACE b 1 world r0 0 0 0\n:PLACE b 2 world r0 9 0 0",
            (
                Status::Refuted,
                "overlap world b@0:1 b@1:2 5:-5:5:1 5:5:-5:1 5:-5:-5:1 4:-5:-5:1\nchecked 2 daughters 1 pairs 1 refuted\n",
            ),
        ),
    ] {
        check_pair(&rt, alloc, words, rest, answer)?;
    }
    let all = [
        (
            check_all,
            b":ROTM r0 0 0 0\n:VOLU world BOX 20 20 20 Air\n:VOLU a TET -10 0 -10 10 0 10 0 -3 -13 0 3 -7 Lead\n:VOLU b TET 0 -10 -9 0 10 11 -3 0 8 3 0 14 Lead\n:PLACE a 1 world r0 0 0 0\n:PLACE b 1 world r0 0 0 0".as_slice(),
            Status::Clean,
            "in world a@0:1\nin world b@1:1\napart world a@0:1 b@1:1 -10 -9 10 0\nchecked 2 daughters 1 pairs 0 refuted\n",
        ),
        (
            check_all,
            b":ROTM rx 90 0 0\n:VOLU world BOX 20 20 20 Air\n:VOLU t TRD 5 8 5 5 10 Iron\n:PLACE t 1 world rx 0 11 0".as_slice(),
            Status::Refuted,
            "out world t@0:1 -8 21 5\nchecked 1 daughters 0 pairs 1 refuted\n",
        ),
        (
            brief,
            b":ROTM r0 0 0 0\n:VOLU world BOX 20 20 20 Air\n:VOLU a BOX 6 1 1 Lead\n:VOLU b BOX 1 6 1 Lead\n:PLACE a 1 world r0 0 0 0\n:PLACE b -1 world r0 0 0 0".as_slice(),
            Status::Refuted,
            "overlap world a@0:1 b@1:-1 -6:-6:-1:6 -6:-1:-6:6 -1:-1:-1:1 1:-1:-1:1\nchecked 2 daughters 1 pairs 1 refuted\n",
        ),
        (
            ["check"].as_slice(),
            WORLD.as_bytes(),
            Status::Clean,
            "checked 0 daughters 0 pairs 0 refuted\n",
        ),
    ];
    for (words, text, status, output) in all {
        let case = Case {
            words,
            text,
            status,
            output,
        };
        check(&rt, alloc, &case)?;
    }
    Ok(())
}

// The rotation's name and the lengths' units leave no trace; a length is in steps of the grid.
#[test]
fn a_geometry_is_listed(rt: HostRuntime) -> Result<(), Fail> {
    let alloc = rt.alloc();
    let all = [
        (
            ["list", "--grid=1*mm"].as_slice(),
            b":ROTM r0 0 0 0\n:VOLU world BOX 2*cm 20 20 Air\n:VOLU b BOX 5 5 5 Lead // half\n:PLACE b 1 world r0 -5 0 0\n:PLACE b 2 world r0 5 0 0\n:RAY -30 0 0 1 0 0".as_slice(),
            Status::Clean,
            ":ROTM R0 1 0 0 0 1 0 0 0 1\n:VOLU world BOX 20 20 20 Air\n:VOLU b BOX 5 5 5 Lead\n:PLACE b 1 world R0 -5 0 0\n:PLACE b 2 world R0 5 0 0\n:RAY -30 0 0 1 0 0\n",
        ),
        (
            &["list", "--grid=1/3*mm"],
            b":P d 10\n:VOLU world BOX $d/3 10 10 Air",
            Status::Clean,
            ":VOLU world BOX 10 30 30 Air\n",
        ),
        (
            &["list"],
            b":VOLU a BOX 1 1 1 Air\n:VOLU a BOX 1 1 1 Air",
            Status::TextFault,
            "fault 2 2 Twice\n",
        ),
        (
            &["list"],
            b":PLACE a 1 b r 0 0 0\n:ROTM r 0 0 45",
            Status::TextFault,
            "fault 2 5 NotAxis\n",
        ),
    ];
    for (words, text, status, output) in all {
        let case = Case {
            words,
            text,
            status,
            output,
        };
        check(&rt, alloc, &case)?;
    }
    for (depth, words, answer) in [
        (
            32,
            ["check", "--brief"].as_slice(),
            (Status::Clean, "checked 32 daughters 0 pairs 0 refuted\n"),
        ),
        (33, &["list"], (Status::TextFault, "fault 34 2 TooDeep\n")),
    ] {
        check_chain(&rt, alloc, depth, words, answer)?;
    }
    Ok(())
}

fn check_chain(
    rt: &impl Abort,
    alloc: Global,
    depth: u32,
    words: &[&str],
    answer: (Status, &str),
) -> Result<(), Fail> {
    let text = deep_chain(alloc, depth)?;
    let (status, output) = answer;
    let case = Case {
        words,
        text: &text,
        status,
        output,
    };
    check(rt, alloc, &case)
}

// Boxes in one another, each as large as her mother, so many below the first.
fn deep_chain(alloc: Global, depth: u32) -> Result<Vec<u8>, Fail> {
    let mut text = Vec::new(alloc);
    for v in 0..=depth {
        text.extend_from_slice(format!(in alloc; ":VOLU v{v} BOX 1 1 1 Air\n")?.as_bytes())?;
    }
    text.extend_from_slice(b":ROTM r0 0 0 0\n")?;
    for v in 0..depth {
        text.extend_from_slice(format!(in alloc;
            ":PLACE v{} 1 v{v} r0 0 0 0\n",
            v + 1
        )?.as_bytes())?;
    }
    Ok(text)
}

// Expressions, parameters and grids, by hand: 2 cm and 10 mm are 20 and 10 steps of 1 mm, and so on.
#[test]
fn lengths_are_steps_of_the_grid(rt: HostRuntime) -> Result<(), Fail> {
    let alloc = rt.alloc();
    let all = [
        (
            TRACE.as_slice(),
            ":P a 1\n:P a 2/2\n:VOLU world BOX 10*$a 1.*cm (3+7)*mm Air\n:RAY -2*cm 0 0 1 0 0",
            "ray 1\n10 30 world\n",
        ),
        (TRACE.as_slice(), ":VOLU world BOX 262145 1 1 Air", ""),
        (
            TRACE.as_slice(),
            ":VOLU world BOX 16777216 1 1 Air\n:RAY -16777216 0 0 16777216 0 0",
            "ray 1\n0 2 world\n",
        ),
        (
            &["trace"],
            ":VOLU world BOX 10 10 10 Air // \u{b5}\n:RAY -20 0 0 .1 0 0",
            "ray 1\n100 300 world\n",
        ),
        (
            &["trace", "--grid=1/3*mm"],
            ":P d 10\n:VOLU world BOX $d/3 10 10 Air\n:RAY -20 0 0 1 0 0",
            "ray 1\n50/3 70/3 world\n",
        ),
    ];
    for (words, text, output) in all {
        let case = Case {
            words,
            text: text.as_bytes(),
            status: Status::Clean,
            output,
        };
        check(&rt, alloc, &case)?;
    }
    Ok(())
}

#[test]
fn other_words_give_the_usage_line(rt: HostRuntime) -> Result<(), Fail> {
    let alloc = rt.alloc();
    let usage = "usage: g4exact (trace | check [--brief] | list) [--grid=EXPR] | sample N\n";
    let none: [&str; 0] = [];
    let all = [
        none.as_slice(),
        &["trace", "--grid=0"],
        &["trace", "--grid="],
        &["trace", "--grid=$a"],
        &["trace", "--grid=-1"],
        &["trace", "--grid=90*deg"],
        &["trace", "--grd=1*mm"],
        &["--grid=1*mm", "trace"],
        &["trace", "--grid=1*mm", "--grid=1*mm"],
        &["check", "--brief", "--brief"],
        &["trace", "--brief"],
        &["list", "--brief"],
        &["check", "--grid=1*mm", "--brief", "--grid=1*mm"],
        &["sample", "65"],
        &["sample", "0"],
        &["sample", "01"],
        &["sample"],
        &["sample", "1", "1"],
        &["--help"],
    ];
    for words in all {
        let case = Case {
            words,
            text: WORLD.as_bytes(),
            status: Status::WordsFault,
            output: usage,
        };
        check(&rt, alloc, &case)?;
    }
    Ok(())
}

#[test]
fn a_sample_is_counted(rt: HostRuntime) -> Result<(), Fail> {
    let alloc = rt.alloc();
    let samples = [
        ("1", "sample 1 instances 2 rays 3 rows 15\n"),
        ("2", "sample 2 instances 5 rays 3 rows 10\n"),
        ("32", "sample 32 instances 1025 rays 3 rows 100\n"),
    ];
    for (number, output) in samples {
        let case = Case {
            words: &["sample", number],
            text: b"not read",
            status: Status::Clean,
            output,
        };
        check(&rt, alloc, &case)?;
    }
    Ok(())
}

// The second read fails, or the second write.
#[test]
fn a_device_that_fails_leaves_a_front(rt: HostRuntime) -> Result<(), Fail> {
    let alloc = rt.alloc();
    let all: [(&[u32], &[u32], &[u8], Status); 2] = [
        (&[2], &[], b"", Status::ReadFault),
        (&[], &[2], b"ray ", Status::WriteFault),
    ];
    for (reads, writes, output, status) in all {
        assert_eq!(rt; failing(alloc, reads, writes, output)?, (status, true));
    }
    Ok(())
}

fn failing(
    alloc: Global,
    reads: &[u32],
    writes: &[u32],
    output: &[u8],
) -> Result<(Status, bool), Fail> {
    let words = strings(alloc, &TRACE)?;
    let text = joined(alloc, WORLD, ":RAY -20 0 0 1 0 0\n")?;
    let reads = Vec::from_slice(alloc, reads)?;
    let writes = Vec::from_slice(alloc, writes)?;
    let sink = MemSink::new(alloc, 100, 4, writes)?;
    let source = MemSource::new(text, 10, reads);
    Ok(outcome(alloc, &words, source, sink, output))
}

#[test]
fn a_status_has_its_number(rt: HostRuntime) {
    assert_eq!(rt; exit_code(Status::Clean), 0);
    assert_eq!(rt; exit_code(Status::Refuted), 1);
    assert_eq!(rt; exit_code(Status::NoMemory), 6);
}

#[test]
fn numbers_and_fractions(rt: HostRuntime) {
    let v = V3 { x: 1, y: 2, z: 3 };
    let w = V3 { x: 4, y: 5, z: 6 };
    assert_eq!(rt; v.add(w), V3 { x: 5, y: 7, z: 9 });
    assert_eq!(rt;
        v.sub(w),
        V3 {
            x: -3,
            y: -3,
            z: -3
        }
    );
    assert_eq!(rt;
        v.neg(),
        V3 {
            x: -1,
            y: -2,
            z: -3
        }
    );
    assert_eq!(rt; v.dot(w), 32);
    assert_eq!(rt; v.cross(w), V3 { x: -3, y: 6, z: -3 });
    assert_eq!(rt; gcd(12, 18), 6);
    assert_eq!(rt; gcd(0, 0), 0);
    assert_eq!(rt; sign(-7), -1);
    assert_eq!(rt; cmp_products(0, 5, 3, 0), Ordering::Equal);
    let half = Frac::new(2, 4);
    let third = Frac::new(-3, 9);
    assert_eq!(rt; half.num(), 1);
    assert_eq!(rt; half.den(), 2);
    assert_eq!(rt; third.cmp(&half), Ordering::Less);
    assert_eq!(rt; half.max(third), half);
    assert_eq!(rt; half.min(third), third);
    // (2^80 + 1)/2^75 is greater than (2^80 + 33)/(2^75 + 1)
    let near = Frac::new((1 << 80) + 1, 1 << 75);
    let nearer = Frac::new((1 << 80) + 33, (1 << 75) + 1);
    assert_eq!(rt; near.cmp(&nearer), Ordering::Greater);
}

#[test]
fn lines_and_names(rt: HostRuntime) -> Result<(), Fail> {
    let alloc = rt.alloc();
    // the byte after a CR decides that it isn't allowed
    let mut lines = Lines::new(alloc);
    assert!(rt; lines.push(b'a')?.is_none());
    assert!(rt; lines.push(b'\r')?.is_none());
    let fault = LineError::Fault(LineFault::NotAscii { line: 1, column: 2 });
    assert!(rt; matches!(&lines.push(b'b'), Err(first) if *first == fault));
    assert!(rt; matches!(&lines.finish(), Err(again) if *again == fault));
    let name = Name::new(alloc, b"world")?;
    assert!(rt; is_name(name.bytes()));
    assert!(rt; !is_name(b":world"));
    assert_eq!(rt; name.into_bytes().len(), 5);
    Ok(())
}

#[test]
fn the_message_of_a_read_error_is_its_name(rt: HostRuntime) -> Result<(), Fail> {
    let fault = TextFault {
        line: 1,
        word: 2,
        name: FaultName::Twice,
    };
    let text = format!(in rt.alloc(); "{}", ReadError::Text(fault))?;
    assert_eq!(rt; text.as_str(), "Text");
    let memory = format!(in rt.alloc(); "{}", ReadError::NoMemory)?;
    assert_eq!(rt; memory.as_str(), "NoMemory");
    Ok(())
}
