ghost use Rattle.std.specs.Prelude.{[], true, None};

use crate::{CheckError, Selection, Verdict, Verdicts, check_tree, first_refuted};
use gx_io::Failed;
use gx_num::V3;
use gx_rotation::from_angles3;
use gx_shapes::SolidKind;
use gx_solids::solid;
use gx_tree::{Hierarchy, Placement, Volume, are_within_limits};
use std::alloc::{AllocError, Global};
use std::test::Fail;

// Takes so many verdicts, as words.
#[derive(Drop)]
struct Words {
    alloc: Global,
    text: String,
    room: u32,
    faults: u64,
}

impl Words {
    fn new(alloc: Global, room: u32) -> Words {
        Words {
            alloc,
            text: String::new(alloc),
            room,
            faults: 0,
        }
    }
}

impl Verdicts for Words {
    type Item = u8;

    ghost held = { λ _. None };

    ghost items = { λ _ _. [] };

    ghost takes = { λ _ _. true };

    ghost faults = { λ w. w.faults };

    fn verdict(&mut self, verdict: &Verdict) -> Result<(), Failed> {
        if self.room > 0 {
            self.room -= 1;
            if write(self.alloc, &mut self.text, verdict).is_ok() {
                return Ok(());
            }
        }
        self.faults = self.faults.saturating_add(1);
        Err(Failed)
    }
}

fn write(alloc: Global, text: &mut String, verdict: &Verdict) -> Result<(), AllocError> {
    match verdict {
        Verdict::Inner { mother, ordinal } => {
            text.push_str(&format!(in alloc; "in {mother} {ordinal}; ")?)
        }
        Verdict::Outer {
            mother,
            ordinal,
            point,
        } => text.push_str(&format!(in alloc;
            "out {mother} {ordinal} {} {} {}; ",
            point.x, point.y, point.z
        )?),
        Verdict::Apart {
            mother,
            first,
            second,
            plane,
        } => {
            let n = plane.n();
            text.push_str(&format!(in alloc;
                "apart {mother} {first} {second} {} {} {} {}; ",
                n.x,
                n.y,
                n.z,
                plane.e()
            )?)
        }
        Verdict::Overlap {
            mother,
            first,
            second,
            points,
        } => {
            text.push_str(&format!(in alloc; "overlap {mother} {first} {second}")?)?;
            for i in 0..points.count() {
                let p = points.at(i);
                text.push_str(&format!(in alloc; " {}:{}:{}:{}", p.x(), p.y(), p.z(), p.w())?)?;
            }
            text.push_str("; ")
        }
    }
}

// A volume that is placed, how often it is turned by a quarter about x, and where.
type Place = (u32, u8, i64, i64, i64);

// A kind with its values, and what is placed in it.
type Body<'a> = (SolidKind, &'a [i64], &'a [Place]);

fn placement(place: Place) -> Result<Placement, Fail> {
    let (volume, turns, x, y, z) = place;
    Ok(Placement::Single {
        volume,
        copy: 0,
        rotation: from_angles3([Some(turns), Some(0), Some(0)])
            .ok()
            .ok_or("a rotation")?,
        offset: V3 { x, y, z },
    })
}

fn volume(alloc: Global, body: &Body<'_>) -> Result<Volume, Fail> {
    let &(kind, values, places) = body;
    if values.len() > 20 {
        return Err("too many values".into());
    }
    let mut placements = Vec::new(alloc);
    for &place in places {
        placements.push(placement(place)?)?;
    }
    Ok(Volume::new(
        Vec::from_slice(alloc, b"v")?,
        solid(alloc, kind, values).ok().ok_or("a solid")?,
        Vec::from_slice(alloc, b"Air")?,
        placements,
    ))
}

fn hierarchy(alloc: Global, bodies: &[Body<'_>]) -> Result<Hierarchy, Fail> {
    let mut volumes = Vec::new(alloc);
    for body in bodies {
        volumes.push(volume(alloc, body)?)?;
    }
    if !are_within_limits(&volumes) {
        return Err("too much".into());
    }
    Ok(Hierarchy::new(alloc, volumes).ok().ok_or("a hierarchy")?)
}

// The selected verdicts, and the three counts.
fn judged(alloc: Global, tree: &Hierarchy, selection: Selection) -> Result<String, Fail> {
    let mut out = Words::new(alloc, 9);
    let counts = check_tree(alloc, tree, selection, &mut out)
        .ok()
        .ok_or("counts")?;
    let mut text = out.text;
    text.push_str(&format!(in alloc; "{} {} {}", counts.daughters, counts.pairs, counts.refuted)?)?;
    Ok(text)
}

fn first(alloc: Global, tree: &Hierarchy) -> Result<String, Fail> {
    let mut text = String::new(alloc);
    if let Some(verdict) = &first_refuted(alloc, tree).ok().ok_or("memory")? {
        write(alloc, &mut text, verdict)?;
    }
    Ok(text)
}

const BOX: SolidKind = SolidKind::Cuboid;

// By hand. Two boxes that touch, and two that overlap. Two tetrahedra that no face parts. A trapezoid on its side, whose far end
// is beyond the world. Two bars across each other. Two halls with three boxes each, of which each overlaps the next and the last
// is beyond the hall.
#[test]
fn each_daughter_and_each_pair_is_judged(rt: HostRuntime) -> Result<(), Fail> {
    let alloc = rt.alloc();
    let cases: [(&[Body<'_>], &str, &str, &str); 6] = [
        (
            &[
                (BOX, &[20, 20, 20], &[(1, 0, -5, 0, 0), (1, 0, 5, 0, 0)]),
                (BOX, &[5, 5, 5], &[]),
            ],
            "in 0 0; in 0 1; apart 0 0 1 1 0 0 0; 2 1 0",
            "2 1 0",
            "",
        ),
        (
            &[
                (BOX, &[20, 20, 20], &[(1, 0, 0, 0, 0), (1, 0, 9, 0, 0)]),
                (BOX, &[5, 5, 5], &[]),
            ],
            "in 0 0; in 0 1; overlap 0 0 1 5:-5:5:1 5:5:-5:1 5:-5:-5:1 4:-5:-5:1; 2 1 1",
            "overlap 0 0 1 5:-5:5:1 5:5:-5:1 5:-5:-5:1 4:-5:-5:1; 2 1 1",
            "overlap 0 0 1 5:-5:5:1 5:5:-5:1 5:-5:-5:1 4:-5:-5:1; ",
        ),
        (
            &[
                (BOX, &[20, 20, 20], &[(1, 0, 0, 0, 0), (2, 0, 0, 0, 0)]),
                (
                    SolidKind::Tet,
                    &[-10, 0, -10, 10, 0, 10, 0, -3, -13, 0, 3, -7],
                    &[],
                ),
                (
                    SolidKind::Tet,
                    &[0, -10, -9, 0, 10, 11, -3, 0, 8, 3, 0, 14],
                    &[],
                ),
            ],
            "in 0 0; in 0 1; apart 0 0 1 -10 -9 10 0; 2 1 0",
            "2 1 0",
            "",
        ),
        (
            &[
                (BOX, &[20, 20, 20], &[(1, 1, 0, 11, 0)]),
                (SolidKind::Trd, &[5, 8, 5, 5, 10], &[]),
            ],
            "out 0 0 -8 21 5; 1 0 1",
            "out 0 0 -8 21 5; 1 0 1",
            "out 0 0 -8 21 5; ",
        ),
        (
            &[
                (BOX, &[20, 20, 20], &[(1, 0, 0, 0, 0), (2, 0, 0, 0, 0)]),
                (BOX, &[6, 1, 1], &[]),
                (BOX, &[1, 6, 1], &[]),
            ],
            "in 0 0; in 0 1; overlap 0 0 1 -6:-6:-1:6 -6:-1:-6:6 -1:-1:-1:1 1:-1:-1:1; 2 1 1",
            "overlap 0 0 1 -6:-6:-1:6 -6:-1:-6:6 -1:-1:-1:1 1:-1:-1:1; 2 1 1",
            "overlap 0 0 1 -6:-6:-1:6 -6:-1:-6:6 -1:-1:-1:1 1:-1:-1:1; ",
        ),
        (
            &[
                (BOX, &[40, 40, 40], &[(1, 0, -20, 0, 0), (1, 0, 20, 0, 0)]),
                (
                    BOX,
                    &[20, 20, 20],
                    &[(2, 0, 0, 0, 0), (2, 0, 9, 0, 0), (2, 0, 18, 0, 0)],
                ),
                (BOX, &[5, 5, 5], &[]),
            ],
            "in 0 0; in 0 1; apart 0 0 1 1 0 0 0; in 1 0; in 1 1; out 1 2 23 -5 -5; overlap 1 0 1 5:-5:5:1 5:5:-5:1 5:-5:-5:1 4:-5:-5:1; apart 1 0 2 1 0 0 5; overlap 1 1 2 14:-5:5:1 14:5:-5:1 14:-5:-5:1 13:-5:-5:1; 5 4 3",
            "out 1 2 23 -5 -5; overlap 1 0 1 5:-5:5:1 5:5:-5:1 5:-5:-5:1 4:-5:-5:1; overlap 1 1 2 14:-5:5:1 14:5:-5:1 14:-5:-5:1 13:-5:-5:1; 5 4 3",
            "out 1 2 23 -5 -5; ",
        ),
    ];
    for (bodies, all, refuting, refuted) in cases {
        let tree = hierarchy(alloc, bodies)?;
        assert_eq!(rt; judged(alloc, &tree, Selection::All)?.as_str(), all);
        assert_eq!(rt;
            judged(alloc, &tree, Selection::Refuting)?.as_str(),
            refuting
        );
        assert_eq!(rt; first(alloc, &tree)?.as_str(), refuted);
    }
    Ok(())
}

#[test]
fn a_receiver_that_fails_ends_the_check(rt: HostRuntime) -> Result<(), Fail> {
    let alloc = rt.alloc();
    let bodies: &[Body<'_>] = &[
        (BOX, &[20, 20, 20], &[(1, 0, -5, 0, 0), (1, 0, 5, 0, 0)]),
        (BOX, &[5, 5, 5], &[]),
    ];
    let tree = hierarchy(alloc, bodies)?;
    let mut out = Words::new(alloc, 1);
    assert_eq!(rt;
        check_tree(alloc, &tree, Selection::All, &mut out),
        Err(CheckError::Out)
    );
    assert_eq!(rt; out.text.as_str(), "in 0 0; ");
    assert_eq!(rt; out.faults, 1);
    Ok(())
}

#[test]
fn errors_have_their_names(rt: HostRuntime) -> Result<(), Fail> {
    let alloc = rt.alloc();
    let text = format!(in alloc; "{} {}", CheckError::Out, CheckError::NoMemory)?;
    assert_eq!(rt; text.as_str(), "Out NoMemory");
    Ok(())
}
